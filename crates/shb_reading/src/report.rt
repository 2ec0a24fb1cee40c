//! A report that was read.
ghost use Rattle.std.specs.Prelude.{◌≡◌, ◌+◌, ◌<◌, ◌≤◌, ◌^◌, ◌-◌, ℕ, List, [], Some, length, take, drop, option_map, slice_get, unwrap_or, if◌then◌else◌, IfOk};
ghost use Rattle.std.specs.Option.{is_some};
ghost use Rattle.shb_io.specs.Devices.{CountsFailure};
ghost use Rattle.shb_lines.specs.text.Limits.{most_bytes, most_read};
ghost use Rattle.shb_lines.specs.text.Taking.{ReadsText, TakesAtMost};
ghost use Rattle.shb_reading.specs.Lines.{IfBad, IfStop};
ghost use Rattle.shb_reading.specs.Parts.{ArePartsIn, block_in, bytes_at, report_at};
ghost use Rattle.shb_reading.specs.Reading.{IfBadLine, IsBadLine, IsReportText, report_read_failed};

use crate::entries::scan;
use crate::listed::{Listed, Section, bytes_in, listed_at, numbers_in, section_of};
use crate::parts::Parts;
use crate::position::ReadStop;
use shb_format::Counts;
use shb_io::{NoMemory, Source};
use shb_lines::{MOST_BYTES, ReadError, read_whole};
use std::alloc::Global;
use std::marker::Model;

/// Why no report was read.
#[derive(Clone, Copy, Debug, PartialEq, Eq)]
pub enum ReportError {
    /// The line of this number, counted from 1, is the first that no report has there.
    BadLine(u64),
    /// The source failed.
    Source,
    /// There was no memory.
    Memory(NoMemory),
}

/// A report as it was read, over its text. Races and places have numbers from 0.
#[derive(Drop)]
pub struct Report {
    text: Vec<u8>,
    parts: Parts,
}

impl Model for Report {
    ghost use Rattle.shb_reading.specs.Parts.{ArePartsIn, report_at};
    ghost use Rattle.shb_format.specs.Value.{ReportValue};

    ghost Value = { ReportValue };

    ghost view = { λ r. report_at r.text.items r.parts };

    ghost invariant = { λ r. ArePartsIn r.text.items r.parts };
}

impl Report {
    /// The report whose parts stand in a text.
    fn new(text: Vec<u8>, parts: Parts) -> Report
        requires { ArePartsIn text.items parts }
        ensures { result ≡ report_at text.items parts }
    {
        Report { text, parts }
    }

    /// The version: 1, or 2 where the report has places.
    pub fn version(&self) -> u32
        ensures { result ≡ (if is_some self.now.places then 2 else 1) }
    {
        if self.parts.with_places { 2 } else { 1 }
    }

    /// The counts of the trace.
    pub fn counts(&self) -> Counts
        ensures { result ≡ self.now.counts }
    {
        self.parts.counts
    }

    /// How many races there are.
    pub fn len(&self) -> u64
        ensures { result ≡ length self.now.blocks }
    {
        self.parts.races.len() as u64
    }

    /// The number of the first event of a race, as it is written: it counts from 1.
    pub fn first(&self, k: u64) -> u64
        requires { k < length self.now.blocks }
        ensures { option_map (λ block. block.first) (slice_get self.now.blocks k) ≡ Some result }
    {
        self.parts.races[k as usize].first
    }

    /// The number of the second event of a race, as it is written: it counts from 1.
    pub fn second(&self, k: u64) -> u64
        requires { k < length self.now.blocks }
        ensures { option_map (λ block. block.second) (slice_get self.now.blocks k) ≡ Some result }
    {
        self.parts.races[k as usize].second
    }

    /// The line that the report gives for the first event of a race.
    pub fn first_line(&self, k: u64) -> &[u8]
        requires { k < length self.now.blocks }
        ensures { option_map (λ block. block.first_line) (slice_get self.now.blocks k) ≡ Some result.now }
    {
        bytes_in(
            self.text.as_slice(),
            self.parts.races[k as usize].first_line,
        )
    }

    /// The line that the report gives for the second event of a race.
    pub fn second_line(&self, k: u64) -> &[u8]
        requires { k < length self.now.blocks }
        ensures { option_map (λ block. block.second_line) (slice_get self.now.blocks k) ≡ Some result.now }
    {
        bytes_in(
            self.text.as_slice(),
            self.parts.races[k as usize].second_line,
        )
    }

    /// The event numbers of the schedule of a race, as they are written: they count from 1.
    pub fn schedule(&self, k: u64) -> &[u64]
        requires { k < length self.now.blocks }
        ensures { option_map (λ block. block.schedule) (slice_get self.now.blocks k) ≡ Some result.now }
    {
        let entry = self.parts.races[k as usize];
        numbers_in(
            self.parts.numbers.as_slice(),
            entry.schedule_start,
            entry.schedule_len,
        )
    }

    /// The block of a race, with the numbers of its schedule.
    pub fn listed(&self, k: u64) -> Listed<'_>
        requires { k < length self.now.blocks }
        ensures { slice_get self.now.blocks k ≡ Some (block_in result) }
    {
        listed_at(
            self.text.as_slice(),
            self.parts.numbers.as_slice(),
            self.parts.races[k as usize],
        )
    }

    /// How many places there are: none in version 1.
    pub fn places(&self) -> u64
        ensures { result ≡ length (unwrap_or self.now.places []) }
    {
        if self.parts.with_places {
            self.parts.places.len() as u64
        } else {
            0
        }
    }

    /// The places, in version 2: none in version 1.
    pub fn section(&self) -> Option<Section<'_>>
        ensures { result ≡ self.now.places }
    {
        section_of(
            self.text.as_slice(),
            self.parts.with_places,
            self.parts.places.as_slice(),
        )
    }

    /// How many races a place has, as it is written.
    pub fn place_count(&self, q: u64) -> u64
        requires { q < length (unwrap_or self.now.places []) }
        ensures { option_map (λ place. place.count) (slice_get (unwrap_or self.now.places []) q) ≡ Some result }
    {
        self.parts.places[q as usize].count
    }

    /// The first location of a place.
    pub fn place_first(&self, q: u64) -> &[u8]
        requires { q < length (unwrap_or self.now.places []) }
        ensures { option_map (λ place. place.first) (slice_get (unwrap_or self.now.places []) q) ≡ Some result.now }
    {
        bytes_in(self.text.as_slice(), self.parts.places[q as usize].first)
    }

    /// The second location of a place.
    pub fn place_second(&self, q: u64) -> &[u8]
        requires { q < length (unwrap_or self.now.places []) }
        ensures { option_map (λ place. place.second) (slice_get (unwrap_or self.now.places []) q) ≡ Some result.now }
    {
        bytes_in(self.text.as_slice(), self.parts.places[q as usize].second)
    }
}

/// Why a text that is longer than the limit is no report.
fn stop_of_long(alloc: Global, text: &[u8], limit: u64) -> ReadStop
    requires standard { limit ≤ most_bytes }
    requires long { limit < length text.now }
    ensures { IfStop result (IsBadLine limit text.now) }
{
    let (seen, _) = text.split_at(limit as usize);
    match scan(alloc, seen) {
        Ok(scanned) => ReadStop::BadLine(scanned.1 + 1),
        Err(stop) => stop,
    }
}

/// Reads the report of a text.
fn report_of(alloc: Global, text: Vec<u8>, limit: u64) -> Result<Report, ReadStop>
    requires standard { limit ≤ most_bytes }
    ensures report { IfOk result (λ report. IsReportText limit text.items report) }
    ensures bad { IfBad result (IsBadLine limit text.items) }
{
    if text.len() as u64 > limit {
        return Err(stop_of_long(alloc, text.as_slice(), limit));
    }
    let scanned = scan(alloc, text.as_slice())?;
    Ok(Report::new(text, scanned.0))
}

/// Reads a report of at most so many bytes, of version 1 or version 2, with schedules.
///
/// The source is read to its end, or to the limit and one byte more, before any line is looked at.
///
/// The text is kept, and arrays over it: about twice its size for a report as a writer makes it. The
/// numbers of a schedule take 8 bytes each, so a report made of numbers of one digit, 2 bytes each in
/// the text, takes five times its size. No memory is asked for by a number that a report only claims.
///
/// # Errors
///
/// `BadLine(n)` where the text is no report that is within the limit: its first n lines are the first n
/// lines of no report, and n is the least such number. A line that is missing, the last bytes of a text
/// that have no line feed, bytes after the last line, and the line to which the byte after the limit
/// belongs are bad lines. `Source` where the source failed in this call, and only there. `Memory` where a
/// growth was refused. What was read of the source stays read: where a report or a bad line is answered,
/// all of it, or the limit and one byte.
pub fn read_report_within<S: Source>(
    alloc: Global,
    source: &mut S,
    limit: u64,
) -> Result<Report, ReportError>
    requires standard { limit ≤ most_bytes }
    requires countable { S.failure_count source.old < 2 ^ 64 - 1 }
    // The text that was read, all bytes of a source that tells them, is that of the report, or this is its
    // bad line. Its first bytes are gone then, up to one more than the limit.
    ensures report { IfOk result (λ report. ReadsText (limit + 1) (S.remaining source.old) (S.remaining source.new)
        (S.given_count source.old) (S.given_count source.new) (λ text. IsReportText limit text report)) }
    ensures bad { IfBadLine result (λ n. ReadsText (limit + 1) (S.remaining source.old) (S.remaining source.new)
        (S.given_count source.old) (S.given_count source.new) (λ text. IsBadLine limit text n)) }
    // No more than those are gone, whatever is answered.
    ensures taken { TakesAtMost (limit + 1) (S.remaining source.old) (S.remaining source.new) }
    ensures given { S.given_count source.new ≤ S.given_count source.old + (limit + 1) }
    ensures counted { CountsFailure report_read_failed (S.failure_count source.old) (S.failure_count source.new) result }
{
    let text = match read_whole(alloc, source, limit) {
        Ok(text) => text,
        Err(ReadError::Source) => return Err(ReportError::Source),
        Err(ReadError::Memory(refused)) => return Err(ReportError::Memory(refused)),
    };
    match report_of(alloc, text, limit) {
        Ok(report) => Ok(report),
        Err(ReadStop::BadLine(n)) => Err(ReportError::BadLine(n)),
        Err(ReadStop::Memory(refused)) => Err(ReportError::Memory(refused)),
    }
}

/// Reads a report of at most 1,073,741,824 bytes, as [`read_report_within`] does, with its errors and
/// its memory.
pub fn read_report<S: Source>(alloc: Global, source: &mut S) -> Result<Report, ReportError>
    requires { S.failure_count source.old < 2 ^ 64 - 1 }
    ensures report { IfOk result (λ report. ReadsText most_read (S.remaining source.old) (S.remaining source.new)
        (S.given_count source.old) (S.given_count source.new) (λ text. IsReportText most_bytes text report)) }
    ensures bad { IfBadLine result (λ n. ReadsText most_read (S.remaining source.old) (S.remaining source.new)
        (S.given_count source.old) (S.given_count source.new) (λ text. IsBadLine most_bytes text n)) }
    ensures taken { TakesAtMost most_read (S.remaining source.old) (S.remaining source.new) }
    ensures given { S.given_count source.new ≤ S.given_count source.old + most_read }
    ensures counted { CountsFailure report_read_failed (S.failure_count source.old) (S.failure_count source.new) result }
{
    read_report_within(alloc, source, MOST_BYTES)
}
