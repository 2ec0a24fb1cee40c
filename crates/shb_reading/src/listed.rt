//! Blocks and places of a report, over its text.
ghost use Rattle.std.specs.Prelude.{◌≡◌, ◌+◌, ◌≤◌, ◌↔◌, ℕ, List, IsTrue, drop, length, take};
ghost use Rattle.std.specs.List.{AllByRecursion};
ghost use Rattle.shb_reading.specs.Parts.{IsPlaceIn, IsRaceIn, IsSpanIn, block_at, block_from, block_in, block_with, bytes_at, section_at};

use crate::parts::{PlaceEntry, RaceEntry, Span};
use std::marker::Model;

/// The block of a race but for its schedule: the numbers of its two events, and their lines.
#[derive(Clone, Copy)]
pub struct BlockLines<'r> {
    /// The number of its first event, as it is written.
    pub first: u64,
    /// The number of its second event, as it is written.
    pub second: u64,
    /// The line that the report gives for its first event.
    pub first_line: &'r [u8],
    /// The line that the report gives for its second event.
    pub second_line: &'r [u8],
}

/// The block of a race, with the numbers of its schedule.
#[derive(Clone, Copy)]
pub struct Listed<'r> {
    /// The block but for its schedule.
    pub lines: BlockLines<'r>,
    /// The numbers of its schedule, as they are written.
    pub schedule: &'r [u64],
}

/// The places of a report, over its text. Contracts see it as these places.
#[derive(Drop)]
pub struct Section<'r> {
    /// The text of the report.
    pub text: &'r [u8],
    /// Where each place stands in the text.
    pub entries: &'r [PlaceEntry],
}

impl<'r> Model for Section<'r> {
    ghost use Rattle.std.specs.Prelude.{List};
    ghost use Rattle.std.specs.List.{AllByRecursion};
    ghost use Rattle.shb_reading.specs.Parts.{IsPlaceIn, places_at};
    ghost use Rattle.shb_format.specs.Value.{Place};

    ghost Value = { List Place };

    ghost view = { λ s. places_at s.text.now s.entries.now };

    ghost invariant = { λ s. AllByRecursion (IsPlaceIn s.text.now) s.entries.now };
}

/// The bytes of a text in a span, which must lie within the text.
pub fn bytes_in(text: &[u8], span: Span) -> &[u8]
    requires { span.start + span.len ≤ length text.now }
    ensures { result.now ≡ bytes_at text.now span }
{
    let (_, rest) = text.split_at(span.start as usize);
    &rest[..span.len as usize]
}

/// Some of the numbers.
pub(crate) fn numbers_in(numbers: &[u64], start: usize, len: usize) -> &[u64]
    requires { start + len ≤ length numbers.now }
    ensures { result.now ≡ take len (drop start numbers.now) }
{
    let (_, rest) = numbers.split_at(start);
    &rest[..len]
}

/// The block of an entry, but for its schedule. Its lines must lie within the text.
pub fn lines_at(text: &[u8], entry: RaceEntry) -> BlockLines<'_>
    requires first { IsSpanIn text.now entry.first_line }
    requires second { IsSpanIn text.now entry.second_line }
    ensures { (schedule : List ℕ) → block_with result schedule ≡ block_from text.now entry schedule }
{
    BlockLines {
        first: entry.first,
        second: entry.second,
        first_line: bytes_in(text, entry.first_line),
        second_line: bytes_in(text, entry.second_line),
    }
}

/// The block of an entry.
pub(crate) fn listed_at<'r>(text: &'r [u8], numbers: &'r [u64], entry: RaceEntry) -> Listed<'r>
    requires { IsRaceIn text.now numbers.now entry }
    ensures { block_in result ≡ block_at text.now numbers.now entry }
{
    Listed {
        lines: lines_at(text, entry),
        schedule: numbers_in(numbers, entry.schedule_start, entry.schedule_len),
    }
}

/// The places of these entries, in a report that has places: none where it has not. The entries must lie
/// within the text.
pub fn section_of<'r>(
    text: &'r [u8],
    with_places: bool,
    entries: &'r [PlaceEntry],
) -> Option<Section<'r>>
    requires { AllByRecursion (IsPlaceIn text.now) entries.now }
    ensures { result ≡ section_at text.now with_places entries.now }
{
    if with_places {
        Some(Section { text, entries })
    } else {
        None
    }
}
