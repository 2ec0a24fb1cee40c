//! Reads the lines of a text in memory, one after the other, and keeps their events.
ghost use Rattle.std.specs.Prelude.{◌≡◌, ◌+◌, ◌^◌, ◌<◌, ◌≤◌, ◌==◌, ◌↔◌, ℕ, List, [], length, drop, IsTrue, IfOk, OnOk};
ghost use Rattle.std.specs.List.{position_or_len};
ghost use Rattle.shb_lines.specs.text.Faults.{HasLineFault, number_of};
ghost use Rattle.shb_lines.specs.text.Limits.{AreStandard};
ghost use Rattle.shb_lines.specs.text.Numbering.{IsWithin};
ghost use Rattle.shb_lines.specs.text.Numbers.{events_of};
ghost use Rattle.shb_lines.specs.text.Parsed.{HasRead, lines_read, parts_in};
ghost use Rattle.shb_lines.specs.text.Stored.{part};
ghost use Rattle.shb_lines.specs.text.TraceData.{IsReading};
ghost use Rattle.shb_lines.specs.Lowest.{IsLowest};

use crate::fault::{Fault, LineFault};
use crate::limits::Limits;
use crate::line::{with_more, without_carriage_return};
use crate::numbering::Numbering;
use crate::stored::Events;
use crate::trace::Parts;
use memchr::memchr;
use shb_io::NoMemory;
use std::alloc::Global;
use std::random::RandomSource;

/// Whether the byte after the limit of the text stands in a line that ends at `end`, where no line
/// before it has it.
fn passes_limit(text: &[u8], limits: &Limits, end: usize) -> bool
    ensures { IsTrue result ↔ ((limits.now.text ≤ end) × (limits.now.text < length text.now)) }
{
    end as u64 >= limits.text && text.len() as u64 > limits.text
}

/// Where the line that begins at `start` ends: at its line feed, or at the end of the text.
fn line_end(text: &[u8], start: usize) -> usize
    requires { start ≤ length text.now }
    ensures offset { result ≡ start + position_or_len (λ b. b == 10) (drop start text.now) }
    ensures within { result ≤ length text.now }
{
    let (_, rest) = text.split_at(start);
    match memchr(b'\n', rest) {
        Some(len) => start + len,
        None => text.len(),
    }
}

/// What was read of a text so far: the events, where their lines begin, and the names.
pub struct Reader {
    events: Events,
    starts: Vec<u32>,
    numbering: Numbering,
}

impl Drop for Reader {
    fn drop(self) {
        let Reader {
            events: _,
            starts: _,
            numbering: _,
        } = self;
    }
}

impl Reader {
    /// Nothing read yet.
    pub fn new<R: RandomSource>(rt: &R, alloc: Global) -> Result<Reader, NoMemory>
        ensures within { (limits : Limits) → IfOk result (λ reader. IsWithin limits reader.numbering) }
        ensures empty { IfOk result (λ reader. reader.events ≡ []) }
        ensures begun { (text : List ℕ) → IfOk result (λ reader. HasRead text reader []) }
    {
        Ok(Reader {
            events: Events::new(alloc),
            starts: Vec::new(alloc),
            numbering: Numbering::new(rt, alloc)?,
        })
    }

    /// Takes the line from `start` to `end`, and answers its fault if it has one.
    fn take_line(
        &mut self,
        text: &[u8],
        limits: &Limits,
        line: u32,
        start: usize,
        end: usize,
    ) -> Result<Option<Fault>, NoMemory>
        requires standard { AreStandard limits.now }
        requires order { start ≤ end }
        requires ends { end ≡ start + position_or_len (λ b. b == 10) (drop start text.now) }
        requires within { end ≤ length text.now }
        requires short { length text.now < 2 ^ 31 }
        requires names { IsWithin limits.now self.old.numbering }
        requires line { length self.old.events < line }
        ensures names { OnOk result (IsWithin limits.now self.new.numbering) }
        ensures each { OnOk result (length self.new.events ≤ line) }
        // After the events of some lines, the fault is the lowest that the line has.
        ensures fault { (lines : List (List ℕ)) → HasRead text.now self.old lines
            → IfOk result (IsLowest number_of (HasLineFault limits.now
            ((limits.now.text ≤ end) × (limits.now.text < length text.now))
            (events_of lines) (part text.now start end))) }
        // A line with no fault is read.
        ensures read { (lines : List (List ℕ)) → HasRead text.now self.old lines → line ≡ 1 + length lines
            → IfOk result (λ found. HasRead text.now self.new
            (lines_read lines found (part text.now start end))) }
    {
        if passes_limit(text, limits, end) {
            return Ok(Some(Fault::TextTooLong));
        }
        let raw = &text[start..end];
        if raw.len() > limits.line as usize {
            return Ok(Some(Fault::LineTooLong));
        }
        let wide = with_more(text, start, end);
        let bytes = without_carriage_return(raw);
        let step = match self.numbering.take_line(limits, bytes, wide)? {
            Ok(None) => return Ok(None),
            Ok(Some(step)) => step,
            Err(fault) => return Ok(Some(fault)),
        };
        self.events.push(step.thread, step.op, line)?;
        self.starts.push(start as u32)?;
        Ok(None)
    }

    /// Takes the lines of the text up to the first fault, and answers it.
    pub fn take_lines(
        &mut self,
        text: &[u8],
        limits: &Limits,
    ) -> Result<Option<LineFault>, NoMemory>
        requires standard { AreStandard limits.now }
        requires short { length text.now ≤ limits.now.text + 1 }
        requires names { IsWithin limits.now self.old.numbering }
        requires empty { self.old.events ≡ [] }
        requires begun { HasRead text.now self.old [] }
        ensures names { OnOk result (IsWithin limits.now self.new.numbering) }
        ensures reading { IfOk result (IsReading limits.now text.now (HasRead text.now self.new)) }
    {
        let mut start = 0;
        let mut line = 0u32;
        while start <= text.len() {
            line += 1;
            let end = line_end(text, start);
            if let Some(fault) = self.take_line(text, limits, line, start, end)? {
                return Ok(Some(LineFault { line, fault }));
            }
            start = end + 1;
        }
        Ok(None)
    }

    /// Where what was read stands, and the names.
    pub fn into_parts(self) -> Parts
        ensures { result ≡ parts_in self }
    {
        let Reader {
            events,
            starts,
            numbering,
        } = self;
        let (threads, locks, variables) = numbering.into_names();
        Parts {
            events,
            starts,
            threads: threads.into_names(),
            locks: locks.into_names(),
            variables: variables.into_names(),
        }
    }
}
