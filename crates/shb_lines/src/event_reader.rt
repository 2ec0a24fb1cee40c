//! The events of a source, one after the other, up to its first line fault. The text is not kept.
ghost use Rattle.std.specs.Prelude.{◌≡◌, ◌+◌, ◌-◌, ◌^◌, ◌<◌, ◌≤◌, ◌++◌, ℕ, List, [], length, IfOk, OnOk, Option};
ghost use Rattle.std.specs.Option.{option_copied};
ghost use Rattle.std.specs.Str.Lines.{strip_carriage_return};
ghost use Rattle.shb_io.specs.Devices.{CountsFailure};
ghost use Rattle.shb_lines.specs.text.Grammar.{NamedEvent};
ghost use Rattle.shb_lines.specs.text.Numbering.{AreWide, HasNumbered, IsWithin};
ghost use Rattle.shb_lines.specs.declared.event_reader.Taken.TheVariants.{Nothing};
ghost use Rattle.shb_lines.specs.text.Lines.{Moves};
ghost use Rattle.shb_lines.specs.text.Text.{trace_of};
ghost use Rattle.shb_lines.specs.text.Taken.{HasBar, HasTaken, IsBarred, IsTaken, IsTakenLine, IsTakenNext, IsWithinAfter};
ghost use Rattle.shb_lines.specs.text.Taking.{read_failed};
ghost use Rattle.shb_lines.specs.text.TraceData.{location_after};

use crate::fault::Fault;
use crate::limits::Limits;
use crate::lines::{Lines, Next};
use crate::numbering::{Numbering, Step};
use crate::read::ReadError;
use shb_io::{Failed, NoMemory, Source};
use std::alloc::Global;
use std::random::RandomSource;

/// What was taken of a source.
#[derive(Clone, Copy, Debug, PartialEq, Eq)]
pub enum Taken {
    /// A line that gives nothing.
    Nothing,
    /// A line that gives an event.
    Step(Step),
    /// A line with a fault, the first of the text.
    Fault(Fault),
    /// Nothing, since all lines were taken.
    End,
}

/// The events of a source.
pub struct EventReader {
    lines: Lines,
    numbering: Numbering,
    /// How many lines were taken.
    line: u64,
    /// Whether the last line was taken.
    ended: bool,
}

impl Drop for EventReader {
    fn drop(self) {
        let EventReader {
            lines: _,
            numbering: _,
            line: _,
            ended: _,
        } = self;
    }
}

impl EventReader {
    /// Nothing read yet.
    pub fn new<R: RandomSource>(rt: &R, alloc: Global) -> Result<EventReader, NoMemory>
        ensures taken { (limits : Limits) (left : Option (List ℕ)) → IfOk result (HasTaken limits [] [] left) }
        ensures within { (limits : Limits) → IfOk result (λ reader. IsWithin limits reader.numbering) }
        ensures line { IfOk result (λ reader. reader.line ≡ 0) }
    {
        Ok(EventReader {
            lines: Lines::new(alloc)?,
            numbering: Numbering::new(rt, alloc)?,
            line: 0,
            ended: false,
        })
    }

    /// The line that was given last, without its line feed and the carriage return before it.
    pub fn line(&self) -> &[u8]
        ensures { result.now ≡ strip_carriage_return self.now.lines.line }
    {
        self.lines.line()
    }

    /// The location in the line that was given last, which gave a step: the bytes after its second bar, perhaps none. `None`
    /// where it has no second bar.
    pub fn location(&self) -> Option<&[u8]>
        requires { HasBar self.now }
        ensures { option_copied result ≡ location_after (strip_carriage_return self.now.lines.line) }
    {
        let line = self.line();
        let bar = self.numbering.bar();
        if bar < line.len() {
            let (_, rest) = line.split_at(bar + 1);
            Some(rest)
        } else {
            None
        }
    }

    /// How many lines were taken, that of a fault counted.
    pub fn line_count(&self) -> u64
        ensures { result ≡ self.now.line }
    {
        self.line
    }

    /// The names and the number of the events that were taken.
    pub fn numbering(&self) -> &Numbering
        ensures { result.now ≡ self.now.numbering }
    {
        &self.numbering
    }

    /// Takes the line that was given last.
    fn take_given(&mut self, limits: &Limits, ended: bool) -> Result<Taken, NoMemory>
        requires wide { AreWide limits.now }
        requires few { self.old.line < 2 ^ 64 - 1 }
        requires within { IsWithin limits.now self.old.numbering }
        ensures within { IfOk result (IsWithinAfter limits.now self.new.numbering) }
        ensures lines { OnOk result (self.new.lines ≡ self.old.lines) }
        ensures line { self.new.line ≡ self.old.line + 1 }
        ensures ended { OnOk result (self.new.ended ≡ ended) }
        ensures barred { IfOk result (IsBarred self.new) }
        ensures taken { (before : List NamedEvent) → HasNumbered before self.old.numbering
            → length self.old.lines.line ≤ limits.now.line
            → IfOk result (IsTakenLine limits.now before self.old.lines.line self.new.numbering) }
    {
        self.ended = ended;
        self.line += 1;
        match self
            .numbering
            .take_line(limits, self.lines.line(), self.lines.wide())?
        {
            Ok(None) => Ok(Taken::Nothing),
            Ok(Some(step)) => Ok(Taken::Step(step)),
            Err(fault) => Ok(Taken::Fault(fault)),
        }
    }

    /// Takes the next line of the source. After a fault, and after an error of memory, nothing can be asked.
    ///
    /// # Errors
    ///
    /// `Source` where the source fails, at once, and only there. `Memory` where a growth is refused.
    pub fn take_next<S: Source>(
        &mut self,
        source: &mut S,
        limits: &Limits,
    ) -> Result<Taken, ReadError>
        requires wide { AreWide limits.now }
        requires few { self.old.line < 2 ^ 64 - 1 }
        requires within { IsWithin limits.now self.old.numbering }
        requires countable { S.failure_count source.old < 2 ^ 64 - 1 }
        ensures within { IfOk result (IsWithinAfter limits.now self.new.numbering) }
        ensures line { IfOk result (λ taken. taken ≡ Nothing → self.new.line ≡ self.old.line + 1) }
        ensures barred { IfOk result (IsBarred self.new) }
        ensures taken { (read : List ℕ) (lines : List (List ℕ)) → HasTaken limits.now read lines (S.remaining source.old) self.old
            → IfOk result (λ taken. (more : List ℕ)
            × Moves (S.remaining source.old) (S.remaining source.new) (S.given_count source.old) (S.given_count source.new) more
            × IsTaken limits.now (read ++ more) lines (S.remaining source.new) self.new taken) }
        ensures moved { (bytes : List ℕ) × Moves (S.remaining source.old) (S.remaining source.new) (S.given_count source.old) (S.given_count source.new) bytes }
        ensures counted { CountsFailure read_failed (S.failure_count source.old) (S.failure_count source.new) result }
    {
        if self.ended {
            return Ok(Taken::End);
        }
        match self.lines.next(source, limits.line) {
            Ok(Next::Line) => Ok(self.take_given(limits, false)?),
            Ok(Next::Last) => Ok(self.take_given(limits, true)?),
            Ok(Next::TooLong) => {
                self.line += 1;
                Ok(Taken::Fault(Fault::LineTooLong))
            }
            Err(Failed) => Err(ReadError::Source),
        }
    }

    /// Takes lines up to the next one that gives an event or has a fault. It answers `Nothing` only where the
    /// greatest `u64` of lines were taken.
    ///
    /// # Errors
    ///
    /// `Source` where the source fails, at once, and only there. `Memory` where a growth is refused.
    pub fn next_event<S: Source>(
        &mut self,
        source: &mut S,
        limits: &Limits,
    ) -> Result<Taken, ReadError>
        requires wide { AreWide limits.now }
        requires within { IsWithin limits.now self.old.numbering }
        requires countable { S.failure_count source.old < 2 ^ 64 - 1 }
        ensures within { IfOk result (IsWithinAfter limits.now self.new.numbering) }
        ensures nothing { IfOk result (λ taken. taken ≡ Nothing → 2 ^ 64 - 1 ≤ self.new.line) }
        ensures barred { IfOk result (IsBarred self.new) }
        ensures taken { (read : List ℕ) (lines : List (List ℕ)) → HasTaken limits.now read lines (S.remaining source.old) self.old
            → IfOk result (λ taken. (more : List ℕ) × (empty : List (List ℕ))
            × Moves (S.remaining source.old) (S.remaining source.new) (S.given_count source.old) (S.given_count source.new) more
            × (trace_of (lines ++ empty) ≡ trace_of lines)
            × IsTakenNext limits.now (read ++ more) (lines ++ empty) (S.remaining source.new) self.new taken) }
        ensures moved { (bytes : List ℕ) × Moves (S.remaining source.old) (S.remaining source.new) (S.given_count source.old) (S.given_count source.new) bytes }
        ensures counted { CountsFailure read_failed (S.failure_count source.old) (S.failure_count source.new) result }
    {
        while self.line < u64::MAX {
            match self.take_next(source, limits)? {
                Taken::Nothing => {}
                taken => return Ok(taken),
            }
        }
        Ok(Taken::Nothing)
    }
}
