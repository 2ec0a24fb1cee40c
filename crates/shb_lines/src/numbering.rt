//! The event of a line, with names that are owned.
ghost use Rattle.std.specs.Prelude.{◌≡◌, ◌+◌, ◌<◌, ◌≤◌, ◌^◌, ◌∷◌, [], ℕ, List, length, nat_lt, not, slice_get, Some, IfOk, IfSome, OnOk};
ghost use Rattle.std.specs.List.{list_any};
ghost use Rattle.std.specs.Str.{bytes_eq};
ghost use Rattle.std.specs.Str.Lines.{strip_carriage_return};
ghost use Rattle.shb_lines.specs.text.Numbering.{AreWide, HasLastThread, HasNumbered, IsBarOf, IsFound, IsKept, IsStepOf, IsWithin, tables_of, with_names, with_operand, with_thread};
ghost use Rattle.shb_lines.specs.text.Grammar.{NamedEvent};
ghost use Rattle.shb_lines.specs.text.Numbers.{IsOperation, op_for};
ghost use Rattle.shb_lines.specs.text.Reading.{Begins, HasNoBar, HasNumberIn, IsNumberedIn, named};
ghost use Rattle.shb_lines.specs.text.Text.{threads_among};

use crate::event::{Kind, Op};
use crate::fault::Fault;
use crate::grammar::{KnownThread, LineEvent, read_line};
use crate::limits::Limits;
use crate::owned_names::OwnedNames;
use crate::stored::op_with;
use shb_io::NoMemory;
use std::alloc::Global;
use std::random::RandomSource;

/// What an event does, and which thread does it.
#[derive(Clone, Copy, Debug, PartialEq, Eq)]
pub struct Step {
    /// The number of its thread.
    pub thread: u32,
    /// What it does.
    pub op: Op,
}

/// The names of the events so far, and how many events there were.
pub struct Numbering {
    threads: OwnedNames,
    locks: OwnedNames,
    variables: OwnedNames,
    events: u32,
    /// The thread of the last event, which the next one mostly has.
    last: u32,
    /// Where the second bar stands in its line, or the line's length.
    bar: usize,
}

impl Drop for Numbering {
    fn drop(self) {
        let Numbering {
            threads: _,
            locks: _,
            variables: _,
            events: _,
            last: _,
            bar: _,
        } = self;
    }
}

impl Numbering {
    /// No names and no events yet.
    pub fn new<R: RandomSource>(rt: &R, alloc: Global) -> Result<Numbering, NoMemory>
        ensures numbered { IfOk result (HasNumbered []) }
        ensures within { (limits : Limits) → IfOk result (IsWithin limits) }
    {
        Ok(Numbering {
            threads: OwnedNames::new(rt, alloc)?,
            locks: OwnedNames::new(rt, alloc)?,
            variables: OwnedNames::new(rt, alloc)?,
            events: 0,
            last: 0,
            bar: 0,
        })
    }

    /// The names of the threads, in order of first appearance.
    pub fn threads(&self) -> &OwnedNames
        ensures { result.now ≡ self.now.threads }
    {
        &self.threads
    }

    /// The names of the locks, in order of first appearance.
    pub fn locks(&self) -> &OwnedNames
        ensures { result.now ≡ self.now.locks }
    {
        &self.locks
    }

    /// The names of the variables, in order of first appearance.
    pub fn variables(&self) -> &OwnedNames
        ensures { result.now ≡ self.now.variables }
    {
        &self.variables
    }

    /// The names of the threads, of the locks and of the variables.
    pub(crate) fn into_names(self) -> (OwnedNames, OwnedNames, OwnedNames)
        ensures { result ≡ (self.threads, self.locks, self.variables) }
    {
        let Numbering {
            threads,
            locks,
            variables,
            events: _,
            last: _,
            bar: _,
        } = self;
        (threads, locks, variables)
    }

    /// How many events there were.
    pub fn events(&self) -> u32
        ensures { result ≡ self.now.events }
    {
        self.events
    }

    /// Where the second bar stands in the line of the last event, or the line's length where there is none.
    pub(crate) fn bar(&self) -> usize
        ensures { result ≡ self.now.bar }
    {
        self.bar
    }

    /// The number of an operand, and 0 for a mark, which has none.
    fn operand_number(&mut self, kind: Kind, name: &[u8]) -> Result<u32, NoMemory>
        requires threads { length self.old.threads < 2 ^ 32 }
        requires locks { length self.old.locks < 2 ^ 32 }
        requires variables { length self.old.variables < 2 ^ 32 }
        ensures events { self.new.events ≡ self.old.events }
        ensures tables { OnOk result (tables_of self.new ≡ with_operand (tables_of self.old) kind name.now) }
        ensures operation { IfOk result (λ number. IsOperation (tables_of self.new) (op_for kind number) kind name.now) }
    {
        match kind {
            Kind::Read | Kind::Write => self.variables.number_of(name),
            Kind::Acquire | Kind::Release => self.locks.number_of(name),
            Kind::Fork | Kind::Join => self.threads.number_of(name),
            Kind::BeginMark | Kind::EndMark => Ok(0),
        }
    }

    /// The event of a line that was read, with its names numbered.
    #[inline(always)]
    fn step_of(&mut self, found: &LineEvent<'_>) -> Result<Step, NoMemory>
        requires threads { length self.old.threads + 1 < 2 ^ 32 }
        requires locks { length self.old.locks < 2 ^ 32 }
        requires variables { length self.old.variables < 2 ^ 32 }
        requires no_bar { HasNoBar found.now.thread.now }
        requires number { HasNumberIn self.old.threads found.now }
        ensures events { self.new.events ≡ self.old.events }
        ensures last { OnOk result (HasLastThread self.new) }
        ensures tables { OnOk result (tables_of self.new ≡ with_operand (with_thread (tables_of self.old) found.now.thread.now) found.now.kind found.now.operand.now) }
        ensures step { IfOk result (λ step. IsStepOf (tables_of self.new) step (named found.now)) }
    {
        let thread = self.threads.known_or_number_of(found.number, found.thread)?;
        let number = self.operand_number(found.kind, found.operand)?;
        self.last = thread;
        Ok(Step {
            thread,
            op: op_with(found.kind, number),
        })
    }

    /// The thread of the last event, which a line is first compared with.
    #[inline(always)]
    fn last_thread(&self) -> Option<KnownThread<'_>>
        requires { HasLastThread self.now }
        ensures no_bar { IfSome result (λ known. HasNoBar known.name.now) }
        ensures number { IfSome result (IsNumberedIn self.now.threads) }
    {
        match self.threads.known(self.last) {
            Some(name) => Some(KnownThread {
                name,
                number: self.last,
            }),
            None => None,
        }
    }

    /// Whether no event has named the thread.
    fn is_new_thread(&self, name: &[u8]) -> bool
        ensures { result ≡ not (list_any (bytes_eq name.now) self.now.threads) }
    {
        !self.threads.contains(name)
    }

    /// How many new threads an event would name.
    fn new_threads(&self, kind: Kind, thread: &[u8], operand: &[u8]) -> usize
        ensures bound { result ≤ 2 }
        ensures count { length (with_names self.now.threads (thread.now ∷ threads_among kind operand.now))
            ≡ length self.now.threads + result }
    {
        let own = usize::from(self.is_new_thread(thread));
        match kind {
            Kind::Fork | Kind::Join => {
                if operand == thread {
                    own
                } else {
                    own + usize::from(self.is_new_thread(operand))
                }
            }
            _ => own,
        }
    }

    /// Whether there are more threads than the limit with those of an event.
    #[inline(always)]
    fn has_too_many_threads(&self, limits: &Limits, found: &LineEvent<'_>) -> bool
        ensures { result ≡ nat_lt limits.now.threads (length (with_names self.now.threads
            (found.now.thread.now ∷ threads_among found.now.kind found.now.operand.now))) }
    {
        let known = self.threads.len();
        let most = limits.threads as usize;
        // An event names two threads at most, so mostly they need not be looked up.
        if known + 2 <= most {
            return false;
        }
        known + self.new_threads(found.kind, found.thread, found.operand) > most
    }

    /// What a line gives after the events so far: nothing, an event or a fault. The line is within its limit, and its carriage
    /// return is gone. `wide` begins with it, and may have more bytes. A line without an event changes nothing.
    #[inline(always)]
    pub fn take_line(
        &mut self,
        limits: &Limits,
        line: &[u8],
        wide: &[u8],
    ) -> Result<Result<Option<Step>, Fault>, NoMemory>
        requires limits { AreWide limits.now }
        requires within { IsWithin limits.now self.old }
        requires wide { Begins line.now wide.now }
        ensures within { OnOk result (IsWithin limits.now self.new) }
        ensures kept { IfOk result (IsKept self.old self.new) }
        ensures bar { IfOk result (IsBarOf line.now self.new) }
        ensures found { (before : List NamedEvent) (raw : List ℕ) → HasNumbered before self.old
            → line.now ≡ strip_carriage_return raw → length raw ≤ limits.now.line
            → IfOk result (IsFound limits.now before raw self.new) }
    {
        let found = match read_line(line, wide, self.last_thread()) {
            Ok(None) => return Ok(Ok(None)),
            Ok(Some(found)) => found,
            Err(fault) => return Ok(Err(fault)),
        };
        if self.events >= limits.events {
            return Ok(Err(Fault::TooManyEvents));
        }
        if self.has_too_many_threads(limits, &found) {
            return Ok(Err(Fault::TooManyThreads));
        }
        let step = self.step_of(&found)?;
        self.events += 1;
        self.bar = found.bar;
        Ok(Ok(Some(step)))
    }
}
