//! The order of a stream, event by event: clocks by the names so far, and no trace.

ghost use Rattle.std.specs.Prelude.{◌≡◌, ◌+◌, ◌<◌, ◌++◌, ◌^◌, ℕ, List, [], ◌∷◌, IfOk, OnOk, length, true, slice_index_or};
ghost use Rattle.shb_lines.specs.declared.event.Event.{Event};
ghost use Rattle.shb_lines.specs.declared.event.Op.TheVariants.{Join, Write};
ghost use Rattle.shb_lines.specs.events.Discipline.{IsDisciplined};
ghost use Rattle.shb_lines.specs.events.Order.{IsBelowPredCount};
ghost use Rattle.shb_stamps.specs.Clocks.{IsBefore, IsNext, IsStreamed};
ghost use Rattle.shb_stamps.specs.Screen.{IsAccess, IsAfterAll, IsScreened};

use crate::clocks::Clocks;
use crate::screen::{Epoch, Latest, after_access};
use shb_io::NoMemory;
use shb_lines::{Op, Sizes, item_or, put};
use std::alloc::Global;

/// What is known of the order after some events of a stream. Threads, locks and variables are told by their
/// numbers, and each event may name new ones. Memory: twelve bytes for each lock and variable, eight for each
/// thread, and rows, of which those that are in use no more are freed.
#[derive(Drop)]
pub struct StreamClocks {
    pub clocks: Clocks,
    /// For each thread how many events it had.
    pub times: Vec<u32>,
}

impl StreamClocks {
    /// What is known before the first event.
    pub fn new(alloc: Global) -> Result<StreamClocks, NoMemory>
        ensures { IfOk result (IsStreamed []) }
    {
        let none = Sizes {
            threads: 0,
            locks: 0,
            variables: 0,
        };
        Ok(StreamClocks {
            clocks: Clocks::new(alloc, none)?,
            times: Vec::new(alloc),
        })
    }

    /// How many events a thread had.
    fn time(&self, thread: u32) -> u32
        ensures { result ≡ slice_index_or self.now.times.items thread 0 }
    {
        item_or(self.times.as_slice(), thread, 0)
    }

    /// How many events the thread had that an operation joins, 0 where it joins none.
    fn joined(&self, op: Op) -> u32
        ensures { (t : ℕ) → op ≡ Join t → result ≡ slice_index_or self.now.times.items t 0 }
    {
        match op {
            Op::Join(child) => self.time(child),
            _ => 0,
        }
    }

    /// What is kept of a variable after the next event, which accesses it: it is that of an epoch, and writes or reads.
    #[inline(always)]
    pub fn screen(&self, latest: Latest, own: Epoch, writes: bool) -> Latest
        ensures screened { (past : List Event) (e : Event) (x : ℕ) → IsDisciplined (past ++ e ∷ []) → IsStreamed past self.now
            → IsAccess (past ++ e ∷ []) (length past) x own writes → IsScreened (past ++ e ∷ []) x (length past) latest
            → IsScreened (past ++ e ∷ []) x (length past + 1) result }
        ensures after { (past : List Event) (e : Event) (x : ℕ) → IsDisciplined (past ++ e ∷ []) → IsStreamed past self.now
            → IsAccess (past ++ e ∷ []) (length past) x own writes → IsScreened (past ++ e ∷ []) x (length past) latest
            → IsAfterAll (past ++ e ∷ []) x (length past) result }
    {
        after_access(&self.clocks, latest, own, writes)
    }

    /// How many events of a thread are SHB-below the predecessor of the next event, which is of this thread.
    pub fn below_next(&self, thread: u32, other: u32) -> u32
        ensures { (past : List Event) (e : Event) → e.thread ≡ thread → IsDisciplined (past ++ e ∷ []) → IsStreamed past self.now
            → IsBelowPredCount (past ++ e ∷ []) other (length past) result }
    {
        if other == thread {
            return self.time(thread);
        }
        self.clocks.known_of(thread, other)
    }

    /// Takes the next event. Where its thread may learn something and the rows have grown to their limit then, those
    /// that nothing names are freed.
    ///
    /// # Errors
    ///
    /// `NoMemory` where memory is refused. Nothing can be asked then.
    pub fn take(&mut self, alloc: Global, thread: u32, op: Op) -> Result<(), NoMemory>
        ensures { (past : List Event) (e : Event) → e.thread ≡ thread → e.op ≡ op → length past + 1 < 2 ^ 32
            → IsDisciplined (past ++ e ∷ []) → IsStreamed past self.old → OnOk result (IsStreamed (past ++ e ∷ []) self.new) }
    {
        let joined = self.joined(op);
        let time = self.time(thread).saturating_add(1);
        put(&mut self.times, thread, time, 0)?;
        match op {
            Op::Write(variable) => {
                self.clocks.take_write(thread, variable, time)?;
                Ok(())
            }
            Op::Read(variable) => {
                let known = self.clocks.knows_write(thread, variable);
                if known {
                    return Ok(());
                }
                self.clocks.take_other(alloc, thread, op, time, joined)?;
                Ok(())
            }
            _ => {
                self.clocks.take_other(alloc, thread, op, time, joined)?;
                Ok(())
            }
        }
    }
}
