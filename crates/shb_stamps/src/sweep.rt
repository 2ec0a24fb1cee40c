//! An order that is asked event by event.

ghost use Rattle.std.specs.Prelude.{◌≡◌, ◌+◌, ◌<◌, ◌==◌, ℕ, IfOk, OnOk, Some, false, length};
ghost use Rattle.shb_lines.specs.events.Race.{variable_at};
ghost use Rattle.shb_stamps.specs.Clocks.{IsBefore, SweepData};
ghost use Rattle.shb_stamps.specs.Screen.{IsScreened};

use crate::clocks::Clocks;
use crate::order::Order;
use crate::screen::{Epoch, Latest, after_access};
use crate::trace_clocks::{count_below, pass, row_before};
use shb_io::NoMemory;
use shb_links::Linked;
use std::alloc::Global;
use std::marker::Model;

/// An order that is asked event by event, in trace order: it can be asked about the next event alone.
/// Contracts see it as the trace and the number of the next event. Memory: twelve bytes for each lock
/// and variable, and for each row 32 bytes and some four for each thread up to the last one that it knows, of which
/// rows share what is equal. Where the rows have grown to twice what those in use took, these are moved to a second
/// memory.
#[derive(Drop)]
pub struct Sweep<'a> {
    linked: Linked<'a>,
    clocks: Clocks,
    next: u32,
}

impl<'a> Model for Sweep<'a> {
    ghost Value = { SweepData };

    ghost view = { λ s. record { trace = s.linked.events.now; next = s.next } };

    ghost invariant = { λ s. s.next < length s.linked.events.now
        → IsBefore s.linked.events.now s.next false s.clocks };
}

impl<'a> Sweep<'a> {
    /// A sweep of a trace, before the first event.
    ///
    /// # Errors
    ///
    /// `NoMemory` where memory is refused; nothing is kept then.
    pub fn new(alloc: Global, linked: Linked<'a>) -> Result<Sweep<'a>, NoMemory>
        ensures { IfOk result (λ sweep. sweep ≡ record { trace = linked.entry.events.now; next = 0 }) }
    {
        let clocks = Clocks::new(alloc, linked.sizes)?;
        Ok(Sweep {
            linked,
            clocks,
            next: 0,
        })
    }

    /// What is kept of a variable after the next event, which accesses it.
    #[inline(always)]
    pub fn screen(&self, latest: Latest) -> Latest
        requires { self.now.next < length self.now.trace }
        ensures { (x : ℕ) → variable_at self.now.trace self.now.next ≡ Some x → IsScreened self.now.trace x self.now.next latest
            → IsScreened self.now.trace x (self.now.next + 1) result }
    {
        let e = self.next;
        let own = Epoch {
            time: self.linked.links.local(e),
            thread: self.linked.events.thread(e),
        };
        let writes = self.linked.events.op(e).is_write();
        after_access(&self.clocks, latest, own, writes)
    }

    /// Goes past the next event.
    ///
    /// # Errors
    ///
    /// `NoMemory` where memory is refused; the sweep can be asked about no event then.
    #[inline(always)]
    pub fn pass(&mut self, alloc: Global) -> Result<(), NoMemory>
        requires { self.old.next < length self.old.trace }
        ensures { OnOk result (self.new ≡ record self.old { next = self.old.next + 1 }) }
    {
        let e = self.next;
        // where memory is refused there is no next event
        self.next = self.linked.events.len() as u32;
        pass(&mut self.clocks, alloc, &self.linked, e)?;
        self.next = e + 1;
        Ok(())
    }
}

impl<'a> Order for Sweep<'a> {
    ghost trace = { λ s. s.trace };

    ghost asks = { λ s e. e == s.next };

    fn below_pred(&self, e: u32, t: u32) -> u32 {
        let row = row_before(&self.clocks, &self.linked, e);
        count_below(&self.linked, &self.clocks.rows, row, e, t)
    }
}
