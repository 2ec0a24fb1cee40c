//! The pass over a trace that finds its links.

ghost use Rattle.std.specs.Prelude.{◌≡◌, ℕ, ◌<◌, ◌+◌, None, Some, IfOk, OnOk, length, replicate};
ghost use Rattle.shb_lines.specs.events.Discipline.{local_time};
ghost use Rattle.shb_lines.specs.events.Events.{thread_at};
ghost use Rattle.shb_lines.specs.events.Sizes.{IsWithin};
ghost use Rattle.shb_links.specs.Latest.{IsLatestTable, OfThread, ForksThread};
ghost use Rattle.shb_links.specs.Links.{AreLocalTimes, HasLocals};

use shb_discipline::Disciplined;
use shb_io::NoMemory;
use shb_lines::{Events, Op, Sizes};
use std::alloc::Global;

/// A table of `size` entries, in each of which nothing has come yet. `NoMemory` where the memory
/// was refused.
pub fn empty_table(alloc: Global, size: u32) -> Result<Vec<Option<u32>>, NoMemory>
    ensures { IfOk result (λ table. table.items ≡ replicate size None) }
{
    Ok(vec![in alloc; None; size as usize]?)
}

/// Notes event `e` as the last of its thread, in a table of the last event of each thread before
/// `e`.
pub fn note_thread(events: &Events, sizes: Sizes, last: &mut Vec<Option<u32>>, e: u32)
    requires in_range { e < length events.now }
    requires within { IsWithin events.now sizes }
    requires last { IsLatestTable (OfThread events.now) e sizes.threads last.old.items }
    ensures { IsLatestTable (OfThread events.now) (e + 1) sizes.threads last.new.items }
{
    last[events.thread(e) as usize] = Some(e);
}

/// What the pass has found: the local time of each event, and the last event and the fork
/// of each thread.
#[derive(Drop)]
pub(crate) struct LocalTimes {
    pub(crate) locals: Vec<u32>,
    pub(crate) last: Vec<Option<u32>>,
    pub(crate) forks: Vec<Option<u32>>,
}

impl LocalTimes {
    /// No event met, with room for the events of a trace.
    pub(crate) fn new(alloc: Global, disciplined: &Disciplined<'_>) -> Result<Self, NoMemory>
        ensures { IfOk result (AreLocalTimes disciplined.now.events.now 0 disciplined.now.sizes) }
    {
        Ok(LocalTimes {
            locals: Vec::with_capacity(alloc, disciplined.events.len())?,
            last: empty_table(alloc, disciplined.sizes.threads)?,
            forks: empty_table(alloc, disciplined.sizes.threads)?,
        })
    }

    /// Takes event `e`.
    pub(crate) fn take(&mut self, disciplined: &Disciplined<'_>, e: u32) -> Result<(), NoMemory>
        requires in_range { e < length disciplined.now.events.now }
        requires found { AreLocalTimes disciplined.now.events.now e disciplined.now.sizes self.old }
        ensures { OnOk result (AreLocalTimes disciplined.now.events.now (e + 1) disciplined.now.sizes self.new) }
    {
        let local = next_local(disciplined, self.locals.as_slice(), self.last.as_slice(), e);
        self.locals.push(local)?;
        note_thread(disciplined.events, disciplined.sizes, &mut self.last, e);
        note_fork(disciplined, &mut self.forks, e);
        Ok(())
    }
}

/// The local time of an event, from those before it and the last event of each
/// thread.
fn next_local(disciplined: &Disciplined<'_>, locals: &[u32], last: &[Option<u32>], e: u32) -> u32
    requires in_range { e < length disciplined.now.events.now }
    requires locals { HasLocals disciplined.now.events.now e locals.now }
    requires last { IsLatestTable (OfThread disciplined.now.events.now) e disciplined.now.sizes.threads last.now }
    ensures { (t : ℕ) → thread_at disciplined.now.events.now e ≡ Some t
        → result ≡ local_time disciplined.now.events.now t e }
{
    match last[disciplined.events.thread(e) as usize] {
        Some(p) => locals[p as usize] + 1,
        None => 1,
    }
}

/// Notes the event, where it is a fork, as that of its thread.
fn note_fork(disciplined: &Disciplined<'_>, forks: &mut Vec<Option<u32>>, e: u32)
    requires in_range { e < length disciplined.now.events.now }
    requires forks { IsLatestTable (ForksThread disciplined.now.events.now) e disciplined.now.sizes.threads forks.old.items }
    ensures { IsLatestTable (ForksThread disciplined.now.events.now) (e + 1) disciplined.now.sizes.threads forks.new.items }
{
    if let Op::Fork(thread) = disciplined.events.op(e) {
        forks[thread as usize] = Some(e);
    }
}
