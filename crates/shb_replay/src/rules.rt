//! What lists of a trace are judged by.

ghost use Rattle.std.specs.Prelude.{◌≡◌, ◌+◌, ◌<◌, IfOk, Some, length, ℕ};
ghost use Rattle.shb_lines.specs.events.Events.{op_at};
ghost use Rattle.shb_lines.specs.events.Order.{IsPred};
ghost use Rattle.shb_lines.specs.declared.event.Op.TheVariants.{Acquire, Read};
ghost use Rattle.shb_links.specs.Latest.{IsLatestTable, Latest, OfThread, ReleasesLock, WritesVariable};
ghost use Rattle.shb_links.specs.Links.{Exactly};
ghost use Rattle.shb_replay.specs.Walks.{AreRules, HasPreds, HasOrigins, IsOrigin};

use shb_io::NoMemory;
use shb_lines::Op;
use shb_links::{Linked, empty_table, note_thread};
use std::alloc::Global;

/// What lists of a trace are judged by: the trace with its links, and what must stand before each event.
#[derive(Drop)]
pub(crate) struct Rules<'a> {
    pub(crate) linked: Linked<'a>,
    /// The predecessor of each event.
    preds: Vec<Option<u32>>,
    /// For each event that acquires a lock, the latest earlier release of the lock; for each that reads a
    /// variable, the latest earlier write of the variable.
    origins: Vec<Option<u32>>,
}

/// The predecessor of an event, from the last event of each thread before it.
fn pred_of(linked: &Linked<'_>, last: &[Option<u32>], e: u32) -> Option<u32>
    requires in_range { e < length linked.now.events.now }
    requires last { IsLatestTable (OfThread linked.now.events.now) e linked.now.sizes.threads last.now }
    ensures { Exactly (λ p. IsPred linked.now.events.now p e) result }
{
    let thread = linked.events.thread(e);
    last[thread as usize].or(linked.links.forked_by(thread))
}

/// The predecessors of all events.
fn preds_of(alloc: Global, linked: &Linked<'_>) -> Result<Vec<Option<u32>>, NoMemory>
    ensures { IfOk result (λ preds. HasPreds linked.now.events.now
        (length linked.now.events.now) preds.items) }
{
    let mut last = empty_table(alloc, linked.sizes.threads)?;
    let mut preds = Vec::with_capacity(alloc, linked.events.len())?;
    for e in 0..linked.events.len() as u32 {
        preds.push(pred_of(linked, last.as_slice(), e))?;
        note_thread(linked.events, linked.sizes, &mut last, e);
    }
    Ok(preds)
}

/// The latest release of the lock that an event acquires or write of the variable that it reads, from
/// those of each lock and variable before it.
fn origin_of(
    linked: &Linked<'_>,
    releases: &[Option<u32>],
    writes: &[Option<u32>],
    e: u32,
) -> Option<u32>
    requires in_range { e < length linked.now.events.now }
    requires releases { IsLatestTable (ReleasesLock linked.now.events.now) e linked.now.sizes.locks
        releases.now }
    requires writes { IsLatestTable (WritesVariable linked.now.events.now) e linked.now.sizes.variables
        writes.now }
    ensures { IsOrigin linked.now.events.now e result }
{
    match linked.events.op(e) {
        Op::Acquire(lock) => releases[lock as usize],
        Op::Read(variable) => writes[variable as usize],
        _ => None,
    }
}

/// Notes the event, where it is a release, as the last of its lock.
fn note_release(linked: &Linked<'_>, releases: &mut Vec<Option<u32>>, e: u32)
    requires in_range { e < length linked.now.events.now }
    requires releases { IsLatestTable (ReleasesLock linked.now.events.now) e linked.now.sizes.locks
        releases.old.items }
    ensures { IsLatestTable (ReleasesLock linked.now.events.now) (e + 1) linked.now.sizes.locks
        releases.new.items }
{
    if let Op::Release(lock) = linked.events.op(e) {
        releases[lock as usize] = Some(e);
    }
}

/// Notes the event, where it is a write, as the last of its variable.
fn note_write(linked: &Linked<'_>, writes: &mut Vec<Option<u32>>, e: u32)
    requires in_range { e < length linked.now.events.now }
    requires writes { IsLatestTable (WritesVariable linked.now.events.now) e linked.now.sizes.variables
        writes.old.items }
    ensures { IsLatestTable (WritesVariable linked.now.events.now) (e + 1) linked.now.sizes.variables
        writes.new.items }
{
    if let Op::Write(variable) = linked.events.op(e) {
        writes[variable as usize] = Some(e);
    }
}

/// The releases and writes that all acquires and reads need.
fn origins_of(alloc: Global, linked: &Linked<'_>) -> Result<Vec<Option<u32>>, NoMemory>
    ensures { IfOk result (λ origins. HasOrigins linked.now.events.now
        (length linked.now.events.now) origins.items) }
{
    let mut releases = empty_table(alloc, linked.sizes.locks)?;
    let mut writes = empty_table(alloc, linked.sizes.variables)?;
    let mut origins = Vec::with_capacity(alloc, linked.events.len())?;
    for e in 0..linked.events.len() as u32 {
        origins.push(origin_of(linked, releases.as_slice(), writes.as_slice(), e))?;
        note_release(linked, &mut releases, e);
        note_write(linked, &mut writes, e);
    }
    Ok(origins)
}

impl<'a> Rules<'a> {
    /// What lists of a trace are judged by, by two passes over it.
    pub(crate) fn new(alloc: Global, linked: Linked<'a>) -> Result<Rules<'a>, NoMemory>
        ensures rules { IfOk result AreRules }
        ensures linked { IfOk result (λ rules. rules.linked.events.now ≡ linked.entry.events.now) }
    {
        let preds = preds_of(alloc, &linked)?;
        let origins = origins_of(alloc, &linked)?;
        Ok(Rules {
            linked,
            preds,
            origins,
        })
    }

    /// The predecessor of an event.
    pub(crate) fn pred(&self, e: u32) -> Option<u32>
        requires in_range { e < length self.now.linked.events.now }
        requires rules { AreRules self.now }
        ensures { Exactly (λ p. IsPred self.now.linked.events.now p e) result }
    {
        self.preds[e as usize]
    }

    /// The release or the write that an event needs.
    pub(crate) fn origin(&self, e: u32) -> Option<u32>
        requires in_range { e < length self.now.linked.events.now }
        requires rules { AreRules self.now }
        ensures { IsOrigin self.now.linked.events.now e result }
    {
        self.origins[e as usize]
    }
}
