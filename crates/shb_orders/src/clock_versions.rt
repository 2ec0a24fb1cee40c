//! An order by clocks that are kept only where a thread learns of others.

ghost use Rattle.std.specs.Prelude.{◌≡◌, ℕ, ◌<◌, true, All, Contains, List, IfOk, length, slice_index_or, [], ◌↔◌, IsTrue};
ghost use Rattle.shb_lines.specs.declared.event.Event.{Event};
ghost use Rattle.shb_stamps.specs.Listed.{is_listed};
ghost use Rattle.shb_orders.specs.Rows.{AreEach, AreLearnedTimes, IsLearning};

use crate::row::Row;
use shb_discipline::Disciplined;
use shb_io::NoMemory;
use shb_lines::{Event, Op};
use shb_links::{Linked, Links};
use shb_stamps::{ListedRows, Order, at_events};
use std::alloc::Global;
use std::marker::Model;

/// Whether it is the first event of its thread, an acquire, a join, or a read of a last write.
fn may_learn(linked: &Linked<'_>, e: u32) -> bool
    requires in_range { e < length linked.now.events.now }
    ensures { IsTrue result ↔ IsLearning linked.now.events.now e }
{
    if linked.links.local(e) == 1 {
        return true;
    }
    match linked.events.op(e) {
        Op::Acquire(_) => true,
        Op::Join(_) => true,
        Op::Read(_) => linked.links.last_write(e).is_some(),
        _ => false,
    }
}

/// The local times at which a thread may learn of others.
fn learned_times(alloc: Global, linked: &Linked<'_>, t: u32) -> Result<Row<u32>, NoMemory>
    ensures { IfOk result (AreLearnedTimes linked.now.events.now t) }
{
    let mut times = Vec::new(alloc);
    for e in 0..linked.events.len() as u32 {
        if linked.events.thread(e) == t && may_learn(linked, e) {
            times.push(linked.links.local(e))?;
        }
    }
    Ok(Row::new(times))
}

/// An order by vector clocks that are kept only where a thread learns of others. Contracts see it
/// as the list of events of the trace that it orders. It may be shared between threads.
#[derive(Drop)]
pub struct ClockVersions<'a> {
    /// Rows of clocks, which can be asked about each event.
    rows: ListedRows<'a>,
    /// For each thread the local times at which it may learn of others.
    times: Vec<Row<u32>>,
}

impl<'a> Model for ClockVersions<'a> {
    ghost use Rattle.std.specs.Prelude.{ℕ, ◌≡◌, ◌<◌, true, List, [], length, slice_index_or};
    ghost use Rattle.shb_lines.specs.declared.event.Event.{Event};
    ghost use Rattle.shb_stamps.specs.Listed.{is_listed};
    ghost use Rattle.shb_orders.specs.Rows.{AreLearnedTimes};

    ghost Value = { List Event };

    ghost view = { λ o. o.rows.trace };

    ghost invariant = { λ o. ((e : ℕ) → e < length o.rows.trace → is_listed o.rows.events e ≡ true)
        × ((t : ℕ) → AreLearnedTimes o.rows.trace t (slice_index_or o.times.items t [])) };
}

/// All events of a trace.
fn all_events(alloc: Global, count: u32) -> Result<Vec<u32>, NoMemory>
    ensures within { IfOk result (λ events. All (λ e. e < count) events.items) }
    ensures each { IfOk result (λ events. (e : ℕ) → e < count → Contains events.items e) }
{
    let mut events = Vec::new(alloc);
    for e in 0..count {
        events.push(e)?;
    }
    Ok(events)
}

/// For each thread the local times at which it may learn of others.
fn times_of(alloc: Global, linked: &Linked<'_>) -> Result<Vec<Row<u32>>, NoMemory>
    ensures { IfOk result (λ times. (t : ℕ) → AreLearnedTimes linked.now.events.now t (slice_index_or times.items t [])) }
{
    let mut times = Vec::new(alloc);
    for t in 0..linked.sizes.threads {
        times.push(learned_times(alloc, linked, t)?)?;
    }
    Ok(times)
}

/// The order of a trace by vector clocks, found by one forward pass. A clock is kept only where a
/// thread learns of others, which it can only at its first event, at an acquire, a join and a read that has
/// a last write. Memory: four bytes a thread for each such event, and eight for each event. Another pass for
/// each thread finds where it may learn.
///
/// # Errors
///
/// `NoMemory` where memory is refused; nothing is kept then.
pub fn versions<'a>(
    alloc: Global,
    disciplined: &'a Disciplined<'a>,
    links: &'a Links<'a>,
) -> Result<ClockVersions<'a>, NoMemory>
    requires of_trace { links.now ≡ disciplined.now.events.now }
    ensures { IfOk result (λ order. order ≡ disciplined.now.events.now) }
{
    let linked = Linked::new(disciplined, links);
    let times = times_of(alloc, &linked)?;
    let events = all_events(alloc, linked.events.len() as u32)?;
    let rows = at_events(alloc, linked, events.as_slice())?;
    Ok(ClockVersions { rows, times })
}

impl<'a> ClockVersions<'a> {
    /// The local times, from 1 and rising, of the events of thread `t` at which it may learn of other
    /// threads: its first event, and each acquire, each join and each read that has a last write.
    /// None for a number that names no thread.
    pub fn learned(&self, t: u32) -> &[u32]
        ensures { AreLearnedTimes self.now t result.now }
    {
        match self.times.get(t as usize) {
            Some(times) => times.as_slice(),
            None => &[],
        }
    }
}

impl<'a> Order for ClockVersions<'a> {
    ghost trace = { λ o. o };

    ghost asks = { λ _ _. true };

    fn below_pred(&self, e: u32, t: u32) -> u32 {
        self.rows.below_pred(e, t)
    }
}
