//! An order by one clock for each event.

ghost use Rattle.std.specs.Prelude.{◌≡◌, ◌<◌, true, List, IfOk, length, slice_index_or};
ghost use Rattle.shb_lines.specs.declared.event.Event.{Event};
ghost use Rattle.shb_orders.specs.Rows.{AreEach, IsClockBefore};

use crate::row::Row;
use shb_discipline::Disciplined;
use shb_io::NoMemory;
use shb_lines::Event;
use shb_links::{Linked, Links};
use shb_stamps::{Order, Sweep};
use std::alloc::Global;
use std::marker::Model;

/// An order by a vector clock for each event. Contracts see it as the list of events of the trace
/// that it orders. It may be shared between threads.
#[derive(Drop)]
pub struct FullClocks<'a> {
    linked: Linked<'a>,
    /// For each event the clock of its predecessor.
    clocks: Vec<Row<u32>>,
}

impl<'a> Model for FullClocks<'a> {
    ghost Value = { List Event };

    ghost view = { λ o. o.linked.events.now };

    ghost invariant = { λ o. AreEach (IsClockBefore o.linked.events.now) (length o.linked.events.now) o.clocks.items };
}

/// The entry of a thread, 0 where the clock has none.
fn entry(clock: &[u32], t: u32) -> u32
    ensures { result ≡ slice_index_or clock.now t 0 }
{
    match clock.get(t as usize) {
        Some(number) => *number,
        None => 0,
    }
}

/// The clock of the predecessor of the next event of a sweep.
fn clock_before(
    alloc: Global,
    linked: &Linked<'_>,
    sweep: &Sweep<'_>,
    e: u32,
) -> Result<Row<u32>, NoMemory>
    requires of_trace { sweep.now.trace ≡ linked.now.events.now }
    requires next { sweep.now.next ≡ e }
    requires in_range { e < length linked.now.events.now }
    ensures { IfOk result (IsClockBefore linked.now.events.now e) }
{
    let mut clock = Vec::new(alloc);
    for t in 0..linked.sizes.threads {
        clock.push(sweep.below_pred(e, t))?;
    }
    Ok(Row::new(clock))
}

/// The order of a trace by a vector clock for each event, found by one forward pass. Time and memory
/// grow with the number of events times the number of threads.
///
/// # Errors
///
/// `NoMemory` where memory is refused; nothing is kept then.
pub fn full<'a>(
    alloc: Global,
    disciplined: &'a Disciplined<'a>,
    links: &'a Links<'a>,
) -> Result<FullClocks<'a>, NoMemory>
    requires of_trace { links.now ≡ disciplined.now.events.now }
    ensures { IfOk result (λ order. order ≡ disciplined.now.events.now) }
{
    let linked = Linked::new(disciplined, links);
    let mut sweep = Sweep::new(alloc, linked)?;
    let mut clocks = Vec::new(alloc);
    for e in 0..linked.events.len() as u32 {
        clocks.push(clock_before(alloc, &linked, &sweep, e)?)?;
        sweep.pass(alloc)?;
    }
    Ok(FullClocks { linked, clocks })
}

impl<'a> Order for FullClocks<'a> {
    ghost trace = { λ o. o };

    ghost asks = { λ _ _. true };

    fn below_pred(&self, e: u32, t: u32) -> u32 {
        entry(self.clocks[e as usize].as_slice(), t)
    }
}
