//! An order by the number of a row for each of some listed events.

ghost use Rattle.std.specs.Prelude.{◌≡◌, ℕ, ◌+◌, ◌<◌, ◌≤◌, ◌↔◌, true, All, Contains, Some, IfOk, OnOk, length, slice_index_or, ◌^◌, List, false};
ghost use Rattle.std.specs.List.Sorted.{IsStrictlyIncreasing};
ghost use Rattle.shb_stamps.specs.Listed.{AreListedRows, HasListedRows, ListedTrace, is_listed};
ghost use Rattle.shb_lines.specs.declared.event.Event.{Event};
ghost use Rattle.shb_lines.specs.events.Events.{thread_at};
ghost use Rattle.shb_lines.specs.events.Order.{BelowPred};
ghost use Rattle.shb_stamps.specs.Clocks.{IsBefore};
ghost use Rattle.shb_stamps.specs.Stamps.{AreMore, IsRowFor};

use crate::clocks::Clocks;
use crate::order::Order;
use crate::row_list::RowList;
use crate::trace_clocks::{count_below, pass_up_to, raise_counts, row_before};
use shb_io::NoMemory;
use shb_lines::{item_or, put};
use shb_links::Linked;
use std::alloc::Global;
use std::marker::Model;

/// What is kept for look-ups of some listed events.
#[derive(Drop)]
pub struct KeptRows {
    pub rows: RowList,
    /// For each of these events the number of the row of what its thread knew before it.
    pub before: Vec<u32>,
    /// For each thread the number of the last row that was kept for it, 0 for none.
    pub last: Vec<u32>,
}

/// The number of a kept row of what the thread of e, the next event, knows before it. A row is added
/// where the thread's last one is another.
fn keep(
    linked: &Linked<'_>,
    e: u32,
    clocks: &Clocks,
    rows: &mut RowList,
    last: &mut Vec<u32>,
) -> Result<u32, NoMemory>
    requires in_range { e < length linked.now.events.now }
    requires before { IsBefore linked.now.events.now e false clocks.now }
    requires few { length rows.old.list + 1 < 2 ^ 32 }
    ensures more { OnOk result (AreMore rows.old.list rows.new.list) }
    ensures few { OnOk result (length rows.new.list ≤ length rows.old.list + 1) }
    ensures row { (t : ℕ) → thread_at linked.now.events.now e ≡ Some t
        → IfOk result (IsRowFor linked.now.events.now rows.new.list t (λ k. BelowPred linked.now.events.now k e)) }
{
    let before = row_before(clocks, linked, e);
    let thread = linked.events.thread(e);
    let kept = item_or(last.as_slice(), thread, 0);
    let same = rows.is_copy(kept, &clocks.rows, before);
    if same {
        return Ok(kept);
    }
    let number = rows.push_from(&clocks.rows, before, kept)?;
    put(last, thread, number, 0)?;
    Ok(number)
}

impl KeptRows {
    /// What is kept before the first event.
    pub fn new(alloc: Global) -> Self
        ensures { (trace : List Event) (events : List ℕ) → AreListedRows trace events 0 result }
    {
        KeptRows {
            rows: RowList::empty(alloc),
            before: Vec::new(alloc),
            last: Vec::new(alloc),
        }
    }

    /// Keeps what the thread of the listed event at a position knows before it, where it is the next event.
    pub fn note_listed(
        &mut self,
        linked: &Linked<'_>,
        clocks: &Clocks,
        events: &[u32],
        at: usize,
    ) -> Result<(), NoMemory>
        requires in_range { at < length events.now }
        requires rising { IsStrictlyIncreasing events.now }
        requires of_trace { slice_index_or events.now at 0 < length linked.now.events.now }
        requires before { IsBefore linked.now.events.now (slice_index_or events.now at 0) false clocks.now }
        requires kept { AreListedRows linked.now.events.now events.now at self.old }
        ensures { OnOk result (AreListedRows linked.now.events.now events.now (at + 1) self.new) }
    {
        let e = events[at];
        let number = keep(linked, e, clocks, &mut self.rows, &mut self.last)?;
        self.before.push(number)?;
        Ok(())
    }
}

/// An order by rows of clocks that events share, with the number of a row for each of some events, which
/// it finds by binary search. It can be asked about these events alone. Contracts see it as the list of
/// events of the trace that it orders, with the positions of the events that it can be asked about. It
/// may be shared between threads.
#[derive(Drop)]
pub struct ListedRows<'a> {
    linked: Linked<'a>,
    /// The events that it can be asked about, each once and rising.
    events: Vec<u32>,
    rows: RowList,
    /// For each of these events the number of the row of what its thread knew before it.
    before: Vec<u32>,
}

impl<'a> Model for ListedRows<'a> {
    ghost Value = { ListedTrace };

    ghost view = { λ o. record { trace = o.linked.events.now; events = o.events.items } };

    ghost invariant = { λ o. IsStrictlyIncreasing o.events.items
        × HasListedRows o.linked.events.now o.rows.list o.events.items (length o.events.items) o.before.items };
}

/// These numbers, each once and rising.
fn each_once(alloc: Global, numbers: &[u32]) -> Result<Vec<u32>, NoMemory>
    ensures rising { IfOk result (λ found. IsStrictlyIncreasing found.items) }
    ensures same { (e : ℕ) → IfOk result (λ found. Contains found.items e ↔ Contains numbers.now e) }
{
    let mut found = Vec::from_slice(alloc, numbers)?;
    found.sort_unstable();
    found.dedup();
    Ok(found)
}

/// Where a number stands among numbers that rise.
fn position_of(numbers: &[u32], e: u32) -> usize
    requires rising { IsStrictlyIncreasing numbers.now }
    requires listed { is_listed numbers.now e ≡ true }
    ensures in_range { result < length numbers.now }
    ensures item { slice_index_or numbers.now result 0 ≡ e }
{
    match numbers.binary_search(&e) {
        Ok(at) => at,
        Err(_) => 0,
    }
}

/// What is kept of the listed events, found by one forward pass up to the last of them.
fn listed_rows(alloc: Global, linked: &Linked<'_>, events: &[u32]) -> Result<KeptRows, NoMemory>
    requires rising { IsStrictlyIncreasing events.now }
    requires of_trace { All (λ e. e < length linked.now.events.now) events.now }
    ensures { IfOk result (AreListedRows linked.now.events.now events.now (length events.now)) }
{
    let mut clocks = Clocks::new(alloc, linked.sizes)?;
    let mut kept = KeptRows::new(alloc);
    let mut next = 0;
    for at in 0..events.len() {
        let e = events[at];
        pass_up_to(&mut clocks, alloc, linked, next, e)?;
        kept.note_listed(linked, &clocks, events, at)?;
        next = e;
    }
    Ok(kept)
}

/// The order of a trace at these events, in any order, found by one forward pass up to the last of
/// them. Memory: eight bytes for each of them, and four bytes a thread for each row that is kept. Events of
/// one thread share a row where it learns nothing in between. While it runs, also what a
/// [`Sweep`](crate::Sweep) takes.
///
/// # Errors
///
/// `NoMemory` where memory is refused; nothing is kept then.
pub fn at_events<'a>(
    alloc: Global,
    linked: Linked<'a>,
    events: &[u32],
) -> Result<ListedRows<'a>, NoMemory>
    requires { All (λ e. e < length linked.events.now) events.now }
    ensures trace { IfOk result (λ order. order.trace ≡ linked.entry.events.now) }
    ensures events { (e : ℕ) → IfOk result (λ order. Contains order.events e ↔ Contains events.now e) }
{
    let events = each_once(alloc, events)?;
    let kept = listed_rows(alloc, &linked, events.as_slice())?;
    let KeptRows { rows, before, .. } = kept;
    Ok(ListedRows {
        linked,
        events,
        rows,
        before,
    })
}

impl<'a> Order for ListedRows<'a> {
    ghost trace = { λ o. o.trace };

    ghost asks = { λ o e. is_listed o.events e };

    fn below_pred(&self, e: u32, t: u32) -> u32 {
        let at = position_of(self.events.as_slice(), e);
        count_below(&self.linked, &self.rows, self.before[at], e, t)
    }

    fn raise_below(&self, e: u32, counts: &mut Vec<u32>) -> Result<(), NoMemory> {
        let at = position_of(self.events.as_slice(), e);
        raise_counts(&self.linked, &self.rows, self.before[at], e, counts)
    }
}
