//! An order by one row of marks for each event, for small traces and tests.

ghost use Rattle.std.specs.Prelude.{◌≡◌, ℕ, ◌+◌, ◌<◌, ◌≤◌, ◌^◌, Bool, true, false, List, IsTrue, IfOk, ◌↔◌, length, slice_index_or, replicate};
ghost use Rattle.shb_lines.specs.declared.event.Event.{Event};
ghost use Rattle.shb_lines.specs.events.Events.{thread_at};
ghost use Rattle.shb_lines.specs.events.Order.{ShbBelow, IsNumberOf, ShbEdge};
ghost use Rattle.shb_orders.specs.Rows.{MarksFrom, IsRowOf, AreEach};
ghost use Rattle.shb_lines.specs.events.Discipline.{op_is_fork, op_is_join};
ghost use Rattle.shb_lines.specs.events.Tests.{is_hb_rule, passes_lock};

use crate::row::Row;
use shb_discipline::Disciplined;
use shb_io::NoMemory;
use shb_lines::{Event, Events, Op};
use shb_links::{Linked, Links};
use shb_stamps::Order;
use std::alloc::Global;
use std::marker::Model;

fn forks(op: Op, thread: u32) -> bool
    ensures { result ≡ op_is_fork thread op }
{
    match op {
        Op::Fork(forked) => thread == forked,
        _ => false,
    }
}

fn joins(op: Op, thread: u32) -> bool
    ensures { result ≡ op_is_join thread op }
{
    match op {
        Op::Join(joined) => thread == joined,
        _ => false,
    }
}

fn passes(first: Op, second: Op) -> bool
    ensures { result ≡ passes_lock first second }
{
    match (first, second) {
        (Op::Release(released), Op::Acquire(acquired)) => released == acquired,
        _ => false,
    }
}

/// Whether an earlier event happens before a later one by an edge.
fn happens_first(e: Event, d: Event) -> bool
    ensures { result ≡ is_hb_rule e d }
{
    e.thread == d.thread || passes(e.op, d.op) || forks(e.op, d.thread) || joins(d.op, e.thread)
}

/// Whether an SHB edge leads from a to b.
fn is_edge(linked: &Linked<'_>, a: u32, b: u32) -> bool
    requires earlier { a < b }
    requires in_range { b < length linked.now.events.now }
    ensures { IsTrue result ↔ ShbEdge linked.now.events.now a b }
{
    if happens_first(linked.events.event(a), linked.events.event(b)) {
        return true;
    }
    match linked.links.last_write(b) {
        Some(w) => w == a,
        None => false,
    }
}

/// An order by marks: which events are SHB-below the predecessor of each event. Contracts see it as
/// the list of events of the trace that it orders. It may be shared between threads.
#[derive(Drop)]
pub struct PlainOrder<'a> {
    linked: Linked<'a>,
    rows: Vec<Row<bool>>,
}

impl<'a> Model for PlainOrder<'a> {
    ghost Value = { List Event };

    ghost view = { λ o. o.linked.events.now };

    ghost invariant = { λ o. AreEach (IsRowOf o.linked.events.now) (length o.linked.events.now) o.rows.items };
}

/// No marks.
fn unmarked(alloc: Global, n: usize) -> Result<Vec<bool>, NoMemory>
    ensures { IfOk result (λ marks. marks.items ≡ replicate n false) }
{
    Ok(vec![in alloc; false; n]?)
}

/// Whether a is SHB-below p, from the marks after a.
fn reaches(linked: &Linked<'_>, marks: &[bool], a: u32, p: u32) -> bool
    requires earlier { a < p }
    requires in_range { p < length linked.now.events.now }
    requires as_long { length marks.now ≡ length linked.now.events.now }
    requires known { (k : ℕ) → a < k → k < length linked.now.events.now → (slice_index_or marks.now k false ≡ true)
        ↔ ShbBelow linked.now.events.now k p }
    ensures { IsTrue result ↔ ShbBelow linked.now.events.now a p }
{
    for b in a + 1..p + 1 {
        if marks[b as usize] && is_edge(linked, a, b) {
            return true;
        }
    }
    false
}

/// Marks the events that are SHB-below p, by a backward sweep.
fn marks_below(alloc: Global, linked: &Linked<'_>, p: u32) -> Result<Vec<bool>, NoMemory>
    requires in_range { p < length linked.now.events.now }
    ensures { IfOk result (λ marks. MarksFrom linked.now.events.now p 0 marks.items) }
{
    let mut marks = unmarked(alloc, linked.events.len())?;
    marks[p as usize] = true;
    for a in (0..p).rev() {
        if reaches(linked, marks.as_slice(), a, p) {
            marks[a as usize] = true;
        }
    }
    Ok(marks)
}

/// The marks of one event.
fn row_of(alloc: Global, linked: &Linked<'_>, e: u32) -> Result<Row<bool>, NoMemory>
    requires in_range { e < length linked.now.events.now }
    ensures { IfOk result (λ row. IsRowOf linked.now.events.now e row) }
{
    match linked.links.pred(e) {
        Some(p) => Ok(Row::new(marks_below(alloc, linked, p)?)),
        None => Ok(Row::new(unmarked(alloc, linked.events.len())?)),
    }
}

/// The order of a trace by a row of marks for each event, which a backward sweep over the SHB edges
/// sets. Its time may grow with the cube of the trace's length and its memory grows with the square:
/// it is for small traces and tests.
///
/// # Errors
///
/// `NoMemory` where memory is refused; nothing is kept then.
pub fn plain<'a>(
    alloc: Global,
    disciplined: &'a Disciplined<'a>,
    links: &'a Links<'a>,
) -> Result<PlainOrder<'a>, NoMemory>
    requires { links.now ≡ disciplined.now.events.now }
    ensures { IfOk result (λ order. order ≡ disciplined.now.events.now) }
{
    let linked = Linked::new(disciplined, links);
    let mut rows = Vec::new(alloc);
    for e in 0..linked.events.len() as u32 {
        rows.push(row_of(alloc, &linked, e)?)?;
    }
    Ok(PlainOrder { linked, rows })
}

/// How many events of a thread are marked.
fn count_marked(events: &Events, row: &[bool], t: u32) -> u32
    requires as_long { length row.now ≡ length events.now }
    requires small { length events.now < 2 ^ 32 }
    ensures { IsNumberOf (λ k. (thread_at events.now k ≡ Some t) × (slice_index_or row.now k false ≡ true)) result }
{
    let mut count = 0;
    for k in 0..events.len() as u32 {
        if events.thread(k) == t && row[k as usize] {
            count += 1;
        }
    }
    count
}

impl<'a> Order for PlainOrder<'a> {
    ghost trace = { λ o. o };

    ghost asks = { λ _ _. true };

    fn below_pred(&self, e: u32, t: u32) -> u32 {
        count_marked(self.linked.events, self.rows[e as usize].as_slice(), t)
    }
}
