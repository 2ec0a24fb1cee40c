//! The clocks of a stored trace, event by event.

ghost use Rattle.std.specs.Prelude.{◌≡◌, ◌+◌, ◌<◌, ◌≤◌, ℕ, Some, OnOk, false, true, length, take, count_by};
ghost use Rattle.shb_lines.specs.declared.event.Op.TheVariants.{Join, Read, Write};
ghost use Rattle.shb_lines.specs.events.Discipline.{is_of};
ghost use Rattle.shb_lines.specs.events.Events.{op_at, thread_at};
ghost use Rattle.shb_lines.specs.events.Order.{BelowPred, IsBelowPredCount};
ghost use Rattle.shb_links.specs.Sharing.{IsShared};
ghost use Rattle.shb_stamps.specs.Clocks.{IsBefore};
ghost use Rattle.shb_stamps.specs.Counts.{AreRaisedCounts};
ghost use Rattle.shb_stamps.specs.Stamps.{IsRowFor};

use crate::clocks::Clocks;
use crate::row_list::RowList;
use shb_io::NoMemory;
use shb_lines::{Op, item_or};
use shb_links::Linked;
use std::alloc::Global;

/// How many events the thread had that e joins, 0 where it joins none.
fn joined_time(linked: &Linked<'_>, e: u32) -> u32
    requires { e < length linked.now.events.now }
    ensures { (t : ℕ) → op_at linked.now.events.now e ≡ Some (Join t) → result ≡ count_by (is_of t) (take e linked.now.events.now) }
{
    match linked.events.op(e) {
        Op::Join(child) => match linked.links.last_of(child) {
            Some(last) => linked.links.local(last),
            None => 0,
        },
        _ => 0,
    }
}

/// Takes the event e, which is no write.
#[inline(never)]
fn pass_other(
    clocks: &mut Clocks,
    alloc: Global,
    linked: &Linked<'_>,
    e: u32,
) -> Result<(), NoMemory>
    requires in_range { e < length linked.now.events.now }
    requires no_write { (x : ℕ) → op_at linked.now.events.now e ≡ Some (Write x) → ⊥ }
    requires before { IsBefore linked.now.events.now e false clocks.old }
    ensures { OnOk result (IsBefore linked.now.events.now (e + 1) false clocks.new) }
{
    let op = linked.events.op(e);
    let thread = linked.events.thread(e);
    let time = linked.links.local(e);
    let joined = joined_time(linked, e);
    clocks.take_other(alloc, thread, op, time, joined)
}

/// Takes the event e, a write of a shared variable.
#[inline(always)]
fn pass_write(
    clocks: &mut Clocks,
    linked: &Linked<'_>,
    e: u32,
    variable: u32,
) -> Result<(), NoMemory>
    requires in_range { e < length linked.now.events.now }
    requires writes { op_at linked.now.events.now e ≡ Some (Write variable) }
    requires shared { IsShared linked.now.events.now variable }
    requires before { IsBefore linked.now.events.now e false clocks.old }
    ensures { OnOk result (IsBefore linked.now.events.now (e + 1) false clocks.new) }
{
    let thread = linked.events.thread(e);
    let time = linked.links.local(e);
    clocks.take_write(thread, variable, time)
}

/// Whether event e, which reads this variable, tells its thread nothing. Nothing changes then.
#[inline(always)]
fn is_known(clocks: &Clocks, linked: &Linked<'_>, e: u32, variable: u32) -> bool
    requires in_range { e < length linked.now.events.now }
    requires reads { op_at linked.now.events.now e ≡ Some (Read variable) }
    requires before { IsBefore linked.now.events.now e false clocks.now }
    ensures { result ≡ true → IsBefore linked.now.events.now (e + 1) false clocks.now }
{
    let thread = linked.events.thread(e);
    clocks.knows_write(thread, variable)
}

/// Takes the event e. An access mostly tells its thread nothing of others, and that of a variable that isn't shared
/// changes nothing.
#[inline(always)]
pub fn pass(clocks: &mut Clocks, alloc: Global, linked: &Linked<'_>, e: u32) -> Result<(), NoMemory>
    requires in_range { e < length linked.now.events.now }
    requires before { IsBefore linked.now.events.now e false clocks.old }
    ensures { OnOk result (IsBefore linked.now.events.now (e + 1) false clocks.new) }
{
    match linked.events.op(e) {
        Op::Write(variable) => {
            let shared = linked.links.is_shared(variable);
            if !shared {
                return Ok(());
            }
            pass_write(clocks, linked, e, variable)
        }
        Op::Read(variable) => {
            let shared = linked.links.is_shared(variable);
            if !shared {
                return Ok(());
            }
            let known = is_known(clocks, linked, e, variable);
            if known {
                return Ok(());
            }
            pass_other(clocks, alloc, linked, e)
        }
        _ => pass_other(clocks, alloc, linked, e),
    }
}

/// Takes the events from n on up to the end, without the end.
pub fn pass_up_to(
    clocks: &mut Clocks,
    alloc: Global,
    linked: &Linked<'_>,
    n: u32,
    end: u32,
) -> Result<(), NoMemory>
    requires in_range { (n ≤ end) × (end ≤ length linked.now.events.now) }
    requires before { IsBefore linked.now.events.now n false clocks.old }
    ensures { OnOk result (IsBefore linked.now.events.now end false clocks.new) }
{
    for e in n..end {
        pass(clocks, alloc, linked, e)?;
    }
    Ok(())
}

/// The number of the row of what the thread of e, the next event, knows before it.
pub fn row_before(clocks: &Clocks, linked: &Linked<'_>, e: u32) -> u32
    requires in_range { e < length linked.now.events.now }
    requires before { IsBefore linked.now.events.now e false clocks.now }
    ensures { (t : ℕ) → thread_at linked.now.events.now e ≡ Some t
        → IsRowFor linked.now.events.now clocks.now.rows.list t (λ k. BelowPred linked.now.events.now k e) result }
{
    clocks.row_number(linked.events.thread(e))
}

/// The number of events of thread t that are SHB-below the predecessor of e, where the row of this number is what
/// the thread of e knows before it.
pub fn count_below(linked: &Linked<'_>, rows: &RowList, row: u32, e: u32, t: u32) -> u32
    requires in_range { e < length linked.now.events.now }
    requires row { (u : ℕ) → thread_at linked.now.events.now e ≡ Some u
        → IsRowFor linked.now.events.now rows.now.list u (λ k. BelowPred linked.now.events.now k e) row }
    ensures { IsBelowPredCount linked.now.events.now t e result }
{
    if t == linked.events.thread(e) {
        return linked.links.local(e) - 1;
    }
    rows.entry_at(row, t)
}

/// Raises a count for each of the first threads to how many of its events are SHB-below the predecessor of e, where the
/// row of this number is what the thread of e knows before it.
pub fn raise_counts(
    linked: &Linked<'_>,
    rows: &RowList,
    row: u32,
    e: u32,
    counts: &mut Vec<u32>,
) -> Result<(), NoMemory>
    requires in_range { e < length linked.now.events.now }
    requires row { (u : ℕ) → thread_at linked.now.events.now e ≡ Some u
        → IsRowFor linked.now.events.now rows.now.list u (λ k. BelowPred linked.now.events.now k e) row }
    ensures { OnOk result (AreRaisedCounts linked.now.events.now e counts.old.items counts.new.items) }
{
    let size = counts.len();
    let own = linked.events.thread(e);
    let count = item_or(counts.as_slice(), own, 0).max(linked.links.local(e) - 1);
    rows.raise(row, counts)?;
    counts.resize(size, 0)?;
    if (own as usize) < size {
        counts[own as usize] = count;
    }
    Ok(())
}
