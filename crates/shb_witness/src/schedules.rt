//! The printed schedule of a race: how far each thread is below the predecessors of the pair, and the events up to there.

ghost use Rattle.std.specs.Prelude.{◌≡◌, ◌↔◌, ◌^◌, ◌-◌, ◌<◌, ◌≤◌, ℕ, Contains, IfOk, length, replicate};
ghost use Rattle.std.specs.List.Sorted.{IsStrictlyIncreasing};
ghost use Rattle.shb_lines.specs.events.Race.{Race};
ghost use Rattle.shb_lines.specs.events.Schedule.{IsPrintedSchedule, IsSchedule};
ghost use Rattle.shb_witness.specs.Cuts.{AreOfThreads, AreWithinCuts, EndsBefore, IsRest, Reach, HasCuts};
ghost use Rattle.shb_witness.specs.Schedules.{AsksBoth};

use crate::threads::{ThreadEvents, not_below, thread_events};
use shb_discipline::Disciplined;
use shb_io::NoMemory;
use shb_lines::Pair;
use shb_links::{Linked, Links};
use shb_positions::Positions;
use shb_stamps::{Order, Ordered};
use std::alloc::Global;

/// As many zeros as this.
fn zeros(alloc: Global, size: u32) -> Result<Vec<u32>, NoMemory>
    ensures { IfOk result (λ zeros. zeros.items ≡ replicate size 0) }
{
    Ok(vec![in alloc; 0; size as usize]?)
}

/// For each thread, the greatest local time of an event that is below a predecessor of the pair,
/// or 0 where none is.
fn cuts_of<O: Order>(
    alloc: Global,
    ordered: &Ordered<'_, O>,
    pair: Pair,
) -> Result<Vec<u32>, NoMemory>
    requires first { pair.first < length ordered.now.disciplined.now.events.now }
    requires second { pair.second < length ordered.now.disciplined.now.events.now }
    requires asked { AsksBoth (O.asks ordered.now.order.now) pair }
    ensures few { IfOk result (λ cuts. length cuts.items < 2 ^ 32) }
    ensures cuts { IfOk result (λ cuts. HasCuts ordered.now.disciplined.now.events.now pair.first pair.second
        ordered.now.disciplined.now.sizes.threads cuts.items) }
{
    let mut cuts = zeros(alloc, ordered.disciplined.sizes.threads)?;
    ordered.order.raise_below(pair.first, &mut cuts)?;
    ordered.order.raise_below(pair.second, &mut cuts)?;
    Ok(cuts)
}

/// The first event that is past the cut of its thread, or the number of events where none is: before it a schedule leaves
/// none out.
fn front_of(threads: &ThreadEvents<'_>, cuts: &[u32]) -> u32
    requires few { length cuts.now < 2 ^ 32 }
    requires threads { AreOfThreads threads.now (length cuts.now) }
    ensures within { result ≤ length threads.now }
    ensures reached { Reach threads.now result cuts.now }
{
    let mut front = threads.count();
    for thread in 0..cuts.len() {
        front = front.min(threads.first_past(thread as u32, cuts[thread]));
    }
    front
}

/// A position from which on no event is within the cut of its thread.
fn end_of(threads: &ThreadEvents<'_>, cuts: &[u32]) -> u32
    requires few { length cuts.now < 2 ^ 32 }
    requires threads { AreOfThreads threads.now (length cuts.now) }
    ensures within { result ≤ length threads.now }
    ensures above { EndsBefore threads.now result cuts.now }
{
    let mut end = 0;
    for thread in 0..cuts.len() {
        end = end.max(threads.after_last(thread as u32, cuts[thread]));
    }
    end
}

/// The printed schedule of a race: the positions, rising, of all events that are SHB-below the
/// predecessor of either access or are it. After it both accesses are next, and it is a correct
/// reordering that keeps happens-before. Which of the schedules of a race is printed is this
/// project's own rule. `NoMemory` where memory was refused.
///
/// It asks the order once about each of the two accesses, for all threads, and goes once over the events.
pub fn schedule<O: Order>(
    alloc: Global,
    order: &O,
    disciplined: &Disciplined<'_>,
    links: &Links<'_>,
    pair: Pair,
) -> Result<Vec<u32>, NoMemory>
    requires of_trace { O.trace order.now ≡ disciplined.now.events.now }
    requires linked { links.now ≡ disciplined.now.events.now }
    requires race { Race disciplined.now.events.now pair.first pair.second }
    requires asked { AsksBoth (O.asks order.now) pair }
    ensures printed { IfOk result (λ s. IsPrintedSchedule disciplined.now.events.now s.items
        pair.first pair.second) }
    ensures schedule { IfOk result (λ s. IsSchedule disciplined.now.events.now s.items
        pair.first pair.second) }
{
    let ordered = Ordered {
        order: &*order,
        disciplined: &*disciplined,
        links: &*links,
    };
    schedule_alone(alloc, &ordered, pair)?.to_vec(alloc)
}

/// So many events of others a schedule may pass for each of its own.
const MOST_PASSED: u64 = 8;

/// Whether it is quicker to look at all events from the front to the end than to sort the schedule's own among them. There are
/// as many of these as the cuts say, but for those of the front.
fn is_dense(cuts: &[u32], front: u32, end: u32) -> bool {
    let mut own = 0u64;
    for cut in cuts {
        own = own.saturating_add(u64::from(*cut));
    }
    let passed = u64::from(end.saturating_sub(front));
    passed / MOST_PASSED <= own.saturating_sub(u64::from(front))
}

/// The events within the cuts, by a look at all from the front to the end.
fn passed<O: Order>(
    alloc: Global,
    ordered: &Ordered<'_, O>,
    cuts: &[u32],
    front: u32,
    end: u32,
) -> Result<Positions, NoMemory>
    requires threads { AreOfThreads ordered.now.disciplined.now.events.now (length cuts.now) }
    requires order { front ≤ end }
    requires within { end ≤ length ordered.now.disciplined.now.events.now }
    requires reached { Reach ordered.now.disciplined.now.events.now front cuts.now }
    requires above { EndsBefore ordered.now.disciplined.now.events.now end cuts.now }
    ensures { IfOk result (AreWithinCuts ordered.now.disciplined.now.events.now cuts.now) }
{
    let mut positions = Positions::first(alloc, front)?;
    for k in front..end {
        let thread = ordered.disciplined.events.thread(k);
        let below = ordered.links.local(k) <= cuts[thread as usize];
        if below {
            positions.push(k)?;
        }
    }
    Ok(positions)
}

/// These numbers, each once and rising.
fn each_once(numbers: Vec<u32>) -> Result<Vec<u32>, NoMemory>
    ensures rising { IfOk result (λ found. IsStrictlyIncreasing found.items) }
    ensures same { (k : ℕ) → IfOk result (λ found. Contains found.items k ↔ Contains numbers.items k) }
{
    let mut found = numbers;
    found.sort()?;
    found.dedup();
    Ok(found)
}

/// The events within the cuts that aren't before the front.
fn rest_of(
    alloc: Global,
    threads: &ThreadEvents<'_>,
    cuts: &[u32],
    front: u32,
) -> Result<Vec<u32>, NoMemory>
    requires few { length cuts.now < 2 ^ 32 }
    ensures rising { IfOk result (λ rest. IsStrictlyIncreasing rest.items) }
    ensures members { (k : ℕ) → IfOk result (λ rest. Contains rest.items k ↔ IsRest threads.now cuts.now front (length cuts.now) k) }
{
    let mut rest = Vec::new(alloc);
    for thread in 0..cuts.len() {
        let events = threads.within(thread as u32, cuts[thread]);
        rest.extend_from_slice(not_below(events, front))?;
    }
    each_once(rest)
}

/// The events within the cuts, those after the front thread by thread: no other event is looked at.
fn gathered(
    alloc: Global,
    threads: &ThreadEvents<'_>,
    cuts: &[u32],
    front: u32,
) -> Result<Positions, NoMemory>
    requires few { length cuts.now < 2 ^ 32 }
    requires short { length threads.now < 2 ^ 32 - 1 }
    requires threads { AreOfThreads threads.now (length cuts.now) }
    requires within { front ≤ length threads.now }
    requires reached { Reach threads.now front cuts.now }
    ensures { IfOk result (AreWithinCuts threads.now cuts.now) }
{
    let rest = rest_of(alloc, threads, cuts, front)?;
    let mut positions = Positions::first(alloc, front)?;
    for at in 0..rest.len() {
        positions.push(rest[at])?;
    }
    Ok(positions)
}

/// The printed schedule of a race, as [`schedule`] gives it, kept as runs of consecutive events. It takes a step for each
/// thread, and a few for each of its events after the first event that it leaves out.
pub(crate) fn schedule_runs<O: Order>(
    alloc: Global,
    ordered: &Ordered<'_, O>,
    threads: &ThreadEvents<'_>,
    pair: Pair,
) -> Result<Positions, NoMemory>
    requires of_trace { threads.now ≡ ordered.now.disciplined.now.events.now }
    requires race { Race ordered.now.disciplined.now.events.now pair.first pair.second }
    requires asked { AsksBoth (O.asks ordered.now.order.now) pair }
    ensures { IfOk result (λ s. IsPrintedSchedule ordered.now.disciplined.now.events.now s pair.first pair.second) }
{
    let found = cuts_of(alloc, ordered, pair)?;
    let cuts = found.as_slice();
    let end = end_of(threads, cuts);
    let front = front_of(threads, cuts).min(end);
    if is_dense(cuts, front, end) {
        return passed(alloc, ordered, cuts, front, end);
    }
    gathered(alloc, threads, cuts, front)
}

/// The same, without the events of each thread.
pub(crate) fn schedule_alone<O: Order>(
    alloc: Global,
    ordered: &Ordered<'_, O>,
    pair: Pair,
) -> Result<Positions, NoMemory>
    requires race { Race ordered.now.disciplined.now.events.now pair.first pair.second }
    requires asked { AsksBoth (O.asks ordered.now.order.now) pair }
    ensures { IfOk result (λ s. IsPrintedSchedule ordered.now.disciplined.now.events.now s pair.first pair.second) }
{
    let threads = thread_events(alloc, Linked::new(ordered.disciplined, ordered.links))?;
    schedule_runs(alloc, ordered, &threads, pair)
}
