//! The number of all races, and their places.

ghost use Rattle.std.specs.Prelude.{◌≡◌, ◌≢◌, ◌+◌, ◌<◌, ◌≤◌, ◌^◌, ℕ, All, IfOk, IfSome, List, flat_map, length, map, slice_index_or, slice_range, sum};
ghost use Rattle.shb_lines.specs.events.Race.{IsRaceList};
ghost use Rattle.shb_format.specs.Places.{counts_in, places_of_pairs};
ghost use Rattle.shb_format.specs.Report.{pair_of};
ghost use Rattle.shb_stamps.specs.Accesses.{races_with};
ghost use Rattle.shb_counts.specs.Accesses.{AreAccesses};
ghost use Rattle.shb_counts.specs.Runs.{CanAsk};
ghost use Rattle.shb_counts.specs.Settled.{events_of, trace_of};
ghost use Rattle.shb_counts.specs.Sums.{IsCounted};

use crate::accesses::{Access, Accesses};
use crate::job::{Located, counted_by_workers};
use crate::numbering::location_numbers;
use crate::places::joined;
use crate::runs::Counted;
use crate::settled::Settled;
use shb_fan::Workers;
use shb_format::Places;
use shb_io::NoMemory;
use shb_links::Linked;
use shb_stamps::{ListedRows, at_events};
use std::alloc::Global;
use std::random::RandomSource;
use std::sync::Wait;
use std::thread::Threads;

/// So many numbers are kept of what accesses know: 256 MiB. The number is this project's own.
const MOST_KEPT: usize = 1 << 26;

/// So many accesses are taken together, however many threads there are. The number is this project's own.
const LEAST_TAKEN: usize = 1024;

/// How many races there are, and their places; and the accesses that have them.
#[derive(Drop)]
pub struct RaceCount<'a> {
    /// How many races there are.
    pub races: u64,
    /// Their places.
    pub places: Places,
    /// The accesses of open variables.
    pub accesses: Accesses,
    /// How many races each access of the list has.
    pub counts: Vec<u32>,
    /// The order that they were counted by, if it was one: it can be asked about each access of the list.
    pub order: Option<ListedRows<'a>>,
}

/// How many accesses of a trace of so many threads are taken together.
pub fn turn_length(threads: u32) -> usize
    ensures { 0 < result }
{
    (MOST_KEPT / (threads as usize).max(1)).max(LEAST_TAKEN)
}

/// Where the accesses end that are taken together from an index on.
fn turn_end(accesses: usize, from: usize, most: usize) -> usize
    requires more { from < accesses }
    requires some { 0 < most }
    ensures more { from < result }
    ensures within { result ≤ accesses }
{
    accesses.min(from.saturating_add(most))
}

/// The events of some accesses.
fn events_in(alloc: Global, list: &[Access]) -> Result<Vec<u32>, NoMemory>
    ensures { IfOk result (λ events. events.items ≡ map (λ access. access.event) list.now) }
{
    let mut events = Vec::with_capacity(alloc, list.len())?;
    for access in list {
        events.push(access.event)?;
    }
    Ok(events)
}

/// Counts the races of some accesses that follow each other in the list, by the order of the trace at their events,
/// which it gives too.
fn count_turn<'a, R: Threads + Wait + Sync>(
    rt: &R,
    alloc: Global,
    settled: &Settled<'a>,
    located: Located<'_>,
    list: &[Access],
    workers: Workers,
) -> Result<(Counted, ListedRows<'a>), NoMemory>
    requires accesses { AreAccesses (events_of settled.now) settled.now.flags.now located.numbers.now located.accesses.now }
    requires list { (from : ℕ) × (to : ℕ) × (list.now ≡ slice_range located.accesses.now.list.items from to) }
    ensures counted { IfOk result (λ both. IsCounted (events_of settled.now) located.entry.numbers.now list.now both.0) }
    ensures order { IfOk result (λ both. CanAsk (events_of settled.now) list.now both.1) }
{
    let events = events_in(alloc, list)?;
    let linked = Linked::new(settled.disciplined, settled.links);
    let order = at_events(alloc, linked, events.as_slice())?;
    let counted = counted_by_workers(rt, alloc, &order, located, list, workers)?;
    Ok((counted, order))
}

/// Counts the races of all accesses, some after the others. If it takes all together, it gives the order too.
fn count_all<'a, R: Threads + Wait + Sync>(
    rt: &R,
    alloc: Global,
    settled: &Settled<'a>,
    located: Located<'_>,
    workers: Workers,
) -> Result<(Counted, Option<ListedRows<'a>>), NoMemory>
    requires { AreAccesses (events_of settled.now) settled.now.flags.now located.numbers.now located.accesses.now }
    ensures counted { IfOk result (λ both. IsCounted (events_of settled.now) located.entry.numbers.now located.entry.accesses.now.list.items both.0) }
    ensures order { IfOk result (λ both. IfSome both.1 (CanAsk (events_of settled.now) located.entry.accesses.now.list.items)) }
{
    let list = located.accesses.list.as_slice();
    let most = turn_length(located.threads);
    if list.len() <= most {
        let (counted, order) = count_turn(rt, alloc, settled, located, list, workers)?;
        return Ok((counted, Some(order)));
    }
    let mut counted = Counted::new(alloc);
    let mut from = 0;
    while from < list.len() {
        let to = turn_end(list.len(), from, most);
        let turn = count_turn(rt, alloc, settled, located, &list[from..to], workers)?;
        counted.add(&turn.0)?;
        from = to;
    }
    Ok((counted, None))
}

/// How many races some accesses have.
fn total(races: &[u32]) -> u64
    requires { sum races.now < 2 ^ 64 }
    ensures { result ≡ sum races.now }
{
    let mut total = 0;
    for more in races {
        total += u64::from(*more);
    }
    total
}

/// How many races a trace has, and their places.
///
/// Accesses of open variables are numbered by location and listed. As many of them as rows can be kept for are taken
/// together: a sweep keeps what each of them knows, and workers count the races of pieces of them. Memory: 4 bytes per
/// event, 64 per access of an open variable, 256 MiB and what a sweep takes for the rows, some 64 per location and for each
/// sum, and for each worker 16 per access of one variable.
///
/// # Errors
///
/// `NoMemory` where a growth was refused, or where there were no random numbers for a table.
pub fn counted_races<'a, R: Threads + Wait + Sync + RandomSource>(
    rt: &R,
    alloc: Global,
    settled: &Settled<'a>,
    workers: Workers,
) -> Result<RaceCount<'a>, NoMemory>
    ensures races { (listed : List (ℕ × ℕ)) → IsRaceList (events_of settled.now) listed → IfOk result (λ c. c.races ≡ length listed) }
    ensures places { (listed : List (ℕ × ℕ)) → IsRaceList (events_of settled.now) listed
        → IfOk result (λ c. c.places ≡ counts_in (places_of_pairs (trace_of settled.now) (map pair_of listed))) }
    ensures known { IfOk result (λ c. (numbers : List ℕ) × AreAccesses (events_of settled.now) settled.now.flags.now numbers c.accesses
        × (c.counts.items ≡ map (λ access. length (races_with (events_of settled.now) access.event)) c.accesses.list.items)) }
    ensures order { IfOk result (λ c. IfSome c.order (CanAsk (events_of settled.now) c.accesses.list.items)) }
{
    let numbered = location_numbers(rt, alloc, settled.disciplined, settled.flags)?;
    numbered.locations.are_different();
    let accesses = Accesses::of(alloc, settled, numbered.numbers.as_slice())?;
    let located = Located {
        accesses: &accesses,
        numbers: numbered.numbers.as_slice(),
        locations: numbered.locations.len() as u32,
        threads: settled.disciplined.sizes.threads,
    };
    let (counted, order) = count_all(rt, alloc, settled, located, workers)?;
    let Counted {
        races: counts,
        sums,
    } = counted;
    let races = total(counts.as_slice());
    let places = joined(alloc, sums)?;
    Ok(RaceCount {
        races,
        places,
        accesses,
        counts,
        order,
    })
}
