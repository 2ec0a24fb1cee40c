//! The races of a report, a part at a time: all at once if they are kept, else those of some accesses after the others.

ghost use Rattle.std.specs.Prelude.{◌≡◌, ◌⊎◌, ◌+◌, ◌<◌, ◌≤◌, ◌↔◌, ℕ, All, List, IfOk, IfSome, IsTrue, length, map, slice_range, sum_by, true};
ghost use Rattle.shb_lines.specs.declared.event.Event.{Event};
ghost use Rattle.shb_lines.specs.events.Race.{IsRaceList, Race};
ghost use Rattle.shb_stamps.specs.Listed.{is_listed};
ghost use Rattle.shb_lists.specs.Found.{event_of, races_of};
ghost use Rattle.shb_lists.specs.Given.{AreKnown, HasGiven, HasTurn, IsNext, ListsRaces, parts_left, racing};
ghost use Rattle.shb_lists.specs.Listed.{pair_in};
ghost use Rattle.shb_counts.specs.Settled.{events_of, trace_of};

use crate::by_event::{ListedAccess, accesses_by_event};
use crate::find_job::{Search, find_part};
use crate::listed::{ListedRace, pairs_of};
use shb_counts::{Accesses, RaceCount, Settled, counted_races, turn_length};
use shb_fan::Workers;
use shb_format::{Places, places_of};
use shb_io::NoMemory;
use shb_links::Linked;
use shb_stamps::{ListedRows, at_events};
use std::alloc::Global;
use std::mem;
use std::random::RandomSource;
use std::sync::Wait;
use std::thread::Threads;

/// The races of a report: how many there are, their places, and the races themselves, which are given a part at a time.
#[derive(Drop)]
pub struct RaceList<'a> {
    /// How many races there are.
    pub count: u64,
    /// Their places.
    pub places: Places,
    rest: Rest<'a>,
}

/// The races that are still to come.
#[derive(Drop)]
pub(crate) enum Rest<'a> {
    /// All races.
    Kept(Vec<ListedRace>),
    /// Those of the listed accesses from an index on.
    From {
        known: Known,
        turn: Option<Turn<'a>>,
        next: usize,
    },
    /// None.
    Ended,
}

/// Accesses of open variables, and those of them whose races are listed.
#[derive(Drop)]
pub(crate) struct Known {
    accesses: Accesses,
    /// In the order of the race list.
    list: Vec<ListedAccess>,
    /// So many races are found at once at most, or those of one access.
    most: u64,
}

/// An order that can be asked about the accesses of the list up to an index, from the next one on.
#[derive(Drop)]
pub(crate) struct Turn<'a> {
    order: ListedRows<'a>,
    to: usize,
}

/// The accesses that have races.
fn with_some(alloc: Global, list: &[ListedAccess]) -> Result<Vec<ListedAccess>, NoMemory>
    ensures { IfOk result (λ some. some.items ≡ racing list.now) }
{
    let mut some = Vec::new(alloc);
    for access in list {
        if access.races > 0 {
            some.push(*access)?;
        }
    }
    Ok(some)
}

/// Whether there is room for so many races more.
fn has_room(most: u64, races: u64, more: u32) -> bool
    ensures { IsTrue result ↔ (races + more ≤ most) }
{
    let more = u64::from(more);
    races <= most && more <= most - races
}

/// Where the accesses end that are taken together from an index up to another: those with at most so many races, or one.
fn part_end(list: &[ListedAccess], from: usize, end: usize, most: u64) -> usize
    requires more { from < end }
    requires within { end ≤ length list.now }
    ensures more { from < result }
    ensures within { result ≤ end }
    ensures few { (result ≡ from + 1) ⊎ (sum_by (λ access. access.races) (slice_range list.now from result) ≤ most) }
{
    let mut to = from + 1;
    let mut races = u64::from(list[from].races);
    while to < end {
        if !has_room(most, races, list[to].races) {
            return to;
        }
        races += u64::from(list[to].races);
        to += 1;
    }
    to
}

/// The events of some accesses.
fn events_in(alloc: Global, list: &[ListedAccess]) -> Result<Vec<u32>, NoMemory>
    ensures { IfOk result (λ events. events.items ≡ map event_of list.now) }
{
    let mut events = Vec::with_capacity(alloc, list.len())?;
    for access in list {
        events.push(access.event)?;
    }
    Ok(events)
}

/// The turn of all accesses of a list, if there is an order that can be asked about them.
fn whole_turn<'a>(order: Option<ListedRows<'a>>, list: &[ListedAccess]) -> Option<Turn<'a>>
    ensures { (trace : List Event) → IfSome order.entry (λ ordered. (ordered.trace ≡ trace) × All (λ access. is_listed ordered.events access.event ≡ true) list.now)
        → IfSome result (HasTurn trace list.now 0) }
{
    match order {
        Some(order) => Some(Turn {
            order,
            to: list.len(),
        }),
        None => None,
    }
}

/// The turn that starts with an access.
fn turn_at<'a>(
    alloc: Global,
    settled: &Settled<'a>,
    list: &[ListedAccess],
    from: usize,
) -> Result<Turn<'a>, NoMemory>
    requires known { (accesses : Accesses) × AreKnown (events_of settled.now) accesses list.now }
    requires more { from < length list.now }
    ensures more { IfOk result (λ turn. from < turn.to) }
    ensures turn { IfOk result (HasTurn (events_of settled.now) list.now from) }
{
    let most = turn_length(settled.disciplined.sizes.threads);
    let to = list.len().min(from.saturating_add(most));
    let events = events_in(alloc, &list[from..to])?;
    let linked = Linked::new(settled.disciplined, settled.links);
    let order = at_events(alloc, linked, events.as_slice())?;
    Ok(Turn { order, to })
}

/// The turn of an access: the last one, if it isn't over; else the next one, for which the last one is dropped.
fn turn_from<'a>(
    alloc: Global,
    settled: &Settled<'a>,
    list: &[ListedAccess],
    next: usize,
    last: Option<Turn<'a>>,
) -> Result<Turn<'a>, NoMemory>
    requires known { (accesses : Accesses) × AreKnown (events_of settled.now) accesses list.now }
    requires more { next < length list.now }
    requires last { IfSome last (HasTurn (events_of settled.now) list.now next) }
    ensures more { IfOk result (λ turn. next < turn.to) }
    ensures turn { IfOk result (HasTurn (events_of settled.now) list.now next) }
{
    if let Some(turn) = last {
        if next < turn.to {
            return Ok(turn);
        }
    }
    turn_at(alloc, settled, list, next)
}

impl<'a> RaceList<'a> {
    /// The list of some races of a trace, which are kept.
    ///
    /// # Errors
    ///
    /// `NoMemory` where a growth was refused, or where there were no random numbers for a table.
    pub fn kept<R: RandomSource>(
        rt: &R,
        alloc: Global,
        settled: &Settled<'_>,
        races: Vec<ListedRace>,
    ) -> Result<RaceList<'a>, NoMemory>
        requires { All (λ race. Race (events_of settled.now) race.0 race.1) (map pair_in races.items) }
        ensures { IfOk result (ListsRaces (events_of settled.now) (map pair_in races.items) (trace_of settled.now)) }
    {
        let pairs = pairs_of(alloc, &races)?;
        let places = places_of(rt, alloc, settled.disciplined.trace, &pairs)?;
        Ok(RaceList {
            count: races.len() as u64,
            places,
            rest: Rest::Kept(races),
        })
    }

    /// The list of all races of a trace, of which not more than `most` are found at once, or those of one access. Workers
    /// count them.
    ///
    /// # Errors
    ///
    /// `NoMemory` where a growth was refused, or where there were no random numbers for a table.
    pub fn all<R: Threads + Wait + Sync + RandomSource>(
        rt: &R,
        alloc: Global,
        settled: &Settled<'a>,
        most: u64,
        workers: Workers,
    ) -> Result<RaceList<'a>, NoMemory>
        ensures { IfOk result (λ list. (races : List (ℕ × ℕ)) × IsRaceList (events_of settled.now) races × ListsRaces (events_of settled.now) races (trace_of settled.now) list) }
    {
        let RaceCount {
            races,
            places,
            accesses,
            counts,
            order,
        } = counted_races(rt, alloc, settled, workers)?;
        let by_event = accesses_by_event(alloc, &accesses, counts.as_slice())?;
        let list = with_some(alloc, by_event.as_slice())?;
        let turn = whole_turn(order, list.as_slice());
        Ok(RaceList {
            count: races,
            places,
            rest: Rest::From {
                known: Known {
                    accesses,
                    list,
                    most,
                },
                turn,
                next: 0,
            },
        })
    }

    /// The next races, in the order of the list, as workers find them; nothing after the last ones.
    ///
    /// # Errors
    ///
    /// `NoMemory` where a growth was refused: no more races are given then.
    pub fn next_part<R: Threads + Wait + Sync>(
        &mut self,
        rt: &R,
        alloc: Global,
        settled: &Settled<'a>,
        workers: Workers,
    ) -> Result<Option<Vec<ListedRace>>, NoMemory>
        requires { (races given : List (ℕ × ℕ)) × HasGiven (events_of settled.now) races given self.old.rest }
        ensures next { (races given : List (ℕ × ℕ)) → HasGiven (events_of settled.now) races given self.old.rest
            → IfOk result (IsNext (events_of settled.now) races given self.new.rest) }
        ensures fewer { IfOk result (λ part. IfSome part (λ races. parts_left self.new.rest < parts_left self.old.rest)) }
    {
        match mem::replace(&mut self.rest, Rest::Ended) {
            Rest::Kept(races) => Ok(Some(races)),
            Rest::From { known, turn, next } => {
                let list = known.list.as_slice();
                if next >= list.len() {
                    return Ok(None);
                }
                let turn = turn_from(alloc, settled, list, next, turn)?;
                let to = part_end(list, next, turn.to, known.most);
                let search = Search {
                    order: &turn.order,
                    accesses: &known.accesses,
                    threads: settled.disciplined.sizes.threads,
                };
                let races = find_part(rt, alloc, &search, &list[next..to], workers)?;
                self.rest = Rest::From {
                    known,
                    turn: Some(turn),
                    next: to,
                };
                Ok(Some(races))
            }
            Rest::Ended => Ok(None),
        }
    }
}
