//! The places of races, from sums.

ghost use Rattle.std.specs.Prelude.{◌≡◌, ◌<◌, ◌≤◌, ◌^◌, ◌↔◌, IfOk, IsTrue, List, ℕ, length, map, sum_by};
ghost use Rattle.std.specs.List.Sorted.{IsSorted};
ghost use Rattle.shb_lines.specs.declared.event.Event.{Event};
ghost use Rattle.shb_lines.specs.declared.event.Pair.{Pair};
ghost use Rattle.shb_counts.specs.Joined.{AreFirstRaces, ArePlacesOf, IsStretch, key_of, place_of, sum_cmp};
ghost use Rattle.shb_counts.specs.Sums.{AreSumsOf};

use crate::sums::PlaceSum;
use shb_format::{PlaceCount, Places};
use shb_io::NoMemory;
use shb_lines::Pair;
use std::alloc::Global;

/// How many races a place has, and the first of them. Places are ordered by that race.
#[derive(Clone, Copy, PartialEq, Eq, PartialOrd, Ord)]
pub(crate) struct FirstRace {
    variable: u32,
    later: u32,
    earlier: u32,
    count: u64,
}

/// Whether two sums have one place.
fn same_place(one: PlaceSum, other: PlaceSum) -> bool
    ensures { IsTrue result ↔ (key_of other ≡ key_of one) }
{
    one.first == other.first && one.second == other.second
}

/// Where the sums end that have the place of the one at an index, and follow it.
fn place_end(sums: &[PlaceSum], start: usize) -> usize
    requires { start < length sums.now }
    ensures { IsStretch sums.now start result }
{
    for end in start + 1..sums.len() {
        if !same_place(sums[start], sums[end]) {
            return end;
        }
    }
    sums.len()
}

/// How many races some sums have.
fn count_of(sums: &[PlaceSum]) -> u64
    requires { sum_by (λ sum. sum.count) sums.now < 2 ^ 64 }
    ensures { result ≡ sum_by (λ sum. sum.count) sums.now }
{
    let mut count = 0;
    for sum in sums {
        count += sum.count;
    }
    count
}

/// Of each place how many races it has, and the first of them, from sums in order.
fn first_races(alloc: Global, sums: &[PlaceSum]) -> Result<Vec<FirstRace>, NoMemory>
    requires few { (trace : List Event) × (numbers : List ℕ) × (pairs : List Pair) × AreSumsOf trace numbers pairs sums.now × (length pairs < 2 ^ 64) }
    requires in_order { IsSorted sum_cmp sums.now }
    ensures { (trace : List Event) (numbers : List ℕ) (pairs : List Pair) → AreSumsOf trace numbers pairs sums.now
        → IfOk result (λ races. AreFirstRaces trace numbers pairs races.items) }
{
    let mut races = Vec::new(alloc);
    let mut start = 0;
    while start < sums.len() {
        let end = place_end(sums, start);
        let first = sums[start];
        races.push(FirstRace {
            variable: first.variable,
            later: first.later,
            earlier: first.earlier,
            count: count_of(&sums[start..end]),
        })?;
        start = end;
    }
    Ok(races)
}

/// The places that have these first races, in their order.
fn places_in(alloc: Global, races: &[FirstRace]) -> Result<Places, NoMemory>
    ensures { IfOk result (λ places. places ≡ map place_of races.now) }
{
    let mut counts = Vec::with_capacity(alloc, races.len())?;
    for race in races {
        counts.push(PlaceCount {
            pair: Pair {
                first: race.earlier,
                second: race.later,
            },
            count: race.count,
        })?;
    }
    Ok(Places::new(counts))
}

/// The places of some races, in the order of the first race of each.
///
/// # Errors
///
/// `NoMemory` where a growth was refused.
pub(crate) fn joined(alloc: Global, sums: Vec<PlaceSum>) -> Result<Places, NoMemory>
    requires { (trace : List Event) × (numbers : List ℕ) × (pairs : List Pair) × AreSumsOf trace numbers pairs sums.items × (length pairs < 2 ^ 64) }
    ensures { (trace : List Event) (numbers : List ℕ) (pairs : List Pair) → AreSumsOf trace numbers pairs sums.items
        → IfOk result (ArePlacesOf trace numbers pairs) }
{
    let mut sorted = sums;
    sorted.sort_unstable();
    let mut races = first_races(alloc, sorted.as_slice())?;
    races.sort_unstable();
    places_in(alloc, races.as_slice())
}
