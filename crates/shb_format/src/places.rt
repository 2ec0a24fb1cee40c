//! The places of races: pairs of locations.
ghost use Rattle.std.specs.Prelude.{◌≡◌, ◌+◌, ◌-◌, ◌<◌, ◌^◌, [], All, None, Some, length, map, option_map, slice_get, IfOk, IfSome, OnOk};
ghost use Rattle.std.specs.Option.{is_some, option_copied};
ghost use Rattle.shb_lines.specs.text.TraceData.{TraceData};
ghost use Rattle.shb_format.specs.Keyed.{AreKeyed, counted_of, with_keyed, with_more, with_new};
ghost use Rattle.shb_format.specs.Places.{IsPairOf, IsPlaceOf, counts_in, places_of_pairs, with_one_more};

use crate::locations::Locations;
use indexmap::IndexMap;
use shb_io::NoMemory;
use shb_lines::{HashKeys, Pair, Trace};
use std::alloc::Global;
use std::marker::Model;
use std::random::RandomSource;

/// A place: the first pair that has it, and how many pairs have it.
#[derive(Clone, Copy, Debug, PartialEq, Eq)]
pub struct PlaceCount {
    /// The first pair of the list that has these locations.
    pub pair: Pair,
    /// How many pairs of the list have them.
    pub count: u64,
}

/// The places so far, by the numbers of their two locations.
type Table = IndexMap<(usize, usize), PlaceCount, HashKeys>;

/// What is counted of a place with one pair more.
fn counted_with(known: Option<&PlaceCount>, pair: Pair) -> PlaceCount
    requires { IfSome known (λ counted. counted.now.count < 2 ^ 64 - 1) }
    ensures { result ≡ with_one_more (option_copied known.entry) pair }
{
    match known {
        Some(counted) => PlaceCount {
            pair: counted.pair,
            count: counted.count + 1,
        },
        None => PlaceCount { pair, count: 1 },
    }
}

/// What is counted of the places in a table.
fn place_counts(alloc: Global, table: &Table) -> Result<Vec<PlaceCount>, NoMemory>
    ensures { IfOk result (λ counts. counts.items ≡ map (λ e. e.1) table.now.entries) }
{
    let mut counts = Vec::with_capacity(alloc, table.len())?;
    for counted in table.values() {
        counts.push(*counted)?;
    }
    Ok(counts)
}

/// The places of a list of pairs: each different pair of locations once, in the order of the first pair
/// that has it. Places have numbers from 0.
#[derive(Drop)]
pub struct Places {
    counts: Vec<PlaceCount>,
}

impl Model for Places {
    ghost use Rattle.std.specs.Prelude.{List};
    ghost use Rattle.shb_format.specs.declared.places.PlaceCount.{PlaceCount};

    ghost Value = { List PlaceCount };

    ghost view = { λ p. p.counts.items };
}

/// Places by the numbers of their two locations, in the order in which they came. Contracts see each with its
/// two numbers.
pub struct PlaceTable {
    table: Table,
}

// By hand: a derived one stands in each function that drops it, with a step for each part of the table.
impl Drop for PlaceTable {
    fn drop(self) {
        let PlaceTable { table: _ } = self;
    }
}

impl Model for PlaceTable {
    ghost use Rattle.std.specs.Prelude.{List};
    ghost use Rattle.shb_format.specs.Keyed.{Keyed};

    ghost Value = { List Keyed };

    ghost view = { λ t. t.table.entries };
}

impl PlaceTable {
    /// A table without places. `NoMemory` where there were no random numbers for it.
    pub fn new<R: RandomSource>(rt: &R, alloc: Global) -> Result<PlaceTable, NoMemory>
        ensures { IfOk result (λ table. table ≡ []) }
    {
        Ok(PlaceTable {
            table: IndexMap::with_hasher(alloc, HashKeys::new(rt)?),
        })
    }

    /// Counts a pair whose locations have these numbers. `NoMemory` where a growth was refused.
    pub fn add(&mut self, key: (usize, usize), pair: Pair) -> Result<(), NoMemory>
        requires { IfSome (counted_of self.old key) (λ counted. counted.count < 2 ^ 64 - 1) }
        ensures { OnOk result (self.new ≡ with_keyed self.old key pair) }
    {
        let counted = counted_with(self.table.get(&key), pair);
        self.table.insert(key, counted)?;
        Ok(())
    }

    /// Counts so many pairs more of the place with these numbers, if it is in the table, and says whether it is.
    pub fn add_many(&mut self, key: (usize, usize), more: u64) -> bool
        requires { IfSome (counted_of self.old key) (λ counted. counted.count + more < 2 ^ 64) }
        ensures known { result ≡ is_some (counted_of self.old key) }
        ensures added { self.new ≡ with_more self.old key more }
    {
        let Some(at) = self.table.get_index_of(&key) else {
            return false;
        };
        if let Some(counted) = self.table.get_index_mut(at) {
            counted.count += more;
        }
        true
    }

    /// Puts a place last, unless one with these numbers is there. `NoMemory` where a growth was refused.
    pub fn add_new(&mut self, key: (usize, usize), counted: PlaceCount) -> Result<(), NoMemory>
        ensures { OnOk result (self.new ≡ with_new self.old key counted) }
    {
        if !self.table.contains_key(&key) {
            self.table.insert(key, counted)?;
        }
        Ok(())
    }

    /// How many places there are.
    pub fn len(&self) -> usize
        ensures { result ≡ length self.now }
    {
        self.table.len()
    }

    /// The numbers of the two locations of place `q`, counted from 0, and what is counted of it.
    pub fn place(&self, q: usize) -> ((usize, usize), PlaceCount)
        requires { q < length self.now }
        ensures { slice_get self.now q ≡ Some result }
    {
        let Some((key, counted)) = self.table.get_index(q) else {
            unreachable!()
        };
        (*key, *counted)
    }

    /// What is counted of the places so far. `NoMemory` where memory was refused.
    pub fn to_places(&self, alloc: Global) -> Result<Places, NoMemory>
        ensures { IfOk result (λ places. places ≡ map (λ place. place.1) self.now) }
    {
        Ok(Places {
            counts: place_counts(alloc, &self.table)?,
        })
    }
}

/// Counts some pairs of a trace in an empty table, by the numbers of their locations.
fn add_pairs<'t>(
    table: &mut PlaceTable,
    locations: &mut Locations<'t>,
    trace: &'t Trace,
    pairs: &[Pair],
) -> Result<(), NoMemory>
    requires pairs { All (IsPairOf trace.now) pairs.now }
    requires empty { table.old ≡ [] }
    ensures { OnOk result (AreKeyed locations.new table.new (places_of_pairs trace.now pairs.now)) }
{
    locations.are_different();
    for pair in pairs {
        let first = locations.number_of(trace.location(pair.first))?;
        let second = locations.number_of(trace.location(pair.second))?;
        table.add((first, second), *pair)?;
    }
    Ok(())
}

/// The places of a list of pairs: of each pair the location of its first event and that of its second.
///
/// Both events of each pair must be events of the trace.
///
/// # Errors
///
/// `NoMemory` where a growth was refused, or where there were no random numbers for a table.
pub fn places_of<R: RandomSource>(
    rt: &R,
    alloc: Global,
    trace: &Trace,
    pairs: &[Pair],
) -> Result<Places, NoMemory>
    requires { All (IsPairOf trace.now) pairs.now }
    ensures places { IfOk result (λ places. places ≡ counts_in (places_of_pairs trace.now pairs.now)) }
    ensures in_range { IfOk result (λ places. All (IsPlaceOf trace.now) places) }
{
    let mut locations = Locations::new(rt, alloc)?;
    let mut table = PlaceTable::new(rt, alloc)?;
    add_pairs(&mut table, &mut locations, trace, pairs)?;
    let places = table.to_places(alloc)?;
    Ok(places)
}

impl Places {
    /// Places with these counts.
    pub fn new(counts: Vec<PlaceCount>) -> Places
        ensures { result ≡ counts.items }
    {
        Places { counts }
    }

    /// How many places there are.
    pub fn len(&self) -> u64
        ensures { result ≡ length self.now }
    {
        self.counts.len() as u64
    }

    /// How many pairs have a place.
    pub fn count(&self, q: u64) -> u64
        requires { q < length self.now }
        ensures { option_map (λ place. place.count) (slice_get self.now q) ≡ Some result }
    {
        self.counts[q as usize].count
    }

    /// The first pair of the list that has a place.
    pub fn pair(&self, q: u64) -> Pair
        requires { q < length self.now }
        ensures { option_map (λ place. place.pair) (slice_get self.now q) ≡ Some result }
    {
        self.counts[q as usize].pair
    }

    /// The places, in order.
    pub fn as_slice(&self) -> &[PlaceCount]
        ensures { result.now ≡ self.now }
    {
        self.counts.as_slice()
    }
}
