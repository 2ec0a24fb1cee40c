//! The search for the races of some accesses as work in pieces.

ghost use Rattle.std.specs.Prelude.{◌≡◌, ◌+◌, ◌*◌, ◌<◌, ◌≤◌, ◌^◌, ℕ, Bool, List, IfOk, flat_map, length, map, min};
ghost use Rattle.shb_lists.specs.Found.{CanBeFound, piece_races, races_of};
ghost use Rattle.shb_lists.specs.Listed.{pair_in};

use crate::by_event::ListedAccess;
use crate::found::find_races;
use crate::listed::ListedRace;
use shb_counts::Accesses;
use shb_fan::{FreeGate, Job, Workers, gather};
use shb_io::NoMemory;
use shb_stamps::ListedRows;
use std::alloc::Global;
use std::collections::LinkedList;
use std::marker::Model;
use std::sync::Wait;
use std::thread::Threads;

/// A piece has so many accesses at least, if it isn't the only one. The number is this project's own.
const LEAST_FOUND: usize = 8;

/// By what races are found: an order of so many threads, and accesses.
#[derive(Clone, Copy)]
pub struct Search<'a> {
    pub order: &'a ListedRows<'a>,
    pub accesses: &'a Accesses,
    pub threads: u32,
}

/// The search for the races of some accesses, which are cut into pieces of one size.
#[derive(Drop)]
struct FindJob<'a> {
    order: &'a ListedRows<'a>,
    accesses: &'a Accesses,
    threads: u32,
    list: &'a [ListedAccess],
    size: usize,
    pieces: u64,
}

impl<'a> Model for FindJob<'a> {
    ghost use Rattle.std.specs.Prelude.{◌≤◌, ◌*◌, ◌^◌, ℕ, Bool, List, length};
    ghost use Rattle.shb_lists.specs.Found.{CanBeFound, FindWork};

    ghost Value = { FindWork };

    ghost view = { λ j. record { trace = j.order.now.trace; list = j.list.now; size = j.size; pieces = j.pieces } };

    ghost invariant = { λ j. ((flags : List Bool) × (numbers : List ℕ) × CanBeFound j.order.now flags numbers j.accesses.now j.list.now) × (length j.list.now ≤ j.size * j.pieces) × (j.pieces ≤ 2 ^ 60) };
}

/// How many pieces so many accesses are cut into for some workers.
fn piece_count(accesses: usize, workers: Workers) -> usize
    ensures some { 0 < result }
    ensures few { result ≤ 256 }
{
    (accesses / LEAST_FOUND).clamp(1, 4 * workers.get() as usize)
}

/// Where the piece of this number starts, of so many accesses.
fn cut(size: usize, accesses: usize, k: u64) -> usize
    ensures { result ≡ min (size * k) accesses }
{
    size.saturating_mul(k as usize).min(accesses)
}

impl<'a> FindJob<'a> {
    /// The search for the races of these accesses in so many pieces.
    fn new(search: &Search<'a>, list: &'a [ListedAccess], pieces: usize) -> FindJob<'a>
        requires found { (flags : List Bool) × (numbers : List ℕ) × CanBeFound search.now.order.now flags numbers search.now.accesses.now list.now }
        requires some { 0 < pieces }
        requires few { pieces ≤ 256 }
        ensures trace { result.trace ≡ search.now.order.now.trace }
        ensures list { result.list ≡ list.now }
        ensures all { length list.now ≤ result.size * result.pieces }
    {
        FindJob {
            order: search.order,
            accesses: search.accesses,
            threads: search.threads,
            list,
            size: list.len() / pieces + 1,
            pieces: pieces as u64,
        }
    }
}

impl<'a> Job for FindJob<'a> {
    type Out = Vec<ListedRace>;

    type Meaning = LinkedList<(u32, u32)>;

    ghost meaning = { λ races. map pair_in races.items };

    ghost value = { λ work k. piece_races work k };

    ghost count = { λ work. work.pieces };

    fn pieces(&self) -> u64 {
        self.pieces
    }

    fn run(&self, alloc: Global, k: u64) -> Result<Vec<ListedRace>, NoMemory> {
        let start = cut(self.size, self.list.len(), k);
        let end = cut(self.size, self.list.len(), k + 1);
        let list = self.list;
        find_races(
            alloc,
            self.order,
            self.accesses,
            &list[start..end],
            self.threads,
        )
    }
}

/// The races of pieces, one after the other.
fn joined(alloc: Global, pieces: &[Vec<ListedRace>]) -> Result<Vec<ListedRace>, NoMemory>
    ensures { IfOk result (λ races. map pair_in races.items ≡ flat_map (λ piece. map pair_in piece.items) pieces.now) }
{
    let mut races = Vec::new(alloc);
    for piece in pieces {
        races.extend_from_slice(piece.as_slice())?;
    }
    Ok(races)
}

/// Finds the races of some accesses of open variables, in their order, as workers find those of pieces.
///
/// # Errors
///
/// `NoMemory` where a growth was refused.
pub fn find_part<R: Threads + Wait + Sync>(
    rt: &R,
    alloc: Global,
    search: &Search<'_>,
    list: &[ListedAccess],
    workers: Workers,
) -> Result<Vec<ListedRace>, NoMemory>
    requires { (flags : List Bool) × (numbers : List ℕ) × CanBeFound search.now.order.now flags numbers search.now.accesses.now list.now }
    ensures { IfOk result (λ races. map pair_in races.items ≡ races_of search.now.order.now.trace list.now) }
{
    let pieces = piece_count(list.len(), workers);
    if pieces == 1 {
        return find_races(alloc, search.order, search.accesses, list, search.threads);
    }
    let job = FindJob::new(search, list, pieces);
    let found = gather(rt, alloc, &job, &FreeGate, workers)?;
    joined(alloc, found.as_slice())
}
