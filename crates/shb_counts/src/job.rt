//! The counting of the races of some accesses as work in pieces.

ghost use Rattle.std.specs.Prelude.{◌≡◌, ◌+◌, ◌*◌, ◌<◌, ◌≤◌, ◌++◌, ℕ, Bool, [], All, IfOk, List, OnOk, flat_map, length, min, slice_range};
ghost use Rattle.shb_lines.specs.declared.event.Event.{Event};
ghost use Rattle.shb_counts.specs.Pieces.{IsPieceOf, piece_of};
ghost use Rattle.shb_counts.specs.Runs.{AreCountable};
ghost use Rattle.shb_counts.specs.Sums.{IsCounted};

use crate::accesses::{Access, Accesses};
use crate::runs::{Counted, count_races};
use shb_fan::{FreeGate, Job, Workers, gather};
use shb_io::NoMemory;
use shb_lines::Event;
use shb_stamps::ListedRows;
use std::alloc::Global;
use std::collections::LinkedList;
use std::marker::Model;
use std::sync::Wait;
use std::thread::Threads;

/// A piece has so many accesses at least, if it isn't the only one. The number is this project's own.
const LEAST_COUNTED: usize = 512;

/// The accesses of a trace, and the numbers of their locations.
#[derive(Clone, Copy)]
pub(crate) struct Located<'a> {
    pub(crate) accesses: &'a Accesses,
    /// By event.
    pub(crate) numbers: &'a [u32],
    /// How many locations there are.
    pub(crate) locations: u32,
    /// How many threads there are.
    pub(crate) threads: u32,
}

/// What is counted of some accesses. Contracts see it with them.
#[derive(Drop)]
pub(crate) struct CountedPiece<'a> {
    order: &'a ListedRows<'a>,
    numbers: &'a [u32],
    list: &'a [Access],
    counted: Counted,
}

impl<'a> Model for CountedPiece<'a> {
    ghost use Rattle.shb_counts.specs.Pieces.{PieceCount};
    ghost use Rattle.shb_counts.specs.Sums.{IsCounted};

    ghost Value = { PieceCount };

    ghost view = { λ p. record { trace = p.order.now.trace; numbers = p.numbers.now; list = p.list.now; counted = p.counted } };

    ghost invariant = { λ p. IsCounted p.order.now.trace p.numbers.now p.list.now p.counted };
}

impl<'a> CountedPiece<'a> {
    /// What is counted.
    fn counted(&self) -> &Counted
        ensures value { result.now ≡ self.now.counted }
        ensures counted { IsCounted self.now.trace self.now.numbers self.now.list result.now }
    {
        &self.counted
    }
}

/// The counting of the races of some accesses, which are cut into pieces of one size.
#[derive(Drop)]
pub(crate) struct CountJob<'a> {
    order: &'a ListedRows<'a>,
    located: Located<'a>,
    list: &'a [Access],
    size: usize,
    pieces: u64,
}

impl<'a> Model for CountJob<'a> {
    ghost use Rattle.std.specs.Prelude.{◌≤◌, ◌*◌, ◌^◌, Bool, List, length};
    ghost use Rattle.shb_counts.specs.Pieces.{CountWork};
    ghost use Rattle.shb_counts.specs.Runs.{AreCountable};

    ghost Value = { CountWork };

    ghost view = { λ j. record { trace = j.order.now.trace; numbers = j.located.numbers.now; list = j.list.now; size = j.size; pieces = j.pieces } };

    ghost invariant = { λ j. ((flags : List Bool) × AreCountable j.order.now flags j.located.numbers.now j.located.accesses.now j.list.now) × (length j.list.now ≤ j.size * j.pieces) × (j.pieces ≤ 2 ^ 60) };
}

/// How many pieces so many accesses are cut into for some workers.
fn piece_count(accesses: usize, workers: Workers) -> usize
    ensures some { 0 < result }
    ensures few { result ≤ 256 }
{
    (accesses / LEAST_COUNTED).clamp(1, 4 * workers.get() as usize)
}

/// Where the piece of this number starts, of so many accesses.
fn cut(size: usize, accesses: usize, k: u64) -> usize
    ensures { result ≡ min (size * k) accesses }
{
    size.saturating_mul(k as usize).min(accesses)
}

impl<'a> CountJob<'a> {
    /// The counting of the races of these accesses in so many pieces.
    pub(crate) fn new(
        order: &'a ListedRows<'a>,
        located: Located<'a>,
        list: &'a [Access],
        pieces: usize,
    ) -> CountJob<'a>
        requires countable { (flags : List Bool) × AreCountable order.now flags located.numbers.now located.accesses.now list.now }
        requires some { 0 < pieces }
        requires few { pieces ≤ 256 }
        ensures trace { result.trace ≡ order.now.trace }
        ensures numbers { result.numbers ≡ located.entry.numbers.now }
        ensures list { result.list ≡ list.now }
        ensures all { length list.now ≤ result.size * result.pieces }
    {
        CountJob {
            order,
            located,
            list,
            size: list.len() / pieces + 1,
            pieces: pieces as u64,
        }
    }
}

impl<'a> Job for CountJob<'a> {
    type Out = CountedPiece<'a>;

    type Meaning = (LinkedList<Event>, LinkedList<u32>, LinkedList<Access>);

    ghost meaning = { λ piece. (piece.trace, piece.numbers, piece.list) };

    ghost value = { λ work k. (work.trace, work.numbers, piece_of work k) };

    ghost count = { λ work. work.pieces };

    fn pieces(&self) -> u64 {
        self.pieces
    }

    fn run(&self, alloc: Global, k: u64) -> Result<CountedPiece<'a>, NoMemory> {
        let start = cut(self.size, self.list.len(), k);
        let end = cut(self.size, self.list.len(), k + 1);
        let list = self.list;
        counted_piece(alloc, self.order, self.located, &list[start..end])
    }
}

/// Counts the races of some accesses.
fn counted_piece<'a>(
    alloc: Global,
    order: &'a ListedRows<'a>,
    located: Located<'a>,
    list: &'a [Access],
) -> Result<CountedPiece<'a>, NoMemory>
    requires { (flags : List Bool) × AreCountable order.now flags located.numbers.now located.accesses.now list.now }
    ensures trace { IfOk result (λ piece. piece.trace ≡ order.now.trace) }
    ensures numbers { IfOk result (λ piece. piece.numbers ≡ located.entry.numbers.now) }
    ensures list { IfOk result (λ piece. piece.list ≡ list.now) }
{
    let counted = count_races(
        alloc,
        order,
        located.accesses,
        list,
        located.threads,
        located.locations,
    )?;
    Ok(CountedPiece {
        order,
        numbers: located.numbers,
        list,
        counted,
    })
}

impl Counted {
    /// Nothing of no accesses.
    pub(crate) fn new(alloc: Global) -> Counted
        ensures { (trace : List Event) (numbers : List ℕ) → IsCounted trace numbers [] result }
    {
        Counted {
            races: Vec::new(alloc),
            sums: Vec::new(alloc),
        }
    }

    /// Adds what is counted of the accesses after these.
    pub(crate) fn add(&mut self, more: &Counted) -> Result<(), NoMemory>
        ensures { (trace : List Event) (numbers : List ℕ) (list rest : List Access) → IsCounted trace numbers list self.old → IsCounted trace numbers rest more.now
            → OnOk result (IsCounted trace numbers (list ++ rest) self.new) }
    {
        self.races.extend_from_slice(more.races.as_slice())?;
        self.sums.extend_from_slice(more.sums.as_slice())?;
        Ok(())
    }
}

/// What is counted of pieces, one after the other.
fn joined_pieces(alloc: Global, pieces: &[CountedPiece<'_>]) -> Result<Counted, NoMemory>
    ensures { (trace : List Event) (numbers : List ℕ) → All (IsPieceOf trace numbers) pieces.now
        → IfOk result (IsCounted trace numbers (flat_map (λ piece. piece.list) pieces.now)) }
{
    let mut counted = Counted::new(alloc);
    for piece in pieces {
        counted.add(piece.counted())?;
    }
    Ok(counted)
}

/// Counts the races of some accesses, as workers count those of pieces.
///
/// # Errors
///
/// `NoMemory` where a growth was refused.
pub(crate) fn counted_by_workers<R: Threads + Wait + Sync>(
    rt: &R,
    alloc: Global,
    order: &ListedRows<'_>,
    located: Located<'_>,
    list: &[Access],
    workers: Workers,
) -> Result<Counted, NoMemory>
    requires { (flags : List Bool) × AreCountable order.now flags located.numbers.now located.accesses.now list.now }
    ensures { IfOk result (IsCounted order.now.trace located.entry.numbers.now list.now) }
{
    let pieces = piece_count(list.len(), workers);
    if pieces == 1 {
        return count_races(
            alloc,
            order,
            located.accesses,
            list,
            located.threads,
            located.locations,
        );
    }
    let job = CountJob::new(order, located, list, pieces);
    let counted = gather(rt, alloc, &job, &FreeGate, workers)?;
    joined_pieces(alloc, counted.as_slice())
}
