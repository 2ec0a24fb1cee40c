//! Races as work in pieces, and the pairs that workers make of them.
ghost use Rattle.std.specs.Prelude.{◌≡◌, ◌+◌, ◌^◌, ◌<◌, ◌≤◌, ℕ, All, List, IfOk, [], flat_map, length, map, min, slice_index_or, slice_range};
ghost use Rattle.shb_lines.specs.events.Race.{ends};
ghost use Rattle.shb_lines.specs.text.TraceData.{TraceData};
ghost use Rattle.shb_lists.specs.Listed.{pair_in};
ghost use Rattle.shb_write.specs.Texts.{HasText, piece_text, text_of};

use crate::plan::BlockPlan;
use shb_fan::{Gate, Job, Workers, gather};
use shb_io::NoMemory;
use shb_lines::Pair;
use shb_lists::{ListedRace, pairs_of};
use std::alloc::Global;
use std::collections::LinkedList;
use std::marker::Model;
use std::sync::Wait;
use std::thread::Threads;

/// How many races a piece has at most. The number is this project's own.
const PIECE_LENGTH: usize = 256;

/// Neighbours in a list of races, and how many races come before them.
#[derive(Drop)]
pub(crate) struct Piece<'r> {
    pub(crate) races: &'r [ListedRace],
    pub(crate) before: u64,
}

/// How many races a piece of so many has: an eighth of each worker's share, so that a slow piece holds up no other one.
fn piece_length(races: usize, workers: Workers) -> usize
    ensures some { 0 < result }
    ensures most { result ≤ 256 }
{
    (races / (8 * workers.get() as usize)).clamp(1, PIECE_LENGTH)
}

/// Where the piece of at most so many races ends that starts at an index.
fn piece_end(races: &[ListedRace], start: usize, most: usize) -> usize
    requires more { start < length races.now }
    requires some { 0 < most }
    ensures end { result ≡ min (length races.now) (start + most) }
    ensures more { start < result }
    ensures within { result ≤ length races.now }
{
    races.len().min(start.saturating_add(most))
}

/// The races from one index up to another as a piece, if so many others come before all of them.
fn piece_at(races: &[ListedRace], start: usize, end: usize, before: u64) -> Piece<'_>
    requires ordered { start ≤ end }
    requires within { end ≤ length races.now }
    requires room { length races.now + before < 2 ^ 64 }
    ensures races { result.races.now ≡ slice_range races.now start end }
    ensures before { result.before ≡ start + before }
{
    Piece {
        races: &races[start..end],
        before: start as u64 + before,
    }
}

/// Cuts races, of which so many others come before, into pieces for workers.
pub(crate) fn pieces_of<'r>(
    alloc: Global,
    races: &'r [ListedRace],
    before: u64,
    workers: Workers,
) -> Result<Vec<Piece<'r>>, NoMemory>
    requires room { length races.now + before < 2 ^ 64 }
    ensures races { IfOk result (λ pieces. flat_map (λ piece. piece.races.now) pieces.items ≡ races.now) }
    ensures pieces { (trace : TraceData) → HasText trace before (map pair_in races.now)
        → IfOk result (λ pieces. All (λ piece. HasText trace piece.before (map pair_in piece.races.now)) pieces.items) }
    ensures texts { (trace : TraceData) → IfOk result (λ pieces. flat_map (piece_text trace) pieces.items ≡ text_of trace before (map pair_in races.now)) }
{
    let most = piece_length(races.len(), workers);
    let mut pieces = Vec::new(alloc);
    let mut start = 0;
    while start < races.len() {
        let end = piece_end(races, start, most);
        pieces.push(piece_at(races, start, end, before))?;
        start = end;
    }
    Ok(pieces)
}

/// The making of pairs as work in pieces. Clauses see it as the races of each piece.
#[derive(Drop)]
struct PairsJob<'r> {
    pieces: &'r [Piece<'r>],
}

impl<'r> Model for PairsJob<'r> {
    ghost Value = { List (List (ℕ × ℕ)) };

    ghost view = { λ j. map (λ piece. map pair_in piece.races.now) j.pieces.now };
}

impl<'r> PairsJob<'r> {
    /// The making of pairs of these pieces.
    fn new(pieces: &'r [Piece<'r>]) -> PairsJob<'r>
        ensures { result ≡ map (λ piece. map pair_in piece.races.now) pieces.now }
    {
        PairsJob { pieces }
    }
}

impl<'r> Job for PairsJob<'r> {
    type Out = Vec<Pair>;

    type Meaning = LinkedList<(u32, u32)>;

    ghost meaning = { λ pairs. map ends pairs.items };

    ghost value = { λ pieces k. slice_index_or pieces k [] };

    ghost count = { λ pieces. length pieces };

    fn pieces(&self) -> u64 {
        self.pieces.len() as u64
    }

    fn run(&self, alloc: Global, k: u64) -> Result<Vec<Pair>, NoMemory> {
        let pieces = self.pieces;
        pairs_of(alloc, pieces[k as usize].races)
    }
}

/// Some lists of pairs as one.
fn joined(alloc: Global, parts: &[Vec<Pair>]) -> Result<Vec<Pair>, NoMemory>
    ensures { IfOk result (λ pairs. map ends pairs.items ≡ flat_map (λ part. map ends part.items) parts.now) }
{
    let mut pairs = Vec::new(alloc);
    for part in parts {
        pairs.extend_from_slice(part.as_slice())?;
    }
    Ok(pairs)
}

/// Kept races as pairs, made by workers: pieces of at most 256 races, each after its gate.
pub(crate) fn pairs_in_pieces<R: Threads + Wait + Sync, P: Gate + Sync, W>(
    rt: &R,
    alloc: Global,
    races: &[ListedRace],
    plan: &BlockPlan<'_, '_, P, W>,
) -> Result<Vec<Pair>, NoMemory>
    requires { length races.now < 2 ^ 64 }
    ensures { IfOk result (λ pairs. map ends pairs.items ≡ map pair_in races.now) }
{
    let pieces = pieces_of(alloc, races, 0, plan.workers)?;
    let job = PairsJob::new(pieces.as_slice());
    let parts = gather(rt, alloc, &job, plan.pair, plan.workers)?;
    joined(alloc, parts.as_slice())
}
