//! The race test, over any order, and the races of a trace as work in pieces.

ghost use Rattle.std.specs.Prelude.{◌≡◌, ◌++◌, ℕ, ◌<◌, ◌≤◌, true, Some, IfOk, flat_map, length, map, slice_range, List, IsTrue, ◌↔◌};
ghost use Rattle.shb_lines.specs.events.Race.{ends, variable_at, Conflict, Race};
ghost use Rattle.shb_lines.specs.events.Reach.{numbers_where};
ghost use Rattle.shb_stamps.specs.Open.{OpenTrace, is_open};
ghost use Rattle.shb_stamps.specs.Accesses.{accesses_at, accesses_in, variables_in, races_with};
ghost use Rattle.shb_pairs.specs.Races.{AsksOpen, piece_at, pieces_in, races_at};
ghost use Rattle.shb_lines.specs.events.Order.{BelowPred};
ghost use Rattle.shb_lines.specs.events.Schedule.{IsSchedule};

use crate::accesses::{Accesses, Piece};
use shb_discipline::Disciplined;
use shb_fan::Job;
use shb_io::NoMemory;
use shb_lines::{Pair, events_conflict_at};
use shb_links::Links;
use shb_stamps::{Order, Ordered};
use std::alloc::Global;
use std::collections::LinkedList;
use std::marker::Model;

/// Whether an event is SHB-below the predecessor of a later one, or is it: whether its local time in its
/// thread is at most the number of events of that thread that the order answers.
fn is_below_pred<O: Order>(ordered: &Ordered<'_, O>, first: u32, second: u32) -> bool
    requires first { first < length ordered.now.disciplined.now.events.now }
    requires second { second < length ordered.now.disciplined.now.events.now }
    requires asked { O.asks ordered.now.order.now second ≡ true }
    ensures { IsTrue result ↔ BelowPred ordered.now.disciplined.now.events.now first second }
{
    let thread = ordered.disciplined.events.thread(first);
    ordered.links.local(first) <= ordered.order.below_pred(second, thread)
}

/// Whether two events are a race: they conflict, and the earlier one is not SHB-below the
/// predecessor of the later one. This is so exactly where they conflict and have a schedule: a
/// correct reordering of events of the trace that keeps happens-before, after which both are next
/// (schedulable races as in the OOPSLA 2018 paper of Mathur, Kini and Viswanathan). Where they
/// conflict and are no race, the earlier one is SHB-below the predecessor of the later one.
///
/// The events are positions from 0, the earlier one first. The order and the links are of the same
/// trace, and the order can be asked about the later event. Two look-ups, whatever the length of the
/// trace.
pub fn is_race<O: Order>(
    order: &O,
    disciplined: &Disciplined<'_>,
    links: &Links<'_>,
    first: u32,
    second: u32,
) -> bool
    requires of_trace { O.trace order.now ≡ disciplined.now.events.now }
    requires linked { links.now ≡ disciplined.now.events.now }
    requires earlier { first < second }
    requires in_range { second < length disciplined.now.events.now }
    requires asked { O.asks order.now second ≡ true }
    ensures race { IsTrue result ↔ Race disciplined.now.events.now first second }
    ensures schedulable { IsTrue result
        ↔ (Conflict disciplined.now.events.now first second
        × ((s : List ℕ) × IsSchedule disciplined.now.events.now s first second)) }
    ensures below { ¬ IsTrue result → Conflict disciplined.now.events.now first second → BelowPred disciplined.now.events.now first second }
{
    let ordered = Ordered {
        order: &*order,
        disciplined: &*disciplined,
        links: &*links,
    };
    let conflicting = events_conflict_at(disciplined.events, first, second);
    conflicting && !is_below_pred(&ordered, first, second)
}

/// The search for the races of a trace, as work in pieces: the value of a piece is the races whose
/// later access is among its accesses, by the later access, then by the earlier one. The values of all
/// pieces joined are the race list, where a variable that isn't open has no race. Clauses see it as the
/// accesses.
///
/// Each access of a piece is compared with all accesses of its variable before it, so all pieces of a variable
/// with n accesses cost n (n - 1) / 2 comparisons. Running a piece takes memory for its races, at most one
/// for each comparison, and changes nothing.
#[derive(Drop)]
pub struct PairJob<'a, O: Order> {
    ordered: Ordered<'a, O>,
    accesses: &'a Accesses<'a>,
    pieces: &'a [Piece],
}

impl<'a, O: Order> Model for PairJob<'a, O> {
    ghost Value = { OpenTrace };

    ghost view = { λ j. j.accesses.now };

    ghost invariant = { λ j. (j.accesses.now.trace ≡ j.ordered.disciplined.now.events.now) × (j.pieces.now ≡ pieces_in j.accesses.now)
        × AsksOpen (O.asks j.ordered.order.now) j.accesses.now.flags j.ordered.disciplined.now.events.now };
}

/// Adds the races of an access with the accesses of its variable before it.
fn add_races<O: Order>(
    races: &mut Vec<Pair>,
    ordered: &Ordered<'_, O>,
    earlier: &[u32],
    second: u32,
) -> Result<(), NoMemory>
    requires in_range { second < length ordered.now.disciplined.now.events.now }
    requires asked { O.asks ordered.now.order.now second ≡ true }
    requires earlier { (x : ℕ) × (variable_at ordered.now.disciplined.now.events.now second ≡ Some x)
        × (earlier.now ≡ numbers_where (accesses_at ordered.now.disciplined.now.events.now x) second) }
    ensures { IfOk result (λ _. map ends races.new.items
        ≡ map ends races.old.items ++ races_with ordered.now.disciplined.now.events.now second) }
{
    for first in earlier {
        let racing = is_race(
            ordered.order,
            ordered.disciplined,
            ordered.links,
            *first,
            second,
        );
        if racing {
            races.push(Pair {
                first: *first,
                second,
            })?;
        }
    }
    Ok(())
}

impl<'a, O: Order> PairJob<'a, O> {
    /// The search on these pieces of these accesses. The order, the links, the accesses and the pieces
    /// are of the trace, the order can be asked about each access of an open variable, and the pieces are
    /// all of its pieces.
    pub fn new(
        order: &'a O,
        disciplined: &'a Disciplined<'a>,
        links: &'a Links<'a>,
        accesses: &'a Accesses<'a>,
        pieces: &'a [Piece],
    ) -> Self
        requires of_trace { O.trace order.now ≡ disciplined.now.events.now }
        requires linked { links.now ≡ disciplined.now.events.now }
        requires accesses { accesses.now.trace ≡ disciplined.now.events.now }
        requires asked { AsksOpen (O.asks order.now) accesses.now.flags disciplined.now.events.now }
        requires pieces { pieces.now ≡ pieces_in accesses.now }
        ensures { result ≡ accesses.now }
    {
        let ordered = Ordered {
            order,
            disciplined,
            links,
        };
        PairJob {
            ordered,
            accesses,
            pieces,
        }
    }

    /// The piece with this number, from 0.
    fn piece(&self, k: u64) -> Piece
        requires { k < length (pieces_in self.now) }
        ensures accessed { result.variable < variables_in self.now.trace }
        ensures listed { is_open self.now.flags result.variable ≡ true }
        ensures forward { result.from ≤ result.to }
        ensures within { result.to ≤ length (accesses_in self.now.trace result.variable) }
        ensures races { races_at self.now k ≡ flat_map (races_with self.now.trace)
            (slice_range (accesses_in self.now.trace result.variable) result.from result.to) }
    {
        let pieces = self.pieces;
        pieces[k as usize]
    }
}

impl<'a, O: Order> Job for PairJob<'a, O> {
    type Out = Vec<Pair>;

    type Meaning = LinkedList<(u32, u32)>;

    ghost meaning = { λ races. map ends races.items };

    ghost value = { races_at };

    ghost count = { λ a. length (pieces_in a) };

    fn pieces(&self) -> u64 {
        self.pieces.len() as u64
    }

    fn run(&self, alloc: Global, k: u64) -> Result<Vec<Pair>, NoMemory> {
        let piece = self.piece(k);
        let accesses = self.accesses.of(piece.variable);
        let mut races = Vec::new(alloc);
        for index in piece.from as usize..piece.to as usize {
            let second = accesses[index];
            add_races(&mut races, &self.ordered, &accesses[..index], second)?;
        }
        Ok(races)
    }
}
