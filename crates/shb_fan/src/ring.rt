//! Results handed over through 64 slots. The word of a slot is 4 times the number of the piece that it is for, and 1, 2 or 3
//! more once that is claimed, placed, and about to be lifted. The slot of the pieces 0 and 64, empty, whose word is 0:
//!
//! | Call | Answer | Word after it | In the slot |
//! |---|---|---|---|
//! | `claim` 0 | true | 1 | |
//! | `lift` 0 | `None`: the word isn't 2 | 1 | |
//! | `place` 0 | | 2 | the value of 0 |
//! | `claim` 64 | false: the word isn't 256 | 2 | the value of 0 |
//! | `lift` 0 | its value | 256 | |
//! | `claim` 64 | true | 257 | |

ghost use Rattle.std.specs.Prelude.{◌≡◌, ℕ, ◌+◌, ◌*◌, ◌∷◌, ◌++◌, [], ◌<◌, ◌≤◌, All, IsTrue, IsFalse, IfSome, IfNone, IfOk, length, slice_index, sum_by};
ghost use Rattle.std.specs.Vec.{vec_capacity};
ghost use Rattle.std.specs.Slots.{IsFull};
ghost use Rattle.shb_fan.specs.Numbers.{times};
ghost use Rattle.shb_fan.specs.Seated.{IsSeatOf, IsNewSeat, job_of, claimed_of, placed_of, lifted_of};

use crate::job::Job;
use crate::ring_steps::{Claim, CutSeat, Free, Lift, MergeSeats, Place};
use crate::shares::{Ring, Seat};
use atomic_table::{Closed, Table};
use shb_io::NoMemory;
use std::alloc::Global;
use std::sync::Wait;
use std::thread::yield_now;
use std::time::Duration;

const SLOTS: u64 = 64;

/// How many seats there are: one for each worker that there may be, and one for the caller.
const SEATS: u32 = 65;

/// How often a thread that waits looks again before it sleeps.
const LOOKS: u32 = 20;

/// How often the time for which a thread that waits sleeps doubles.
const DOUBLINGS: u32 = 8;

/// The words of 64 empty slots.
fn empty_words(alloc: Global) -> Result<Vec<u64>, NoMemory>
    ensures { IfOk result (λ v. (length v.items ≡ 64) × ((i : ℕ) → i < 64 → slice_index v.items i ≡ 4 * i)) }
{
    let mut words = Vec::with_capacity(alloc, SLOTS as usize)?;
    for slot in 0..SLOTS {
        words.push(4 * slot)?;
    }
    Ok(words)
}

/// Drops what the slots hold.
fn drop_all<S: Drop>(mut closed: Closed<S, Global>)
    requires { IsFull closed.words × IsFull closed.slots }
{
    let mut slot = 0;
    while slot < closed.slot_count() {
        drop(closed.take(slot));
        slot += 1;
    }
    closed.free();
}

impl<T: Drop, M, J: Job<Out = T, Meaning = M>> Ring<T, M, J> {
    /// A ring of 64 slots for the results of the job's pieces, and its 65 seats, in a list that has room
    /// for them again. `NoMemory` where memory was refused.
    pub fn new(alloc: Global, job: &J) -> Result<(Ring<T, M, J>, Vec<Seat<T, M>>), NoMemory>
        ensures ring { IfOk result (λ r. (job_of r.0 ≡ job.now) × (r.0.table.shared.table_id.slots ≡ 64)) }
        ensures seats { IfOk result (λ r. (length r.1.items ≡ 65) × All (IsNewSeat J.value J.count r.0) r.1.items
            × (65 ≤ vec_capacity r.1)) }
    {
        // The number isn't used. By the clauses of the call the job has at most 2 to the 60th pieces, so a
        // slot's word, up to 4 (k + 64), doesn't wrap: every seat says so (`IsSeatOf`).
        let _few = job.pieces();
        let words = empty_words(alloc)?;
        let (table, mut first) = Table::vacant(alloc, words.as_slice(), SLOTS as usize, job)?;
        let mut seats = Vec::with_capacity(alloc, SEATS as usize)?;
        for _ in 1..SEATS {
            let place = table.shared.split_seat::<CutSeat>(&mut first);
            seats.push(Seat { place })?;
        }
        seats.push(Seat { place: first })?;
        Ok((Ring { table }, seats))
    }

    /// Ends the ring, once all seats have come back. What is still placed is dropped. No piece was placed or
    /// lifted twice, only pieces that were placed were lifted, and a piece was placed only where the one 64
    /// before it was lifted.
    pub fn close(self, mut seats: Vec<Seat<T, M>>)
        requires all { length seats.items ≡ 65 }
        requires ours { All (λ s. IsSeatOf J.value J.count self s × (claimed_of s ≡ [])) seats.items }
        ensures placed_once { (k : ℕ) → sum_by (λ s. times k (placed_of s)) seats.items ≤ 1 }
        ensures lifted_once { (k : ℕ) → sum_by (λ s. times k (lifted_of s)) seats.items ≤ 1 }
        ensures placed_before { (k : ℕ)
            → sum_by (λ s. times k (lifted_of s)) seats.items ≤ sum_by (λ s. times k (placed_of s)) seats.items }
        ensures slots { (k : ℕ) → sum_by (λ s. times (k + 64) (placed_of s)) seats.items ≤ sum_by (λ s. times k (lifted_of s)) seats.items }
    {
        let Ring { table } = self;
        let Some(first) = seats.pop() else {
            unreachable!()
        };
        let Seat { place: mut whole } = first;
        while let Some(seat) = seats.pop() {
            let Seat { place } = seat;
            table.shared.join_seat::<MergeSeats>(&mut whole, place);
        }
        drop_all(table.close_with(whole));
    }

    /// One try to get the slot of piece k, which is empty once piece k - 64 has been lifted. Says whether the seat got it.
    pub fn claim(&self, seat: &mut Seat<T, M>, k: u64) -> bool
        requires seat { IsSeatOf J.value J.count self.now seat.old }
        requires piece { k < J.count (job_of self.now) }
        requires free { claimed_of seat.old ≡ [] }
        ensures seat { IsSeatOf J.value J.count self.now seat.new }
        ensures won { IsTrue result → claimed_of seat.new ≡ k ∷ [] }
        ensures lost { IsFalse result → claimed_of seat.new ≡ [] }
        ensures placed { placed_of seat.new ≡ placed_of seat.old }
        ensures lifted { lifted_of seat.new ≡ lifted_of seat.old }
    {
        let empty = 4 * k;
        self.table
            .shared
            .compare_exchange::<Claim>(&mut seat.place, (k % SLOTS) as usize, empty, empty + 1)
            == empty
    }

    /// Lets other threads run: in the first turns by giving the core away, and later by a sleep of 1 to 256
    /// microseconds, unless the word of piece k is the one that is waited for. Nobody is woken early: 64
    /// slots give whoever sleeps so long other results to take, or to be taken.
    pub(crate) fn pause<R: Wait>(&self, rt: &R, k: u64, wanted: u64, turns: u32) {
        if turns < LOOKS {
            yield_now();
            return;
        }
        let slot = (k % SLOTS) as usize;
        let found = self.table.shared.peek(slot);
        if found != wanted {
            let time = Duration::from_nanos(1_000 << (turns - LOOKS).min(DOUBLINGS));
            self.table
                .shared
                .park_timeout(rt, slot, (found % (1 << 32)) as u32, time);
        }
    }

    /// Places the value of the piece that the seat has claimed.
    pub fn place(&self, seat: &mut Seat<T, M>, k: u64, value: T)
        requires seat { IsSeatOf J.value J.count self.now seat.old }
        requires piece { k < J.count (job_of self.now) }
        requires claimed { claimed_of seat.old ≡ k ∷ [] }
        requires value { J.meaning value ≡ J.value (job_of self.now) k }
        ensures seat { IsSeatOf J.value J.count self.now seat.new }
        ensures claimed { claimed_of seat.new ≡ [] }
        ensures placed { placed_of seat.new ≡ placed_of seat.old ++ k ∷ [] }
        ensures lifted { lifted_of seat.new ≡ lifted_of seat.old }
    {
        let slot = (k % SLOTS) as usize;
        let shared = &self.table.shared;
        shared.exchange(&mut seat.place, slot, Some(value));
        shared.store::<Place>(&mut seat.place, slot, 4 * k + 2);
    }

    /// One try to lift the value of piece k, which frees its slot for piece k + 64.
    pub fn lift(&self, seat: &mut Seat<T, M>, k: u64) -> Option<T>
        requires seat { IsSeatOf J.value J.count self.now seat.old }
        requires piece { k < J.count (job_of self.now) }
        ensures seat { IsSeatOf J.value J.count self.now seat.new }
        ensures claimed { claimed_of seat.new ≡ claimed_of seat.old }
        ensures placed { placed_of seat.new ≡ placed_of seat.old }
        ensures some { IfSome result (λ out. (J.meaning out ≡ J.value (job_of self.now) k)
            × (times k (lifted_of seat.old) ≡ 0) × (lifted_of seat.new ≡ lifted_of seat.old ++ k ∷ [])) }
        ensures none { IfNone result (lifted_of seat.new ≡ lifted_of seat.old) }
    {
        let slot = (k % SLOTS) as usize;
        let full = 4 * k + 2;
        let shared = &self.table.shared;
        if shared.compare_exchange::<Lift<J>>(&mut seat.place, slot, full, full + 1) != full {
            return None;
        }
        let out = shared.exchange(&mut seat.place, slot, None);
        shared.store::<Free>(&mut seat.place, slot, 4 * (k + SLOTS));
        out
    }
}
