//! Threads that really work at once: each number is drawn once, each piece passes its gate before it runs and runs once, each
//! value ends once, a stop ends a wait for a slot, and a refusal of the taker stops the draw.
use crate::asserting::{holds, same};
use crate::held::{TURNS, expect_come, make_held};
use crate::numbers::{all_one, make_numbers, so_many, zeros};
use shb_fan::{FreeGate, Gate, Job, Pass, StreamError, Taker, Tickets, gather, stream};
use shb_io::NoMemory;
use std::alloc::Global;
use std::process::Abort;
use std::sync::Wait;
use std::sync::atomic::{AtomicBool, AtomicU64, Ordering};
use std::test::Fail;
use std::thread::{Threads, for_each_mut, yield_now};

/// Draws to the end, and counts how often each number came.
fn draw_all(tickets: &Tickets, pass: &mut Pass, seen: &[AtomicU64]) {
    for _ in 0..2_000u32 {
        let Some(k) = tickets.draw(pass) else {
            return;
        };
        if let Some(times) = seen.get(k as usize) {
            times.fetch_add(1, Ordering::SeqCst);
        }
    }
}

/// All passes draw, each in a thread of its own.
fn draw_each<R: Threads + Sync>(
    rt: &R,
    tickets: &Tickets,
    passes: &mut [Pass],
    seen: &[AtomicU64],
) {
    let draw = |_: usize, pass: &mut Pass| { draw_all(tickets, pass, seen) };
    for_each_mut(rt, passes, 4, &draw);
}

#[test]
fn four_threads_draw(rt: HostRuntime) -> Result<(), Fail> {
    let seen = zeros(rt.alloc(), 1000)?;
    let (tickets, mut passes) = Tickets::new(rt.alloc(), 1000, 4)?;
    draw_each(&rt, &tickets, passes.as_mut_slice(), seen.as_slice());
    holds(&rt, all_one(seen.as_slice()), "one draw of each number");
    let end = tickets.close(passes);
    same(&rt, &(end.drawn, end.stopped), &(1000, false), "the end");
    Ok(())
}

/// A value that counts its end.
struct Counted<'a> {
    piece: u64,
    ended: &'a AtomicU64,
}

impl<'a> Drop for Counted<'a> {
    fn drop(self) {
        let Counted { piece: _, ended } = self;
        ended.fetch_add(1, Ordering::SeqCst);
    }
}

/// A job whose values are counted, as they are made and as they end.
#[derive(Drop)]
struct Counting<'a> {
    pieces: u64,
    made: &'a AtomicU64,
    ended: &'a AtomicU64,
    ghost few: { pieces ≤ 2 ^ 60 },
}

impl<'a> Job for Counting<'a> {
    type Out = Counted<'a>;

    type Meaning = u64;

    ghost meaning = { λ out. out.piece };

    ghost value = { λ job k. k };

    ghost count = { λ job. job.pieces };

    fn pieces(&self) -> u64 {
        self.pieces
    }

    fn run(&self, _alloc: Global, k: u64) -> Result<Counted<'a>, NoMemory> {
        self.made.fetch_add(1, Ordering::SeqCst);
        Ok(Counted {
            piece: k,
            ended: self.ended,
        })
    }
}

/// Takes values up to one that it refuses, and counts the calls, which are in order.
#[derive(Drop)]
struct Limit {
    refused: u64,
    calls: u64,
}

impl<'a> Taker<Counted<'a>> for Limit {
    type Error = u64;

    ghost takes = { λ _ _ _. Unit {0} };

    ghost may_take = { λ _ _ _. Unit {0} };

    ghost refuses = { λ _ _ _ _ _. Unit {0} };

    ghost nothing = { λ _. tt };

    fn take(&mut self, k: u64, out: Counted<'a>) -> Result<(), u64> {
        drop(out);
        if k != self.calls {
            return Err(u64::MAX);
        }
        self.calls = self.calls.saturating_add(1);
        if k == self.refused {
            return Err(k);
        }
        Ok(())
    }
}

fn seventy<'a>(made: &'a AtomicU64, ended: &'a AtomicU64) -> Counting<'a> {
    Counting {
        pieces: 70,
        made,
        ended,
    }
}

#[test]
fn values_end_once(rt: HostRuntime) -> Result<(), Fail> {
    for k in 0..70 {
        let made = AtomicU64::new(0);
        let ended = AtomicU64::new(0);
        let job = seventy(&made, &ended);
        let mut taker = Limit {
            refused: k,
            calls: 0,
        };
        let answer = stream(
            &rt,
            rt.alloc(),
            &job,
            &FreeGate,
            so_many(&rt, 3),
            &mut taker,
        );
        same(&rt, &answer, &Err(StreamError::Taker(k)), "the answer");
        same(&rt, &taker.calls, &(k + 1), "calls of the taker");
        let made = made.load(Ordering::SeqCst);
        same(
            &rt,
            &ended.load(Ordering::SeqCst),
            &made,
            "values that ended",
        );
    }
    Ok(())
}

/// Of 16 pieces the first seven are held until the nine others have entered.
#[test]
fn seven_held(rt: HostRuntime) -> Result<(), Fail> {
    let job = make_numbers(16, &[], None);
    let gate = make_held(7, 7, 9);
    let values = gather(&rt, rt.alloc(), &job, &gate, so_many(&rt, 8))?;
    same(&rt, &values.len(), &16, "values");
    expect_come(&rt, &gate, "nine others entered");
    let gate = make_held(7, 7, 9);
    let mut taker = Limit {
        refused: 16,
        calls: 0,
    };
    let (made, ended) = (AtomicU64::new(0), AtomicU64::new(0));
    let job = Counting {
        pieces: 16,
        made: &made,
        ended: &ended,
    };
    let answer = stream(&rt, rt.alloc(), &job, &gate, so_many(&rt, 8), &mut taker);
    same(&rt, &answer, &Ok(()), "the answer");
    expect_come(&rt, &gate, "nine others entered");
    Ok(())
}

/// Counts how often each piece enters, and sees whether one ran before it did.
#[derive(Drop)]
struct Watching<'a> {
    runs: &'a [AtomicU64],
    entered: &'a [AtomicU64],
    late: AtomicBool,
}

impl Gate for Watching<'_> {
    fn enter<R: Wait>(&self, _rt: &R, k: u64) {
        if let Some(entered) = self.entered.get(k as usize) {
            entered.fetch_add(1, Ordering::SeqCst);
        }
        if let Some(runs) = self.runs.get(k as usize) {
            if runs.load(Ordering::SeqCst) != 0 {
                self.late.store(true, Ordering::SeqCst);
            }
        }
    }
}

/// Gathers so many pieces, and asserts that each enters, runs after that, and does both once.
fn expect_each_once<R: Threads + Wait + Sync + AllocGlobal + Abort>(
    rt: &R,
    pieces: u32,
    workers: u32,
) -> Result<(), NoMemory> {
    let runs = zeros(rt.alloc(), pieces)?;
    let entered = zeros(rt.alloc(), pieces)?;
    let gate = Watching {
        runs: runs.as_slice(),
        entered: entered.as_slice(),
        late: AtomicBool::new(false),
    };
    let job = make_numbers(pieces, runs.as_slice(), None);
    let _values = gather(rt, rt.alloc(), &job, &gate, so_many(rt, workers))?;
    holds(rt, all_one(runs.as_slice()), "each piece runs once");
    holds(rt, all_one(entered.as_slice()), "each piece enters once");
    let is_late = gate.late.load(Ordering::SeqCst);
    holds(rt, !is_late, "no piece runs before it enters");
    Ok(())
}

#[test]
fn each_passes_its_gate_and_runs_once(rt: HostRuntime) -> Result<(), Fail> {
    for pieces in [20, 600] {
        expect_each_once(&rt, pieces, 1)?;
        expect_each_once(&rt, pieces, 2)?;
    }
    Ok(())
}

/// Piece 0 is held until piece 64 has entered, which then waits for the slot of piece 0.
#[test]
fn stop_ends_a_wait_for_a_slot(rt: HostRuntime) {
    let gate = make_held(1, 64, 1);
    let job = make_numbers(70, &[], Some(0));
    let answer = gather(&rt, rt.alloc(), &job, &gate, so_many(&rt, 2));
    holds(&rt, answer.is_err(), "memory was refused");
    expect_come(&rt, &gate, "piece 64 came to its gate");
}

/// Takes values up to piece 6, which it refuses.
#[derive(Drop)]
struct Refusing<'a> {
    refused: &'a AtomicBool,
}

impl Taker<u64> for Refusing<'_> {
    type Error = u64;

    ghost takes = { λ _ _ _. Unit {0} };

    ghost may_take = { λ _ _ _. Unit {0} };

    ghost refuses = { λ _ _ _ _ _. Unit {0} };

    ghost nothing = { λ _. tt };

    fn take(&mut self, k: u64, _out: u64) -> Result<(), u64> {
        if k == 6 {
            self.refused.store(true, Ordering::SeqCst);
            return Err(k);
        }
        Ok(())
    }
}

/// Holds the pieces from 8 on until piece 6 was refused, and then for some turns each.
#[derive(Drop)]
struct RefusalSeen<'a> {
    refused: &'a AtomicBool,
    entered: AtomicU64,
}

impl Gate for RefusalSeen<'_> {
    fn enter<R: Wait>(&self, _rt: &R, k: u64) {
        self.entered.fetch_add(1, Ordering::SeqCst);
        if k < 8 {
            return;
        }
        for _ in 0..TURNS {
            if self.refused.load(Ordering::SeqCst) {
                break;
            }
            yield_now();
        }
        for _ in 0..1_000u32 {
            yield_now();
        }
    }
}

/// Were the draw not stopped, all 70 pieces would be drawn: the 64 that are left find a slot each.
#[test]
fn refusal_stops_the_draw(rt: HostRuntime) {
    for workers in [1u32, 4] {
        let job = make_numbers(70, &[], None);
        let refused = AtomicBool::new(false);
        let gate = RefusalSeen {
            refused: &refused,
            entered: AtomicU64::new(0),
        };
        let mut taker = Refusing { refused: &refused };
        let workers = so_many(&rt, workers);
        let answer = stream(&rt, rt.alloc(), &job, &gate, workers, &mut taker);
        same(&rt, &answer, &Err(StreamError::Taker(6)), "the answer");
        holds(
            &rt,
            gate.entered.load(Ordering::SeqCst) < 70,
            "not all pieces were drawn",
        );
    }
}
