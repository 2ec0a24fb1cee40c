//! Tickets, the ring, `stream` and `gather`.
use crate::asserting::{Host, holds, same};
use shb_fan::{
    Closed, FreeGate, Gate, Job, Pass, Ring, Seat, StreamError, Taker, Tickets, Workers, gather,
    stream,
};
use shb_io::NoMemory;
use std::alloc::Global;
use std::sync::Wait;
use std::test::Fail;

fn workers(number: u32) -> Result<Workers, Fail> {
    let Some(workers) = Workers::new(number) else {
        return Err("no such number of workers".into());
    };
    Ok(workers)
}

#[test]
fn numbers_of_workers(rt: HostRuntime) -> Result<(), Fail> {
    holds(&rt, Workers::new(0).is_none(), "no workers");
    holds(&rt, Workers::new(65).is_none(), "too many");
    for number in 1..=64 {
        same(&rt, &workers(number)?.get(), &number, "so many");
    }
    Ok(())
}

/// What is done with one of two passes, and what comes of it.
#[derive(Clone, Copy)]
enum Turn {
    Draws(usize, Option<u64>),
    Stops(usize),
    Asks(usize, bool),
}

/// Tickets for so many numbers and as many passes as are asked for, which take these turns.
fn take_turns(
    rt: &impl Host,
    numbers: u64,
    passes: u32,
    turns: &[Turn],
    wanted: Closed,
) -> Result<(), Fail> {
    let (tickets, mut passes): (Tickets, Vec<Pass>) = Tickets::new(rt.alloc(), numbers, passes)?;
    for turn in turns {
        match *turn {
            Turn::Draws(who, number) => same(
                rt,
                &tickets.draw(&mut passes[who]),
                &number,
                "a draw",
            ),
            Turn::Stops(who) => tickets.stop(&mut passes[who]),
            Turn::Asks(who, stopped) => {
                same(
                    rt,
                    &tickets.stopped(&mut passes[who]),
                    &stopped,
                    "whether it is stopped",
                );
            }
        }
    }
    same(rt, &tickets.close(passes), &wanted, "the end");
    Ok(())
}

#[test]
fn tickets_in_turn(rt: HostRuntime) -> Result<(), Fail> {
    let turns = [
        Turn::Draws(0, Some(0)),
        Turn::Draws(1, Some(1)),
        Turn::Draws(0, Some(2)),
        Turn::Draws(1, None),
        Turn::Draws(0, None),
    ];
    let all = Closed {
        drawn: 3,
        stopped: false,
    };
    take_turns(&rt, 3, 2, &turns, all)?;
    let turns = [
        Turn::Draws(0, Some(0)),
        Turn::Asks(0, false),
        Turn::Stops(1),
        Turn::Asks(0, true),
        Turn::Draws(0, None),
        Turn::Draws(1, None),
    ];
    let one = Closed {
        drawn: 1,
        stopped: true,
    };
    take_turns(&rt, 3, 2, &turns, one)?;
    let none = Closed {
        drawn: 0,
        stopped: false,
    };
    take_turns(
        &rt,
        0,
        1,
        &[Turn::Draws(0, None), Turn::Draws(0, None)],
        none,
    )
}

/// A stop after each number of draws.
#[test]
fn a_stop_in_each_state(rt: HostRuntime) -> Result<(), Fail> {
    for draws in 0..4u64 {
        let mut turns = Vec::new(rt.alloc());
        for k in 0..draws {
            turns.push(Turn::Draws(0, Some(k)))?;
        }
        turns.push(Turn::Stops(1))?;
        for who in [0, 1, 0, 1] {
            turns.push(Turn::Draws(who, None))?;
        }
        let wanted = Closed {
            drawn: draws,
            stopped: true,
        };
        take_turns(&rt, 3, 2, turns.as_slice(), wanted)?;
    }
    Ok(())
}

/// The value of piece k is k. Memory is refused at one piece, where there is one.
#[derive(Drop)]
struct Counted {
    pieces: u64,
    refused: Option<u64>,
    ghost few: { pieces ≤ 2 ^ 60 },
}

fn counted(pieces: u32, refused: Option<u64>) -> Counted {
    Counted {
        pieces: u64::from(pieces),
        refused,
    }
}

impl Job for Counted {
    type Out = u64;

    type Meaning = u64;

    ghost meaning = { λ out. out };

    ghost value = { λ job k. k };

    ghost count = { λ job. job.pieces };

    fn pieces(&self) -> u64 {
        self.pieces
    }

    fn run(&self, alloc: Global, k: u64) -> Result<u64, NoMemory> {
        if self.refused == Some(k) {
            let _none: Vec<u64> = Vec::with_capacity(alloc, 0x7FFF_FFFF_FFFF_FFFF)?;
        }
        Ok(k)
    }
}

/// One seat, of piece 0 and then of piece 64, which have one slot.
#[test]
fn a_ring_passes_one_slot_on(rt: HostRuntime) -> Result<(), Fail> {
    let (ring, mut seats) = Ring::new(rt.alloc(), &counted(65, None))?;
    let seat: &mut Seat<u64, u64> = &mut seats[0];
    same(&rt, &ring.claim(seat, 0), &true, "the first claim");
    same(&rt, &ring.lift(seat, 0), &None, "nothing is placed");
    ring.place(seat, 0, 0);
    same(&rt, &ring.claim(seat, 64), &false, "the slot is full");
    same(
        &rt,
        &ring.claim(seat, 0),
        &false,
        "and isn't empty for its own piece",
    );
    same(&rt, &ring.lift(seat, 0), &Some(0), "the value");
    same(&rt, &ring.lift(seat, 0), &None, "it is lifted once");
    same(&rt, &ring.claim(seat, 64), &true, "the slot is free");
    ring.place(seat, 64, 64);
    same(&rt, &ring.lift(seat, 64), &Some(64), "the second value");
    ring.close(seats);
    Ok(())
}

/// Takes numbers in order, up to one that it refuses.
#[derive(Drop)]
struct Counter {
    taken: u64,
    refuses: Option<u64>,
}

impl Taker<u64> for Counter {
    type Error = u64;

    ghost takes = { λ _ _ _. Unit {0} };

    ghost may_take = { λ _ _ _. Unit {0} };

    ghost refuses = { λ _ _ _ _ _. Unit {0} };

    ghost nothing = { λ _. tt };

    fn take(&mut self, k: u64, out: u64) -> Result<(), u64> {
        if k != self.taken || out != k {
            return Err(u64::MAX);
        }
        self.taken += 1;
        if self.refuses == Some(k) {
            Err(k)
        } else {
            Ok(())
        }
    }
}

#[test]
fn streams_and_gathers(rt: HostRuntime) -> Result<(), Fail> {
    for pieces in [0, 1, 64, 65, 1000] {
        for number in [1, 2, 64] {
            let job = counted(pieces, None);
            let mut counter = Counter {
                taken: 0,
                refuses: None,
            };
            let answer = stream(
                &rt,
                rt.alloc(),
                &job,
                &FreeGate,
                workers(number)?,
                &mut counter,
            );
            same(&rt, &answer, &Ok(()), "the answer");
            same(&rt, &counter.taken, &u64::from(pieces), "values in order");
            let values = gather(&rt, rt.alloc(), &job, &FreeGate, workers(number)?)?;
            same(&rt, &values.len(), &(pieces as usize), "values");
            for (k, value) in values.iter().enumerate() {
                same(&rt, value, &(k as u64), "a value");
            }
        }
    }
    Ok(())
}

#[test]
fn a_taker_refuses_each(rt: HostRuntime) -> Result<(), Fail> {
    for k in 0..70u64 {
        let mut counter = Counter {
            taken: 0,
            refuses: Some(k),
        };
        let answer = stream(
            &rt,
            rt.alloc(),
            &counted(70, None),
            &FreeGate,
            workers(3)?,
            &mut counter,
        );
        same(&rt, &answer, &Err(StreamError::Taker(k)), "the answer");
        same(&rt, &counter.taken, &(k + 1), "calls");
    }
    Ok(())
}

#[test]
fn a_job_is_refused_memory(rt: HostRuntime) -> Result<(), Fail> {
    for k in 0..70u64 {
        let job = counted(70, Some(k));
        let mut counter = Counter {
            taken: 0,
            refuses: None,
        };
        let answer = stream(&rt, rt.alloc(), &job, &FreeGate, workers(3)?, &mut counter);
        holds(
            &rt,
            matches!(answer, Err(StreamError::Memory(_))),
            "the answer",
        );
        holds(&rt, counter.taken <= k, "no value after the refused piece");
        holds(
            &rt,
            gather(&rt, rt.alloc(), &job, &FreeGate, workers(3)?).is_err(),
            "a gather",
        );
    }
    Ok(())
}

/// A gate of a user's own, which lets all pass.
#[derive(Clone, Copy)]
struct Open;

impl Gate for Open {
    fn enter<R: Wait>(&self, rt: &R, k: u64) {
        FreeGate.enter(rt, k);
    }
}

#[test]
fn a_gate_that_is_open(rt: HostRuntime) -> Result<(), Fail> {
    let values = gather(&rt, rt.alloc(), &counted(3, None), &Open, workers(2)?)?;
    same(
        &rt,
        &values.as_slice(),
        &[0u64, 1, 2].as_slice(),
        "the values",
    );
    Ok(())
}
