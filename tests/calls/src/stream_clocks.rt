//! That the order of a stream takes memory by its names, and answers as before once rows were moved.

use crate::asserting::{holds, same_in_row};
use shb_lines::Op;
use shb_stamps::StreamClocks;
use std::test::Fail;

/// How often the two threads take turns. Each turn makes a row of a thousand entries, 4 MB in all.
const TURNS: u32 = 1000;

/// Two threads, of which each takes and gives back the lock of the other, where a thread of a high number had it first.
fn after_turns(rt: &HostRuntime) -> Result<StreamClocks, Fail> {
    let alloc = rt.alloc();
    let mut clocks = StreamClocks::new(alloc)?;
    clocks.take(alloc, 999, Op::Acquire(0))?;
    clocks.take(alloc, 999, Op::Release(0))?;
    for turn in 0..TURNS {
        clocks.take(alloc, turn % 2, Op::Acquire(0))?;
        clocks.take(alloc, turn % 2, Op::Release(0))?;
    }
    Ok(clocks)
}

/// A thread that is next, another, and how many events of this one are below the last event of the first. The last turn
/// was of thread 1, so thread 0 knows all turns of thread 1 but that one.
const ANSWERS: [(u32, u32, u32); 6] = [
    (0, 0, 1000),
    (0, 1, 998),
    (0, 999, 2),
    (1, 0, 1000),
    (1, 1, 1000),
    (999, 0, 0),
];

#[test]
fn rows_that_nothing_names_are_freed(rt: HostRuntime) -> Result<(), Fail> {
    let clocks = after_turns(&rt)?;
    holds(
        &rt,
        clocks.clocks.rows.size() < 2_000_000,
        "the size of the rows",
    );
    for row in 0..ANSWERS.len() {
        let (thread, other, below) = ANSWERS[row];
        same_in_row(&rt, &clocks.below_next(thread, other), &below, row);
    }
    Ok(())
}
