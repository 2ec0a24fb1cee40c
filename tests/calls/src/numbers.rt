//! A job whose values are numbers, and counters that threads count up.

use shb_fan::{Job, Workers};
use shb_io::NoMemory;
use std::alloc::Global;
use std::process::Abort;
use std::sync::atomic::{AtomicU64, Ordering};

/// The value of piece k is k. It counts how often each piece ran that has a counter; memory is refused
/// at one piece, where there is one.
#[derive(Drop)]
pub struct Numbers<'a> {
    pieces: u64,
    runs: &'a [AtomicU64],
    refused: Option<u64>,
    ghost few: { pieces ≤ 2 ^ 60 },
}

impl Job for Numbers<'_> {
    type Out = u64;

    type Meaning = u64;

    ghost meaning = { λ out. out };

    ghost value = { λ job k. k };

    ghost count = { λ job. job.pieces };

    fn pieces(&self) -> u64 {
        self.pieces
    }

    fn run(&self, alloc: Global, k: u64) -> Result<u64, NoMemory> {
        if let Some(runs) = self.runs.get(k as usize) {
            runs.fetch_add(1, Ordering::SeqCst);
        }
        if self.refused == Some(k) {
            let _room: Vec<u64> = Vec::with_capacity(alloc, usize::MAX)?;
        }
        Ok(k)
    }
}

/// So many pieces, of which these have counters.
pub fn make_numbers<'a>(pieces: u32, runs: &'a [AtomicU64], refused: Option<u64>) -> Numbers<'a> {
    Numbers {
        pieces: u64::from(pieces),
        runs,
        refused,
    }
}

pub fn so_many<R: Abort>(rt: &R, workers: u32) -> Workers {
    Workers::new(workers).expect(rt, "1 to 64 workers")
}

/// So many counters at zero.
pub fn zeros(alloc: Global, count: u32) -> Result<Vec<AtomicU64>, NoMemory> {
    let mut all = Vec::new(alloc);
    for _ in 0..count {
        all.push(AtomicU64::new(0))?;
    }
    Ok(all)
}

/// Whether each counter is at one.
pub fn all_one(counters: &[AtomicU64]) -> bool {
    for times in counters {
        if times.load(Ordering::SeqCst) != 1 {
            return false;
        }
    }
    true
}
