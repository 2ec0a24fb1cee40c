//! A gate that holds pieces until others have entered.
use crate::asserting::{holds, same};
use shb_fan::Gate;
use std::process::Abort;
use std::sync::Wait;
use std::sync::atomic::{AtomicBool, AtomicU64, Ordering};
use std::thread::yield_now;

/// How many turns a gate waits at most.
pub const TURNS: u32 = 1_000_000_000;

/// Holds the pieces below `first` until so many from `late` on have entered.
#[derive(Drop)]
pub struct Held {
    first: u64,
    late: u64,
    wanted: u64,
    entered: AtomicU64,
    come: AtomicU64,
    missed: AtomicBool,
}

impl Gate for Held {
    fn enter<R: Wait>(&self, _rt: &R, k: u64) {
        self.entered.fetch_add(1, Ordering::SeqCst);
        if k >= self.late {
            self.come.fetch_add(1, Ordering::SeqCst);
        }
        if k >= self.first {
            return;
        }
        for _ in 0..TURNS {
            if self.come.load(Ordering::SeqCst) >= self.wanted {
                return;
            }
            yield_now();
        }
        self.missed.store(true, Ordering::SeqCst);
    }
}

/// A gate that holds the pieces below `first` until so many from `late` on have entered.
pub fn make_held(first: u64, late: u64, wanted: u64) -> Held {
    Held {
        first,
        late,
        wanted,
        entered: AtomicU64::new(0),
        come: AtomicU64::new(0),
        missed: AtomicBool::new(false),
    }
}

/// Asserts that the wanted pieces entered while the others were held.
pub fn expect_come(rt: &impl Abort, gate: &Held, what: &str) {
    holds(rt, !gate.missed.load(Ordering::SeqCst), what);
}

/// Asserts how many pieces entered.
pub fn expect_entered(rt: &impl Abort, gate: &Held, pieces: u64) {
    let entered = gate.entered.load(Ordering::SeqCst);
    same(rt, &entered, &pieces, "pieces that enter");
}
