//! Whole runs by several workers: that they work at once, and that blocks are written early.
use crate::asserting::{holds, same, same_bytes};
use crate::held::{Held, TURNS, expect_come, expect_entered, make_held};
use crate::runs::settings;
use crate::traces::line_of_each;
use shb_io::{Failed, Page, Sink, Text};
use shb_run::{FreeGate, Gate, run_gated};
use std::process::Abort;
use std::random::RandomSource;
use std::sync::Wait;
use std::sync::atomic::{AtomicBool, AtomicU64, Ordering};
use std::test::Fail;
use std::thread::{Threads, yield_now};

/// Two races of two variables, and so two pieces in each phase.
const TWO_PIECES: &str = "T1|w(x)\nT1|w(y)\nT2|w(y)\nT2|w(x)\n";

const TWO_PIECES_REPORT: &str = "shb-report 2\n\
     events 4 threads 2 locks 0 variables 2\n\
     races 2\n\
     places 1\n\
     place 1: 2\n\
     at \n\
     and \n\
     race 1: 1 4\n\
     first T1|w(x)\n\
     second T2|w(x)\n\
     schedule 1: 3\n\
     race 2: 2 3\n\
     first T1|w(y)\n\
     second T2|w(y)\n\
     schedule 1: 1\n\
     end\n";

/// Runs over two pieces by two workers: whether it goes well, and what is written.
fn ran_two_pieces<R: Threads + Wait + Sync + RandomSource + AllocGlobal + Abort>(
    rt: &R,
    pair_gate: &Held,
    witness_gate: &Held,
) -> Result<(bool, Page), Fail> {
    let mut source = Text::new(TWO_PIECES.as_bytes(), 4096, None);
    let mut sink = Page::new(rt.alloc(), 1000, 4096, None)?;
    let settings = settings(2, true)?;
    let answer = run_gated(
        rt,
        rt.alloc(),
        &mut source,
        &mut sink,
        settings,
        pair_gate,
        witness_gate,
    );
    Ok((answer.is_ok(), sink))
}

#[test]
fn two_at_once(rt: HostRuntime) -> Result<(), Fail> {
    let pair_gate = make_held(1, 1, 1);
    let witness_gate = make_held(1, 1, 1);
    let (is_written, page) = ran_two_pieces(&rt, &pair_gate, &witness_gate)?;
    holds(&rt, is_written, "the report is written");
    let wanted = TWO_PIECES_REPORT.as_bytes();
    same_bytes(&rt, page.bytes(), wanted, "the report");
    expect_entered(&rt, &pair_gate, 2);
    expect_come(&rt, &pair_gate, "two search");
    expect_entered(&rt, &witness_gate, 2);
    expect_come(&rt, &witness_gate, "two make schedules");
    Ok(())
}

/// A page that tells other threads how many bytes it has taken.
#[derive(Drop)]
struct Watched<'a> {
    page: Page,
    taken: &'a AtomicU64,
}

impl Sink for Watched<'_> {
    ghost use Rattle.std.specs.Prelude.{Some};

    ghost taken = { λ s. Some s.page.bytes };

    ghost failure_count = { λ s. s.page.failures };

    fn write(&mut self, bytes: &[u8]) -> Result<usize, Failed> {
        let count = self.page.write(bytes)?;
        self.taken.fetch_add(count as u64, Ordering::SeqCst);
        Ok(count)
    }

    fn failures(&self) -> u64 {
        self.page.failures()
    }
}

/// Holds piece 64 until the sink has taken 98 bytes, and counts the pieces that enter.
#[derive(Drop)]
struct LastHeld<'a> {
    entered: AtomicU64,
    taken: &'a AtomicU64,
    missed: AtomicBool,
}

impl Gate for LastHeld<'_> {
    fn enter<R: Wait>(&self, _rt: &R, k: u64) {
        self.entered.fetch_add(1, Ordering::SeqCst);
        if k != 64 {
            return;
        }
        for _ in 0..TURNS {
            if self.taken.load(Ordering::SeqCst) >= 98 {
                return;
            }
            yield_now();
        }
        self.missed.store(true, Ordering::SeqCst);
    }
}

/// Runs by two workers with a page that is watched: whether it goes well, and what is written.
fn ran_watched<R: Threads + Wait + Sync + RandomSource + AllocGlobal + Abort>(
    rt: &R,
    trace: &str,
    gate: &LastHeld<'_>,
) -> Result<(bool, Page), Fail> {
    let mut source = Text::new(trace.as_bytes(), 4096, None);
    let mut sink = Watched {
        page: Page::new(rt.alloc(), 300_000, 4096, None)?,
        taken: gate.taken,
    };
    let settings = settings(2, true)?;
    let answer = run_gated(
        rt,
        rt.alloc(),
        &mut source,
        &mut sink,
        settings,
        &FreeGate,
        gate,
    );
    let Watched { page, taken: _ } = sink;
    Ok((answer.is_ok(), page))
}

/// Asserts the first and last lines of the report of 65 writers.
fn expect_ends(rt: &impl Abort, report: &[u8]) {
    // The lines before the first block have 97 bytes.
    let front = "shb-report 2\n\
         events 65 threads 65 locks 0 variables 1\n\
         races 2080\n\
         places 1\n\
         place 1: 2080\n\
         at \n\
         and \n";
    same(rt, &front.len(), &97, "bytes before the first block");
    holds(rt, report.starts_with(front.as_bytes()), "the front");
    let last = "race 2080: 64 65\nfirst T64|w(x)\nsecond T65|w(x)\nschedule 0:\nend\n";
    holds(rt, report.ends_with(last.as_bytes()), "the last block");
}

#[test]
fn written_early(rt: HostRuntime) -> Result<(), Fail> {
    let trace = line_of_each(rt.alloc(), 65, "w(x)")?;
    let taken = AtomicU64::new(0);
    let gate = LastHeld {
        entered: AtomicU64::new(0),
        taken: &taken,
        missed: AtomicBool::new(false),
    };
    let (is_written, page) = ran_watched(&rt, trace.as_str(), &gate)?;
    holds(&rt, is_written, "the report is written");
    let entered = gate.entered.load(Ordering::SeqCst);
    same(&rt, &entered, &2080, "pieces that enter");
    let is_early = !gate.missed.load(Ordering::SeqCst);
    holds(&rt, is_early, "blocks are written early");
    expect_ends(&rt, page.bytes());
    Ok(())
}
