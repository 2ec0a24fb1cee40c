//! Accesses, pieces of work and races, and their schedules.
use crate::asserting::{Host, holds, same};
use crate::traces::{
    Asks, WORKED, Worked, ask_of, from_zero, line_of_each, pairs_of, through_a_read,
};
use shb_clocks::{full, versions};
use shb_discipline::Disciplined;
use shb_fan::{FreeGate, Job, Workers, gather};
use shb_lines::{Op, Pair, conflicts};
use shb_links::{Linked, Links};
use shb_pairs::laws::{no_schedule_without_race, printed_schedule_is_schedule};
use shb_pairs::{PairJob, Piece, accesses_of, is_race, pieces};
use shb_replay::replay;
use shb_stamps::open_variables;
use shb_witness::{WitnessJob, schedule, thread_events};
use std::test::Fail;

fn three_workers() -> Result<Workers, Fail> {
    let Some(workers) = Workers::new(3) else {
        return Err("three workers".into());
    };
    Ok(workers)
}

/// What is asked of a row's trace.
#[derive(Clone, Copy)]
struct RacesAre<'a> {
    row: &'a Worked<'a>,
}

/// A pair is a race exactly where the row lists it.
impl Asks for RacesAre<'_> {
    fn ask<H: Host>(&self, rt: &H, trace: &Disciplined<'_>, links: &Links<'_>) -> Result<(), Fail> {
        let order = full(rt.alloc(), trace, links)?;
        let wanted = pairs_of(rt.alloc(), self.row)?;
        for second in 0..trace.trace().len() {
            for first in 0..second {
                let found = is_race(&order, trace, links, first, second);
                let listed = wanted.contains(&Pair { first, second });
                same(rt, &found, &listed, "whether a pair is a race");
                holds(
                    rt,
                    !found || conflicts(trace.trace(), first, second),
                    "races conflict",
                );
            }
        }
        Ok(())
    }
}

#[test]
fn every_pair_of_all_traces(rt: HostRuntime) -> Result<(), Fail> {
    for row in &WORKED {
        ask_of(&rt, row.text, &RacesAre { row })?;
    }
    Ok(())
}

/// The pieces' values, joined, are the races of the row in their order.
#[derive(Clone, Copy)]
struct PiecesJoin<'a> {
    row: &'a Worked<'a>,
}

impl Asks for PiecesJoin<'_> {
    fn ask<H: Host>(&self, rt: &H, trace: &Disciplined<'_>, links: &Links<'_>) -> Result<(), Fail> {
        let order = versions(rt.alloc(), trace, links)?;
        let accesses = accesses_of(rt.alloc(), trace)?;
        let cut = pieces(rt.alloc(), &accesses)?;
        let job = PairJob::new(&order, trace, links, &accesses, cut.as_slice());
        same(rt, &job.pieces(), &(cut.len() as u64), "pieces of work");
        let values = gather(rt, rt.alloc(), &job, &FreeGate, three_workers()?)?;
        let mut joined = Vec::new(rt.alloc());
        for value in &values {
            joined.extend_from_slice(value.as_slice())?;
        }
        let wanted = pairs_of(rt.alloc(), self.row)?;
        same(rt, &joined.as_slice(), &wanted.as_slice(), "the races");
        Ok(())
    }
}

#[test]
fn pieces_of_all_traces(rt: HostRuntime) -> Result<(), Fail> {
    for row in &WORKED {
        ask_of(&rt, row.text, &PiecesJoin { row })?;
    }
    Ok(())
}

/// The accesses of each variable, in order.
#[derive(Clone, Copy)]
struct AccessesAre;

impl Asks for AccessesAre {
    fn ask<H: Host>(
        &self,
        rt: &H,
        trace: &Disciplined<'_>,
        _links: &Links<'_>,
    ) -> Result<(), Fail> {
        let accesses = accesses_of(rt.alloc(), trace)?;
        same(
            rt,
            &accesses.variables(),
            &trace.trace().variables(),
            "variables",
        );
        for x in 0..accesses.variables() {
            let mut wanted = Vec::new(rt.alloc());
            for e in 0..trace.trace().len() {
                let op = trace.trace().event(e).op;
                if op == Op::Read(x) || op == Op::Write(x) {
                    wanted.push(e)?;
                }
            }
            same(
                rt,
                &accesses.of(x),
                &wanted.as_slice(),
                "the accesses of a variable",
            );
        }
        Ok(())
    }
}

#[test]
fn accesses_of_all_traces(rt: HostRuntime) -> Result<(), Fail> {
    for row in &WORKED {
        ask_of(&rt, row.text, &AccessesAre)?;
    }
    Ok(())
}

/// The pieces of a trace that accesses one variable.
#[derive(Clone, Copy)]
struct PiecesAre<'a> {
    wanted: &'a [(u32, u32)],
}

impl Asks for PiecesAre<'_> {
    fn ask<H: Host>(
        &self,
        rt: &H,
        trace: &Disciplined<'_>,
        _links: &Links<'_>,
    ) -> Result<(), Fail> {
        let accesses = accesses_of(rt.alloc(), trace)?;
        let cut = pieces(rt.alloc(), &accesses)?;
        same(rt, &cut.len(), &self.wanted.len(), "pieces");
        for (piece, wanted) in cut.iter().zip(self.wanted) {
            let wanted = Piece {
                variable: 0,
                from: wanted.0,
                to: wanted.1,
            };
            holds(rt, *piece == wanted, "a piece");
        }
        Ok(())
    }
}

#[test]
fn pieces_have_64_accesses(rt: HostRuntime) -> Result<(), Fail> {
    let mut text = String::new(rt.alloc());
    for _ in 0..130 {
        text.push_str("T1|w(x)\n")?;
    }
    ask_of(
        &rt,
        text.as_str(),
        &PiecesAre {
            wanted: &[(0, 64), (64, 128), (128, 130)],
        },
    )?;
    let text = line_of_each(rt.alloc(), 65, "w(x)")?;
    ask_of(
        &rt,
        text.as_str(),
        &PiecesAre {
            wanted: &[(0, 64), (64, 65)],
        },
    )?;
    let text = line_of_each(rt.alloc(), 64, "w(x)")?;
    ask_of(&rt, text.as_str(), &PiecesAre { wanted: &[(0, 64)] })
}

/// 65 threads that write: the two pieces have 2,016 and 64 races.
#[derive(Clone, Copy)]
struct RacesOf65;

impl Asks for RacesOf65 {
    fn ask<H: Host>(&self, rt: &H, trace: &Disciplined<'_>, links: &Links<'_>) -> Result<(), Fail> {
        let order = full(rt.alloc(), trace, links)?;
        let accesses = accesses_of(rt.alloc(), trace)?;
        let cut = pieces(rt.alloc(), &accesses)?;
        let job = PairJob::new(&order, trace, links, &accesses, cut.as_slice());
        let (first, last) = (job.run(rt.alloc(), 0)?, job.run(rt.alloc(), 1)?);
        same(
            rt,
            &(first.len(), last.len()),
            &(2016, 64),
            "races of the pieces",
        );
        same(
            rt,
            &first[0],
            &Pair {
                first: 0,
                second: 1,
            },
            "the first race",
        );
        same(
            rt,
            &last[63],
            &Pair {
                first: 63,
                second: 64,
            },
            "the last",
        );
        Ok(())
    }
}

#[test]
fn races_of_65_threads(rt: HostRuntime) -> Result<(), Fail> {
    let text = line_of_each(rt.alloc(), 65, "w(x)")?;
    ask_of(&rt, text.as_str(), &RacesOf65)
}

/// Which variables of a trace are open, which no clause says.
#[derive(Clone, Copy)]
struct OpenAre<'a> {
    wanted: &'a [bool],
}

impl Asks for OpenAre<'_> {
    fn ask<H: Host>(&self, rt: &H, trace: &Disciplined<'_>, links: &Links<'_>) -> Result<(), Fail> {
        let open = open_variables(rt.alloc(), trace, links)?;
        same(rt, &open.as_slice(), &self.wanted, "the open variables");
        Ok(())
    }
}

/// Texts and which of their variables are open.
const OPEN: [(&str, &[bool]); 11] = [
    ("T1|w(y)\nT2|r(y)\n", &[true]),
    ("T1|w(x)\nT1|w(y)\nT2|w(y)\nT1|r(x)\n", &[false, true]),
    (
        "T1|acq(l)\nT1|w(x)\nT1|rel(l)\nT2|acq(l)\nT2|r(x)\nT2|w(x)\nT2|rel(l)\n",
        &[false],
    ),
    ("T1|r(x)\nT2|r(x)\nT3|r(x)\n", &[false]),
    ("T1|r(x)\nT2|r(x)\nT2|w(x)\n", &[true]),
    ("T1|w(x)\nT1|fork(T2)\nT2|r(x)\nT1|r(x)\n", &[false]),
    (
        "T1|w(x)\nT1|fork(T2)\nT2|r(x)\nT1|join(T2)\nT1|w(x)\n",
        &[false],
    ),
    // The two reads aren't ordered: nothing races, and the variable is open all the same.
    (
        "T1|w(x)\nT1|fork(T2)\nT2|r(x)\nT1|r(x)\nT1|join(T2)\nT1|w(x)\n",
        &[true],
    ),
    // The write is after the newest read alone.
    ("T1|w(x)\nT1|fork(T2)\nT2|r(x)\nT1|r(x)\nT1|w(x)\n", &[true]),
    (
        "T1|w(x)\nT1|fork(T2)\nT2|r(x)\nT2|r(x)\nT1|join(T2)\nT1|w(x)\n",
        &[false],
    ),
    (
        "T1|acq(l)\n\
          T1|w(x)\n\
          T1|r(x)\n\
          T1|rel(l)\n\
          T2|acq(l)\n\
          T2|r(x)\n\
          T2|rel(l)\n\
          T1|acq(l)\n\
          T1|w(x)\n\
          T1|rel(l)\n",
        &[false],
    ),
];

#[test]
fn open_variables_of_small_traces(rt: HostRuntime) -> Result<(), Fail> {
    for (text, wanted) in OPEN {
        ask_of(&rt, text, &OpenAre { wanted })?;
    }
    Ok(())
}

/// The schedule of each race of the row, by the call and by the job, which the judge finds good.
#[derive(Clone, Copy)]
struct SchedulesAre<'a> {
    row: &'a Worked<'a>,
}

impl Asks for SchedulesAre<'_> {
    fn ask<H: Host>(&self, rt: &H, trace: &Disciplined<'_>, links: &Links<'_>) -> Result<(), Fail> {
        let alloc = rt.alloc();
        let order = full(alloc, trace, links)?;
        let races = pairs_of(alloc, self.row)?;
        let job = WitnessJob::new(&order, trace, links, races.as_slice());
        same(
            rt,
            &job.pieces(),
            &(races.len() as u64),
            "a piece for each race",
        );
        let values = gather(rt, alloc, &job, &FreeGate, three_workers()?)?;
        let threads = thread_events(alloc, Linked::new(trace, links))?;
        let quick = WitnessJob::new(&order, trace, links, races.as_slice()).with_thread_events(
            &threads,
        );
        let same_values = gather(rt, alloc, &quick, &FreeGate, three_workers()?)?;
        for (k, race) in races.iter().enumerate() {
            let wanted = from_zero(alloc, self.row.races[k].2)?;
            let list = schedule(alloc, &order, trace, links, *race)?;
            same(rt, &list.as_slice(), &wanted.as_slice(), "the schedule");
            let made = values[k].to_vec(alloc)?;
            same(rt, &made.as_slice(), &wanted.as_slice(), "that of the job");
            let quick = same_values[k].to_vec(alloc)?;
            same(
                rt,
                &quick.as_slice(),
                &wanted.as_slice(),
                "the same, by the events of each thread",
            );
            let judged = replay(alloc, trace, links, list.as_slice(), *race)?;
            holds(rt, judged.is_none(), "it is a schedule");
        }
        Ok(())
    }
}

/// The schedule of the race of the last two events, by the events of each thread.
#[derive(Clone, Copy)]
struct LastScheduleIs<'a> {
    wanted: &'a [u32],
}

impl Asks for LastScheduleIs<'_> {
    fn ask<H: Host>(&self, rt: &H, trace: &Disciplined<'_>, links: &Links<'_>) -> Result<(), Fail> {
        let alloc = rt.alloc();
        let order = full(alloc, trace, links)?;
        let second = trace.events.len() as u32 - 1;
        let races = [Pair {
            first: second - 1,
            second,
        }];
        let threads = thread_events(alloc, Linked::new(trace, links))?;
        let job = WitnessJob::new(&order, trace, links, &races).with_thread_events(&threads);
        let made = job.run(alloc, 0)?.to_vec(alloc)?;
        same(rt, &made.as_slice(), &self.wanted, "the schedule");
        Ok(())
    }
}

/// Of 100 events of a thread alone a schedule has none: before it come two events, and after it two.
#[test]
fn schedule_that_passes_a_thread(rt: HostRuntime) -> Result<(), Fail> {
    let mut text = String::new(rt.alloc());
    text.push_str("a|w(p)\nb|w(q)\n")?;
    for _ in 0..100 {
        text.push_str("c|w(z)\n")?;
    }
    text.push_str("b|w(q)\na|w(p)\na|w(x)\nb|w(x)\n")?;
    ask_of(
        &rt,
        text.as_str(),
        &LastScheduleIs {
            wanted: &[0, 1, 102, 103],
        },
    )
}

#[test]
fn schedules_of_all_traces(rt: HostRuntime) -> Result<(), Fail> {
    for row in &WORKED {
        ask_of(&rt, row.text, &SchedulesAre { row })?;
    }
    Ok(())
}

/// The laws do nothing: what they say is proved.
#[test]
fn laws_are_there(rt: HostRuntime) {
    printed_schedule_is_schedule();
    no_schedule_without_race();
    same(
        &rt,
        &through_a_read().races.len(),
        &1,
        "a trace of one race",
    );
}
