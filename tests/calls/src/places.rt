//! `run_places` and `nearest_races`: the nearest race of each place, and of each place and variable.
use crate::asserting::{Host, same, same_bytes};
use crate::runs::settings;
use crate::traces::{Asks, LISTED, WHOLE, Worked, ask_of, pairs_of, report_of};
use shb_discipline::Disciplined;
use shb_io::{Page, Text};
use shb_lines::Fault;
use shb_links::Links;
use shb_run::{RunError, Summary, run_places, run_scan};
use shb_scan::nearest_races;
use shb_stamps::open_variables;
use std::test::Fail;

/// Both writes race with both reads: the least later event is 3, and the greatest that races with it 2.
const NEAREST: Worked<'static> = Worked {
    text: "T1|w(x)|a\nT1|w(x)|a\nT2|r(x)|b\nT2|r(x)|b\n",
    counts: (4, 2, 0, 1),
    races: &[(2, 3, &[1])],
    places: &[(1, "a", "b")],
};

/// The race of the first variable has the later event, and so it and its place come last.
const CROSSWISE: Worked<'static> = Worked {
    text: "T1|w(x)|a\nT1|w(y)|b\nT2|w(y)|c\nT2|w(x)|d\n",
    counts: (4, 2, 0, 2),
    races: &[(2, 3, &[1]), (1, 4, &[3])],
    places: &[(1, "b", "c"), (1, "a", "d")],
};

/// Two variables race at one place, and a third one at another.
const OF_PLACES: Worked<'static> = Worked {
    text: "T1|w(x)|a\nT1|w(y)|c\nT1|w(z)|a\nT2|w(x)|b\nT2|w(y)|d\nT2|w(z)|b\n",
    counts: (6, 2, 0, 3),
    races: &[(1, 4, &[]), (2, 5, &[1, 4])],
    places: &[(1, "a", "b"), (1, "c", "d")],
};

const OF_VARIABLES: Worked<'static> = Worked {
    races: &[(1, 4, &[]), (2, 5, &[1, 4]), (3, 6, &[1, 2, 4, 5])],
    places: &[(2, "a", "b"), (1, "c", "d")],
    ..OF_PLACES
};

/// What is listed, by place and by place and variable.
const ROWS: [(bool, Worked<'static>); 6] = [
    (false, NEAREST),
    (true, NEAREST),
    (false, CROSSWISE),
    (true, CROSSWISE),
    (false, OF_PLACES),
    (true, OF_VARIABLES),
];

/// What a page may hold, and how many bytes are moved at once.
const ROOM: usize = 1000;

const STEP: usize = 7;

/// The answer of a run, and what was written.
fn ran(
    rt: &impl Host,
    text: &str,
    by_variable: bool,
    schedules: bool,
    write_fails: Option<u64>,
) -> Result<(Result<Summary, RunError>, Page), Fail> {
    let mut source = Text::new(text.as_bytes(), STEP, None);
    let mut sink = Page::new(rt.alloc(), ROOM, STEP, write_fails)?;
    let chosen = settings(2, schedules)?;
    let answer = run_places(rt, rt.alloc(), by_variable, &mut source, &mut sink, chosen);
    Ok((answer, sink))
}

#[test]
fn places_have_their_reports(rt: HostRuntime) -> Result<(), Fail> {
    for (by_variable, row) in &ROWS {
        for (schedules, form) in [(true, WHOLE), (false, LISTED)] {
            let (answer, page) = ran(&rt, row.text, *by_variable, schedules, None)?;
            let Ok(found) = answer else {
                return Err("the run failed".into());
            };
            same(&rt, &found.races, &(row.races.len() as u64), "listed races");
            let wanted = report_of(rt.alloc(), row, form)?;
            same_bytes(&rt, page.bytes(), wanted.as_bytes(), row.text);
        }
    }
    Ok(())
}

/// A stream has the same list.
#[test]
fn a_stream_has_their_lists(rt: HostRuntime) -> Result<(), Fail> {
    for (by_variable, row) in &ROWS {
        let mut source = Text::new(row.text.as_bytes(), STEP, None);
        let mut sink = Page::new(rt.alloc(), ROOM, STEP, None)?;
        let answer = run_scan(&rt, rt.alloc(), *by_variable, &mut source, &mut sink);
        same(&rt, &answer, &Ok(()), "the answer");
        let wanted = report_of(rt.alloc(), row, LISTED)?;
        same_bytes(&rt, sink.bytes(), wanted.as_bytes(), row.text);
    }
    Ok(())
}

/// The pairs of a row.
#[derive(Clone, Copy)]
struct ArePairs<'a> {
    by_variable: bool,
    row: &'a Worked<'a>,
}

impl Asks for ArePairs<'_> {
    fn ask<H: Host>(&self, rt: &H, trace: &Disciplined<'_>, links: &Links<'_>) -> Result<(), Fail> {
        let flags = open_variables(rt.alloc(), trace, links)?;
        let wanted = pairs_of(rt.alloc(), self.row)?;
        for open in [flags.as_slice(), &[]] {
            let found = nearest_races(rt, rt.alloc(), trace, open, self.by_variable)?;
            same(rt, &found.as_slice(), &wanted.as_slice(), self.row.text);
        }
        Ok(())
    }
}

#[test]
fn a_trace_has_its_nearest_races(rt: HostRuntime) -> Result<(), Fail> {
    for (by_variable, row) in &ROWS {
        let pairs = ArePairs {
            by_variable: *by_variable,
            row,
        };
        ask_of(&rt, row.text, &pairs)?;
    }
    Ok(())
}

#[test]
fn refused_traces_write_nothing(rt: HostRuntime) -> Result<(), Fail> {
    for by_variable in [false, true] {
        let (answer, page) = ran(&rt, "T1|w(x)|a\nT2|rel(l)\noops\n", by_variable, true, None)?;
        let Err(RunError::Trace { line, fault }) = answer else {
            return Err("the trace wasn't refused".into());
        };
        same(&rt, &(line, fault), &(2, Fault::NotHeld), "the fault");
        same_bytes(&rt, page.bytes(), b"", "nothing is written");
    }
    Ok(())
}

#[test]
fn a_sink_that_fails_has_the_front(rt: HostRuntime) -> Result<(), Fail> {
    let (answer, page) = ran(&rt, NEAREST.text, false, true, Some(3))?;
    let Err(RunError::Sink) = answer else {
        return Err("the third write failed".into());
    };
    let wanted = report_of(rt.alloc(), &NEAREST, WHOLE)?;
    same_bytes(
        &rt,
        page.bytes(),
        &wanted.as_bytes()[..2 * STEP],
        "the front",
    );
    Ok(())
}
