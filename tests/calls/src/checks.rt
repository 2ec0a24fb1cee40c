//! `check` of `shb_run`: what it says of reports that were changed.
use crate::asserting::{Host, holds, same, same_bytes};
use crate::traces::{
    Form, LISTED, OLDER, WHOLE, Worked, joined_unborn, located, read_between, report_of,
    through_a_read,
};
use shb_io::{Page, Text};
use shb_lines::Fault;
use shb_replay::{Broken, Why};
use shb_report::{RaceFault, Verdict};
use shb_run::{RunError, check};
use std::test::Fail;

/// What is said of a report and a trace.
fn verdict_of(
    rt: &impl Host,
    trace: &str,
    report: &str,
    said: &mut Page,
) -> Result<Verdict, RunError> {
    let mut trace = Text::new(trace.as_bytes(), 6, None);
    let mut report = Text::new(report.as_bytes(), 6, None);
    check(rt, rt.alloc(), &mut trace, &mut report, said)
}

/// Asserts the verdict on a row's report, in which one part is another, and the line that is written.
fn expect(
    rt: &impl Host,
    row: (Worked<'_>, Form),
    change: (&str, &str),
    wanted: (Verdict, &str),
) -> Result<(), Fail> {
    let report = report_of(rt.alloc(), &row.0, row.1)?;
    let Some(at) = report.as_str().find(change.0) else {
        return Err("the report has no such part".into());
    };
    let mut changed = String::from_str(rt.alloc(), &report.as_str()[..at])?;
    changed.push_str(change.1)?;
    changed.push_str(&report.as_str()[at + change.0.len()..])?;
    let mut said = Page::new(rt.alloc(), 100, 3, None)?;
    let found = verdict_of(rt, row.0.text, changed.as_str(), &mut said)?;
    same(rt, &found, &wanted.0, change.1);
    let line = format!(in rt.alloc(); "{}\n", wanted.1)?;
    same_bytes(rt, said.bytes(), line.as_bytes(), change.1);
    Ok(())
}

fn bad_race(race: u64, why: RaceFault) -> Verdict {
    Verdict::BadRace { race, why }
}

fn broken(race: u64, at: usize, why: Why) -> Verdict {
    bad_race(race, RaceFault::Schedule(Broken { at, why }))
}

fn bad_line(line: u64) -> Verdict {
    Verdict::BadLine { line }
}

/// Schedules of more than one fault, or of numbers that no event has: the first index that breaks a rule, and which.
const BAD_SCHEDULES: [(&str, usize, Why); 4] = [
    ("schedule 2: 1 0", 1, Why::NoSuchEvent),
    ("schedule 1: 18446744073709551615", 0, Why::NoSuchEvent),
    ("schedule 5: 1 2 3 4 1", 4, Why::Repeated),
    ("schedule 9: 1 2 3 4 9 1 1 1 1", 4, Why::NoSuchEvent),
];

#[test]
fn changed_blocks(rt: HostRuntime) -> Result<(), Fail> {
    let row = (through_a_read(), OLDER);
    let says = "bad race 1";
    expect(
        &rt,
        row,
        ("end", "end"),
        (Verdict::Good { races: 1 }, "ok 1"),
    )?;
    expect(
        &rt,
        row,
        ("schedule 1: 1", "schedule 0:"),
        (broken(1, 0, Why::NotNext), says),
    )?;
    expect(
        &rt,
        row,
        ("schedule 1: 1", "schedule 2: 1 1"),
        (broken(1, 1, Why::Repeated), says),
    )?;
    expect(
        &rt,
        row,
        ("schedule 1: 1", "schedule 1: 9"),
        (broken(1, 0, Why::NoSuchEvent), says),
    )?;
    for (schedule, at, why) in BAD_SCHEDULES {
        expect(
            &rt,
            row,
            ("schedule 1: 1", schedule),
            (broken(1, at, why), says),
        )?;
    }
    expect(
        &rt,
        row,
        ("race 1: 2 3", "race 1: 3 2"),
        (bad_race(1, RaceFault::NoConflict), says),
    )?;
    expect(
        &rt,
        row,
        ("race 1: 2 3", "race 1: 0 3"),
        (bad_race(1, RaceFault::Absent), says),
    )?;
    expect(
        &rt,
        row,
        ("race 1: 2 3", "race 1: 2 5"),
        (bad_race(1, RaceFault::Absent), says),
    )?;
    expect(
        &rt,
        row,
        ("first T1|w(y)", "first T1|w(x)"),
        (bad_race(1, RaceFault::FirstLine), says),
    )?;
    expect(
        &rt,
        row,
        ("second T2|r(y)", "second T2|r(x)"),
        (bad_race(1, RaceFault::SecondLine), says),
    )?;
    expect(
        &rt,
        row,
        ("events 4", "events 5"),
        (Verdict::BadCounts, "bad counts"),
    )
}

#[test]
fn changed_lines(rt: HostRuntime) -> Result<(), Fail> {
    let row = (through_a_read(), OLDER);
    let block = "races 1\nrace 1: 2 3\nfirst T1|w(y)\nsecond T2|r(y)\nschedule 1: 1\n";
    expect(
        &rt,
        row,
        (block, "races 0\n"),
        (Verdict::Good { races: 0 }, "ok 0"),
    )?;
    expect(
        &rt,
        row,
        ("races 1", "races 18446744073709551615"),
        (bad_line(8), "bad line 8"),
    )?;
    expect(
        &rt,
        row,
        ("race 1: 2 3", "race 2: 2 3"),
        (bad_line(4), "bad line 4"),
    )?;
    for schedule in [
        "schedule 18446744073709551615: 1",
        "schedule 01: 1",
        "schedule 1: 18446744073709551616",
    ] {
        expect(
            &rt,
            row,
            ("schedule 1: 1", schedule),
            (bad_line(7), "bad line 7"),
        )?;
    }
    expect(
        &rt,
        row,
        ("shb-report 1\n", "shb-report 1\r\n"),
        (bad_line(1), "bad line 1"),
    )?;
    expect(
        &rt,
        row,
        ("shb-report 1\n", "shb-report 3\n"),
        (bad_line(1), "bad line 1"),
    )?;
    expect(&rt, row, ("end\n", ""), (bad_line(8), "bad line 8"))?;
    expect(&rt, row, ("end\n", "end"), (bad_line(8), "bad line 8"))?;
    expect(&rt, row, ("end\n", "end\nx"), (bad_line(9), "bad line 9"))?;
    let mut said = Page::new(rt.alloc(), 100, 3, None)?;
    let found = verdict_of(&rt, row.0.text, "", &mut said)?;
    same(&rt, &found, &bad_line(1), "an empty report");
    let listed = (located(), LISTED);
    expect(&rt, listed, ("end", "end"), (bad_line(11), "bad line 11"))
}

#[test]
fn changed_places(rt: HostRuntime) -> Result<(), Fail> {
    let row = (through_a_read(), WHOLE);
    expect(
        &rt,
        row,
        ("end", "end"),
        (Verdict::Good { races: 1 }, "ok 1"),
    )?;
    expect(
        &rt,
        row,
        ("place 1: 1", "place 1: 2"),
        (Verdict::BadPlaces, "bad places"),
    )?;
    let places = "places 1\nplace 1: 1\nat \nand \n";
    expect(
        &rt,
        row,
        (places, "places 0\n"),
        (Verdict::BadPlaces, "bad places"),
    )?;
    expect(&rt, row, ("end\n", ""), (bad_line(12), "bad line 12"))?;
    expect(
        &rt,
        row,
        ("shb-report 2\n", "shb-report 3\n"),
        (bad_line(1), "bad line 1"),
    )
}

#[test]
fn schedules_of_other_traces(rt: HostRuntime) -> Result<(), Fail> {
    let unborn = (joined_unborn(), OLDER);
    expect(
        &rt,
        unborn,
        ("schedule 2: 1 2", "schedule 2: 2 1"),
        (broken(1, 1, Why::JoinEarly), "bad race 1"),
    )?;
    let read = (read_between(), OLDER);
    expect(
        &rt,
        read,
        ("schedule 2: 1 2", "schedule 1: 2"),
        (broken(2, 0, Why::LastWrite), "bad race 2"),
    )?;
    expect(
        &rt,
        read,
        ("schedule 0:", "schedule 1: 4"),
        (Verdict::Good { races: 2 }, "ok 2"),
    )?;
    let twice = Worked {
        text: "T1|acq(l)\nT1|acq(l)\nT1|w(x)\nT1|rel(l)\nT1|rel(l)\nT2|acq(l)\nT2|rel(l)\nT3|w(x)\n",
        counts: (8, 3, 1, 1),
        races: &[(3, 8, &[1, 2])],
        places: &[(1, "", "")],
    };
    expect(
        &rt,
        (twice, OLDER),
        ("schedule 2: 1 2", "schedule 3: 1 2 6"),
        (broken(1, 2, Why::LockOrder), "bad race 1"),
    )
}

/// A refused trace is told before the report is looked at, and a sink that fails.
#[test]
fn checks_that_come_to_no_verdict(rt: HostRuntime) -> Result<(), Fail> {
    let mut said = Page::new(rt.alloc(), 100, 3, None)?;
    let answer = verdict_of(&rt, "T1|rel(l)\n", "no report", &mut said);
    let Err(RunError::Trace { line, fault }) = answer else {
        return Err("the trace wasn't refused".into());
    };
    same(&rt, &(line, fault), &(1, Fault::NotHeld), "the fault");
    same_bytes(&rt, said.bytes(), b"", "nothing is written");
    let mut full = Page::new(rt.alloc(), 3, 3, None)?;
    let answer = verdict_of(&rt, "", "", &mut full);
    holds(
        &rt,
        matches!(answer, Err(RunError::Sink)),
        "a sink that fails",
    );
    same_bytes(&rt, full.bytes(), b"bad", "the beginning of the line");
    Ok(())
}
