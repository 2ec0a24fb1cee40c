//! `run`, `run_gated`, `fault_line` and `exit_status`: reports, refusals, and devices that fail.
use crate::asserting::{Host, holds, same, same_bytes};
use crate::traces::{LISTED, WHOLE, WORKED, Worked, crossed, located, report_of, three_writers};
use shb_fan::{FreeGate, Gate};
use shb_io::{NoMemory, Page, Text};
use shb_lines::Fault;
use shb_run::{
    RunError, Settings, Summary, Workers, check, exit_status, fault_line, run, run_gated,
};
use std::sync::Wait;
use std::sync::atomic::{AtomicU64, Ordering};
use std::test::Fail;

/// So many workers, with schedules or without.
pub fn settings(workers: u32, schedules: bool) -> Result<Settings, Fail> {
    let Some(workers) = Workers::new(workers) else {
        return Err("no such number of workers".into());
    };
    Ok(Settings { workers, schedules })
}

/// A source and a sink in memory: how many bytes they move at once, the calls that fail, and the sink's room.
#[derive(Clone, Copy)]
struct Devices {
    step: usize,
    read_fails: Option<u64>,
    write_fails: Option<u64>,
    room: usize,
}

const AMPLE: Devices = Devices {
    step: 4096,
    read_fails: None,
    write_fails: None,
    room: 400_000,
};

const BYTE_BY_BYTE: Devices = Devices { step: 1, ..AMPLE };

/// The answer of a run, and what was written.
fn ran(
    rt: &impl Host,
    text: &str,
    devices: Devices,
    settings: Settings,
) -> Result<(Result<Summary, RunError>, Page), NoMemory> {
    let mut source = Text::new(text.as_bytes(), devices.step, devices.read_fails);
    let mut sink = Page::new(rt.alloc(), devices.room, devices.step, devices.write_fails)?;
    let answer = run(rt, rt.alloc(), &mut source, &mut sink, settings);
    Ok((answer, sink))
}

/// Asserts what a run says of a row, and writes.
fn expect_report(
    rt: &impl Host,
    row: &Worked<'_>,
    devices: Devices,
    settings: Settings,
) -> Result<(), Fail> {
    let (answer, page) = ran(rt, row.text, devices, settings)?;
    let (events, threads, locks, variables) = row.counts;
    let Ok(found) = answer else {
        return Err("the run failed".into());
    };
    let found = (
        found.events,
        found.threads,
        found.locks,
        found.variables,
        found.races,
    );
    let wanted = (events, threads, locks, variables, row.races.len() as u64);
    same(rt, &found, &wanted, "the summary");
    let form = if settings.schedules { WHOLE } else { LISTED };
    let wanted = report_of(rt.alloc(), row, form)?;
    same_bytes(rt, page.bytes(), wanted.as_bytes(), row.text);
    Ok(())
}

#[test]
fn worked_traces_have_their_reports(rt: HostRuntime) -> Result<(), Fail> {
    for row in &WORKED {
        for schedules in [true, false] {
            expect_report(&rt, row, AMPLE, settings(4, schedules)?)?;
        }
    }
    Ok(())
}

#[test]
fn any_number_of_workers_writes_the_same(rt: HostRuntime) -> Result<(), Fail> {
    for workers in [1, 2, 64] {
        expect_report(
            &rt,
            &three_writers(),
            BYTE_BY_BYTE,
            settings(workers, true)?,
        )?;
    }
    Ok(())
}

/// Each report with schedules is a good one.
#[test]
fn own_reports_are_good(rt: HostRuntime) -> Result<(), Fail> {
    for row in &WORKED {
        let (_, report) = ran(&rt, row.text, AMPLE, settings(2, true)?)?;
        let mut trace = Text::new(row.text.as_bytes(), 9, None);
        let mut given = Text::new(report.bytes(), 9, None);
        let mut said = Page::new(rt.alloc(), 100, 9, None)?;
        check(&rt, rt.alloc(), &mut trace, &mut given, &mut said)?;
        let races = row.races.len();
        let wanted = format!(in rt.alloc(); "ok {races}\n")?;
        same_bytes(&rt, said.bytes(), wanted.as_bytes(), row.text);
    }
    Ok(())
}

/// A location with a bar, line ends with carriage returns, an empty line, and no line end at the end.
#[test]
fn odd_line_ends(rt: HostRuntime) -> Result<(), Fail> {
    let text = "T1|w(y)|a|b\r\n\r\nT2|r(y)";
    let (_, page) = ran(&rt, text, AMPLE, settings(1, true)?)?;
    let wanted =
        "shb-report 2\nevents 2 threads 2 locks 0 variables 1\nraces 1\nplaces 1\nplace 1: 1\nat a|b\nand \nrace 1: 1 2\nfirst T1|w(y)|a|b\nsecond T2|r(y)\nschedule 0:\nend\n";
    same_bytes(&rt, page.bytes(), wanted.as_bytes(), "the report");
    let (_, page) = ran(&rt, "\n\n\n", AMPLE, settings(1, true)?)?;
    let wanted = "shb-report 2\nevents 0 threads 0 locks 0 variables 0\nraces 0\nplaces 0\nend\n";
    same_bytes(&rt, page.bytes(), wanted.as_bytes(), "that of empty lines");
    Ok(())
}

/// Texts that are refused, with the line and the fault.
const REFUSED: [(&str, u32, Fault); 25] = [
    (
        "T1|w(x)\nT2|w(y)\nT2|rel(l)\nT1|w(x)\noops\n",
        3,
        Fault::NotHeld,
    ),
    (
        "T1|w(x)\nT2|w(y)\noops\nT1|w(x)\nT2|rel(l)\n",
        3,
        Fault::MissingField,
    ),
    (
        "T1|w(x)\nT1|acq(l)\nT1|rel(l)\nT2|rel(l)\nT2|w(x)\n",
        4,
        Fault::NotHeld,
    ),
    ("T1|r()\n", 1, Fault::BadOperand),
    ("T1|r(x\n", 1, Fault::BadOperand),
    ("T1|r\n", 1, Fault::BadOperand),
    ("T1|\n", 1, Fault::UnknownOperation),
    ("T1|read(x)\n", 1, Fault::UnknownOperation),
    ("T1 | r(x)\n", 1, Fault::UnknownOperation),
    ("|r(x)\n", 1, Fault::EmptyThread),
    ("T1|begin(\n", 1, Fault::BadOperand),
    ("T1|begin(m\n", 1, Fault::BadOperand),
    ("T1|begins\n", 1, Fault::UnknownOperation),
    ("T1|begin)\n", 1, Fault::UnknownOperation),
    ("T1|join(T2)\nT2|r(x)\n", 2, Fault::AfterJoin),
    ("T1|acq(l)\nT2|acq(l)\n", 2, Fault::LockHeld),
    ("T2|r(x)\nT1|fork(T2)\n", 2, Fault::ForkStarted),
    ("T1|fork(T2)\nT1|fork(T2)\n", 2, Fault::ForkTwice),
    ("T1|join(T2)\nT1|fork(T2)\n", 2, Fault::ForkJoined),
    ("T1|fork(T1)\n", 1, Fault::ForkSelf),
    ("T1|join(T1)\n", 1, Fault::JoinSelf),
    (
        "T1|fork(T2)\nT1|join(T2)\nT3|fork(T2)\n",
        3,
        Fault::ForkTwice,
    ),
    (
        "T1|acq(l)\nT1|acq(l)\nT1|rel(l)\nT2|acq(l)\n",
        4,
        Fault::LockHeld,
    ),
    ("T1|acq(l)\nT1|rel(l)\nT1|rel(l)\n", 3, Fault::NotHeld),
    ("T1|r(x)\nT1|oops(x)\n", 2, Fault::UnknownOperation),
];

#[test]
fn refused_traces_write_nothing(rt: HostRuntime) -> Result<(), Fail> {
    for (text, line, fault) in &REFUSED {
        let (answer, page) = ran(&rt, text, AMPLE, settings(4, true)?)?;
        let Err(
            RunError::Trace {
                line: at,
                fault: why,
            },
        ) = answer
        else {
            return Err("the trace wasn't refused".into());
        };
        same(&rt, &(at, why), &(*line, *fault), text);
        same_bytes(&rt, page.bytes(), b"", text);
    }
    Ok(())
}

/// The words of each fault.
const WORDS: [(Fault, &str); 16] = [
    (
        Fault::TextTooLong,
        "the text is longer than 1073741824 bytes",
    ),
    (Fault::LineTooLong, "the line is longer than 4096 bytes"),
    (Fault::MissingField, "the line has no operation field"),
    (Fault::EmptyThread, "the thread name is empty"),
    (Fault::UnknownOperation, "the operation is not known"),
    (
        Fault::BadOperand,
        "the operand is not a name in parentheses",
    ),
    (Fault::TooManyEvents, "there are more than 4194304 events"),
    (Fault::TooManyThreads, "there are more than 1024 threads"),
    (Fault::AfterJoin, "the thread was joined before"),
    (Fault::LockHeld, "the lock is held by another thread"),
    (Fault::NotHeld, "the lock is not held by this thread"),
    (Fault::ForkSelf, "a thread cannot fork itself"),
    (Fault::ForkStarted, "the forked thread has started already"),
    (Fault::ForkTwice, "the thread was forked before"),
    (Fault::ForkJoined, "the forked thread was joined before"),
    (Fault::JoinSelf, "a thread cannot join itself"),
];

#[test]
fn faults_have_their_words(rt: HostRuntime) -> Result<(), Fail> {
    for (fault, words) in &WORDS {
        let error = RunError::Trace {
            line: 17,
            fault: *fault,
        };
        let wanted = format!(in rt.alloc(); "line 17: {words}")?;
        let found = fault_line(rt.alloc(), &error)?;
        same(&rt, &found.as_str(), &wanted.as_str(), "the words");
        let shown = format!(in rt.alloc(); "{error}")?;
        same(
            &rt,
            &shown.as_str(),
            &wanted.as_str(),
            "the error's own words",
        );
        same(&rt, &exit_status(&error), &2, "the status");
    }
    for (error, words) in [
        (RunError::Source, "cannot read"),
        (RunError::Sink, "cannot write"),
    ] {
        let found = fault_line(rt.alloc(), &error)?;
        same(&rt, &found.as_str(), &words, "the words");
        same(&rt, &exit_status(&error), &4, "the status");
    }
    Ok(())
}

/// What is said where memory is refused.
#[test]
fn want_of_memory_has_its_words(rt: HostRuntime) -> Result<(), Fail> {
    let Err(refused) = Page::new(rt.alloc(), 0x7FFF_FFFF_FFFF_FFFF, 1, None) else {
        return Err("there is no such room".into());
    };
    let error = RunError::Memory(refused);
    let found = fault_line(rt.alloc(), &error)?;
    same(&rt, &found.as_str(), &"out of memory", "the words");
    same(&rt, &exit_status(&error), &4, "the status");
    Ok(())
}

/// The report of the first worked trace has 152 bytes: a write before its end fails, and a room with less.
#[test]
fn each_write_fails_in_turn(rt: HostRuntime) -> Result<(), Fail> {
    let row = located();
    let whole = report_of(rt.alloc(), &row, WHOLE)?;
    same(&rt, &whole.len(), &152, "bytes of the report");
    for k in 1..=153u64 {
        let devices = Devices {
            write_fails: Some(k),
            ..BYTE_BY_BYTE
        };
        let (answer, page) = ran(&rt, row.text, devices, settings(1, true)?)?;
        let written = if k == 153 { 152 } else { k as usize - 1 };
        same_bytes(
            &rt,
            page.bytes(),
            &whole.as_bytes()[..written],
            "what was written",
        );
        holds(
            &rt,
            matches!(answer, Err(RunError::Sink)) == (k < 153),
            "the answer",
        );
    }
    for (room, fails) in [(151, true), (152, false)] {
        let (answer, page) = ran(&rt, row.text, Devices { room, ..AMPLE }, settings(1, true)?)?;
        holds(
            &rt,
            matches!(answer, Err(RunError::Sink)) == fails,
            "a page of little room",
        );
        same_bytes(
            &rt,
            page.bytes(),
            &whole.as_bytes()[..room],
            "what has room",
        );
    }
    Ok(())
}

#[test]
fn each_read_fails_in_turn(rt: HostRuntime) -> Result<(), Fail> {
    let (text, line, fault) = REFUSED[0];
    let bytes = text.len() as u64;
    for k in 1..=bytes + 2 {
        let devices = Devices {
            read_fails: Some(k),
            ..BYTE_BY_BYTE
        };
        let (answer, page) = ran(&rt, text, devices, settings(1, true)?)?;
        same_bytes(&rt, page.bytes(), b"", "nothing is written");
        if k <= bytes + 1 {
            holds(&rt, matches!(answer, Err(RunError::Source)), "a read fails");
        } else {
            let Err(
                RunError::Trace {
                    line: at,
                    fault: why,
                },
            ) = answer
            else {
                return Err("the trace wasn't refused".into());
            };
            same(&rt, &(at, why), &(line, fault), "no read fails");
        }
    }
    Ok(())
}

/// Counts who passes.
#[derive(Drop)]
struct Counting {
    passed: AtomicU64,
}

impl Gate for Counting {
    fn enter<R: Wait>(&self, _rt: &R, _k: u64) {
        self.passed.fetch_add(1, Ordering::SeqCst);
    }
}

/// Two variables make two pieces of the search, and two races two schedules: each passes its gate.
#[test]
fn gates_are_passed(rt: HostRuntime) -> Result<(), Fail> {
    let row = crossed();
    let searched = Counting {
        passed: AtomicU64::new(0),
    };
    let mut source = Text::new(row.text.as_bytes(), 100, None);
    let mut sink = Page::new(rt.alloc(), 1000, 100, None)?;
    let chosen = settings(2, true)?;
    run_gated(
        &rt,
        rt.alloc(),
        &mut source,
        &mut sink,
        chosen,
        &searched,
        &FreeGate,
    )?;
    holds(
        &rt,
        searched.passed.load(Ordering::SeqCst) >= 2,
        "pieces of the search",
    );
    let wanted = report_of(rt.alloc(), &row, WHOLE)?;
    same_bytes(&rt, sink.bytes(), wanted.as_bytes(), "the report");
    let scheduled = Counting {
        passed: AtomicU64::new(0),
    };
    let mut source = Text::new(row.text.as_bytes(), 100, None);
    run_gated(
        &rt,
        rt.alloc(),
        &mut source,
        &mut sink,
        chosen,
        &FreeGate,
        &scheduled,
    )?;
    holds(
        &rt,
        scheduled.passed.load(Ordering::SeqCst) >= 1,
        "pieces of the schedules",
    );
    Ok(())
}
