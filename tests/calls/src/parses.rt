//! `parse` under small limits, and what a `Trace` tells.
use crate::asserting::{Host, same, same_bytes, same_in_row};
use crate::traces::{line_of_each, parsed};
use shb_discipline::{CheckError, check};
use shb_io::{Endless, Source, Text};
use shb_lines::Fault::{
    LineTooLong, MissingField, TextTooLong, TooManyEvents, TooManyThreads, UnknownOperation,
};
use shb_lines::{
    Event, Fault, Limits, LineFault, MOST_BYTES, Op, Parsed, ReadError, conflicts, parse,
};
use std::test::Fail;

fn stopped(line: u32, fault: Fault) -> Option<LineFault> {
    Some(LineFault { line, fault })
}

/// Asserts where the reading of some bytes under some limits stops.
fn expect_stop(
    rt: &impl Host,
    limits: &Limits,
    bytes: &[u8],
    wanted: Option<LineFault>,
) -> Result<Parsed, Fail> {
    let mut source = Text::new(bytes, 3, None);
    let found = parse(rt, rt.alloc(), &mut source, limits)?;
    let at = found.stop.map(|stop| (stop.line, stop.fault));
    same(
        rt,
        &at,
        &wanted.map(|stop| (stop.line, stop.fault)),
        "the stop",
    );
    Ok(found)
}

/// The limits of a text's bytes, a line's bytes, events and threads.
type Numbers = (u64, u32, u32, u32);

const STANDARD: Numbers = (MOST_BYTES, 4096, 4_194_304, 1024);

/// The line of a fault, and the fault.
type Stop = Option<(u32, Fault)>;

/// The standard limits but for one of them.
const TWO_THREADS: Numbers = (MOST_BYTES, 4096, 4_194_304, 2);

const ONE_EVENT: Numbers = (MOST_BYTES, 4096, 1, 1024);

const EIGHT_BYTES: Numbers = (8, 4096, 4_194_304, 1024);

const LINES_OF_EIGHT_BYTES: Numbers = (MOST_BYTES, 8, 4_194_304, 1024);

const EMPTY_LINES: Numbers = (MOST_BYTES, 0, 4_194_304, 1024);

fn limits_of(numbers: Numbers) -> Limits {
    let (text, line, events, threads) = numbers;
    let most = Limits::standard();
    Limits {
        text: text.min(most.text),
        line: line.min(most.line),
        events: events.min(most.events),
        threads: threads.min(most.threads),
    }
}

/// What is read of a text that is handed out in steps.
fn parsed_within(
    rt: &impl Host,
    text: &[u8],
    numbers: Numbers,
    step: usize,
) -> Result<Parsed, ReadError> {
    let mut source = Text::new(text, step.max(1), None);
    parse(rt, rt.alloc(), &mut source, &limits_of(numbers))
}

/// The first fault of a text that is handed out in steps, and how many events and threads there are.
fn stop_of(
    rt: &impl Host,
    text: &[u8],
    numbers: Numbers,
    step: usize,
) -> Result<(Stop, u32, u32), ReadError> {
    let found = parsed_within(rt, text, numbers, step)?;
    Ok((
        found.stop.map(|stop| (stop.line, stop.fault)),
        found.trace.len(),
        found.trace.threads(),
    ))
}

/// Steps in which a text is handed out.
const STEPS: [usize; 2] = [1, 1 << 20];

/// Limits, a text, its first fault, and how many events and threads stand before it. Those of the
/// program's own limits are in `tests/test_traces.py`.
const FIRST_FAULTS: [(Numbers, &[u8], Stop, u32, u32); 15] = [
    (
        STANDARD,
        b"T1|w(x)\nT2|w(y)\nT2|rel(l)\nT1|w(x)\noops\n",
        Some((5, MissingField)),
        4,
        2,
    ),
    (
        TWO_THREADS,
        b"T1|fork(T2)\nT3|r(x)\n",
        Some((2, TooManyThreads)),
        1,
        2,
    ),
    (
        TWO_THREADS,
        b"T1|r(x)\nT2|join(T3)\n",
        Some((2, TooManyThreads)),
        1,
        1,
    ),
    (
        ONE_EVENT,
        b"T1|r(x)\n\nT1|r(x)\n",
        Some((3, TooManyEvents)),
        1,
        1,
    ),
    (
        ONE_EVENT,
        b"T1|r(x)\nT1|oops\n",
        Some((2, UnknownOperation)),
        1,
        1,
    ),
    (EIGHT_BYTES, b"T1|r(x)\nT", Some((2, TextTooLong)), 1, 1),
    (EIGHT_BYTES, b"T1|r(x)\n", None, 1, 1),
    (EIGHT_BYTES, b"T1|r(xx)\n", Some((1, TextTooLong)), 0, 0),
    (EIGHT_BYTES, b"T1|r(x)\n\n", Some((2, TextTooLong)), 1, 1),
    (
        EIGHT_BYTES,
        b"oops\nT1|r(x)\n",
        Some((1, MissingField)),
        0,
        0,
    ),
    (LINES_OF_EIGHT_BYTES, b"T1|r(xx)\n", None, 1, 1),
    (
        LINES_OF_EIGHT_BYTES,
        b"T1|r(xx)\r\n",
        Some((1, LineTooLong)),
        0,
        0,
    ),
    (EMPTY_LINES, b"\r\n", Some((1, LineTooLong)), 0, 0),
    (STANDARD, b"\r\r\n", Some((1, MissingField)), 0, 0),
    (STANDARD, b"\x00\xff|r(x)\n", None, 1, 1),
];

#[test]
fn first_faults(rt: HostRuntime) -> Result<(), Fail> {
    for (row, (numbers, text, stop, events, threads)) in FIRST_FAULTS.iter().enumerate() {
        for step in STEPS {
            let found = stop_of(&rt, text, *numbers, step)?;
            same_in_row(&rt, &found, &(*stop, *events, *threads), row);
        }
    }
    Ok(())
}

/// No more is read than the limit and one byte.
#[test]
fn a_source_without_an_end(rt: HostRuntime) -> Result<(), Fail> {
    let limits = Limits {
        text: 1000,
        ..Limits::standard()
    };
    for (byte, line) in [(97, 1), (10, 1001)] {
        let mut source = Endless::new(byte);
        let found = parse(&rt, rt.alloc(), &mut source, &limits)?;
        let at = found.stop.map(|stop| (stop.line, stop.fault));
        same(&rt, &at, &Some((line, Fault::TextTooLong)), "the stop");
        same(&rt, &source.given(), &1001, "bytes given");
        same(&rt, &source.failures(), &0, "failures");
    }
    Ok(())
}

#[test]
fn a_read_that_fails(rt: HostRuntime) {
    let mut source = Text::new(b"T1|r(x)\n", 1, Some(4));
    let found = parse(&rt, rt.alloc(), &mut source, &Limits::standard());
    same(
        &rt,
        &matches!(found, Err(ReadError::Source)),
        &true,
        "the answer",
    );
    same(&rt, &source.failures(), &1, "failures");
}

#[test]
fn the_most_threads_and_the_longest_line(rt: HostRuntime) -> Result<(), Fail> {
    let standard = Limits::standard();
    let mut text = line_of_each(rt.alloc(), 1024, "r(a)")?;
    let found = expect_stop(&rt, &standard, text.as_bytes(), None)?;
    same(&rt, &found.trace.threads(), &1024, "threads");
    text.push_str("T1025|r(a)\n")?;
    expect_stop(
        &rt,
        &standard,
        text.as_bytes(),
        stopped(1025, Fault::TooManyThreads),
    )?;
    for (letters, wanted) in [(4090, None), (4091, stopped(1, Fault::LineTooLong))] {
        let mut line = String::from_str(rt.alloc(), "T1|r(")?;
        for _ in 0..letters {
            line.push('a')?;
        }
        line.push_str(")\n")?;
        expect_stop(&rt, &standard, line.as_bytes(), wanted)?;
    }
    Ok(())
}

#[test]
fn what_a_trace_tells(rt: HostRuntime) -> Result<(), Fail> {
    let text = "A|w(x)|here|there\r\n\nB|acq(l)\nA|fork(C)\nB|begin(q)\nB|r(x)|\n";
    let trace = parsed(&rt, text)?.trace;
    same(&rt, &trace.len(), &5, "events");
    same(
        &rt,
        &(trace.threads(), trace.locks(), trace.variables()),
        &(3, 1, 1),
        "counts",
    );
    let ops = [
        Op::Write(0),
        Op::Acquire(0),
        Op::Fork(2),
        Op::BeginMark,
        Op::Read(0),
    ];
    let threads = [0, 1, 0, 1, 1];
    let lines = [1, 3, 4, 5, 6];
    for e in 0..5u32 {
        let wanted = Event {
            thread: threads[e as usize],
            op: ops[e as usize],
            line: lines[e as usize],
        };
        same(&rt, &trace.event(e), &wanted, "an event");
    }
    same_bytes(&rt, trace.thread_name(2), b"C", "a thread's name");
    same_bytes(&rt, trace.lock_name(0), b"l", "a lock's name");
    same_bytes(&rt, trace.variable_name(0), b"x", "a variable's name");
    same_bytes(&rt, trace.line_text(0), b"A|w(x)|here|there", "a line");
    same_bytes(&rt, trace.location(0), b"here|there", "a location");
    same_bytes(&rt, trace.location(1), b"", "no location");
    same_bytes(&rt, trace.location(4), b"", "an empty location");
    same(&rt, &conflicts(&trace, 0, 4), &true, "a write and a read");
    same(&rt, &conflicts(&trace, 0, 2), &false, "a fork");
    Ok(())
}

/// Events conflict when they access one variable, in different threads, and one writes.
#[test]
fn conflicts_by_their_definition(rt: HostRuntime) -> Result<(), Fail> {
    let trace = parsed(&rt, "A|w(x)\nA|r(x)\nB|r(x)\nB|w(y)\nC|r(x)\nC|w(x)\n")?.trace;
    let wanted = [(0, 2), (0, 4), (0, 5), (1, 5), (2, 5)];
    for e in 0..6u32 {
        for f in e + 1..6u32 {
            let one = conflicts(&trace, e, f);
            same(&rt, &one, &wanted.contains(&(e, f)), "a conflict");
            same(&rt, &conflicts(&trace, f, e), &one, "the same turned round");
        }
    }
    Ok(())
}

/// Traces whose lines are well formed, but not their events: the first that breaks the discipline.
#[test]
fn undisciplined_traces(rt: HostRuntime) -> Result<(), Fail> {
    for (text, line, fault) in [
        ("T1|w(x)\n\nT1|rel(l)\nT1|fork(T1)\n", 3, Fault::NotHeld),
        ("T1|fork(T1)\n", 1, Fault::ForkSelf),
        ("T1|join(T2)\nT2|acq(l)\n", 2, Fault::AfterJoin),
    ] {
        let parsed = parsed(&rt, text)?;
        let Err(
            CheckError::Undisciplined {
                line: at,
                fault: why,
            },
        ) = check(rt.alloc(), &parsed.trace)
        else {
            return Err("the trace meets the discipline".into());
        };
        same(&rt, &(at, why), &(line, fault), text);
    }
    Ok(())
}
