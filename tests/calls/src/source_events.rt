//! The events and first line faults of texts over sources that hand out little and much.

use crate::asserting::{same_bytes, same_in_row};
use crate::source_lines::STEPS;
use shb_io::{Source, Text};
use shb_lines::{EventReader, Limits, Op, ReadError, Step, Taken};
use std::alloc::Global;
use std::test::Fail;

/// A text, and what is taken of it, a letter an event: the operation with the numbers of thread and operand, the number of a fault, `.` at the end.
/// In the last row are names of 33, 32 and 31 bytes, each the beginning of the one before.
const TEXTS: [(&[u8], &[u8]); 10] = [
    (b"", b"."),
    (b"A|w(x)\nB|r(x)\nA|w(y)", b"w00r10w01."),
    (b"A|w(x)\r\n\r\nB|r(x)|here\r\n", b"w00r10."),
    (
        b"A|acq(l)\nA|rel(l)\nA|fork(B)\nB|acq(m)\nA|join(B)\n",
        b"a00l00f01a11j01.",
    ),
    (b"A|begin\nA|end()\n", b"b00e00."),
    (b"A|w(x)\noops\nA|w(x)\n", b"w003"),
    (b"A|w(x)\n\n|w(x)", b"w004"),
    (b"A|x(x)\r", b"5"),
    (b"A|w(x)\nA|w()\n", b"w006"),
    (
        b"A|w(abcdefghijklmnopqrstuvwxyz0123456)\nA|w(abcdefghijklmnopqrstuvwxyz012345)\nA|w(abcdefghijklmnopqrstuvwxyz01234)\nA|r(abcdefghijklmnopqrstuvwxyz0123456)\nA|r(abcdefghijklmnopqrstuvwxyz012345)\nA|r(abcdefghijklmnopqrstuvwxyz01234)\n",
        b"w00w01w02r00r01r02.",
    ),
];

fn letter(step: Step) -> [u8; 3] {
    let (kind, number) = match step.op {
        Op::Read(x) => (b'r', x),
        Op::Write(x) => (b'w', x),
        Op::Acquire(l) => (b'a', l),
        Op::Release(l) => (b'l', l),
        Op::Fork(t) => (b'f', t),
        Op::Join(t) => (b'j', t),
        Op::BeginMark => (b'b', 0),
        Op::EndMark => (b'e', 0),
    };
    [
        kind,
        b'0' + step.thread.min(9) as u8,
        b'0' + number.min(9) as u8,
    ]
}

const WIDE: Limits = Limits {
    text: 0,
    line: 4096,
    events: 1000,
    threads: 3,
};

/// What is taken, as in the table, or `?` where the source failed.
fn read_events(rt: &HostRuntime, source: &mut Text<'_>, limits: &Limits) -> Result<Vec<u8>, Fail> {
    let alloc = rt.alloc();
    let mut reader = EventReader::new(rt, alloc)?;
    let mut found = Vec::new(alloc);
    for k in 0..1000 {
        if source.failures() > 9 {
            return Ok(found);
        }
        match reader.next_event(source, limits) {
            Ok(Taken::Step(step)) => found.extend_from_slice(&letter(step))?,
            Ok(Taken::Fault(fault)) => {
                found.push(b'0' + fault.number().min(9))?;
                return Ok(found);
            }
            Ok(_) => {
                found.push(b'.')?;
                return Ok(found);
            }
            Err(ReadError::Source) => {
                found.push(b'?')?;
                return Ok(found);
            }
            Err(ReadError::Memory(refused)) => return Err(Fail::from(refused)),
        }
    }
    Ok(found)
}

#[test]
fn events_come_however_reads_are_cut(rt: HostRuntime) -> Result<(), Fail> {
    for step in STEPS {
        for row in 0..TEXTS.len() {
            let (text, wanted) = TEXTS[row];
            let mut source = Text::new(text, step.max(1), None);
            let found = read_events(&rt, &mut source, &WIDE)?;
            same_in_row(&rt, &found.as_slice(), &wanted, row);
        }
    }
    Ok(())
}

/// Limits of events and threads, a text, and what is taken of it.
const LIMITED: [(u32, u32, &[u8], &[u8]); 5] = [
    (1, 3, b"A|w(x)\n\nA|w(x)\n", b"w007"),
    (9, 2, b"A|w(x)\nA|fork(B)\nC|w(x)\n", b"w00f018"),
    (9, 2, b"A|w(x)\nA|fork(B)\nB|join(C)\n", b"w00f018"),
    (9, 2, b"A|w(x)\nA|fork(B)\nB|w(x)\n", b"w00f01w10."),
    (0, 0, b"\nA|w(x)\n", b"7"),
];

#[test]
fn limits_are_kept(rt: HostRuntime) -> Result<(), Fail> {
    for row in 0..LIMITED.len() {
        let (events, threads, text, wanted) = LIMITED[row];
        let mut source = Text::new(text, 3, None);
        let limits = Limits {
            text: 0,
            line: 4096,
            events: events.min(1000),
            threads: threads.min(1000),
        };
        let found = read_events(&rt, &mut source, &limits)?;
        same_in_row(&rt, &found.as_slice(), &wanted, row);
    }
    Ok(())
}

#[test]
fn a_failing_source_is_answered(rt: HostRuntime) -> Result<(), Fail> {
    let mut source = Text::new(b"A|w(x)\nA|r(x)\n", 7, Some(2));
    let found = read_events(&rt, &mut source, &WIDE)?;
    same_bytes(&rt, found.as_slice(), b"w00?", "what was read");
    Ok(())
}
