//! The lines of texts over sources that hand out little and much, and sources that fail.
use crate::asserting::{same_bytes, same_in_row};
use shb_io::{Failed, NoMemory, Source, Text};
use shb_lines::{Lines, Next};
use std::alloc::Global;
use std::test::Fail;

/// Steps in which a text is handed out.
pub const STEPS: [usize; 6] = [1, 2, 3, 7, 100, 1 << 20];

/// A limit, a text, and its lines: each with a `;` after it, the last one with a `.`, and `!` for one that is too long.
const LINES: [(u32, &[u8], &[u8]); 14] = [
    (4096, b"", b"."),
    (4096, b"\n", b";."),
    (4096, b"\n\n", b";;."),
    (4096, b"a", b"a."),
    (4096, b"a\n", b"a;."),
    (4096, b"a\nbc", b"a;bc."),
    (4096, b"a\r\nbc\r\n", b"a;bc;."),
    (4096, b"a\r\nbc\r", b"a;bc."),
    (4096, b"a\r\r\n\r\n\r", b"a\r;;."),
    (3, b"abc\nabc", b"abc;abc."),
    (3, b"ab\r\nabc\r\nab\n", b"ab;!"),
    (3, b"abcd", b"!"),
    (3, b"a\n\nabcd\n", b"a;;!"),
    (0, b"\n\na", b";;!"),
];

/// What was read: the lines as in the table, or `?` where the source failed.
fn read_lines(alloc: Global, source: &mut Text<'_>, limit: u32) -> Result<Vec<u8>, NoMemory> {
    let mut lines = Lines::new(alloc)?;
    let mut found = Vec::new(alloc);
    for _ in 0..100 {
        if source.failures() > 9 {
            return Ok(found);
        }
        match lines.next(source, limit.min(4096)) {
            Ok(Next::Line) => {
                found.extend_from_slice(lines.line())?;
                found.push(b';')?;
            }
            Ok(Next::Last) => {
                found.extend_from_slice(lines.line())?;
                found.push(b'.')?;
                return Ok(found);
            }
            Ok(Next::TooLong) => {
                found.push(b'!')?;
                return Ok(found);
            }
            Err(Failed) => found.push(b'?')?,
        }
    }
    Ok(found)
}

#[test]
fn lines_come_however_reads_are_cut(rt: HostRuntime) -> Result<(), Fail> {
    for step in STEPS {
        for row in 0..LINES.len() {
            let (limit, text, wanted) = LINES[row];
            let mut source = Text::new(text, step.max(1), None);
            let found = read_lines(rt.alloc(), &mut source, limit)?;
            same_in_row(&rt, &found.as_slice(), &wanted, row);
        }
    }
    Ok(())
}

/// A text, the read that fails, and the lines, in steps of two bytes.
const FAILURES: [(&[u8], u64, &[u8]); 4] = [
    (b"ab\ncd\n", 1, b"?ab;cd;."),
    (b"ab\ncd\n", 2, b"?ab;cd;."),
    (b"ab\ncd\n", 3, b"ab;?cd;."),
    (b"ab\ncd\n", 4, b"ab;cd;?."),
];

#[test]
fn a_failure_is_answered_at_once(rt: HostRuntime) -> Result<(), Fail> {
    for row in 0..FAILURES.len() {
        let (text, fail_at, wanted) = FAILURES[row];
        let mut source = Text::new(text, 2, Some(fail_at));
        let found = read_lines(rt.alloc(), &mut source, 4096)?;
        same_in_row(&rt, &found.as_slice(), &wanted, row);
    }
    Ok(())
}

/// Lines of 3,000 bytes, 100 of them, so that a line lies across the end of the buffer again and again.
#[test]
fn lines_stand_at_the_end_of_the_buffer(rt: HostRuntime) -> Result<(), Fail> {
    let mut text = Vec::new(rt.alloc());
    for k in 0..100u8 {
        for _ in 0..3000 {
            text.push(b'a' + k % 26)?;
        }
        text.push(b'\n')?;
    }
    let mut source = Text::new(text.as_slice(), 50_000, None);
    let found = read_lines(rt.alloc(), &mut source, 4096)?;
    for byte in text.as_mut_slice() {
        if *byte == b'\n' {
            *byte = b';';
        }
    }
    same_bytes(&rt, found.as_slice(), text.as_slice(), "the lines");
    Ok(())
}
