//! What is said of a trace for which there is no answer. The first line says which line is refused and why, or what failed.
//! Further ones say what the refused line has, and which line before it it can't follow. They need the trace once more, so
//! they are missing where it can't be read again, as a pipe, and where memory is short.
ghost use Rattle.std.specs.Prelude.{◌≡◌};
ghost use Rattle.shb_check.specs.Errors.{exit_status_of};
ghost use Rattle.shb_scan.specs.Errors.{scan_status_of};

use crate::beginning::WayOut;
use memchr::memchr;
use shb_io::{FromRead, NoMemory, Source};
use shb_lines::{Fault, Lines, Next};
use shb_run::{RunError, ScanError, exit_status, fault_line, scan_line, status_of_scan};
use std::alloc::Global;
use std::fmt;
use std::fmt::{Display, Formatter};
use std::io::{Read, Seek};
use std::str::from_utf8;

/// How many bytes a line has at most.
const MOST_LINE: u32 = 4096;

/// How many bytes of a line or a name are shown at most.
const SHOWN: usize = 200;

/// The line for which a trace is refused, from 1, and its fault.
#[derive(Clone, Copy)]
pub(crate) struct Refusal {
    pub(crate) line: u64,
    pub(crate) fault: Fault,
}

/// How a command over a trace ended: the program's status, and the line for which the trace was refused, if it was and
/// standard error says so.
#[derive(Clone, Copy)]
pub(crate) struct Ending {
    pub(crate) status: u8,
    pub(crate) refusal: Option<Refusal>,
    /// What a user is told at last of a trace that was refused.
    way_out: Option<WayOut>,
}

impl Ending {
    /// That of a trace that was accepted.
    pub(crate) fn well(status: u8) -> Ending
        ensures { result.status ≡ status }
    {
        Ending {
            status,
            refusal: None,
            way_out: None,
        }
    }

    /// The same, with what a user is told at last.
    pub(crate) fn with_way_out(self, way_out: Option<WayOut>) -> Ending
        ensures { result.status ≡ self.status }
    {
        Ending { way_out, ..self }
    }

    /// Tells a user of a refused trace the way out, and gives the program's status.
    pub(crate) fn close<R: Eprint>(self, rt: &R) -> u8
        ensures { result ≡ self.status }
    {
        if let (Some(_), Some(way_out)) = (self.refusal, self.way_out) {
            way_out.tell(rt);
        }
        self.status
    }

    /// That of an error, whose line is said on standard error, where there is memory for it.
    pub(crate) fn told<R: Eprint>(
        rt: &R,
        status: u8,
        line: Result<String, NoMemory>,
        refusal: Option<Refusal>,
    ) -> Ending
        ensures { result.status ≡ status }
    {
        let Ok(line) = line else {
            return Ending::well(status);
        };
        let _ = rt.eprintln(line.as_str());
        Ending {
            refusal,
            ..Ending::well(status)
        }
    }

    /// That of a run or a check with this error.
    pub(crate) fn of_run<R: Eprint + AllocGlobal>(rt: &R, error: &RunError) -> Ending
        ensures { result.status ≡ exit_status_of error.now }
    {
        let refusal = match error {
            RunError::Trace { line, fault } => Some(Refusal {
                line: u64::from(*line),
                fault: *fault,
            }),
            _ => None,
        };
        let line = fault_line(rt.alloc(), error);
        Ending::told(rt, exit_status(error), line, refusal)
    }

    /// That of a stream whose nearest races were listed.
    pub(crate) fn of_scan<R: Eprint + AllocGlobal>(rt: &R, answer: &Result<(), ScanError>) -> Ending
        ensures { result.status ≡ scan_status_of answer.now }
    {
        let status = status_of_scan(answer);
        let Err(error) = answer else {
            return Ending::well(status);
        };
        let refusal = match error {
            ScanError::Trace { line, fault } => Some(Refusal {
                line: *line,
                fault: *fault,
            }),
            _ => None,
        };
        Ending::told(rt, status, scan_line(rt.alloc(), error), refusal)
    }
}

/// The front of some bytes of a trace in backquotes. What doesn't print is escaped.
#[derive(Clone, Copy)]
struct Quoted<'l>(&'l [u8]);

impl Display for Quoted<'_> {
    fn fmt<W: fmt::Write>(&self, f: &mut Formatter<W>) -> fmt::Result {
        if self.0.len() > SHOWN {
            let (front, _) = self.0.split_at(SHOWN);
            return write!(f, "`{}..`", front.escape_ascii());
        }
        match from_utf8(self.0) {
            Ok(text) => write!(f, "`{}`", text.escape_debug()),
            Err(_) => write!(f, "`{}`", self.0.escape_ascii()),
        }
    }
}

/// The line of an event in its parts.
#[derive(Clone, Copy)]
struct Parts<'l> {
    thread: &'l [u8],
    /// The word of the operation.
    word: &'l [u8],
    /// The name in parentheses.
    name: &'l [u8],
}

/// What stands before the first `byte`, and after it. Without one all stands before it.
fn parted(byte: u8, bytes: &[u8]) -> (&[u8], &[u8]) {
    match memchr(byte, bytes) {
        Some(at) => (&bytes[..at], &bytes[at + 1..]),
        None => (bytes, &bytes[..0]),
    }
}

/// The parts of a line. Of one that is no event they are what stands in their places.
fn parts_of(line: &[u8]) -> Parts<'_> {
    let (thread, fields) = parted(b'|', line);
    let (operation, _) = parted(b'|', fields);
    let (word, call) = parted(b'(', operation);
    Parts {
        thread,
        word,
        name: &call[..call.len().saturating_sub(1)],
    }
}

/// Reads the line with this number, from 1, which `lines` shows then, and says whether there is one that isn't too
/// long, and none before it is.
fn read_to<S: Source>(lines: &mut Lines, source: &mut S, number: u64) -> bool
    requires { S.failure_count source.old ≡ 0 }
{
    for _ in 0..number {
        if !matches!(lines.next(source, MOST_LINE), Ok(Next::Line | Next::Last)) {
            return false;
        }
    }
    true
}

/// The line of a file with this number, from 1, as the one that `Lines` gave last.
fn line_of<F: Read + Seek>(alloc: Global, file: &mut F, number: u64) -> Option<Lines> {
    let (Ok(()), Ok(mut lines)) = (file.rewind(), Lines::new(alloc)) else {
        return None;
    };
    let mut source = FromRead::new(file);
    let is_there = read_to(&mut lines, &mut source, number);
    is_there.then_some(lines)
}

/// Whether a line is one that the refused line can't follow: an acquire of its lock, or what its thread did before.
fn opens(fault: Fault, refused: Parts<'_>, line: Parts<'_>) -> bool {
    match (fault, line.word) {
        (Fault::LockHeld | Fault::NotHeld, b"acq") => line.name == refused.name,
        (Fault::ForkTwice, b"fork") => line.name == refused.name,
        (Fault::ForkJoined, b"join") => line.name == refused.name,
        (Fault::AfterJoin, b"join") => line.name == refused.thread,
        (Fault::ForkStarted, _) => line.thread == refused.name,
        _ => false,
    }
}

/// Whether a line undoes one that the refused line can't follow: a release of its lock.
fn closes(fault: Fault, refused: Parts<'_>, line: Parts<'_>) -> bool {
    matches!(
        (fault, line.word),
        (Fault::LockHeld | Fault::NotHeld, b"rel")
    ) && line.name == refused.name
}

/// The line that the refused one can't follow, as far as lines were looked at.
#[derive(Drop)]
struct Search {
    /// Its number, from 1, where `depth` isn't 0.
    line: u64,
    /// How many such lines weren't undone.
    depth: u64,
}

impl Search {
    /// Looks at the line with this number.
    fn look(&mut self, number: u64, refusal: Refusal, refused: Parts<'_>, line: Parts<'_>) {
        if opens(refusal.fault, refused, line) {
            if self.depth == 0 {
                self.line = number;
            }
            self.depth = self.depth.saturating_add(1);
        } else if closes(refusal.fault, refused, line) {
            self.depth = self.depth.saturating_sub(1);
        }
    }
}

/// The number of the line that the refused one can't follow: the first one that isn't undone before the refused line.
fn earlier_in<S: Source>(
    lines: &mut Lines,
    source: &mut S,
    refusal: Refusal,
    refused: Parts<'_>,
) -> Option<u64>
    requires { S.failure_count source.old ≡ 0 }
{
    let mut search = Search { line: 0, depth: 0 };
    for number in 1..refusal.line {
        match lines.next(source, MOST_LINE) {
            Ok(Next::Line | Next::Last) => {
                search.look(number, refusal, refused, parts_of(lines.line()));
            }
            _ => return None,
        }
    }
    (search.depth != 0).then_some(search.line)
}

/// The line of a file that the refused one can't follow, as the one that `Lines` gave last, and its number.
fn earlier_of<F: Read + Seek>(
    alloc: Global,
    file: &mut F,
    refusal: Refusal,
    refused: Parts<'_>,
) -> Option<(u64, Lines)> {
    let (Ok(()), Ok(mut lines)) = (file.rewind(), Lines::new(alloc)) else {
        return None;
    };
    let mut source = FromRead::new(&mut *file);
    let number = earlier_in(&mut lines, &mut source, refusal, refused)?;
    let lines = line_of(alloc, file, number)?;
    Some((number, lines))
}

/// Says on standard error what the line before the refused one did that it can't follow.
fn tell_earlier<R: Eprint>(rt: &R, refusal: Refusal, refused: Parts<'_>, number: u64, line: &[u8]) {
    let name = Quoted(refused.name);
    let thread = Quoted(refused.thread);
    let holder = Quoted(parts_of(line).thread);
    let line = Quoted(line);
    let _ = match refusal.fault {
        Fault::LockHeld | Fault::NotHeld => {
            eprintln!(rt; "{name} is held by {holder} since line {number}: {line}")
        }
        Fault::ForkStarted => eprintln!(rt; "{name} has an event in line {number}: {line}"),
        Fault::ForkTwice => eprintln!(rt; "{name} was forked in line {number}: {line}"),
        Fault::ForkJoined => eprintln!(rt; "{name} was joined in line {number}: {line}"),
        _ => eprintln!(rt; "{thread} was joined in line {number}: {line}"),
    };
}

/// Says on standard error what the refused line of a file has, and which line before it it can't follow.
pub(crate) fn explain<R: Eprint + AllocGlobal, F: Read + Seek>(
    rt: &R,
    file: &mut F,
    refusal: Refusal,
) {
    let Some(lines) = line_of(rt.alloc(), file, refusal.line) else {
        return;
    };
    let _ = eprintln!(rt; "the line is {}", Quoted(lines.line()));
    let refused = parts_of(lines.line());
    if refusal.fault == Fault::UnknownOperation {
        let word = Quoted(refused.word);
        let _ = eprintln!(rt; "{word} is none of r, w, acq, rel, fork, join, begin and end");
    }
    if let Some((number, earlier)) = earlier_of(rt.alloc(), file, refusal, refused) {
        tell_earlier(rt, refusal, refused, number, earlier.line());
    }
}
