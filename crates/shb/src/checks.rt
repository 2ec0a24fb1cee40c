//! `shb check`: a report on standard input is judged against its trace.
ghost use Rattle.std.specs.Prelude.{◌≡◌};

use crate::beginning::Begun;
use crate::complaints::{
    FAILED, Reasoned, STANDARD_INPUT, STANDARD_OUTPUT, cannot, flushed, tell_refused_random,
};
use crate::refusals::{Ending, explain};
use shb_io::{FromRead, Source, ToWrite};
use shb_lines::MOST_BYTES;
use shb_run::{RunError, Verdict, check, status_of_check};
use std::fs::File;
use std::io::{Error, Read, Take, writer};
use std::random::RandomSource;
use std::rt::Files;

/// How every report ends.
const END: [u8; 5] = *b"\nend\n";

/// A reader that keeps the last bytes that it gave, and else is the reader inside.
#[derive(Drop)]
struct Tailed<Q> {
    reader: Q,
    tail: [u8; 5],
}

impl<Q: Read> Tailed<Q> {
    /// The same reader. Nothing was given.
    fn new(reader: Q) -> Tailed<Q> {
        Tailed {
            reader,
            tail: [0; 5],
        }
    }

    /// Whether what was given ends as every report does.
    fn has_end(&self) -> bool {
        self.tail.as_slice() == END.as_slice()
    }
}

/// Takes a byte behind the last bytes, in place of the first of them.
fn push(tail: &mut [u8; 5], byte: u8) {
    tail.copy_within(1..5, 0);
    tail[4] = byte;
}

impl<Q: Read> Read for Tailed<Q> {
    ghost remaining = { λ s. Q.remaining s.reader };

    fn read(&mut self, buf: &mut [u8]) -> std::io::Result<usize> {
        let count = self.reader.read(buf)?;
        for byte in &buf[count.saturating_sub(5)..count] {
            push(&mut self.tail, *byte);
        }
        Ok(count)
    }
}

/// Why standard input can't be read, where it is closed. A file that is opened while it is takes its number, and would
/// be read in its place.
fn closed<R: Input>(rt: &R) -> Option<Error> {
    rt.reader().read(&mut []).err()
}

/// Says of a report that is longer than a check reads, and to a user who watches of one that is cut off, why its verdict
/// is a bad line.
fn tell_end<R: Eprint, Q: Read>(rt: &R, report: &Tailed<Take<Q>>, is_watched: bool) {
    if report.reader.limit() == 0 {
        let _ = eprintln!(rt; "the report is longer than {MOST_BYTES} bytes");
    } else if is_watched && !report.has_end() {
        let _ = rt.eprintln("the report doesn't end with the line 'end': it is cut off");
    }
}

/// Judges the report on standard input against a trace, writes the verdict to standard output, and gives how that ended.
/// Of a report that is longer than a check reads standard error says so beside the verdict, and to a user who watches of
/// one that is cut off.
fn check_against<R: Print + Eprint + Input + AllocGlobal + RandomSource, S: Source>(
    rt: &R,
    trace: &mut S,
    is_watched: bool,
) -> Ending
    requires { S.failure_count trace.old ≡ 0 }
{
    // One byte more than a report may have.
    let mut given = Tailed::new(rt.reader().take(MOST_BYTES + 1));
    let mut reasoned = Reasoned::new(&mut given);
    let mut report = FromRead::new(&mut reasoned);
    let mut output = Reasoned::new(writer(rt));
    let mut sink = ToWrite::new(&mut output);
    let answer = check(rt, rt.alloc(), trace, &mut report, &mut sink);
    let answer = flushed(answer, sink, RunError::Sink);
    let ending = match &answer {
        Ok(_) => Ending::well(status_of_check(&answer)),
        Err(error) => Ending::of_run(rt, error),
    };
    output.tell_failure(rt, STANDARD_OUTPUT);
    reasoned.tell_failure(rt, STANDARD_INPUT);
    if matches!(answer, Ok(Verdict::BadLine { .. })) {
        tell_end(rt, &given, is_watched);
    }
    ending
}

/// Judges the report on standard input against the trace of a file, writes the verdict to standard output, and gives
/// the program's status. Where standard input is closed nothing is opened. A user may watch standard error.
pub(crate) fn follow_check<R: Print + Eprint + Input + AllocGlobal + Files + RandomSource>(
    rt: &R,
    path: &str,
    is_watched: bool,
) -> u8 {
    if let Some(reason) = closed(rt) {
        return cannot(rt, "cannot read", STANDARD_INPUT, reason);
    }
    let mut file = match File::open(rt, path) {
        Ok(file) => file,
        Err(reason) => return cannot(rt, "cannot open", path, reason),
    };
    let mut reader = Reasoned::new(&mut file);
    let mut trace = Begun::new(FromRead::new(&mut reader));
    let ending = check_against(rt, &mut trace, is_watched);
    trace.tell_notes(rt, is_watched && matches!(ending.status, 0 | 5));
    let ending = ending.with_way_out(trace.way_out(is_watched));
    reader.tell_failure(rt, path);
    if ending.status == FAILED {
        tell_refused_random(rt);
    }
    if let Some(refusal) = ending.refusal {
        explain(rt, &mut file, refusal);
    }
    ending.close(rt)
}
