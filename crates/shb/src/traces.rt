//! `shb races` and `shb places`: what is found in a trace goes to standard output.
ghost use Rattle.std.specs.Prelude.{◌≡◌};

use crate::beginning::Begun;
use crate::complaints::{
    FAILED, Reasoned, STANDARD_INPUT, STANDARD_OUTPUT, cannot, complain, flushed,
    tell_refused_random,
};
use crate::refusals::{Ending, explain};
use shb_io::{FromRead, Source, ToWrite};
use shb_run::{RunError, ScanError, Settings, Summary, run, run_places, run_scan};
use std::fs::File;
use std::io::{BufWriter, Read, Write, writer};
use std::random::RandomSource;
use std::rt::Files;
use std::sync::Wait;
use std::thread::Threads;

/// How many bytes are written at once.
const BUFFER: usize = 1 << 16;

/// What is written of a trace.
#[derive(Clone, Copy)]
pub(crate) enum Task {
    /// The report of all its races.
    Races(Settings),
    /// The report of one race of each place, or of each place and variable.
    Places {
        settings: Settings,
        by_variable: bool,
    },
    /// The same without schedules, of a trace that is read once.
    Scan {
        by_variable: bool,
    },
}

/// How a report ended, which standard error says where it wasn't written.
fn end_report<R: Eprint + AllocGlobal>(rt: &R, answer: Result<Summary, RunError>) -> Ending {
    match answer {
        Ok(_) => Ending::well(0),
        Err(error) => Ending::of_run(rt, &error),
    }
}

/// Does a task over a source: writes to this writer, and says on standard error why nothing is written.
fn write_task<
    R: Eprint + AllocGlobal + RandomSource + Threads + Wait + Sync,
    S: Source,
    W: Write + Drop,
>(rt: &R, source: &mut S, output: W, task: Task) -> Ending
    requires { S.failure_count source.old ≡ 0 }
{
    let Ok(buffer) = BufWriter::with_capacity(rt.alloc(), BUFFER, output) else {
        return Ending::well(complain(rt, "out of memory", FAILED));
    };
    let mut sink = ToWrite::new(buffer);
    match task {
        Task::Races(settings) => {
            let answer = run(rt, rt.alloc(), source, &mut sink, settings);
            end_report(rt, flushed(answer, sink, RunError::Sink))
        }
        Task::Places {
            settings,
            by_variable,
        } => {
            let answer = run_places(rt, rt.alloc(), by_variable, source, &mut sink, settings);
            end_report(rt, flushed(answer, sink, RunError::Sink))
        }
        Task::Scan { by_variable } => {
            let answer = run_scan(rt, rt.alloc(), by_variable, source, &mut sink);
            Ending::of_scan(rt, &flushed(answer, sink, ScanError::Sink))
        }
    }
}

/// Does a task over what a reader gives: writes to standard output, and says on standard error what there is to say of the
/// trace, to a user who watches or not, and of the reader, which has this name.
fn do_named<R: Print + Eprint + AllocGlobal + RandomSource + Threads + Wait + Sync, Q: Read + Drop>(
    rt: &R,
    reader: Q,
    name: &str,
    task: Task,
    is_watched: bool,
) -> Ending {
    let mut reader = Reasoned::new(reader);
    let mut source = Begun::new(FromRead::new(&mut reader));
    let mut output = Reasoned::new(writer(rt));
    let ending = write_task(rt, &mut source, &mut output, task);
    output.tell_failure(rt, STANDARD_OUTPUT);
    source.tell_notes(rt, is_watched && ending.status == 0);
    let way_out = source.way_out(is_watched);
    reader.tell_failure(rt, name);
    if ending.status == FAILED {
        tell_refused_random(rt);
    }
    ending.with_way_out(way_out)
}

/// Does a task over a file, or over standard input where none is named, and gives the program's status. A user may watch
/// standard error.
pub(crate) fn follow_task<
    R: Print + Eprint + Input + AllocGlobal + Files + RandomSource + Threads + Wait + Sync,
>(rt: &R, trace: Option<&str>, task: Task, is_watched: bool) -> u8 {
    let Some(path) = trace else {
        return do_named(rt, rt.reader(), STANDARD_INPUT, task, is_watched).close(rt);
    };
    match File::open(rt, path) {
        Ok(mut file) => {
            let ending = do_named(rt, &mut file, path, task, is_watched);
            if let Some(refusal) = ending.refusal {
                explain(rt, &mut file, refusal);
            }
            ending.close(rt)
        }
        Err(reason) => cannot(rt, "cannot open", path, reason),
    }
}
