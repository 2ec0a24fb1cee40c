//! The program: words, devices, texts of refusals and exit statuses. What it writes is the work of
//! `run`, `run_places`, `run_scan` and `check` of `shb_run`.
#![tactic(auto)]

mod beginning;
mod checks;
mod complaints;
mod refusals;
mod traces;

use crate::checks::follow_check;
use crate::complaints::{FAILED, STANDARD_OUTPUT, WORDS_REFUSED, cannot, complain};
use crate::traces::{Task, follow_task};
use shb_run::{Settings, Workers};
pub use shb_words::{Plan, WordsFault, plan_of};
use std::env;
use std::io::{ErrorKind, IsTerminal};
use std::process::ExitCode;
use std::random::RandomSource;
use std::rt::{Env, Files};
use std::sync::Wait;
use std::thread::Threads;

/// Which of the standard files are terminals.
#[derive(Clone, Copy)]
struct Terminals {
    /// Standard input: a user may not know that it is read.
    input: bool,
    /// Standard error: a user watches.
    errors: bool,
}

/// Says on standard error what is read from standard input, where that is awaited of a user.
fn tell_waiting<R: Eprint>(rt: &R, is_awaited: bool, words: &str) {
    if is_awaited {
        let _ = rt.eprintln(words);
    }
}

/// Does a task over the trace that is named, and gives the program's status.
fn follow_trace<
    R: Print + Eprint + Input + AllocGlobal + Files + RandomSource + Threads + Wait + Sync,
>(rt: &R, terminals: Terminals, trace: Option<String>, task: Task) -> u8 {
    let path = trace.as_ref().map(|path| path.as_str());
    let is_awaited = terminals.input && path.is_none();
    tell_waiting(rt, is_awaited, "reading the trace from standard input");
    follow_task(rt, path, task, terminals.errors)
}

/// How a report is made by these workers, which is a list or has schedules.
fn settings(workers: Workers, list: bool) -> Settings {
    Settings {
        workers,
        schedules: !list,
    }
}

/// What is asked of `places`: a list is made while the trace is read.
fn places_task(workers: Workers, list: bool, by_variable: bool) -> Task {
    if list {
        return Task::Scan { by_variable };
    }
    Task::Places {
        settings: settings(workers, list),
        by_variable,
    }
}

/// Does what the words ask for.
fn follow<R: Print + Eprint + Input + AllocGlobal + Files + RandomSource + Threads + Wait + Sync>(
    rt: &R,
    terminals: Terminals,
    words: &[String],
) -> u8 {
    match plan_of(rt.alloc(), words) {
        Ok(
            Plan::Races {
                workers,
                list,
                trace,
            },
        ) => follow_trace(rt, terminals, trace, Task::Races(settings(workers, list))),
        Ok(
            Plan::Places {
                workers,
                list,
                by_variable,
                trace,
            },
        ) => follow_trace(
            rt,
            terminals,
            trace,
            places_task(workers, list, by_variable),
        ),
        Ok(Plan::Check { trace }) => {
            tell_waiting(
                rt,
                terminals.input,
                "reading the report from standard input",
            );
            follow_check(rt, trace.as_str(), terminals.errors)
        }
        Ok(Plan::Help { text }) => match rt.print(text.as_str()) {
            Ok(()) => 0,
            Err(reason) => cannot(rt, "cannot write", STANDARD_OUTPUT, reason),
        },
        Err(WordsFault::Refused { text }) => {
            let _ = rt.eprint(text.as_str());
            WORDS_REFUSED
        }
        Err(WordsFault::Memory(_) | WordsFault::Unread(_)) => complain(rt, "out of memory", FAILED),
    }
}

/// Reads the words, and does what they ask for.
fn launch<
    R: Print + Eprint + Input + AllocGlobal + Files + Env + RandomSource + Threads + Wait + Sync,
>(rt: &R, terminals: Terminals) -> u8 {
    let words: Vec<String> = match env::args(rt) {
        Ok(words) => match words.skip(1).collect(rt.alloc()) {
            Ok(words) => words,
            Err(_) => return complain(rt, "out of memory", FAILED),
        },
        Err(error) if error.kind() == ErrorKind::OutOfMemory => {
            return complain(rt, "out of memory", FAILED);
        }
        Err(_) => return complain(rt, "error: a word is not UTF-8", WORDS_REFUSED),
    };
    follow(rt, terminals, &words)
}

fn main(rt: HostRuntime) -> ExitCode {
    let terminals = Terminals {
        input: rt.stdin().is_terminal(),
        errors: rt.stderr().is_terminal(),
    };
    ExitCode::from(launch(&rt, terminals))
}
