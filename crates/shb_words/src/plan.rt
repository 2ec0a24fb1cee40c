//! The plan that some words ask for.
ghost use Rattle.std.specs.Prelude.{◌≡◌, [], IsOkAnd};
ghost use Rattle.shb_words.specs.Plans.{ListsInput};

use crate::command::command;
use clap::error::ErrorKind;
use clap::{ArgMatches, Error};
use shb_fan::Workers;
use shb_io::NoMemory;
use std::alloc::Global;

/// What the words ask for.
#[derive(Debug, Drop)]
pub enum Plan {
    /// Write the report of all races of a trace, of standard input where `trace` is `None`; with `list`, without
    /// schedules.
    Races {
        workers: Workers,
        list: bool,
        trace: Option<String>,
    },
    /// Check the report on standard input against a trace.
    Check {
        trace: String,
    },
    /// Print this help on standard output.
    Help {
        text: String,
    },
    /// Write the report of one race of each place, or with `by_variable` of each place and variable, otherwise as `Races`
    /// does.
    Places {
        workers: Workers,
        list: bool,
        by_variable: bool,
        trace: Option<String>,
    },
}

/// Why the words give no plan.
#[derive(Debug, Drop)]
pub enum WordsFault {
    /// The words ask for nothing that there is. The text says why, and ends in a line feed.
    Refused { text: String },
    /// Memory was refused.
    Memory(NoMemory),
    /// Memory was refused while the command line was read: its error says so.
    Unread(Error),
}

impl From<NoMemory> for WordsFault {
    fn from(refused: NoMemory) -> WordsFault {
        WordsFault::Memory(refused)
    }
}

/// What a user is told whose first word is no command, such as a file.
const ABOUT_COMMANDS: &str =
    "The commands are races, places and check. Begin with 'shb places --list TRACE'.\n";

/// What a user is told whose number of workers is none.
const ABOUT_WORKERS: &str = "--workers takes a number from 1 to 64.\n";

/// A text of these characters.
fn text_of(alloc: Global, characters: &str) -> Result<String, NoMemory> {
    Ok(characters.to_string(alloc)?)
}

/// The number of workers where the words name none: 4.
fn default_workers() -> Workers
    ensures { result.count ≡ 4 }
{
    match Workers::new(4) {
        Some(workers) => workers,
        None => unreachable!(),
    }
}

/// What no words ask for: the report of all races of standard input without schedules, by 4 workers.
fn lists_input() -> Plan
    ensures { ListsInput result }
{
    Plan::Races {
        workers: default_workers(),
        list: true,
        trace: None,
    }
}

/// The number of workers that the words after `races` or `places` name, or 4.
fn workers_in(matches: &ArgMatches<'_>) -> Workers {
    matches
        .get_one::<u32>("workers")
        .and_then(Workers::new)
        .unwrap_or(default_workers())
}

/// The file of the trace that these words name.
fn trace_in(alloc: Global, matches: &ArgMatches<'_>) -> Result<Option<String>, WordsFault> {
    match matches.get_str("trace") {
        Some(path) => Ok(Some(text_of(alloc, path)?)),
        None => Ok(None),
    }
}

/// The plan of the words after `races`.
fn races_plan(alloc: Global, matches: &ArgMatches<'_>) -> Result<Plan, WordsFault> {
    Ok(Plan::Races {
        workers: workers_in(matches),
        list: matches.get_flag("list"),
        trace: trace_in(alloc, matches)?,
    })
}

/// The plan of the words after `places`.
fn places_plan(alloc: Global, matches: &ArgMatches<'_>) -> Result<Plan, WordsFault> {
    Ok(Plan::Places {
        workers: workers_in(matches),
        list: matches.get_flag("list"),
        by_variable: matches.get_flag("variables"),
        trace: trace_in(alloc, matches)?,
    })
}

/// The plan of the words after `check`.
fn check_plan(alloc: Global, matches: &ArgMatches<'_>) -> Result<Plan, WordsFault> {
    match matches.get_str("trace") {
        Some(path) => Ok(Plan::Check {
            trace: text_of(alloc, path)?,
        }),
        None => refused(alloc, "error: no TRACE was given\n"),
    }
}

/// Words refused for this reason.
fn refused(alloc: Global, reason: &str) -> Result<Plan, WordsFault> {
    Err(WordsFault::Refused {
        text: text_of(alloc, reason)?,
    })
}

/// What stands for an error of the command line: help that was asked for is no error. The one value that can be wrong
/// is the number of workers.
fn plan_of_error(alloc: Global, error: Error) -> Result<Plan, WordsFault> {
    let kind = error.kind();
    if matches!(kind, ErrorKind::OutOfMemory) {
        return Err(WordsFault::Unread(error));
    }
    let mut text = error.to_string(alloc).map_err(NoMemory::from)?;
    if matches!(kind, ErrorKind::DisplayHelp) {
        return Ok(Plan::Help { text });
    }
    let hint = match kind {
        ErrorKind::ValueValidation => ABOUT_WORKERS,
        ErrorKind::InvalidSubcommand => ABOUT_COMMANDS,
        _ => "",
    };
    text.push_str(hint).map_err(NoMemory::from)?;
    Err(WordsFault::Refused { text })
}

/// The plan of a command line that was read.
fn plan_in(alloc: Global, matches: &ArgMatches<'_>) -> Result<Plan, WordsFault> {
    match matches.subcommand() {
        Some(("races", inner)) => races_plan(alloc, inner),
        Some(("places", inner)) => places_plan(alloc, inner),
        Some(("check", inner)) => check_plan(alloc, inner),
        _ => refused(alloc, "error: no command was given\n"),
    }
}

/// The words of the command line, the program's own name first.
fn line_of(alloc: Global, words: &[String]) -> Result<Vec<&str>, NoMemory> {
    let mut line = Vec::with_capacity(alloc, words.len() + 1)?;
    line.push("shb")?;
    for word in words {
        line.push(word.as_str())?;
    }
    Ok(line)
}

/// The plan that the words of a command line ask for, the program's own name left out:
/// `races` or `places`, each with `[--workers N] [--list] [TRACE]` and N from 1 to 64, `places` with `[--variables]` too,
/// `check TRACE`, or help. No words at all are `races --list`, with 4 workers.
///
/// # Errors
///
/// [`WordsFault::Refused`] where the words ask for nothing of this, with the text that says so;
/// [`WordsFault::Memory`] or [`WordsFault::Unread`] where memory was refused. The words stay as they are.
pub fn plan_of(alloc: Global, words: &[String]) -> Result<Plan, WordsFault>
    // No words ask for the report of all races of standard input without schedules, by 4 workers, and need no memory.
    ensures no_words { words.now ≡ [] → IsOkAnd result ListsInput }
{
    if words.is_empty() {
        return Ok(lists_input());
    }
    let line = line_of(alloc, words)?;
    match command(alloc)?.try_get_matches_from(line.as_slice()) {
        Ok(matches) => plan_in(alloc, &matches),
        Err(error) => plan_of_error(alloc, error),
    }
}
