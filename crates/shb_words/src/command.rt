//! The command line that is read.
use crate::help::{ABOUT_CHECKS, ABOUT_PLACES, ABOUT_THE_PROGRAM, ABOUT_TRACES};
use clap::{Arg, ArgAction, Command, value_parser};
use shb_io::NoMemory;
use std::alloc::Global;

/// `--workers N`
fn workers_argument<'a>(alloc: Global) -> Arg<'a> {
    Arg::new(alloc, "workers")
        .long("workers")
        .value_name("N")
        .help("Workers that make schedules and lines, 1 to 64 [default: 4]")
        .value_parser(value_parser!(u32).range(1..=64))
}

/// `--list`
fn list_argument<'a>(alloc: Global) -> Arg<'a> {
    Arg::new(alloc, "list")
        .long("list")
        .help("Leave the schedules out: for the first look at a trace")
        .action(ArgAction::SetTrue)
}

/// `--variables`
fn variables_argument<'a>(alloc: Global) -> Arg<'a> {
    Arg::new(alloc, "variables")
        .long("variables")
        .help("One race of each place and variable")
        .action(ArgAction::SetTrue)
}

/// `TRACE`, where it may be left out.
fn trace_argument<'a>(alloc: Global) -> Arg<'a> {
    Arg::new(alloc, "trace")
        .value_name("TRACE")
        .help("The file of the trace; standard input if it is left out")
}

/// `NAME [--workers N] [--list] [TRACE]`: a command that writes a report.
fn report_command<'a>(
    alloc: Global,
    name: &'a str,
    about: &'a str,
    details: &'a str,
) -> Result<Command<'a>, NoMemory> {
    let command = Command::new(alloc, name)
        .about(about)
        .after_help(details)
        .arg(workers_argument(alloc))?
        .arg(list_argument(alloc))?
        .arg(trace_argument(alloc))?;
    Ok(command)
}

/// `check TRACE`
fn check_command<'a>(alloc: Global) -> Result<Command<'a>, NoMemory> {
    let trace = Arg::new(alloc, "trace")
        .value_name("TRACE")
        .help("The file of the trace")
        .required(true);
    let command = Command::new(alloc, "check")
        .about("Checks the report on standard input against its trace")
        .override_usage("shb check <TRACE> < REPORT")
        .after_help(ABOUT_CHECKS)
        .arg(trace)?;
    Ok(command)
}

/// The command line without its commands. Its first word is the program's own name.
fn program<'a>(alloc: Global) -> Command<'a> {
    Command::new(alloc, "shb")
        .about("Finds the races of a trace of a run, and gives each a schedule that shows it")
        .after_help(ABOUT_THE_PROGRAM)
        .subcommand_required(true)
}

/// This command line with `races`.
fn with_races<'a>(alloc: Global, line: Command<'a>) -> Result<Command<'a>, NoMemory> {
    let races = report_command(
        alloc,
        "races",
        "Writes the report of a trace to standard output",
        ABOUT_TRACES,
    )?;
    Ok(line.subcommand(races)?)
}

/// This command line with `places`.
fn with_places<'a>(alloc: Global, line: Command<'a>) -> Result<Command<'a>, NoMemory> {
    let places = report_command(
        alloc,
        "places",
        "Writes the report of one race of each place of a trace",
        ABOUT_PLACES,
    )?;
    Ok(line.subcommand(places.arg(variables_argument(alloc))?)?)
}

/// The whole command line.
pub fn command<'a>(alloc: Global) -> Result<Command<'a>, NoMemory> {
    let reports = with_places(alloc, with_races(alloc, program(alloc))?)?;
    Ok(reports.subcommand(check_command(alloc)?)?)
}
