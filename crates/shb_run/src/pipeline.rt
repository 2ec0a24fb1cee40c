//! The whole run: read, judge, find the races, write.
ghost use Rattle.std.specs.Prelude.{◌≡◌, ◌-◌, ◌^◌, ◌<◌};
ghost use Rattle.shb_run.specs.declared.settings.Choice.TheVariants.{All, Nearest};
ghost use Rattle.shb_run.specs.Outcomes.{HasSummed, IsOutcome, summary_of};
ghost use Rattle.shb_format.specs.Report.{counts_of};
ghost use Rattle.shb_format.specs.Value.{AreShown, IsShown};
ghost use Rattle.shb_counts.specs.Settled.{trace_of};

use crate::lists::races_asked;
use crate::settings::{Choice, Settings, Summary};
use shb_check::{RunError, judge, read_trace};
use shb_counts::Settled;
use shb_discipline::Disciplined;
use shb_fan::{FreeGate, Gate};
use shb_io::{Sink, Source};
use shb_lines::Trace;
use shb_links::links_of;
use shb_stamps::open_variables;
use shb_write::{BlockPlan, WriteError, write_races};
use std::alloc::Global;
use std::random::RandomSource;
use std::sync::Wait;
use std::thread::Threads;

/// What a run says of a trace that has so many races.
pub(crate) fn summary_of(trace: &Trace, races: u64) -> Summary
    ensures summary { result ≡ summary_of trace.now races }
    ensures fits { AreShown (counts_of trace.now) × IsShown result.races }
{
    Summary {
        events: u64::from(trace.len()),
        threads: u64::from(trace.threads()),
        locks: u64::from(trace.locks()),
        variables: u64::from(trace.variables()),
        races,
    }
}

/// Finds the races of a settled trace that are asked for, and writes their report.
fn report_settled<R: Threads + Wait + Sync + RandomSource, K: Sink, P: Gate + Sync, W: Gate + Sync>(
    rt: &R,
    alloc: Global,
    sink: &mut K,
    settled: &Settled<'_>,
    choice: Choice,
    plan: &BlockPlan<'_, '_, P, W>,
) -> Result<Summary, WriteError>
    requires countable { K.failure_count sink.old < 2 ^ 64 - 1 }
    ensures { HasSummed choice plan.now.schedules (trace_of settled.now) K.taken K.failure_count sink.old sink.new result }
{
    let mut list = races_asked(rt, alloc, settled, choice, plan.workers)?;
    let count = list.count;
    write_races(rt, alloc, sink, settled, &mut list, plan)?;
    Ok(summary_of(settled.disciplined.trace, count))
}

/// Writes the report of a trace that is asked for.
fn report_asked<R: Threads + Wait + Sync + RandomSource, K: Sink, P: Gate + Sync, W: Gate + Sync>(
    rt: &R,
    alloc: Global,
    sink: &mut K,
    disciplined: &Disciplined<'_>,
    choice: Choice,
    plan: &BlockPlan<'_, '_, P, W>,
) -> Result<Summary, WriteError>
    requires countable { K.failure_count sink.old < 2 ^ 64 - 1 }
    ensures { HasSummed choice plan.now.schedules disciplined.now.trace.now K.taken K.failure_count sink.old sink.new result }
{
    let links = links_of(alloc, &*disciplined)?;
    let flags = open_variables(alloc, &*disciplined, &links)?;
    let settled = Settled::new(&*disciplined, &links, &flags);
    report_settled(rt, alloc, sink, &settled, choice, plan)
}

/// Reads a trace, finds its races, and writes its report.
///
/// The text is read whole, then judged, then its races are looked for, and only then is anything
/// written; from then on each block goes out as soon as it is made. So a source that fails is
/// answered before a trace that is refused, and neither leaves anything written.
///
/// # Errors
///
/// - [`RunError::Source`]: the source failed. Nothing was written.
/// - [`RunError::Trace`]: the text has a fault, and this is the first. Nothing was written.
/// - [`RunError::Sink`]: the sink failed. The text has no fault. The sink took less than the report, the
///   front of it.
/// - [`RunError::Memory`]: memory was refused. Nothing was written; or the text has no fault, and the sink
///   took less than the report, all lines before the first block among it.
///
/// What was read of the source stays read.
pub fn run<S: Source, K: Sink, R: Threads + Wait + Sync + RandomSource>(
    rt: &R,
    alloc: Global,
    source: &mut S,
    sink: &mut K,
    settings: Settings,
) -> Result<Summary, RunError>
    requires source_countable { S.failure_count source.old < 2 ^ 64 - 1 }
    requires sink_countable { K.failure_count sink.old < 2 ^ 64 - 1 }
    ensures { IsOutcome All settings.schedules S.remaining S.given_count S.failure_count source.old source.new
        K.taken K.failure_count sink.old sink.new result }
{
    run_gated(rt, alloc, source, sink, settings, &FreeGate, &FreeGate)
}

/// [`run`] with gates: `pair_gate` is passed before the pairs of a piece of the races are made, or the text of its
/// blocks, and `witness_gate` before the schedule of a race is made. Tests hold workers back with gates.
///
/// # Errors
///
/// Those of [`run`].
pub fn run_gated<
    S: Source,
    K: Sink,
    R: Threads + Wait + Sync + RandomSource,
    P: Gate + Sync,
    W: Gate + Sync,
>(
    rt: &R,
    alloc: Global,
    source: &mut S,
    sink: &mut K,
    settings: Settings,
    pair_gate: &P,
    witness_gate: &W,
) -> Result<Summary, RunError>
    requires source_countable { S.failure_count source.old < 2 ^ 64 - 1 }
    requires sink_countable { K.failure_count sink.old < 2 ^ 64 - 1 }
    ensures { IsOutcome All settings.schedules S.remaining S.given_count S.failure_count source.old source.new
        K.taken K.failure_count sink.old sink.new result }
{
    let plan = BlockPlan {
        workers: settings.workers,
        schedules: settings.schedules,
        pair: &*pair_gate,
        witness: &*witness_gate,
    };
    run_task(rt, alloc, source, sink, Choice::All, &plan)
}

/// Reads a trace, finds its races, and writes the report of its nearest races, those that [`run_scan`](crate::run_scan)
/// lists: of each place, the locations of two events, one race; with `by_variable`, of each place and variable.
///
/// No list of all races is made: one pass over the trace looks for a race of each place. What is written has the form of a
/// report, numbered from 1, in which each place counts those that are listed, and the summary's races are these too.
/// Everything else is as with [`run`](crate::run).
///
/// # Errors
///
/// Those of `run`: [`RunError::Source`] and [`RunError::Trace`] with nothing written, [`RunError::Sink`] and
/// [`RunError::Memory`] with less than the report written, the front of it, or for `Memory` nothing.
///
/// What was read of the source stays read.
pub fn run_places<S: Source, K: Sink, R: Threads + Wait + Sync + RandomSource>(
    rt: &R,
    alloc: Global,
    by_variable: bool,
    source: &mut S,
    sink: &mut K,
    settings: Settings,
) -> Result<Summary, RunError>
    requires source_countable { S.failure_count source.old < 2 ^ 64 - 1 }
    requires sink_countable { K.failure_count sink.old < 2 ^ 64 - 1 }
    ensures { IsOutcome (Nearest by_variable) settings.schedules S.remaining S.given_count S.failure_count source.old source.new
        K.taken K.failure_count sink.old sink.new result }
{
    let plan = BlockPlan {
        workers: settings.workers,
        schedules: settings.schedules,
        pair: &FreeGate,
        witness: &FreeGate,
    };
    run_task(
        rt,
        alloc,
        source,
        sink,
        Choice::Nearest { by_variable },
        &plan,
    )
}

/// Reads a trace, finds its races, and writes the report of those that are asked for: the body of [`run`],
/// of [`run_gated`] and of `run_places`.
pub(crate) fn run_task<
    S: Source,
    K: Sink,
    R: Threads + Wait + Sync + RandomSource,
    P: Gate + Sync,
    W: Gate + Sync,
>(
    rt: &R,
    alloc: Global,
    source: &mut S,
    sink: &mut K,
    choice: Choice,
    plan: &BlockPlan<'_, '_, P, W>,
) -> Result<Summary, RunError>
    requires source_countable { S.failure_count source.old < 2 ^ 64 - 1 }
    requires sink_countable { K.failure_count sink.old < 2 ^ 64 - 1 }
    ensures { IsOutcome choice plan.now.schedules S.remaining S.given_count S.failure_count source.old source.new
        K.taken K.failure_count sink.old sink.new result }
{
    let parsed = read_trace(rt, alloc, source)?;
    let trace = judge(alloc, &parsed)?;
    match report_asked(rt, alloc, sink, &trace, choice, plan) {
        Ok(summary) => Ok(summary),
        Err(WriteError::Sink) => Err(RunError::Sink),
        Err(WriteError::Memory(refused)) => Err(RunError::Memory(refused)),
    }
}
