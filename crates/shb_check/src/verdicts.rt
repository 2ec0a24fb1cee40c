//! The reading of a trace and the judgement on its text; and the check of a report: read the trace, judge it, read the
//! report, judge it, write the verdict.
ghost use Rattle.std.specs.Prelude.{◌-◌, ◌^◌, ◌<◌, ◌+◌, ◌≤◌, IfErr, IfOk};
ghost use Rattle.shb_check.specs.Checks.{HasChecked};
ghost use Rattle.shb_io.specs.Devices.{CountsFailure};
ghost use Rattle.shb_lines.specs.text.Limits.{most_read, standard_limits};
ghost use Rattle.shb_lines.specs.text.Taking.{ReadsText, TakesAtMost, read_failed};
ghost use Rattle.shb_lines.specs.text.TraceData.{IsReadingOf};
ghost use Rattle.shb_check.specs.Errors.{IsAccepted, IsRefusalOf};

use crate::errors::RunError;
use shb_discipline::Disciplined;
use shb_io::{Sink, Source};
use shb_judging::{Verdict, judge_report, verdict_line};
use shb_lines::{Limits, Parsed, ReadError, parse};
use std::alloc::Global;
use std::random::RandomSource;

/// Reads the text of a trace, as [`parse`] does within the limits of the program.
///
/// # Errors
///
/// Those of `parse`.
pub fn read_trace<S: Source, R: RandomSource>(
    rt: &R,
    alloc: Global,
    source: &mut S,
) -> Result<Parsed, ReadError>
    requires { S.failure_count source.old < 2 ^ 64 - 1 }
    ensures reading { IfOk result (λ parsed. ReadsText most_read (S.remaining source.old) (S.remaining source.new)
        (S.given_count source.old) (S.given_count source.new) (λ text. IsReadingOf standard_limits text parsed.trace parsed.stop)) }
    ensures taken { TakesAtMost most_read (S.remaining source.old) (S.remaining source.new) }
    ensures given { S.given_count source.new ≤ S.given_count source.old + most_read }
    ensures counted { CountsFailure read_failed (S.failure_count source.old) (S.failure_count source.new) result }
{
    parse(rt, alloc, source, &Limits::standard())
}

/// The trace of a text that has no fault, or the first fault of the text.
///
/// # Errors
///
/// - [`RunError::Trace`]: the text has a fault, and this is the first.
/// - [`RunError::Memory`]: memory was refused.
pub fn judge<'a>(alloc: Global, parsed: &'a Parsed) -> Result<Disciplined<'a>, RunError>
    ensures accepted { IfOk result (λ trace. IsAccepted parsed.now.trace parsed.now.stop trace.trace.now) }
    ensures refused { IfErr result (IsRefusalOf parsed.now.trace parsed.now.stop) }
{
    let trace = shb_discipline::check(alloc, &parsed.trace)?;
    match parsed.stop {
        Some(stop) => Err(RunError::Trace {
            line: stop.line,
            fault: stop.fault,
        }),
        None => Ok(trace),
    }
}

/// Checks a report against a trace, and writes the one line of the verdict.
///
/// The trace is read whole and judged first. Then the text of the report is read whole, and each of its
/// blocks is judged once its lines are found. Only then is anything written: `ok R`, `bad line N`,
/// `bad counts`, `bad race K` or `bad places`. That races are left out of the report isn't found.
///
/// The time is linear in the two texts, whatever the number of blocks: the tables that schedules are
/// judged by are made once. Both texts are kept; what a report takes beside its text is told at
/// `judge_report` of `shb_judging`.
///
/// # Errors
///
/// - [`RunError::Source`]: one of the two sources failed. Nothing was written. Where it was that of the
///   trace, the report wasn't read.
/// - [`RunError::Trace`]: the text of the trace has a fault, and this is the first. Nothing was written,
///   and the report wasn't read.
/// - [`RunError::Sink`]: the sink failed. The trace has no fault. The sink took less than the line, the
///   front of it.
/// - [`RunError::Memory`]: memory was refused. Nothing was written.
///
/// What was read of the sources stays read.
pub fn check<S: Source, Q: Source, K: Sink, R: RandomSource>(
    rt: &R,
    alloc: Global,
    trace_source: &mut S,
    report_source: &mut Q,
    sink: &mut K,
) -> Result<Verdict, RunError>
    requires trace_countable { S.failure_count trace_source.old < 2 ^ 64 - 1 }
    requires report_countable { Q.failure_count report_source.old < 2 ^ 64 - 1 }
    requires sink_countable { K.failure_count sink.old < 2 ^ 64 - 1 }
    ensures { HasChecked S.remaining S.given_count S.failure_count trace_source.old trace_source.new
        Q.remaining Q.given_count Q.failure_count report_source.old report_source.new
        K.taken K.failure_count sink.old sink.new result }
{
    let parsed = read_trace(rt, alloc, trace_source)?;
    let trace = judge(alloc, &parsed)?;
    let verdict = judge_report(rt, alloc, &trace, report_source)?;
    let Ok(()) = verdict_line(sink, verdict) else {
        return Err(RunError::Sink);
    };
    Ok(verdict)
}
