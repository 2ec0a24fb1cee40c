//! Schedules that are kept as runs, put after what is held back in a buffer.
ghost use Rattle.std.specs.Prelude.{◌≡◌, ◌+◌, ◌-◌, ◌^◌, ◌<◌, ◌≤◌, ◌++◌, All, Some, length, OnErr, OnOk};
ghost use Rattle.shb_io.specs.Devices.{AppendsPrefix, HoldsBack, IsCounted};
ghost use Rattle.shb_positions.specs.Runs.{EndsInRange, positions_in, run_positions};
ghost use Rattle.shb_format.specs.Writing.{Puts, event_numbers};
ghost use Rattle.shb_format.specs.Report.{schedule_lines};
ghost use Rattle.shb_format.specs.Value.{lines_text};

use super::buffer::TextBuffer;
use super::held::{put_bytes, put_event, put_schedule_start};
use super::number_texts::NumberTexts;
use shb_io::{Failed, Sink};
use shb_positions::{Positions, Run};

/// Puts the numbers of the events of a run after what is held back, one by one.
fn put_run_numbers<S: Sink>(sink: &mut S, held: &mut TextBuffer, run: Run) -> Result<(), Failed>
    requires countable { S.failure_count sink.old < 2 ^ 64 - 1 }
    requires ends { EndsInRange run }
    ensures put { Puts (S.taken sink.old) (S.taken sink.new) result held.old held.new (event_numbers (run_positions run)) }
    ensures counted { IsCounted (S.failure_count sink.old) (S.failure_count sink.new) result }
{
    for k in 0..run.len {
        put_event(sink, held, run.first + k)?;
    }
    Ok(())
}

/// Puts the numbers of the events of a run after what is held back: as one text where `numbers`
/// has it.
fn put_run<S: Sink>(
    sink: &mut S,
    held: &mut TextBuffer,
    numbers: &NumberTexts,
    run: Run,
) -> Result<(), Failed>
    requires countable { S.failure_count sink.old < 2 ^ 64 - 1 }
    requires ends { EndsInRange run }
    ensures put { Puts (S.taken sink.old) (S.taken sink.new) result held.old held.new (event_numbers (run_positions run)) }
    ensures counted { IsCounted (S.failure_count sink.old) (S.failure_count sink.new) result }
{
    match numbers.text_of(run) {
        Some(text) => put_bytes(sink, held, text),
        None => put_run_numbers(sink, held, run),
    }
}

/// Puts the numbers of the events of some runs after what is held back.
fn put_runs<S: Sink>(
    sink: &mut S,
    held: &mut TextBuffer,
    numbers: &NumberTexts,
    runs: &[Run],
) -> Result<(), Failed>
    requires countable { S.failure_count sink.old < 2 ^ 64 - 1 }
    requires ends { All EndsInRange runs.now }
    ensures put { Puts (S.taken sink.old) (S.taken sink.new) result held.old held.new (event_numbers (positions_in runs.now)) }
    ensures counted { IsCounted (S.failure_count sink.old) (S.failure_count sink.new) result }
{
    for run in runs {
        put_run(sink, held, numbers, *run)?;
    }
    Ok(())
}

/// Puts the line of a schedule that is kept as runs after what is held back.
pub(crate) fn put_runs_line<S: Sink>(
    sink: &mut S,
    held: &mut TextBuffer,
    numbers: &NumberTexts,
    schedule: &Positions,
) -> Result<(), Failed>
    requires countable { S.failure_count sink.old < 2 ^ 64 - 1 }
    ensures put { Puts (S.taken sink.old) (S.taken sink.new) result held.old held.new
        (lines_text (schedule_lines (Some schedule.now))) }
    ensures counted { IsCounted (S.failure_count sink.old) (S.failure_count sink.new) result }
{
    put_schedule_start(sink, held, schedule.len())?;
    put_runs(sink, held, numbers, schedule.runs())?;
    put_bytes(sink, held, b"\n")
}
