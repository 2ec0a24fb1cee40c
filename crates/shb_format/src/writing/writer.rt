//! The parts of a report, each written by one call.
ghost use Rattle.std.specs.Prelude.{◌≡◌, ◌+◌, ◌-◌, ◌^◌, ◌<◌, ◌≤◌, ◌++◌, codes, length, Some};
ghost use Rattle.std.specs.Option.{option_map};
ghost use Rattle.shb_io.specs.Devices.{IsCounted, Writes};
ghost use Rattle.shb_format.specs.declared.writing.buffer.TheConstants.{ROOM};
ghost use Rattle.shb_format.specs.Writing.{Puts, event_lines};
ghost use Rattle.shb_format.specs.Report.{block_bytes, head_bytes, tail_bytes};
ghost use Rattle.shb_format.specs.Value.{race_numbers_line};

use super::buffer::TextBuffer;
use super::held::{put_line, put_schedule};
use super::held_runs::put_runs_line;
use super::number_texts::NumberTexts;
use crate::counts::Counts;
use shb_io::{Failed, Sink, write_all};
use shb_lines::{Pair, Trace};
use shb_positions::Positions;

/// The first lines of a report.
fn head_text(counts: &Counts, races: u64) -> TextBuffer
    ensures { result ≡ head_bytes counts.now races }
{
    let mut text = TextBuffer::new();
    text.push_labelled(b"shb-report 2\nevents ", counts.events);
    text.push_labelled(b" threads ", counts.threads);
    text.push_labelled(b" locks ", counts.locks);
    text.push_labelled(b" variables ", counts.variables);
    text.push_labelled(b"\nraces ", races);
    text.push_byte(b'\n');
    text
}

/// Writes the first lines of a report: version 2, the counts of the trace and how many races there
/// are. The lines of the places follow.
///
/// On `Ok` the sink took exactly these lines. On `Failed` it took a prefix of them that lacks at
/// least one byte, and its count of failures rose by one. The sink's count of failures must be
/// below the greatest `u64`.
pub fn head<S: Sink>(sink: &mut S, counts: &Counts, races: u64) -> Result<(), Failed>
    requires countable { S.failure_count sink.old < 2 ^ 64 - 1 }
    ensures written { Writes (S.taken sink.old) (S.taken sink.new) result (head_bytes counts.now races) }
    ensures counted { IsCounted (S.failure_count sink.old) (S.failure_count sink.new) result }
{
    let text = head_text(counts, races);
    write_all(sink, text.as_slice())
}

/// Adds the line with the numbers of a race and of its events, which are counted from 1.
pub(crate) fn push_race_line(text: &mut TextBuffer, number: u64, pair: Pair)
    requires { length text.old + 80 ≤ ROOM }
    ensures { text.new ≡ text.old ++ (race_numbers_line number (pair.first + 1) (pair.second + 1) ++ codes "\n") }
{
    text.push_labelled(b"race ", number);
    text.push_labelled(b": ", u64::from(pair.first) + 1);
    text.push_labelled(b" ", u64::from(pair.second) + 1);
    text.push_byte(b'\n');
}

/// Puts the lines of the events of a race after what is held back.
fn put_event_lines<S: Sink>(
    sink: &mut S,
    held: &mut TextBuffer,
    trace: &Trace,
    pair: Pair,
) -> Result<(), Failed>
    requires countable { S.failure_count sink.old < 2 ^ 64 - 1 }
    requires first { pair.first < length trace.now.events }
    requires second { pair.second < length trace.now.events }
    ensures put { Puts (S.taken sink.old) (S.taken sink.new) result held.old held.new (event_lines trace.now (pair.first, pair.second)) }
    ensures counted { IsCounted (S.failure_count sink.old) (S.failure_count sink.new) result }
{
    put_line(sink, held, b"first ", trace.line_text(pair.first))?;
    put_line(sink, held, b"second ", trace.line_text(pair.second))
}

/// Writes the block of a race: its number in the report, counted from 1, the numbers of its two
/// events, their lines as the text has them, and the line of its schedule if there is one.
///
/// `pair` and `schedule` count events from 0, and the report counts them from 1. Both events of the
/// pair must be events of the trace. No test is made of the pair, the number and the schedule.
///
/// On `Ok` the sink took exactly the block. On `Failed` it took a prefix of it that lacks at least
/// one byte, and its count of failures rose by one. The sink's count of failures must be below the
/// greatest `u64`.
pub fn block<S: Sink>(
    sink: &mut S,
    trace: &Trace,
    number: u64,
    pair: Pair,
    schedule: Option<&[u32]>,
) -> Result<(), Failed>
    requires countable { S.failure_count sink.old < 2 ^ 64 - 1 }
    requires first { pair.first < length trace.now.events }
    requires second { pair.second < length trace.now.events }
    ensures written { Writes (S.taken sink.old) (S.taken sink.new) result
        (block_bytes trace.now number (pair.first, pair.second) (option_map (λ s. s.now) schedule.entry)) }
    ensures counted { IsCounted (S.failure_count sink.old) (S.failure_count sink.new) result }
{
    let mut held = TextBuffer::new();
    push_race_line(&mut held, number, pair);
    put_event_lines(sink, &mut held, trace, pair)?;
    put_schedule(sink, &mut held, schedule)?;
    write_all(sink, held.as_slice())
}

/// Writes the block of a race as [`block`] does, with a schedule that is kept as runs.
///
/// A run that lies among the events of `numbers` is copied out of it; the numbers of any other are
/// written one by one.
pub fn scheduled_block<S: Sink>(
    sink: &mut S,
    trace: &Trace,
    number: u64,
    pair: Pair,
    numbers: &NumberTexts,
    schedule: &Positions,
) -> Result<(), Failed>
    requires countable { S.failure_count sink.old < 2 ^ 64 - 1 }
    requires first { pair.first < length trace.now.events }
    requires second { pair.second < length trace.now.events }
    ensures written { Writes (S.taken sink.old) (S.taken sink.new) result
        (block_bytes trace.now number (pair.first, pair.second) (Some schedule.now)) }
    ensures counted { IsCounted (S.failure_count sink.old) (S.failure_count sink.new) result }
{
    let mut held = TextBuffer::new();
    push_race_line(&mut held, number, pair);
    put_event_lines(sink, &mut held, trace, pair)?;
    put_runs_line(sink, &mut held, numbers, schedule)?;
    write_all(sink, held.as_slice())
}

/// Writes the last line of a report.
///
/// On `Ok` the sink took exactly this line. On `Failed` it took a prefix of it that lacks at least
/// one byte, and its count of failures rose by one. The sink's count of failures must be below the
/// greatest `u64`.
pub fn tail<S: Sink>(sink: &mut S) -> Result<(), Failed>
    requires countable { S.failure_count sink.old < 2 ^ 64 - 1 }
    ensures written { Writes (S.taken sink.old) (S.taken sink.new) result tail_bytes }
    ensures counted { IsCounted (S.failure_count sink.old) (S.failure_count sink.new) result }
{
    write_all(sink, b"end\n")
}
