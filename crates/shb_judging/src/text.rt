//! Judges the text of a report while it is read.
ghost use Rattle.std.specs.Prelude.{◌≡◌, ◌+◌, ◌<◌, ◌≤◌, ◌-◌, ◌^◌, ◌++◌, ◌∷◌, [], ℕ, List, IfOk, OnOk, length};
ghost use Rattle.shb_io.specs.Devices.{CountsFailure};
ghost use Rattle.shb_lines.specs.text.Limits.{most_bytes, most_read};
ghost use Rattle.shb_lines.specs.text.Taking.{ReadsText, TakesAtMost, read_failed};
ghost use Rattle.shb_judging.specs.Verdicts.{IsVerdictFor};
ghost use Rattle.shb_reading.specs.Forms.{End, Form, IsBadFrom, Version, block_forms};
ghost use Rattle.shb_judging.specs.Judging.{IsJudgedText, JudgesBlocks};
ghost use Rattle.shb_reading.specs.Lines.{IfBad, IfStop, IsAt, IsBadAt, Passes, bytes_from};
ghost use Rattle.shb_reading.specs.Reading.{IsBadLine};

use crate::checking::verdict_on;
use crate::judged::{AsPositions, JudgedBlocks, judge_block};
use crate::verdict::Verdict;
use shb_discipline::Disciplined;
use shb_io::{NoMemory, Source};
use shb_lines::{MOST_BYTES, ReadError, read_whole};
use shb_links::{Linked, links_of};
use shb_reading::{
    Position, ReadStop, lines_at, read_block, read_head, read_places, read_tail, section_of,
};
use shb_replay::Judge;
use std::alloc::Global;
use std::random::RandomSource;

/// Reads so many blocks, and judges each once it is read. The room for the positions of a schedule, one for
/// each event and one more, is made once and used again for each block.
fn judge_blocks(
    judge: &mut Judge<'_>,
    alloc: Global,
    disciplined: &Disciplined<'_>,
    text: &[u8],
    at: &mut Position,
    count: u64,
) -> Result<JudgedBlocks, ReadStop>
    requires judge { judge.old ≡ disciplined.now.trace.now.events }
    requires short { length text.now ≤ most_bytes }
    requires at { IsAt text.now at.old }
    ensures at { OnOk result (IsAt text.now at.new) }
    ensures read { IfOk result (JudgesBlocks disciplined.now.trace.now text.now at.old at.new count) }
    ensures passes { OnOk result ((forms : List Form) → Passes text.now at.old at.new (block_forms 1 count ++ forms) forms) }
    ensures bad { (forms : List Form) → IfBad result (IsBadAt text.now at.old (block_forms 1 count ++ forms)) }
{
    let keeping = AsPositions {
        count: disciplined.trace.len(),
    };
    let mut positions = Vec::with_capacity(alloc, keeping.count as usize + 1).map_err(
        NoMemory::from,
    )?;
    let mut judged = JudgedBlocks::new(alloc);
    let mut number = 0;
    while number < count {
        number += 1;
        positions.clear();
        let entry = read_block(text, at, number, &keeping, &mut positions)?;
        let lines = lines_at(text, entry);
        judge_block(&mut judged, judge, disciplined, lines, positions.as_slice())?;
    }
    Ok(judged)
}

/// Reads the text of a report to its end: the verdict on it, and how many lines it has. Of its places the first
/// ones are kept, at most one more than there are races: since the races have at most as many places as they
/// are, these tell whether the places are theirs.
fn judge_text<R: RandomSource>(
    rt: &R,
    alloc: Global,
    disciplined: &Disciplined<'_>,
    text: &[u8],
) -> Result<(Verdict, u64), ReadStop>
    requires short { length text.now ≤ most_bytes }
    ensures judged { IfOk result (λ judged. IsJudgedText disciplined.now.trace.now text.now judged.1 judged.0) }
    ensures few { IfOk result (λ judged. judged.1 ≤ most_bytes) }
    ensures bad { IfBad result (IsBadFrom (Version ∷ (End ∷ [])) 0 text.now) }
{
    let links = links_of(alloc, &*disciplined)?;
    let mut judge = Judge::new(alloc, Linked::new(&*disciplined, &links))?;
    let mut at = Position { start: 0, lines: 0 };
    let head = read_head(text, &mut at)?;
    let most = head.races.saturating_add(1);
    let places = read_places(alloc, text, &mut at, head.with_places, most)?;
    let judged = judge_blocks(&mut judge, alloc, disciplined, text, &mut at, head.races)?;
    read_tail(text, &mut at)?;
    let section = section_of(text, head.with_places, places.as_slice());
    let verdict = verdict_on(rt, alloc, disciplined.trace, head.counts, section, &judged)?;
    Ok((verdict, at.lines))
}

/// Why a text that is longer than a report may be is none.
fn stop_of_long<R: RandomSource>(
    rt: &R,
    alloc: Global,
    disciplined: &Disciplined<'_>,
    text: &[u8],
) -> ReadStop
    requires long { most_bytes < length text.now }
    ensures { IfStop result (IsBadLine most_bytes text.now) }
{
    let (seen, _) = text.split_at(MOST_BYTES as usize);
    match judge_text(rt, alloc, disciplined, seen) {
        Ok((_, lines)) => ReadStop::BadLine(lines + 1),
        Err(stop) => stop,
    }
}

/// The verdict on a text.
fn verdict_of<R: RandomSource>(
    rt: &R,
    alloc: Global,
    disciplined: &Disciplined<'_>,
    text: &[u8],
) -> Result<Verdict, ReadStop>
    ensures verdict { IfOk result (IsVerdictFor disciplined.now.trace.now text.now) }
    ensures bad { IfBad result (IsBadLine most_bytes text.now) }
{
    if text.len() as u64 > MOST_BYTES {
        return Err(stop_of_long(rt, alloc, disciplined, text));
    }
    let (verdict, _) = judge_text(rt, alloc, disciplined, text)?;
    Ok(verdict)
}

/// Reads a report of at most 1,073,741,824 bytes, of version 1 or version 2, and judges it against a
/// trace: what [`check_report`](crate::check_report) says of the report that
/// `read_report` of `shb_reading` reads, or its bad line.
///
/// The source is read to its end, or to the limit and one byte more, before any line is looked at. Then
/// each block is judged when it is read. The first bad block is remembered, and the text is read to its
/// end all the same, since a bad line anywhere comes before a bad block.
///
/// The text is kept, and of each race its pair, in 8 bytes. Of the places at most one more than there are
/// races is kept, in 24 bytes each: where a report has more places, they aren't those of its races. Of a
/// schedule the positions that its numbers stand for are kept until the next block is read, in 4 bytes each,
/// and at most one more than the trace has events: where a list has more numbers, it is no schedule, and these
/// tell where it isn't one. So a report takes little more than its size, also where it is a single block of
/// numbers of one digit, or has places alone. Where all blocks are good, a table of their places is made, in
/// some 80 bytes for each; so one of short blocks, each with a place of its own, takes about twice its size.
/// The time is linear in the trace and in the report.
///
/// # Errors
///
/// `Source` where the source failed in this call, and only there. `Memory` where a growth was refused,
/// or where there were no random numbers for the table of places. What was read of the source stays
/// read: where a verdict is answered, all of it, or the limit and one byte.
pub fn judge_report<S: Source, R: RandomSource>(
    rt: &R,
    alloc: Global,
    disciplined: &Disciplined<'_>,
    source: &mut S,
) -> Result<Verdict, ReadError>
    requires countable { S.failure_count source.old < 2 ^ 64 - 1 }
    ensures verdict { IfOk result (λ verdict. ReadsText most_read (S.remaining source.old) (S.remaining source.new)
        (S.given_count source.old) (S.given_count source.new) (λ text.
        IsVerdictFor disciplined.now.trace.now text verdict)) }
    ensures taken { TakesAtMost most_read (S.remaining source.old) (S.remaining source.new) }
    ensures given { S.given_count source.new ≤ S.given_count source.old + most_read }
    ensures counted { CountsFailure read_failed (S.failure_count source.old) (S.failure_count source.new) result }
{
    let text = read_whole(alloc, source, MOST_BYTES)?;
    match verdict_of(rt, alloc, disciplined, text.as_slice()) {
        Ok(verdict) => Ok(verdict),
        Err(ReadStop::BadLine(line)) => Ok(Verdict::BadLine { line }),
        Err(ReadStop::Memory(refused)) => Err(ReadError::Memory(refused)),
    }
}
