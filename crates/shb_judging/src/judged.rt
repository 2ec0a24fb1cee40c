//! Judges the blocks of a report one after another, by the positions that the numbers of their schedules stand for.
ghost use Rattle.std.specs.Prelude.{◌≡◌, ◌+◌, ◌-◌, ◌<◌, ◌≤◌, ◌↔◌, ◌^◌, ◌++◌, ◌∷◌, [], ℕ, List, None, IfErr, IfOk, IsTrue, MatchResult, OnOk, map, take};
ghost use Rattle.shb_judging.specs.Judging.{AreJudged, first_positions};
ghost use Rattle.shb_reading.specs.Parts.{block_with};
ghost use Rattle.shb_format.specs.Value.{Block};
ghost use Rattle.shb_judging.specs.Verdicts.{HasGoodPair, IsGoodBlock, IsLowestFault, pair_in, position_of};

use crate::verdict::RaceFault;
use shb_discipline::Disciplined;
use shb_io::NoMemory;
use shb_lines::{Pair, Trace, conflicts};
use shb_reading::{BlockLines, Keeping};
use shb_replay::Judge;
use std::alloc::Global;

/// The position that a number of a schedule stands for, in a trace of so many events.
fn position_of(count: u32, number: u64) -> u32
    ensures { result ≡ position_of count number }
{
    if number == 0 || number > u64::from(count) {
        return count;
    }
    (number - 1) as u32
}

/// Keeps the positions that numbers stand for, in a trace of so many events: of one number more than there
/// are events. Of a list with more numbers, which is no schedule, they tell where it isn't one: one of them
/// is no event, or stands there twice.
#[derive(Clone, Copy)]
pub(crate) struct AsPositions {
    pub count: u32,
}

impl Keeping for AsPositions {
    type Kept = u32;

    ghost kept = { λ k n. position_of k.count n };

    ghost most_kept = { λ k. k.count + 1 };

    fn most(&self) -> u64 {
        u64::from(self.count) + 1
    }

    fn keep(&self, number: u64) -> u32 {
        position_of(self.count, number)
    }
}

/// What is known of the blocks that were judged so far: the lowest fault of the first bad one, and the
/// pairs of those before it.
#[derive(Drop)]
pub(crate) struct JudgedBlocks {
    pub pairs: Vec<Pair>,
    pub bad: Option<RaceFault>,
}

/// Whether two texts are the same.
pub(crate) fn same_bytes(a: &[u8], b: &[u8]) -> bool
    ensures { IsTrue result ↔ a.now ≡ b.now }
{
    a == b
}

/// Puts the positions that the numbers of a schedule stand for, of one number more than there are events,
/// instead of those of another.
pub(crate) fn set_positions(
    positions: &mut Vec<u32>,
    count: u32,
    numbers: &[u64],
) -> Result<(), NoMemory>
    ensures { OnOk result (positions.new.items ≡ take (count + 1) (map (position_of count) numbers.now)) }
{
    positions.clear();
    let (first, _) = numbers.split_at((count as usize + 1).min(numbers.len()));
    for number in first {
        positions.push(position_of(count, *number))?;
    }
    Ok(())
}

/// The two events of a block that has no fault, or has one in its schedule alone; else its lowest fault.
fn judge_pair(trace: &Trace, listed: BlockLines<'_>) -> Result<Pair, RaceFault>
    ensures { (numbers : List ℕ) → let block = block_with listed.entry numbers in
        MatchResult result (λ pair. (pair ≡ pair_in block) × HasGoodPair trace.now block) (IsLowestFault trace.now block) }
{
    let count = u64::from(trace.len());
    if listed.first == 0 || listed.first > count || listed.second == 0 || listed.second > count {
        return Err(RaceFault::Absent);
    }
    let pair = Pair {
        first: (listed.first - 1) as u32,
        second: (listed.second - 1) as u32,
    };
    if listed.first >= listed.second || !conflicts(trace, pair.first, pair.second) {
        return Err(RaceFault::NoConflict);
    }
    if !same_bytes(listed.first_line, trace.line_text(pair.first)) {
        return Err(RaceFault::FirstLine);
    }
    if !same_bytes(listed.second_line, trace.line_text(pair.second)) {
        return Err(RaceFault::SecondLine);
    }
    Ok(pair)
}

/// The two events of a good block with numbers of which these are the first positions; else its lowest
/// fault.
fn judge_lines(
    judge: &mut Judge<'_>,
    disciplined: &Disciplined<'_>,
    listed: BlockLines<'_>,
    positions: &[u32],
) -> Result<Pair, RaceFault>
    requires { judge.old ≡ disciplined.now.trace.now.events }
    ensures kept { judge.new ≡ judge.old }
    ensures pair { IfOk result (λ pair. pair ≡ pair_in (block_with listed.entry [])) }
    ensures good { (numbers : List ℕ) → positions.now ≡ first_positions disciplined.now.trace.now numbers
        → OnOk result (IsGoodBlock disciplined.now.trace.now (block_with listed.entry numbers)) }
    ensures fault { (numbers : List ℕ) → positions.now ≡ first_positions disciplined.now.trace.now numbers
        → IfErr result (IsLowestFault disciplined.now.trace.now (block_with listed.entry numbers)) }
{
    let pair = judge_pair(disciplined.trace, listed)?;
    match judge.replay(positions, pair) {
        Some(broken) => Err(RaceFault::Schedule(broken)),
        None => Ok(pair),
    }
}

impl JudgedBlocks {
    /// What is known before any block was judged.
    pub(crate) fn new(alloc: Global) -> JudgedBlocks
        ensures pairs { result.pairs.items ≡ [] }
        ensures bad { result.bad ≡ None }
    {
        JudgedBlocks {
            pairs: Vec::new(alloc),
            bad: None,
        }
    }
}

/// Judges the next block, unless one before it is bad. The positions are those that the first numbers of
/// its schedule stand for, one more than there are events.
pub(crate) fn judge_block(
    judged: &mut JudgedBlocks,
    judge: &mut Judge<'_>,
    disciplined: &Disciplined<'_>,
    listed: BlockLines<'_>,
    positions: &[u32],
) -> Result<(), NoMemory>
    requires { judge.old ≡ disciplined.now.trace.now.events }
    ensures kept { judge.new ≡ judge.old }
    ensures judged { (blocks : List Block) (numbers : List ℕ) → positions.now ≡ first_positions disciplined.now.trace.now numbers
        → AreJudged disciplined.now.trace.now blocks judged.old
        → OnOk result (AreJudged disciplined.now.trace.now (blocks ++ block_with listed.entry numbers ∷ []) judged.new) }
{
    if judged.bad.is_some() {
        return Ok(());
    }
    match judge_lines(judge, disciplined, listed, positions) {
        Ok(pair) => judged.pairs.push(pair)?,
        Err(why) => judged.bad = Some(why),
    }
    Ok(())
}
