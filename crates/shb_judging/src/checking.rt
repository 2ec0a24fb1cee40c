//! Judges a report against a trace.
ghost use Rattle.std.specs.Prelude.{◌≡◌, ◌↔◌, ℕ, All, IfOk, IsTrue, length};
ghost use Rattle.shb_judging.specs.Judging.{AreJudged, IsVerdictOnJudged};
ghost use Rattle.shb_reading.specs.Parts.{IsPlaceIn, place_in_text};
ghost use Rattle.shb_format.specs.Places.{IsPairOf, IsPlaceOf, shown_place, shown_places};
ghost use Rattle.shb_format.specs.Report.{counts_of};
ghost use Rattle.shb_judging.specs.declared.verdict.Verdict.TheVariants.{Good};
ghost use Rattle.shb_judging.specs.Verdicts.{HasPlacesOf, IsGoodReport, IsVerdict};

use crate::judged::{JudgedBlocks, judge_block, same_bytes, set_positions};
use crate::verdict::Verdict;
use shb_discipline::Disciplined;
use shb_format::{Counts, PlaceCount, places_of};
use shb_io::NoMemory;
use shb_lines::{Pair, Trace};
use shb_links::{Linked, Links};
use shb_reading::{PlaceEntry, Report, Section, bytes_in};
use shb_replay::Judge;
use std::alloc::Global;
use std::random::RandomSource;

/// Whether the counts are those of the trace.
fn has_counts(trace: &Trace, counts: Counts) -> bool
    ensures { IsTrue result ↔ counts ≡ counts_of trace.now }
{
    counts.events == u64::from(trace.len())
        && counts.threads == u64::from(trace.threads())
        && counts.locks == u64::from(trace.locks())
        && counts.variables == u64::from(trace.variables())
}

/// Whether a place is as the report shows it.
fn shows_place(trace: &Trace, text: &[u8], entry: PlaceEntry, counted: PlaceCount) -> bool
    requires place { IsPlaceIn text.now entry }
    requires in_range { IsPlaceOf trace.now counted }
    ensures { IsTrue result ↔ place_in_text text.now entry ≡ shown_place trace.now counted }
{
    entry.count == counted.count
        && same_bytes(
            bytes_in(text, entry.first),
            trace.location(counted.pair.first),
        )
        && same_bytes(
            bytes_in(text, entry.second),
            trace.location(counted.pair.second),
        )
}

/// Whether the places of a report are these.
fn shows_places(trace: &Trace, section: &Section<'_>, counts: &[PlaceCount]) -> bool
    requires { All (IsPlaceOf trace.now) counts.now }
    ensures { IsTrue result ↔ section.now ≡ shown_places trace.now counts.now }
{
    if section.entries.len() != counts.len() {
        return false;
    }
    for q in 0..counts.len() {
        if !shows_place(trace, section.text, section.entries[q], counts[q]) {
            return false;
        }
    }
    true
}

/// Whether the places of a report, if it has places, are those of its pairs.
fn has_places_of<R: RandomSource>(
    rt: &R,
    alloc: Global,
    trace: &Trace,
    section: Option<Section<'_>>,
    pairs: &[Pair],
) -> Result<bool, NoMemory>
    requires { All (IsPairOf trace.now) pairs.now }
    ensures { IfOk result (λ has. IsTrue has ↔ HasPlacesOf trace.now section.entry pairs.now) }
{
    let Some(section) = section else {
        return Ok(true);
    };
    let places = places_of(rt, alloc, trace, pairs)?;
    Ok(shows_places(trace, &section, places.as_slice()))
}

/// The verdict on a report with these counts and places, whose blocks were judged.
pub(crate) fn verdict_on<R: RandomSource>(
    rt: &R,
    alloc: Global,
    trace: &Trace,
    counts: Counts,
    section: Option<Section<'_>>,
    judged: &JudgedBlocks,
) -> Result<Verdict, NoMemory>
    requires { All (IsPairOf trace.now) judged.now.pairs.items }
    ensures { IfOk result (IsVerdictOnJudged trace.now counts section.entry judged.now) }
{
    if !has_counts(trace, counts) {
        return Ok(Verdict::BadCounts);
    }
    if let Some(why) = judged.bad {
        let race = judged.pairs.len() as u64 + 1;
        return Ok(Verdict::BadRace { race, why });
    }
    if !has_places_of(rt, alloc, trace, section, judged.pairs.as_slice())? {
        return Ok(Verdict::BadPlaces);
    }
    Ok(Verdict::Good {
        races: judged.pairs.len() as u64,
    })
}

/// Judges the blocks of a report.
fn judge_listed(
    alloc: Global,
    disciplined: &Disciplined<'_>,
    links: &Links<'_>,
    report: &Report,
) -> Result<JudgedBlocks, NoMemory>
    requires linked { links.now ≡ disciplined.now.events.now }
    ensures { IfOk result (AreJudged disciplined.now.trace.now report.now.blocks) }
{
    let mut judge = Judge::new(alloc, Linked::new(&*disciplined, &*links))?;
    let mut positions = Vec::new(alloc);
    let mut judged = JudgedBlocks::new(alloc);
    for k in 0..report.len() {
        let listed = report.listed(k);
        set_positions(&mut positions, disciplined.trace.len(), listed.schedule)?;
        judge_block(
            &mut judged,
            &mut judge,
            disciplined,
            listed.lines,
            positions.as_slice(),
        )?;
    }
    Ok(judged)
}

/// Judges a report against a trace: its counts, then its blocks in order, then its places. Which races
/// are left out, which are listed twice, and the order of the blocks aren't judged.
///
/// The tables of the trace's size are made once for all blocks, and a block takes time by the length of
/// its lines and of its schedule: so the time is linear in the trace and in the report, whatever the
/// number of blocks. Places take a table with an entry for each different pair of locations.
///
/// # Errors
///
/// `NoMemory` where a growth was refused, or where there were no random numbers for the table of places.
pub fn check_report<R: RandomSource>(
    rt: &R,
    alloc: Global,
    disciplined: &Disciplined<'_>,
    links: &Links<'_>,
    report: &Report,
) -> Result<Verdict, NoMemory>
    requires linked { links.now ≡ disciplined.now.events.now }
    ensures verdict { IfOk result (IsVerdict disciplined.now.trace.now report.now) }
    ensures good { IfOk result (λ verdict. verdict ≡ Good (length report.now.blocks)
        ↔ IsGoodReport disciplined.now.trace.now report.now) }
{
    let judged = judge_listed(alloc, disciplined, links, report)?;
    let verdict = verdict_on(
        rt,
        alloc,
        disciplined.trace,
        report.counts(),
        report.section(),
        &judged,
    )?;
    Ok(verdict)
}
