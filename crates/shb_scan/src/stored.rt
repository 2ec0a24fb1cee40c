//! The nearest races of a trace whose events are kept.

ghost use Rattle.std.specs.Prelude.{◌≡◌, ◌+◌, ◌<◌, ◌≤◌, ℕ, false, true, IfOk, OnOk, length, map};
ghost use Rattle.std.specs.Option.{option_map_or};
ghost use Rattle.shb_lines.specs.events.Events.{variable_of};
ghost use Rattle.shb_lines.specs.events.Race.{ends};
ghost use Rattle.shb_stamps.specs.Open.{is_open as is_open_in};
ghost use Rattle.shb_stamps.specs.Settling.{AreOpen};
ghost use Rattle.shb_nearest.specs.Found.{ends_of};
ghost use Rattle.shb_scan.specs.Outcomes.{IsScan};
ghost use Rattle.shb_scan.specs.Scans.{HasTakenTo, IsSpotIn};

use shb_discipline::Disciplined;
use shb_format::Locations;
use shb_io::NoMemory;
use shb_lines::{Op, Pair, Step};
use shb_nearest::{FoundRace, NearestRaces, Spot};
use shb_stamps::is_open;
use std::alloc::Global;
use std::random::RandomSource;

/// Whether an operation accesses an open variable.
fn is_asked(flags: &[bool], op: Op) -> bool
    ensures { result ≡ option_map_or (is_open_in flags.now) (variable_of op) false }
{
    match op.variable() {
        Some(x) => is_open(flags, x),
        None => false,
    }
}

/// Where an event of a trace stands, of which so many were taken before it. Of one that accesses no open variable the
/// spot says nothing.
fn spot_at<'t>(
    disciplined: &Disciplined<'t>,
    flags: &[bool],
    locations: &mut Locations<'t>,
    op: Op,
    e: u32,
) -> Result<Spot, NoMemory>
    requires in_range { e < length disciplined.now.events.now }
    requires few { length locations.old ≤ e }
    ensures { IfOk result (IsSpotIn disciplined.now.trace.now flags.now op e locations.old locations.new) }
{
    if is_asked(flags, op) {
        let number = locations.number_of(disciplined.trace.location(e))?;
        return Ok(Spot {
            location: number as u32,
            barred: false,
        });
    }
    Ok(Spot {
        location: 0,
        barred: false,
    })
}

/// Takes the next event of a trace.
fn take_next<'t>(
    alloc: Global,
    disciplined: &Disciplined<'t>,
    flags: &[bool],
    locations: &mut Locations<'t>,
    nearest: &mut NearestRaces,
    e: u32,
) -> Result<(), NoMemory>
    requires in_range { e < length disciplined.now.events.now }
    requires few { length locations.old ≤ e }
    ensures form { nearest.new.by_variable ≡ nearest.old.by_variable }
    ensures taken { HasTakenTo disciplined.now.trace.now flags.now e locations.old nearest.old
        → OnOk result (HasTakenTo disciplined.now.trace.now flags.now (e + 1) locations.new nearest.new) }
{
    let op = disciplined.events.op(e);
    let spot = spot_at(disciplined, flags, &mut *locations, op, e)?;
    let step = Step {
        thread: disciplined.events.thread(e),
        op,
    };
    nearest.take(alloc, step, spot)
}

/// Races by the numbers of their events.
fn pairs_of(alloc: Global, races: &[FoundRace]) -> Result<Vec<Pair>, NoMemory>
    ensures { IfOk result (λ pairs. map ends pairs.items ≡ map ends_of races.now) }
{
    let mut pairs = Vec::with_capacity(alloc, races.len())?;
    for race in races {
        pairs.push(Pair {
            first: race.first.event,
            second: race.second.event,
        })?;
    }
    Ok(pairs)
}

/// Whether none of so many variables is open.
#[tactic(auto, using(crate::proofs::StoredEvents::closed_at))]
fn are_closed(flags: &[bool], variables: u32) -> bool
    ensures { result ≡ true → (x : ℕ) → x < variables → is_open_in flags.now x ≡ false }
{
    flags.len() >= variables as usize && !flags.contains(&true)
}

/// The nearest races of a trace, one of each place; with `by_variable`, one of each place and variable. They are those
/// that [`run_scan`](crate::run_scan) lists of its text. A variable whose flag is false has no race: the locations of its
/// accesses aren't looked for, and if all are false, no event is.
///
/// # Errors
///
/// `NoMemory` where memory was refused, or where there were no random numbers for a table.
pub fn nearest_races<R: RandomSource>(
    rt: &R,
    alloc: Global,
    disciplined: &Disciplined<'_>,
    flags: &[bool],
    by_variable: bool,
) -> Result<Vec<Pair>, NoMemory>
    requires settled { AreOpen disciplined.now.events.now flags.now }
    ensures { IfOk result (λ races. IsScan by_variable disciplined.now.trace.now (map ends races.items)) }
{
    if are_closed(flags, disciplined.sizes.variables) {
        return Ok(Vec::new(alloc));
    }
    let mut locations = Locations::new(rt, alloc)?;
    let mut nearest = NearestRaces::new(rt, alloc, by_variable)?;
    for e in 0..disciplined.events.len() as u32 {
        take_next(alloc, disciplined, flags, &mut locations, &mut nearest, e)?;
    }
    locations.are_different();
    let races = nearest.races(alloc)?;
    let pairs = pairs_of(alloc, races.as_slice())?;
    Ok(pairs)
}
