//! The races that a report lists.
ghost use Rattle.std.specs.Prelude.{◌≡◌, ◌<◌, ℕ, All, IfOk, List, length, map, max};
ghost use Rattle.shb_lines.specs.events.Race.{ends};
ghost use Rattle.shb_counts.specs.Settled.{events_of, trace_of};
ghost use Rattle.shb_lists.specs.Given.{ListsRaces};
ghost use Rattle.shb_lists.specs.Listed.{pair_in};
ghost use Rattle.shb_run.specs.Outcomes.{ListedBy};
ghost use Rattle.shb_run.specs.declared.settings.Choice.TheVariants.{All as AllRaces, Nearest};

use crate::settings::Choice;
use shb_counts::Settled;
use shb_fan::Workers;
use shb_io::NoMemory;
use shb_lines::{Events, Pair};
use shb_lists::{ListedRace, RaceList};
use shb_scan::nearest_races;
use std::alloc::Global;
use std::random::RandomSource;
use std::sync::Wait;
use std::thread::Threads;

/// So many races are kept at once if a trace has fewer events: 768 KiB. The number is this project's own.
const LEAST_KEPT: u32 = 65_536;

/// How many races of a trace of so many events are kept at once: as many as events, and no fewer than are worth the start
/// of workers.
fn kept_at_once(events: u32) -> u64
    ensures { result ≡ max events 65536 }
{
    u64::from(events.max(LEAST_KEPT))
}

/// All races of a trace, which workers count.
fn all_races<'a, R: Threads + Wait + Sync + RandomSource>(
    rt: &R,
    alloc: Global,
    settled: &Settled<'a>,
    workers: Workers,
) -> Result<RaceList<'a>, NoMemory>
    ensures { IfOk result (λ list. (races : List (ℕ × ℕ)) × ListedBy AllRaces (trace_of settled.now) races × ListsRaces (events_of settled.now) races (trace_of settled.now) list) }
{
    let most = kept_at_once(settled.disciplined.trace.len());
    RaceList::all(rt, alloc, settled, most, workers)
}

/// Some races with the numbers of their variables.
fn listed(alloc: Global, events: &Events, pairs: &[Pair]) -> Result<Vec<ListedRace>, NoMemory>
    requires { All (λ pair. pair.second < length events.now) pairs.now }
    ensures { IfOk result (λ races. map pair_in races.items ≡ map ends pairs.now) }
{
    let mut races = Vec::with_capacity(alloc, pairs.len())?;
    for pair in pairs {
        races.push(ListedRace {
            variable: events.op(pair.second).variable().unwrap_or(0),
            second: pair.second,
            first: pair.first,
        })?;
    }
    Ok(races)
}

/// The nearest races of a trace: of each place, or of each place and variable, one race.
fn nearest_list<'a, R: RandomSource>(
    rt: &R,
    alloc: Global,
    settled: &Settled<'_>,
    by_variable: bool,
) -> Result<RaceList<'a>, NoMemory>
    ensures { IfOk result (λ list. (races : List (ℕ × ℕ)) × ListedBy (Nearest by_variable) (trace_of settled.now) races × ListsRaces (events_of settled.now) races (trace_of settled.now) list) }
{
    let nearest = nearest_races(rt, alloc, settled.disciplined, settled.flags, by_variable)?;
    let races = listed(alloc, settled.disciplined.events, &nearest)?;
    RaceList::kept(rt, alloc, settled, races)
}

/// The races of a trace that are asked for.
pub(crate) fn races_asked<'a, R: Threads + Wait + Sync + RandomSource>(
    rt: &R,
    alloc: Global,
    settled: &Settled<'a>,
    choice: Choice,
    workers: Workers,
) -> Result<RaceList<'a>, NoMemory>
    ensures { IfOk result (λ list. (races : List (ℕ × ℕ)) × ListedBy choice (trace_of settled.now) races × ListsRaces (events_of settled.now) races (trace_of settled.now) list) }
{
    match choice {
        Choice::All => all_races(rt, alloc, settled, workers),
        Choice::Nearest { by_variable } => nearest_list(rt, alloc, settled, by_variable),
    }
}
