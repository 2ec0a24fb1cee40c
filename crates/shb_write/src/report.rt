//! The report of a trace that lists some of its races.
ghost use Rattle.std.specs.Prelude.{◌≡◌, ◌-◌, ◌^◌, ◌<◌, ℕ, All, List, length, map};
ghost use Rattle.shb_io.specs.Devices.{IsCounted, Writes};
ghost use Rattle.shb_format.specs.Places.{IsPlaceOf, counts_in, places_of_pairs};
ghost use Rattle.shb_format.specs.Report.{counts_of, front_bytes, pair_of};
ghost use Rattle.shb_counts.specs.Settled.{events_of, trace_of};
ghost use Rattle.shb_lists.specs.Given.{ListsRaces};
ghost use Rattle.shb_write.specs.Written.{HasReported, These};

use crate::errors::WriteError;
use crate::list::write_blocks;
use crate::plan::BlockPlan;
use shb_counts::Settled;
use shb_fan::Gate;
use shb_format::{Counts, Places, head, place_lines, tail};
use shb_io::{Failed, Sink};
use shb_lines::Trace;
use shb_lists::RaceList;
use std::alloc::Global;
use std::sync::Wait;
use std::thread::Threads;

/// How many events and names a trace has.
fn counts_of(trace: &Trace) -> Counts
    ensures { result ≡ counts_of trace.now }
{
    Counts {
        events: u64::from(trace.len()),
        threads: u64::from(trace.threads()),
        locks: u64::from(trace.locks()),
        variables: u64::from(trace.variables()),
    }
}

/// Writes the lines of a report before its first block: the head, and the places of the races.
fn write_front<K: Sink>(
    sink: &mut K,
    trace: &Trace,
    races: u64,
    places: &Places,
) -> Result<(), Failed>
    requires countable { K.failure_count sink.old < 2 ^ 64 - 1 }
    requires in_range { All (IsPlaceOf trace.now) places.now }
    ensures written { (listed : List (ℕ × ℕ)) → races ≡ length listed → places.now ≡ counts_in (places_of_pairs trace.now (map pair_of listed))
        → Writes (K.taken sink.old) (K.taken sink.new) result (front_bytes trace.now listed) }
    ensures counted { IsCounted (K.failure_count sink.old) (K.failure_count sink.new) result }
{
    let counts = counts_of(trace);
    head(sink, &counts, races)?;
    place_lines(sink, trace, places)
}

/// Writes the report of a trace on a list of its races, of which none is given yet: head, places, blocks and tail. The
/// list's parts are written one after the other, each as soon as it is found.
///
/// # Errors
///
/// - [`WriteError::Sink`]: the sink failed. It took less than the report, the front of it.
/// - [`WriteError::Memory`]: memory was refused. The sink took less than the report, all lines before the first block
///   among it.
pub fn write_races<'a, R: Threads + Wait + Sync, K: Sink, P: Gate + Sync, W: Gate + Sync>(
    rt: &R,
    alloc: Global,
    sink: &mut K,
    settled: &Settled<'a>,
    list: &mut RaceList<'a>,
    plan: &BlockPlan<'_, '_, P, W>,
) -> Result<(), WriteError>
    requires countable { K.failure_count sink.old < 2 ^ 64 - 1 }
    requires races { (races : List (ℕ × ℕ)) × ListsRaces (events_of settled.now) races (trace_of settled.now) list.old }
    ensures { (races : List (ℕ × ℕ)) → ListsRaces (events_of settled.now) races (trace_of settled.now) list.old
        → HasReported (These races) plan.now.schedules (trace_of settled.now) K.taken K.failure_count sink.old sink.new result }
{
    write_front(sink, settled.disciplined.trace, list.count, &list.places)?;
    write_blocks(rt, alloc, sink, settled, list, plan)?;
    tail(sink)?;
    Ok(())
}
