//! The blocks of races, written a part at a time.
ghost use Rattle.std.specs.Prelude.{◌-◌, ◌^◌, ◌<◌, ℕ, List, [], length, map};
ghost use Rattle.shb_io.specs.Devices.{CountsFailure};
ghost use Rattle.shb_lines.specs.declared.event.Event.{Event};
ghost use Rattle.shb_counts.specs.Settled.{events_of, trace_of};
ghost use Rattle.shb_lists.specs.Given.{HasGiven, ListsRaces};
ghost use Rattle.shb_lists.specs.Listed.{pair_in};
ghost use Rattle.shb_write.specs.Blocks.{WritesBlocks, alone, scheduled_in, shown_in};
ghost use Rattle.shb_write.specs.Listed.{HasListed, MayList};
ghost use Rattle.shb_write.specs.Written.{write_failed};

use crate::block_writer::BlockWriter;
use crate::errors::WriteError;
use crate::pieces::{pairs_in_pieces, pieces_of};
use crate::plan::BlockPlan;
use crate::scheduled::schedule_races;
use crate::text_writer::TextWriter;
use crate::texts::TextJob;
use shb_counts::Settled;
use shb_fan::{Gate, StreamError, stream};
use shb_io::Sink;
use shb_links::Linked;
use shb_lists::{ListedRace, RaceList};
use shb_stamps::Ordered;
use shb_witness::order_of_races;
use std::alloc::Global;
use std::sync::Wait;
use std::thread::Threads;

/// Writes the blocks of some kept races without schedules, as workers make their texts.
fn list_kept<R: Threads + Wait + Sync, K: Sink, P: Gate + Sync, W>(
    rt: &R,
    alloc: Global,
    writer: &mut BlockWriter<'_, '_, K>,
    races: &[ListedRace],
    plan: &BlockPlan<'_, '_, P, W>,
) -> Result<(), WriteError>
    requires { (events : List Event) × MayList K.failure_count events writer.old (map pair_in races.now) }
    ensures { HasListed alone K.taken K.failure_count writer.old (map pair_in races.now) result writer.new }
{
    let pieces = pieces_of(alloc, races, writer.written, plan.workers)?;
    let job = TextJob::new(writer.trace, pieces.as_slice());
    let mut taker = TextWriter {
        sink: &mut *writer.sink,
    };
    match stream(rt, alloc, &job, plan.pair, plan.workers, &mut taker) {
        Ok(()) => {
            writer.written += races.len() as u64;
            Ok(())
        }
        Err(StreamError::Taker(error)) => Err(error),
        Err(StreamError::Memory(refused)) => Err(WriteError::Memory(refused)),
    }
}

/// Writes the blocks of some kept races with schedules, which go by an order that can be asked about their events alone.
fn schedule_kept<R: Threads + Wait + Sync, K: Sink, P: Gate + Sync, W: Gate + Sync>(
    rt: &R,
    alloc: Global,
    writer: &mut BlockWriter<'_, '_, K>,
    settled: &Settled<'_>,
    races: &[ListedRace],
    plan: &BlockPlan<'_, '_, P, W>,
) -> Result<(), WriteError>
    requires { MayList K.failure_count (events_of settled.now) writer.old (map pair_in races.now) }
    ensures { HasListed (scheduled_in (events_of settled.now)) K.taken K.failure_count writer.old (map pair_in races.now) result writer.new }
{
    let pairs = pairs_in_pieces(rt, alloc, races, plan)?;
    let linked = Linked::new(settled.disciplined, settled.links);
    let order = order_of_races(alloc, linked, &pairs)?;
    let ordered = Ordered::new(&order, settled.disciplined, settled.links);
    schedule_races(rt, alloc, writer, &ordered, &pairs, plan)
}

/// Writes the blocks of some kept races.
fn write_kept<R: Threads + Wait + Sync, K: Sink, P: Gate + Sync, W: Gate + Sync>(
    rt: &R,
    alloc: Global,
    writer: &mut BlockWriter<'_, '_, K>,
    settled: &Settled<'_>,
    races: &[ListedRace],
    plan: &BlockPlan<'_, '_, P, W>,
) -> Result<(), WriteError>
    requires { MayList K.failure_count (events_of settled.now) writer.old (map pair_in races.now) }
    ensures { HasListed (shown_in plan.now.schedules (events_of settled.now)) K.taken K.failure_count writer.old (map pair_in races.now) result writer.new }
{
    if plan.schedules {
        schedule_kept(rt, alloc, writer, settled, races, plan)
    } else {
        list_kept(rt, alloc, writer, races, plan)
    }
}

/// Writes the blocks of a list of races, part by part.
fn write_parts<'a, R: Threads + Wait + Sync, K: Sink, P: Gate + Sync, W: Gate + Sync>(
    rt: &R,
    alloc: Global,
    writer: &mut BlockWriter<'_, '_, K>,
    settled: &Settled<'a>,
    list: &mut RaceList<'a>,
    plan: &BlockPlan<'_, '_, P, W>,
) -> Result<(), WriteError>
    requires { (races : List (ℕ × ℕ)) × HasGiven (events_of settled.now) races [] list.old.rest × MayList K.failure_count (events_of settled.now) writer.old races }
    ensures { (races : List (ℕ × ℕ)) × HasGiven (events_of settled.now) races [] list.old.rest
        × HasListed (shown_in plan.now.schedules (events_of settled.now)) K.taken K.failure_count writer.old races result writer.new }
{
    while let Some(races) = list.next_part(rt, alloc, settled, plan.workers)? {
        write_kept(rt, alloc, &mut *writer, settled, &races, plan)?;
    }
    Ok(())
}

/// Writes the blocks of a list of races, numbered from 1.
pub(crate) fn write_blocks<'a, R: Threads + Wait + Sync, K: Sink, P: Gate + Sync, W: Gate + Sync>(
    rt: &R,
    alloc: Global,
    sink: &mut K,
    settled: &Settled<'a>,
    list: &mut RaceList<'a>,
    plan: &BlockPlan<'_, '_, P, W>,
) -> Result<(), WriteError>
    requires countable { K.failure_count sink.old < 2 ^ 64 - 1 }
    requires races { (races : List (ℕ × ℕ)) × (length races < 2 ^ 64) × ListsRaces (events_of settled.now) races (trace_of settled.now) list.old }
    ensures blocks { (races : List (ℕ × ℕ)) → ListsRaces (events_of settled.now) races (trace_of settled.now) list.old
        → WritesBlocks plan.now.schedules (trace_of settled.now) races (K.taken sink.old) (K.taken sink.new) result }
    ensures counted { CountsFailure write_failed (K.failure_count sink.old) (K.failure_count sink.new) result }
{
    let mut writer = BlockWriter {
        sink: &mut *sink,
        trace: settled.disciplined.trace,
        written: 0,
    };
    write_parts(rt, alloc, &mut writer, settled, list, plan)
}
