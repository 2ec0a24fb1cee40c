//! The blocks of races with their schedules.
ghost use Rattle.std.specs.Prelude.{◌≡◌, ◌+◌, ◌-◌, ◌^◌, ◌<◌, length, map};
ghost use Rattle.shb_lines.specs.events.Race.{ends};
ghost use Rattle.shb_witness.specs.Schedules.{AreRaces, AsksEach};
ghost use Rattle.shb_write.specs.Blocks.{HasShown, scheduled_in};

use crate::block_writer::BlockWriter;
use crate::errors::WriteError;
use crate::plan::BlockPlan;
use crate::prepared::prepared_for;
use crate::schedule_writer::ScheduleWriter;
use shb_fan::{Gate, StreamError, stream};
use shb_io::Sink;
use shb_lines::Pair;
use shb_stamps::{Order, Ordered};
use shb_witness::WitnessJob;
use std::alloc::Global;
use std::sync::Wait;
use std::thread::Threads;

/// Writes the blocks of some races more, each as soon as workers have made its schedule.
pub(crate) fn schedule_races<R: Threads + Wait + Sync, K: Sink, O: Order + Sync, P, W: Gate + Sync>(
    rt: &R,
    alloc: Global,
    writer: &mut BlockWriter<'_, '_, K>,
    ordered: &Ordered<'_, O>,
    races: &[Pair],
    plan: &BlockPlan<'_, '_, P, W>,
) -> Result<(), WriteError>
    requires countable { K.failure_count writer.old.sink.now < 2 ^ 64 - 1 }
    requires room { length races.now + writer.old.written < 2 ^ 64 }
    requires of_trace { ordered.now.disciplined.now.events.now ≡ writer.old.trace.now.events }
    requires races { AreRaces ordered.now.disciplined.now.events.now races.now }
    requires asked { AsksEach (O.asks ordered.now.order.now) races.now }
    ensures { HasShown K.taken K.failure_count writer.old (map (scheduled_in ordered.now.disciplined.now.events.now) (map ends races.now)) result writer.new }
{
    let prepared = prepared_for(alloc, ordered, races.len())?;
    let job = WitnessJob::new(
        ordered.order,
        ordered.disciplined,
        ordered.links,
        races,
    ).with_thread_events(&prepared.threads);
    let mut taker = ScheduleWriter {
        writer: BlockWriter {
            sink: &mut *writer.sink,
            trace: writer.trace,
            written: writer.written,
        },
        races,
        numbers: &prepared.numbers,
    };
    match stream(rt, alloc, &job, plan.witness, plan.workers, &mut taker) {
        Ok(_) => {
            writer.written += races.len() as u64;
            Ok(())
        }
        Err(StreamError::Taker(error)) => Err(error),
        Err(StreamError::Memory(refused)) => Err(WriteError::Memory(refused)),
    }
}
