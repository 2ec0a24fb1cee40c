//! Writes the blocks of races, one after the other.
ghost use Rattle.std.specs.Prelude.{◌≡◌, ◌+◌, ◌-◌, ◌^◌, ◌<◌, ◌∷◌, [], All, OnErr, OnOk, length, map};
ghost use Rattle.shb_lines.specs.events.Race.{ends};
ghost use Rattle.shb_format.specs.Places.{IsPairOf};
ghost use Rattle.shb_write.specs.Blocks.{HasStopped, HasWritten, alone, with_schedule};
ghost use Rattle.shb_write.specs.declared.errors.WriteError.TheVariants.{Sink as SinkFailed};

use shb_format::{NumberTexts, block, scheduled_block};
use shb_io::{Failed, Sink};
use shb_lines::{Pair, Trace};
use shb_positions::Positions;

/// Writes the blocks of races, numbered from 1.
#[derive(Drop)]
pub(crate) struct BlockWriter<'s, 't, K> {
    /// Where the blocks go.
    pub(crate) sink: &'s mut K,
    /// The trace of the races.
    pub(crate) trace: &'t Trace,
    /// How many blocks are written.
    pub(crate) written: u64,
}

impl<'s, 't, K: Sink> BlockWriter<'s, 't, K> {
    /// Writes the blocks of some races more, without schedules.
    pub(crate) fn list(&mut self, pairs: &[Pair]) -> Result<(), Failed>
        requires countable { K.failure_count self.old.sink.now < 2 ^ 64 - 1 }
        requires room { length pairs.now + self.old.written < 2 ^ 64 }
        requires in_range { All (IsPairOf self.old.trace.now) pairs.now }
        ensures written { OnOk result (HasWritten K.taken K.failure_count self.old (map alone (map ends pairs.now)) self.new) }
        ensures failed { OnErr result (HasStopped K.taken K.failure_count self.old (map alone (map ends pairs.now)) SinkFailed self.new) }
    {
        for pair in pairs {
            let number = self.written + 1;
            block(self.sink, self.trace, number, *pair, None)?;
            self.written = number;
        }
        Ok(())
    }

    /// Writes the block of one race more, with its schedule.
    pub(crate) fn schedule(
        &mut self,
        race: Pair,
        numbers: &NumberTexts,
        schedule: &Positions,
    ) -> Result<(), Failed>
        requires countable { K.failure_count self.old.sink.now < 2 ^ 64 - 1 }
        requires room { self.old.written < 2 ^ 64 - 1 }
        requires in_range { IsPairOf self.old.trace.now race }
        ensures written { OnOk result (HasWritten K.taken K.failure_count self.old (with_schedule race schedule.now ∷ []) self.new) }
        ensures failed { OnErr result (HasStopped K.taken K.failure_count self.old (with_schedule race schedule.now ∷ []) SinkFailed self.new) }
    {
        let number = self.written + 1;
        scheduled_block(self.sink, self.trace, number, race, numbers, schedule)?;
        self.written = number;
        Ok(())
    }
}
