//! The blocks of races, each written when its schedule comes.
ghost use Rattle.std.specs.Prelude.{◌≡◌};

use crate::block_writer::BlockWriter;
use crate::errors::WriteError;
use shb_fan::Taker;
use shb_format::NumberTexts;
use shb_io::Sink;
use shb_lines::Pair;
use shb_positions::Positions;

/// Writes the blocks of races, each when its schedule comes.
#[derive(Drop)]
pub(crate) struct ScheduleWriter<'s, 't, 'r, 'n, K> {
    pub(crate) writer: BlockWriter<'s, 't, K>,
    /// The races, in the order of their blocks.
    pub(crate) races: &'r [Pair],
    /// The numbers of events, from which runs of schedules are copied.
    pub(crate) numbers: &'n NumberTexts,
}

impl<'s, 't, 'r, 'n, K: Sink> Taker<Positions> for ScheduleWriter<'s, 't, 'r, 'n, K> {
    ghost use Rattle.std.specs.Prelude.{◌∷◌, ◌++◌, []};
    ghost use Rattle.shb_write.specs.Blocks.{HasScheduled, HasStopped, MaySchedule, shown_from};
    ghost use Rattle.std.proofs.Common.{refl, sym};
    ghost use Rattle.std.proofs.Math.Nat.{zero-add};
    ghost use Rattle.shb_io.proofs.Growth.{Appends-nil};

    type Error = WriteError;

    ghost takes = { λ start given end. HasScheduled K.taken K.failure_count start given end };

    ghost may_take = { λ start given _. MaySchedule K.failure_count start given };

    ghost refuses = { λ start given schedule e end. HasStopped K.taken K.failure_count start.writer
        (shown_from 0 start.races.now (given ++ schedule ∷ [])) e end.writer };

    ghost nothing = { λ s. record {
      same_races = refl;
      written = record {
        same_sink = refl;
        same_trace = refl;
        as_many = sym (zero-add s.writer.written);
        appended = Appends-nil (K.taken s.writer.sink.now);
        counted = refl;
      };
    } };

    fn take(&mut self, k: u64, schedule: Positions) -> Result<(), WriteError> {
        let race = self.races[k as usize];
        match self.writer.schedule(race, self.numbers, &schedule) {
            Ok(()) => Ok(()),
            Err(_) => Err(WriteError::Sink),
        }
    }
}
