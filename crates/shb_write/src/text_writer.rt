//! Texts that workers made, written in their order.
ghost use Rattle.std.specs.Prelude.{◌≡◌};

use crate::errors::WriteError;
use shb_fan::Taker;
use shb_io::{Sink, write_all};

/// Writes texts as they come.
#[derive(Drop)]
pub(crate) struct TextWriter<'s, K> {
    /// Where the texts go.
    pub(crate) sink: &'s mut K,
}

impl<'s, K: Sink> Taker<Vec<u8>> for TextWriter<'s, K> {
    ghost use Rattle.std.specs.Prelude.{◌∷◌, ◌++◌, ◌-◌, ◌^◌, ◌<◌, [], flat_map};
    ghost use Rattle.shb_write.specs.Texts.{HasAppended, HasCut};
    ghost use Rattle.std.proofs.Common.{refl};
    ghost use Rattle.shb_io.proofs.Growth.{Appends-nil};

    type Error = WriteError;

    ghost takes = { λ start given end. HasAppended K.taken K.failure_count start (flat_map (λ text. text.items) given) end };

    ghost may_take = { λ start _ _. K.failure_count start.sink.now < 2 ^ 64 - 1 };

    ghost refuses = { λ start given text e end. HasCut K.taken K.failure_count start (flat_map (λ text. text.items) (given ++ text ∷ [])) e end };

    ghost nothing = { λ s. record {
      same_sink = refl;
      appended = Appends-nil (K.taken s.sink.now);
      counted = refl;
    } };

    fn take(&mut self, _k: u64, text: Vec<u8>) -> Result<(), WriteError> {
        match write_all(self.sink, text.as_slice()) {
            Ok(()) => Ok(()),
            Err(_) => Err(WriteError::Sink),
        }
    }
}
