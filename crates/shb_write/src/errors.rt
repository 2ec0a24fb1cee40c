//! Why not all of a report was written.
use shb_io::{Failed, NoMemory};

/// Why not all of a report was written.
#[derive(Clone, Copy, Debug, PartialEq, Eq)]
pub enum WriteError {
    /// The sink failed.
    Sink,
    /// Memory was refused.
    Memory(NoMemory),
}

impl From<Failed> for WriteError {
    ghost use Rattle.std.specs.Prelude.{◌≡◌};
    ghost use Rattle.shb_write.specs.declared.errors.WriteError.TheVariants.{Sink};

    ghost from_gives = { λ _ e. e ≡ Sink };

    fn from(_error: Failed) -> WriteError {
        WriteError::Sink
    }
}

impl From<NoMemory> for WriteError {
    ghost use Rattle.std.specs.Prelude.{◌≡◌};
    ghost use Rattle.shb_write.specs.declared.errors.WriteError.TheVariants.{Memory};

    ghost from_gives = { λ refused e. e ≡ Memory refused };

    fn from(refused: NoMemory) -> WriteError {
        WriteError::Memory(refused)
    }
}
