//! A sink in memory, in which workers make texts.
ghost use Rattle.std.specs.Prelude.{◌≡◌, ◌<◌, []};
ghost use Rattle.shb_write.specs.Texts.{TextState};

use shb_io::{Failed, NoMemory, Sink};
use std::alloc::Global;
use std::marker::Model;

/// A text in memory. A write to it fails where memory is refused.
#[derive(Drop)]
pub(crate) struct Text {
    bytes: Vec<u8>,
    failures: u64,
    refused: Option<NoMemory>,
}

impl Model for Text {
    ghost use Rattle.std.specs.Prelude.{◌≡◌, None};
    ghost use Rattle.shb_write.specs.Texts.{TextState};

    ghost Value = { TextState };

    ghost view = { λ t. record { bytes = t.bytes.items; failures = t.failures } };

    ghost invariant = { λ t. t.refused ≡ None → t.failures ≡ 0 };
}

impl Text {
    /// A text of no bytes.
    pub(crate) fn new(alloc: Global) -> Text
        ensures { result ≡ record { bytes = []; failures = 0 } }
    {
        Text {
            bytes: Vec::new(alloc),
            failures: 0,
            refused: None,
        }
    }

    /// Its bytes.
    pub(crate) fn into_bytes(self) -> Vec<u8>
        ensures { result.items ≡ self.bytes }
    {
        self.bytes
    }

    /// The last refusal of memory, after a write that failed.
    pub(crate) fn refusal(&self) -> NoMemory
        requires { 0 < self.now.failures }
    {
        match self.refused {
            Some(refused) => refused,
            None => unreachable!(),
        }
    }
}

impl Sink for Text {
    ghost use Rattle.std.specs.Prelude.{Some};

    ghost taken = { λ t. Some t.bytes };

    ghost failure_count = { λ t. t.failures };

    fn write(&mut self, bytes: &[u8]) -> Result<usize, Failed> {
        match self.bytes.extend_from_slice(bytes) {
            Ok(()) => Ok(bytes.len()),
            Err(refused) => {
                self.refused = Some(NoMemory::from(refused));
                self.failures += 1;
                Err(Failed)
            }
        }
    }

    fn failures(&self) -> u64 {
        self.failures
    }
}
