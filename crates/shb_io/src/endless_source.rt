//! A source that never ends, for tests of limits.
ghost use Rattle.std.specs.Prelude.{◌≡◌, ◌≤◌, Ok, None, length, replicate, IfOk};
ghost use Rattle.shb_io.specs.Devices.{IsCounted, IsGivenCounted};
ghost use Rattle.shb_io.specs.Memory.{EndlessState, counted_on};

use crate::traits::{Failed, Source};
use std::marker::Model;

/// A source of one byte without end. It doesn't tell its bytes.
#[derive(Drop)]
pub struct Endless {
    byte: u8,
    given: u64,
}

impl Model for Endless {
    ghost Value = { EndlessState };

    ghost view = { λ e. record { byte = e.byte; given = e.given } };
}

impl Endless {
    /// A source that fills each buffer with `byte`, never ends and never fails.
    pub fn new(byte: u8) -> Endless
        ensures { result ≡ record { byte = byte; given = 0 } }
    {
        Endless { byte, given: 0 }
    }

    /// How many bytes it gave so far. The count stays at the greatest `u64` once it is there.
    pub fn given(&self) -> u64
        ensures { result ≡ self.now.given }
    {
        self.given
    }
}

impl Source for Endless {
    ghost remaining = { λ _. None };

    ghost failure_count = { λ _. 0 };

    ghost given_count = { λ e. e.given };

    /// Fills the buffer. It always succeeds.
    fn read(&mut self, buf: &mut [u8]) -> Result<usize, Failed>
        ensures bound { IfOk result (λ n. n ≤ length buf.new) }
        ensures counted { IsCounted 0 0 result }
        ensures given_counted { IsGivenCounted self.old.given self.new.given result }
        ensures filled { buf.new ≡ replicate (length buf.old) self.old.byte }
        ensures count { result ≡ Ok (length buf.old) }
        ensures given { self.new ≡ record self.old { given = counted_on self.old.given (length buf.old) } }
    {
        buf.fill(self.byte);
        self.given = self.given.saturating_add(buf.len() as u64);
        Ok(buf.len())
    }

    fn failures(&self) -> u64 {
        0
    }
}
