//! A sink in memory for tests of what stands above: it has a fixed room, takes few bytes at a time, and fails
//! on request.
ghost use Rattle.std.specs.Prelude.{◌≡◌, ◌+◌, ◌-◌, ◌^◌, ◌<◌, ◌≤◌, ◌⊎◌, ◌↔◌, ◌++◌, [], Some, length, take, min, IfOk, OnErr, IsErr};
ghost use Rattle.std.specs.Io.KnownBytes.{WriteAppends};
ghost use Rattle.shb_io.specs.Devices.{IsCounted};
ghost use Rattle.shb_io.specs.Memory.{PageState, counted_on, IsCallToFail};

use crate::calls::is_call_to_fail;
use crate::no_memory::NoMemory;
use crate::traits::{Failed, Sink};
use std::alloc::Global;
use std::marker::Model;

/// A sink in memory with a fixed room.
#[derive(Drop)]
pub struct Page {
    bytes: Vec<u8>,
    room: usize,
    step: usize,
    fail_at: Option<u64>,
    calls: u64,
    failures: u64,
}

impl Model for Page {
    ghost use Rattle.std.specs.Prelude.{◌<◌, ◌≤◌, vec_len, vec_capacity};
    ghost use Rattle.shb_io.specs.Memory.{PageState};

    ghost Value = { PageState };

    ghost view = { λ p.
        record { bytes = p.bytes.items; room = p.room; step = p.step; fail_at = p.fail_at; calls = p.calls; failures = p.failures } };

    ghost invariant = { λ p. (0 < p.step) × (vec_len p.bytes ≤ p.room) × (p.room ≤ vec_capacity p.bytes) };
}

impl Page {
    /// An empty sink with room for `room` bytes, reserved here once. A write takes at most `step` bytes; one
    /// into a full page fails, and so does write number `fail_at`, counted from 1. A `fail_at` of 0 or of the
    /// greatest `u64` is as `None`. It tells its bytes.
    ///
    /// # Errors
    ///
    /// `NoMemory` where the room can't be had.
    pub fn new(
        alloc: Global,
        room: usize,
        step: usize,
        fail_at: Option<u64>,
    ) -> Result<Page, NoMemory>
        requires { 0 < step }
        ensures tells { IfOk result (λ page. ⟦<Page as Sink>⟧.taken page ≡ Some []) }
        ensures fresh { IfOk result (λ page. ⟦<Page as Sink>⟧.failure_count page ≡ 0) }
        ensures starts { IfOk result (λ page.
            page ≡ record { bytes = []; room = room; step = step; fail_at = fail_at; calls = 0; failures = 0 }) }
    {
        Ok(Page {
            bytes: Vec::with_capacity(alloc, room)?,
            room,
            step,
            fail_at,
            calls: 0,
            failures: 0,
        })
    }

    /// The bytes taken so far, no more than there is room for.
    pub fn bytes(&self) -> &[u8]
        ensures bytes { result.now ≡ self.now.bytes }
        ensures within { length result.now ≤ self.now.room }
    {
        self.bytes.as_slice()
    }
}

impl Sink for Page {
    ghost taken = { λ s. Some s.bytes };

    ghost failure_count = { λ s. s.failures };

    /// Fails exactly at the write that is to fail and where the page is full, and takes no byte then. Else it
    /// takes as many bytes as there are, as one write may, and as there is room for.
    fn write(&mut self, bytes: &[u8]) -> Result<usize, Failed>
        requires some { 0 < length bytes.now }
        requires countable { self.old.failures < 2 ^ 64 - 1 }
        ensures least { IfOk result (λ n. 0 < n) }
        ensures bound { IfOk result (λ n. n ≤ length bytes.now) }
        ensures bytes { WriteAppends (Some self.old.bytes) (Some self.new.bytes) result bytes.now }
        ensures counted { IsCounted self.old.failures self.new.failures result }
        ensures fails { IsErr result ↔
            (IsCallToFail self.old.fail_at (counted_on self.old.calls 1) ⊎ (length self.old.bytes ≡ self.old.room)) }
        ensures count { IfOk result (λ n. n ≡ min (min (length bytes.now) self.old.step) (self.old.room - length self.old.bytes)) }
        ensures ok { IfOk result (λ n. self.new ≡ record self.old {
          bytes = self.old.bytes ++ take n bytes.now;
          calls = counted_on self.old.calls 1;
        }) }
        ensures err { OnErr result (self.new ≡ record self.old {
          calls = counted_on self.old.calls 1;
          failures = self.old.failures + 1;
        }) }
    {
        self.calls = self.calls.saturating_add(1);
        let count = bytes.len().min(self.step).min(self.room - self.bytes.len());
        if count == 0 || is_call_to_fail(self.fail_at, self.calls) {
            self.failures += 1;
            return Err(Failed);
        }
        match self.bytes.extend_from_slice(&bytes[..count]) {
            Ok(()) => Ok(count),
            Err(_) => unreachable!(),
        }
    }

    fn failures(&self) -> u64 {
        self.failures
    }
}
