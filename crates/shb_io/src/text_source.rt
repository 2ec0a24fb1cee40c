//! A source in memory for tests of what stands above: it hands out few bytes at a time, and fails on request.
ghost use Rattle.std.specs.Prelude.{◌≡◌, ◌+◌, ◌-◌, ◌^◌, ◌<◌, ◌≤◌, ◌↔◌, Some, length, drop, min, IfOk, OnErr, IsErr};
ghost use Rattle.std.specs.Io.KnownBytes.{ReadConsumes};
ghost use Rattle.shb_io.specs.Devices.{IsCounted, IsGivenCounted};
ghost use Rattle.shb_io.specs.Memory.{TextState, counted_on, IsCallToFail};

use crate::calls::is_call_to_fail;
use crate::traits::{Failed, Source};
use std::marker::Model;

/// A source over a text in memory.
#[derive(Drop)]
pub struct Text<'a> {
    rest: &'a [u8],
    step: usize,
    fail_at: Option<u64>,
    calls: u64,
    failures: u64,
    given: u64,
}

impl<'a> Model for Text<'a> {
    ghost Value = { TextState };

    ghost view = { λ t.
        record { rest = t.rest.now; step = t.step; fail_at = t.fail_at; calls = t.calls; failures = t.failures; given = t.given } };

    ghost invariant = { λ t. 0 < t.step };
}

impl<'a> Text<'a> {
    /// A source that hands out `bytes`, at most `step` of them a read, and fails at read number `fail_at`,
    /// counted from 1. A `fail_at` of 0 or of the greatest `u64` is as `None`. It tells its bytes.
    pub fn new(bytes: &'a [u8], step: usize, fail_at: Option<u64>) -> Text<'a>
        requires { 0 < step }
        ensures tells { ⟦<Text<'a> as Source>⟧.remaining result ≡ Some bytes.now }
        ensures fresh { ⟦<Text<'a> as Source>⟧.failure_count result ≡ 0 }
        ensures starts { result ≡ record { rest = bytes.now; step = step; fail_at = fail_at; calls = 0; failures = 0; given = 0 } }
    {
        Text {
            rest: bytes,
            step,
            fail_at,
            calls: 0,
            failures: 0,
            given: 0,
        }
    }
}

impl Source for Text<'_> {
    ghost remaining = { λ s. Some s.rest };

    ghost failure_count = { λ s. s.failures };

    ghost given_count = { λ s. s.given };

    /// Fails exactly at the read that is to fail, and moves no byte then. Else it hands out as many bytes
    /// as there is room for, as one read may, and as are left.
    fn read(&mut self, buf: &mut [u8]) -> Result<usize, Failed>
        requires room { 0 < length buf.old }
        requires countable { self.old.failures < 2 ^ 64 - 1 }
        ensures bound { IfOk result (λ n. n ≤ length buf.new) }
        ensures bytes { ReadConsumes (Some self.old.rest) (Some self.new.rest) result buf.new }
        ensures counted { IsCounted self.old.failures self.new.failures result }
        ensures given { IsGivenCounted self.old.given self.new.given result }
        ensures fails { IsErr result ↔ IsCallToFail self.old.fail_at (counted_on self.old.calls 1) }
        ensures count { IfOk result (λ n. n ≡ min (min (length buf.old) self.old.step) (length self.old.rest)) }
        ensures ok { IfOk result (λ n. self.new ≡ record self.old {
          rest = drop n self.old.rest;
          calls = counted_on self.old.calls 1;
          given = counted_on self.old.given n;
        }) }
        ensures err { OnErr result (self.new ≡ record self.old {
          calls = counted_on self.old.calls 1;
          failures = self.old.failures + 1;
        }) }
    {
        self.calls = self.calls.saturating_add(1);
        if is_call_to_fail(self.fail_at, self.calls) {
            self.failures += 1;
            return Err(Failed);
        }
        let count = buf.len().min(self.step).min(self.rest.len());
        let (next, later) = self.rest.split_at(count);
        buf[..count].copy_from_slice(next);
        self.rest = later;
        self.given = self.given.saturating_add(count as u64);
        Ok(count)
    }

    fn failures(&self) -> u64 {
        self.failures
    }
}
