//! A short text that is put together before it is written.
ghost use Rattle.std.specs.Prelude.{◌≡◌, ◌+◌, ◌<◌, ◌≤◌, ◌++◌, ◌∷◌, [], length, decimal};
ghost use Rattle.shb_format.specs.declared.writing.buffer.TheConstants.{ROOM};

use itoa::write_digits;
use std::marker::Model;

/// How many bytes a buffer holds.
pub(crate) const ROOM: usize = 256;

/// The most digits that a `u64` has.
pub(crate) const DIGITS: usize = 20;

/// A text of at most `ROOM` bytes.
#[derive(Drop)]
pub(crate) struct TextBuffer {
    bytes: [u8; ROOM],
    len: usize,
}

impl Model for TextBuffer {
    ghost use Rattle.std.specs.Prelude.{ℕ, List, take, ◌≤◌};
    ghost use Rattle.shb_format.specs.declared.writing.buffer.TheConstants.{ROOM};

    ghost Value = { List ℕ };

    ghost view = { λ b. take b.len b.bytes };

    ghost invariant = { λ b. b.len ≤ ROOM };
}

impl TextBuffer {
    /// No text.
    pub(crate) fn new() -> TextBuffer
        ensures { result ≡ [] }
    {
        TextBuffer {
            bytes: [0; ROOM],
            len: 0,
        }
    }

    /// The text.
    pub(crate) fn as_slice(&self) -> &[u8]
        ensures { result.now ≡ self.now }
    {
        &self.bytes[..self.len]
    }

    /// How many bytes the text has.
    pub(crate) fn len(&self) -> usize
        ensures value { result ≡ length self.now }
        ensures bound { length self.now ≤ ROOM }
    {
        self.len
    }

    /// Drops the text.
    pub(crate) fn clear(&mut self)
        ensures { self.new ≡ [] }
    {
        self.len = 0;
    }

    /// Adds some bytes.
    pub(crate) fn push_bytes(&mut self, bytes: &[u8])
        requires { length self.old + length bytes.now ≤ ROOM }
        ensures { self.new ≡ self.old ++ bytes.now }
    {
        let end = self.len + bytes.len();
        self.bytes[self.len..end].copy_from_slice(bytes);
        self.len = end;
    }

    /// Adds one byte.
    pub(crate) fn push_byte(&mut self, byte: u8)
        requires { length self.old + 1 ≤ ROOM }
        ensures { self.new ≡ self.old ++ byte ∷ [] }
    {
        self.bytes[self.len] = byte;
        self.len += 1;
    }

    /// Adds the digits of a number, which are written where they belong.
    pub(crate) fn push_number(&mut self, number: u64)
        requires { length self.old + 20 ≤ ROOM }
        ensures text { self.new ≡ self.old ++ decimal number }
        ensures short { length self.new ≤ length self.old + 20 }
    {
        let end = self.len + digit_count(number);
        write_digits(number, &mut self.bytes, end);
        self.len = end;
    }

    /// Adds a label and the digits of a number.
    pub(crate) fn push_labelled(&mut self, label: &[u8], number: u64)
        requires { length self.old + length label.now + 20 ≤ ROOM }
        ensures text { self.new ≡ self.old ++ (label.now ++ decimal number) }
        ensures short { length self.new ≤ length self.old + length label.now + 20 }
    {
        self.push_bytes(label);
        self.push_number(number);
    }
}

/// How many digits a number has.
fn digit_count(number: u64) -> usize
    ensures value { result ≡ length (decimal number) }
    ensures bound { result ≤ 20 }
{
    let mut left = number;
    let mut count = 0;
    while left >= 10_000 {
        left /= 10_000;
        count += 4;
    }
    count + short_digit_count(left)
}

/// How many digits a number of at most four digits has.
fn short_digit_count(number: u64) -> usize
    requires { number < 10000 }
    ensures { result ≡ length (decimal number) }
{
    if number < 10 {
        1
    } else if number < 100 {
        2
    } else if number < 1000 {
        3
    } else {
        4
    }
}
