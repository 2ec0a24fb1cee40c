//! Writes a line of a label and a number.
ghost use Rattle.std.specs.Prelude.{◌≡◌, ◌+◌, ◌-◌, ◌^◌, ◌<◌, ◌≤◌, ◌++◌, codes, decimal, length};
ghost use Rattle.shb_io.specs.Devices.{IsCounted, Writes};

use super::buffer::TextBuffer;
use shb_io::{Failed, Sink, write_all};

/// A label, a number and a line feed.
fn numbered(label: &[u8], number: u64) -> TextBuffer
    requires { length label.now ≤ 100 }
    ensures { result ≡ label.now ++ (decimal number ++ codes "\n") }
{
    let mut text = TextBuffer::new();
    text.push_labelled(label, number);
    text.push_byte(b'\n');
    text
}

/// Writes a line of a label, which has at most 100 bytes, and the digits of a number.
///
/// On `Ok` the sink took exactly this line. On `Failed` it took a prefix of it that lacks at least one
/// byte, and its count of failures rose by one. The sink's count of failures must be below the greatest
/// `u64`.
pub fn numbered_line<S: Sink>(sink: &mut S, label: &[u8], number: u64) -> Result<(), Failed>
    requires short { length label.now ≤ 100 }
    requires countable { S.failure_count sink.old < 2 ^ 64 - 1 }
    ensures written { Writes (S.taken sink.old) (S.taken sink.new) result (label.now ++ (decimal number ++ codes "\n")) }
    ensures counted { IsCounted (S.failure_count sink.old) (S.failure_count sink.new) result }
{
    let text = numbered(label, number);
    write_all(sink, text.as_slice())
}
