//! The line that begins at an offset of a text.
ghost use Rattle.std.specs.Prelude.{◌≡◌, ◌<◌, ◌≤◌, ◌^◌, length};
ghost use Rattle.std.specs.Str.Lines.{strip_carriage_return};
ghost use Rattle.shb_lines.specs.text.Parsed.{line_from as line_from_start};
ghost use Rattle.shb_lines.specs.text.Stored.{part};
ghost use Rattle.shb_lines.specs.text.Reading.{Begins};

use crate::grammar::before_byte;

/// The line without the carriage return at its end.
pub fn without_carriage_return(line: &[u8]) -> &[u8]
    ensures value { result.now ≡ strip_carriage_return line.now }
    ensures within { length result.now ≤ length line.now }
{
    match line {
        [front @ .., b'\r'] => front,
        _ => line,
    }
}

/// The line that begins at an offset of the text. Where it ends is looked for when it is asked for, which
/// is seldom, so that a trace keeps four bytes a line and not eight.
pub fn line_from(text: &[u8], start: usize) -> &[u8]
    requires { start ≤ length text.now }
    ensures { result.now ≡ line_from_start text.now start }
{
    let (_, rest) = text.split_at(start);
    without_carriage_return(before_byte(b'\n', rest))
}

/// How many bytes behind a line a search in the line may get.
const MORE: usize = 32;

/// The line from `start` to `end`, and up to 32 bytes behind it. It isn't all the rest of the text: one without bars would be
/// searched to its end for each line.
pub fn with_more(text: &[u8], start: usize, end: usize) -> &[u8]
    requires order { start ≤ end }
    requires within { end ≤ length text.now }
    requires short { length text.now < 2 ^ 31 }
    ensures { Begins (part text.now start end) result.now }
{
    let len = text.len();
    if len - end < MORE {
        let (_, rest) = text.split_at(start);
        rest
    } else {
        &text[start..end + MORE]
    }
}
