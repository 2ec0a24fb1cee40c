//! Where in a text the reading stands: which line is next.
ghost use Rattle.std.specs.Prelude.{◌≡◌, ◌+◌, ◌<◌, ◌≤◌, ℕ, length, drop, MatchOption};
ghost use Rattle.shb_lines.specs.text.Limits.{most_bytes};
ghost use Rattle.shb_reading.specs.Lines.{BeginsWithLine, IsAt, TakesLine, bytes_from};
ghost use Rattle.shb_format.specs.Value.{HasNoLineFeed};

use memchr::memchr;
use shb_io::NoMemory;

/// Where the next line of a text begins, and how many lines stand before it.
#[derive(Clone, Copy)]
pub struct Position {
    /// How many bytes stand before the line.
    pub start: usize,
    /// How many lines stand before it.
    pub lines: u64,
}

/// Why the reading of a text stopped.
#[derive(Clone, Copy)]
pub enum ReadStop {
    /// The line of this number, counted from 1, is the first that no report has there.
    BadLine(u64),
    /// There was no memory.
    Memory(NoMemory),
}

impl From<NoMemory> for ReadStop {
    ghost use Rattle.shb_reading.specs.declared.position.ReadStop.TheVariants.{Memory};

    ghost from_gives = { λ refused e. e ≡ Memory refused };

    fn from(refused: NoMemory) -> ReadStop {
        ReadStop::Memory(refused)
    }
}

/// The line that begins here, without its line feed, which it must have.
fn line_from(rest: &[u8]) -> Option<&[u8]>
    ensures { MatchOption result (HasNoLineFeed rest.now)
        (λ line. BeginsWithLine rest.now line.now (drop (length line.now + 1) rest.now)) }
{
    let len = memchr(b'\n', rest)?;
    Some(&rest[..len])
}

/// The line at a position, without its line feed, which it must have.
pub(crate) fn next_line(text: &[u8], at: Position) -> Option<&[u8]>
    requires { IsAt text.now at }
    ensures { MatchOption result (HasNoLineFeed (bytes_from text.now at))
        (λ line. TakesLine text.now at (record { start = at.start + length line.now + 1; lines = at.lines + 1 }) line.now) }
{
    let (_, rest) = text.split_at(at.start);
    line_from(rest)
}

impl Position {
    /// The position after a line.
    pub(crate) fn after(self, line: &[u8]) -> Position
        requires start { self.start + length line.now + 1 ≤ most_bytes + 1 }
        requires lines { self.lines ≤ self.start }
        ensures { result ≡ record { start = self.start + length line.now + 1; lines = self.lines + 1 } }
    {
        Position {
            start: self.start + line.len() + 1,
            lines: self.lines + 1,
        }
    }
}
