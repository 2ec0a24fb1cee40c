//! The lines of a source, one after the other. Neither they nor the text are kept.
ghost use Rattle.std.specs.Prelude.{◌≡◌, ◌≢◌, ◌+◌, ◌-◌, ◌==◌, ◌^◌, ◌<◌, ◌≤◌, ℕ, List, [], true, false, length, take, drop, IfOk, OnErr};
ghost use Rattle.std.specs.Io.KnownBytes.{IsAtEnd};
ghost use Rattle.std.specs.List.{position_or_len};
ghost use Rattle.std.specs.Str.Lines.{strip_carriage_return};
ghost use Rattle.shb_io.specs.Devices.{IsCounted};
ghost use Rattle.shb_lines.specs.declared.lines.TheConstants.{ROOM};
ghost use Rattle.shb_lines.specs.text.Limits.{most_line};
ghost use Rattle.shb_lines.specs.text.Lines.{Gives, IsNext, LinesState};
ghost use Rattle.shb_lines.specs.text.Stored.{part};
ghost use Rattle.shb_lines.specs.text.Reading.{Begins};

use crate::grammar::before_byte;
use crate::line::{with_more, without_carriage_return};
use shb_io::{Failed, NoMemory, Source};
use std::alloc::Global;
use std::marker::Model;

/// How many bytes are held at most: a line of the greatest length, and a large read after it.
const ROOM: usize = (1 << 16) + 4096 + 1;

/// What comes next of the lines of a source.
#[derive(Clone, Copy, Debug, PartialEq, Eq)]
pub enum Next {
    /// A line with its line feed.
    Line,
    /// The last line: what stands after the last line feed, perhaps no byte.
    Last,
    /// A line of more bytes than the limit.
    TooLong,
}

/// The lines of a source, seen as the line that was given last, and the bytes after it that were read already.
#[derive(Drop)]
pub struct Lines {
    bytes: Vec<u8>,
    /// Where the line begins, and how many bytes it has.
    start: usize,
    len: usize,
    /// Where the bytes after it begin, and where they end.
    next: usize,
    end: usize,
}

impl Model for Lines {
    ghost use Rattle.std.specs.Prelude.{◌≡◌, ◌+◌, ◌≤◌, vec_len};
    ghost use Rattle.shb_lines.specs.declared.lines.TheConstants.{ROOM};
    ghost use Rattle.shb_lines.specs.text.Stored.{part};
    ghost use Rattle.shb_lines.specs.text.Lines.{LinesState};

    ghost Value = { LinesState };

    ghost view = { λ l. record { line = part l.bytes.items l.start (l.start + l.len); held = part l.bytes.items l.next l.end } };

    ghost invariant = { λ l. (l.start + l.len ≤ l.end) × (l.next ≤ l.end) × (l.end ≤ vec_len l.bytes) × (vec_len l.bytes ≡ ROOM) };
}

/// Bytes of zero, as many as lines are read into.
fn room(alloc: Global) -> Result<Vec<u8>, NoMemory>
    ensures { IfOk result (λ bytes. length bytes.items ≡ ROOM) }
{
    let mut bytes = Vec::new(alloc);
    bytes.resize(ROOM, 0)?;
    Ok(bytes)
}

/// Moves the bytes from `start` to `end` to the front.
fn move_to_front(bytes: &mut [u8], start: usize, end: usize)
    requires order { start ≤ end }
    requires within { end ≤ length bytes.old }
    ensures len { length bytes.new ≡ length bytes.old }
    ensures front { take (end - start) bytes.new ≡ part bytes.old start end }
{
    bytes.copy_within(start..end, 0);
}

/// Reads after the bytes that are filled, and says how many bytes. It gives 0 only at the end.
fn read_after<S: Source>(bytes: &mut [u8], filled: usize, source: &mut S) -> Result<usize, Failed>
    requires room { filled < length bytes.old }
    requires countable { S.failure_count source.old < 2 ^ 64 - 1 }
    ensures len { length bytes.new ≡ length bytes.old }
    ensures fits { IfOk result (λ n. filled + n ≤ length bytes.new) }
    ensures ok { IfOk result (λ n. Gives (S.remaining source.old) (S.remaining source.new) (S.given_count source.old) (S.given_count source.new) (take filled bytes.old) (take (filled + n) bytes.new) n) }
    ensures end { IfOk result (λ n. n ≡ 0 → IsAtEnd (S.remaining source.new)) }
    ensures err { OnErr result (Gives (S.remaining source.old) (S.remaining source.new) (S.given_count source.old) (S.given_count source.new) (take filled bytes.old) (take filled bytes.new) 0) }
    ensures counted { IsCounted (S.failure_count source.old) (S.failure_count source.new) result }
{
    source.read(&mut bytes[filled..])
}

impl Lines {
    /// Nothing read yet.
    pub fn new(alloc: Global) -> Result<Lines, NoMemory>
        ensures { IfOk result (λ lines. lines ≡ record { line = []; held = [] }) }
    {
        Ok(Lines {
            bytes: room(alloc)?,
            start: 0,
            len: 0,
            next: 0,
            end: 0,
        })
    }

    /// The line that was given last, without the carriage return at its end.
    pub fn line(&self) -> &[u8]
        ensures { result.now ≡ strip_carriage_return self.now.line }
    {
        without_carriage_return(&self.bytes[self.start..self.start + self.len])
    }

    /// The line that was given last, with its carriage return, and bytes that stand behind it.
    pub(crate) fn wide(&self) -> &[u8]
        ensures { Begins self.now.line result.now }
    {
        with_more(self.bytes.as_slice(), self.start, self.start + self.len)
    }

    /// How many bytes are held.
    fn held_len(&self) -> usize
        ensures { result ≡ length self.now.held }
    {
        self.end - self.next
    }

    /// How many bytes are held before the first line feed.
    fn line_len(&self) -> usize
        ensures len { result ≡ position_or_len (λ b. b == 10) self.now.held }
        ensures within { result ≤ length self.now.held }
    {
        before_byte(b'\n', &self.bytes[self.next..self.end]).len()
    }

    /// Whether a line of so many bytes may go on after what is held.
    fn is_open(&self, len: usize, limit: u32) -> bool
        ensures yes { result ≡ true → (len ≡ length self.now.held) × (len ≤ limit) }
        ensures no { result ≡ false → len ≤ limit → len ≢ length self.now.held }
    {
        len == self.held_len() && len <= limit as usize
    }

    /// Gives the first bytes that are held as a line, and drops a byte after them.
    fn take_line(&mut self, len: usize)
        requires { len < length self.old.held }
        ensures line { self.new.line ≡ take len self.old.held }
        ensures held { self.new.held ≡ drop (len + 1) self.old.held }
    {
        self.start = self.next;
        self.len = len;
        self.next += len + 1;
    }

    /// Gives all bytes that are held as a line.
    fn take_last(&mut self)
        ensures line { self.new.line ≡ self.old.held }
        ensures held { self.new.held ≡ [] }
    {
        self.start = self.next;
        self.len = self.end - self.next;
        self.next = self.end;
    }

    /// Reads more bytes after those that are held, and says how many. It gives 0 only at the end.
    fn fill<S: Source>(&mut self, source: &mut S) -> Result<usize, Failed>
        requires room { length self.old.held < ROOM }
        requires countable { S.failure_count source.old < 2 ^ 64 - 1 }
        ensures ok { IfOk result (λ n. Gives (S.remaining source.old) (S.remaining source.new) (S.given_count source.old) (S.given_count source.new) self.old.held self.new.held n) }
        ensures end { IfOk result (λ n. n ≡ 0 → IsAtEnd (S.remaining source.new)) }
        ensures err { OnErr result (Gives (S.remaining source.old) (S.remaining source.new) (S.given_count source.old) (S.given_count source.new) self.old.held self.new.held 0) }
        ensures counted { IsCounted (S.failure_count source.old) (S.failure_count source.new) result }
    {
        let held = self.end - self.next;
        move_to_front(self.bytes.as_mut_slice(), self.next, self.end);
        self.start = 0;
        self.len = 0;
        self.next = 0;
        self.end = held;
        let count = read_after(self.bytes.as_mut_slice(), held, source)?;
        self.end = held + count;
        Ok(count)
    }

    /// Reads the source as far as the next line needs it, and gives that line, which `line` shows then.
    /// A line of more bytes than the limit is told once more bytes of it than the limit were read, and is not given.
    ///
    /// # Errors
    ///
    /// `Failed` where the source fails, at once. What was read is held then.
    pub fn next<S: Source>(&mut self, source: &mut S, limit: u32) -> Result<Next, Failed>
        requires limit { limit ≤ most_line }
        requires countable { S.failure_count source.old < 2 ^ 64 - 1 }
        ensures next { IfOk result (λ found. (read : List ℕ) × (n : ℕ) × Gives (S.remaining source.old) (S.remaining source.new) (S.given_count source.old) (S.given_count source.new) self.old.held read n
            × IsNext limit read self.new (S.remaining source.new) found) }
        ensures err { OnErr result ((n : ℕ) × Gives (S.remaining source.old) (S.remaining source.new) (S.given_count source.old) (S.given_count source.new) self.old.held self.new.held n) }
        ensures counted { IsCounted (S.failure_count source.old) (S.failure_count source.new) result }
    {
        let mut len = self.line_len();
        while self.is_open(len, limit) {
            if self.fill(source)? == 0 {
                self.take_last();
                return Ok(Next::Last);
            }
            len = self.line_len();
        }
        if len > limit as usize {
            return Ok(Next::TooLong);
        }
        self.take_line(len);
        Ok(Next::Line)
    }
}
