//! What there is to say of a text by its beginning. A trace isn't refused for a byte order mark, whose bytes are part of its
//! first name, nor for having no events. One that is refused may be no trace at all.
ghost use Rattle.std.specs.Prelude.{◌≡◌, ◌-◌, ◌^◌, ◌<◌, ◌≤◌, ◌↔◌, ◌++◌, ◌∷◌, [], length, take, IfOk, IsTrue};
ghost use Rattle.std.specs.Io.KnownBytes.{ReadConsumes};
ghost use Rattle.shb_io.specs.Devices.{IsCounted, IsGivenCounted};

use arrayvec::ArrayVec;
use shb_io::{Failed, Source};
use std::io::Write;

/// The bytes of a byte order mark in UTF-8.
const MARK: [u8; 3] = [0xEF, 0xBB, 0xBF];

/// What a user is told of a trace that begins with one.
const HAS_MARK: &str =
    "the trace begins with a byte order mark, which is a part of the first thread's name";

/// What a user is told of a trace of empty lines alone, or of no line.
const IS_EMPTY: &str = "the trace has no events";

/// What a user who watches is told of any other trace that is refused.
const FORM: &str = "FORMATS.md has the form of a trace, and `shb-fix` repairs common faults";

/// How files begin that are no traces, and what a user is told of them.
const OTHERS: [(&[u8], &str); 9] = [
    (b"\x1F\x8B", "the file is packed by gzip: unpack it first"),
    (b"\xFD7zXZ", "the file is packed by xz: unpack it first"),
    (
        b"\x28\xB5\x2F\xFD",
        "the file is packed by zstd: unpack it first",
    ),
    (b"BZh", "the file is packed by bzip2: unpack it first"),
    (b"PK\x03\x04", "the file is a zip archive: unpack it first"),
    (b"\xFF\xFE", "the file is UTF-16: save it as UTF-8"),
    (b"\xFE\xFF", "the file is UTF-16: save it as UTF-8"),
    (b"shb-report", "the file is a report of `shb`, not a trace"),
    (
        b"shb-record",
        "the file is a record: `shb-std` makes a trace of it",
    ),
];

/// How many bytes the longest of them has.
const LONGEST: usize = 10;

/// What a user is told at last of a trace that was refused.
#[derive(Clone, Copy)]
pub(crate) enum WayOut {
    /// The text is something else, that of `OTHERS` at this index.
    Other(usize),
    /// Where the form of a trace is found.
    Form,
}

impl WayOut {
    /// Says it on standard error. A failure of standard error is passed over.
    pub(crate) fn tell<R: Eprint>(self, rt: &R) {
        let words = match self {
            WayOut::Other(at) => OTHERS.get(at).map_or(FORM, |other| other.1),
            WayOut::Form => FORM,
        };
        let _ = rt.eprintln(words);
    }
}

/// The first ten bytes of a text that comes in pieces; all of it while it is shorter.
#[derive(Drop)]
struct Front {
    bytes: ArrayVec<u8, LONGEST>,
}

impl Front {
    /// That of a text of which nothing came.
    fn new() -> Front
        ensures { result.bytes.items ≡ [] }
    {
        Front {
            bytes: ArrayVec::new(),
        }
    }

    /// The text goes on with these bytes.
    fn add(&mut self, bytes: &[u8])
        ensures { self.new.bytes.items ≡ take 10 (self.old.bytes.items ++ bytes.now) }
    {
        if !self.bytes.is_full() {
            let _taken = self.bytes.write(bytes);
        }
    }

    /// Whether the text begins with a byte order mark.
    fn is_mark(&self) -> bool
        ensures { IsTrue result ↔ (take 3 self.now.bytes.items ≡ 239 ∷ 187 ∷ 191 ∷ []) }
    {
        self.bytes.as_slice().starts_with(&MARK)
    }

    /// What the text is, if it is known to be no trace.
    fn other(&self) -> Option<WayOut> {
        let bytes = self.bytes.as_slice();
        let at = OTHERS.iter().position(|other| bytes.starts_with(other.0))?;
        Some(WayOut::Other(at))
    }
}

/// Whether some bytes are ends of lines alone.
fn are_ends(bytes: &[u8]) -> bool {
    bytes.iter().all(|byte| matches!(byte, b'\n' | b'\r'))
}

/// A source that knows how what it gave begins, and else is the source inside.
#[derive(Drop)]
pub(crate) struct Begun<S> {
    source: S,
    front: Front,
    /// Whether all that it gave are ends of lines.
    is_empty: bool,
}

impl<S: Source> Begun<S> {
    /// The same source, which is looked at from here on.
    pub(crate) fn new(source: S) -> Begun<S>
        ensures { ⟦<Begun<S> as Source>⟧.failure_count result ≡ S.failure_count source }
    {
        Begun {
            source,
            front: Front::new(),
            is_empty: true,
        }
    }

    /// Says on standard error where the text that was given begins with a byte order mark, and, where that is to be told
    /// of a trace that was accepted, where it has no events. A failure of standard error is passed over.
    pub(crate) fn tell_notes<R: Eprint>(&self, rt: &R, tells_empty: bool) {
        if self.front.is_mark() {
            let _ = rt.eprintln(HAS_MARK);
        }
        if tells_empty && self.is_empty {
            let _ = rt.eprintln(IS_EMPTY);
        }
    }

    /// What a user is told of a refused trace at last: what the text is, if it is known to be something else, and else, if the
    /// user watches, where the form of a trace is found.
    pub(crate) fn way_out(&self, is_watched: bool) -> Option<WayOut> {
        match self.front.other() {
            None if is_watched => Some(WayOut::Form),
            other => other,
        }
    }
}

impl<S: Source> Source for Begun<S> {
    ghost remaining = { λ s. S.remaining s.source };

    ghost failure_count = { λ s. S.failure_count s.source };

    ghost given_count = { λ s. S.given_count s.source };

    /// Hands out what the source inside does, and keeps the first ten bytes of all that it gave.
    fn read(&mut self, buf: &mut [u8]) -> Result<usize, Failed>
        requires room { 0 < length buf.old }
        requires countable { S.failure_count self.old.source < 2 ^ 64 - 1 }
        ensures bound { IfOk result (λ n. n ≤ length buf.new) }
        ensures bytes { ReadConsumes (S.remaining self.old.source) (S.remaining self.new.source) result buf.new }
        ensures counted { IsCounted (S.failure_count self.old.source) (S.failure_count self.new.source) result }
        ensures given { IsGivenCounted (S.given_count self.old.source) (S.given_count self.new.source) result }
        ensures front { IfOk result (λ n.
            self.new.front.bytes.items ≡ take 10 (self.old.front.bytes.items ++ take n buf.new)) }
    {
        let count = self.source.read(buf)?;
        self.front.add(&buf[..count]);
        self.is_empty = self.is_empty && are_ends(&buf[..count]);
        Ok(count)
    }

    fn failures(&self) -> u64 {
        self.source.failures()
    }
}
