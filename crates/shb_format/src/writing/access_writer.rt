//! Writes the block of a race of texts that the caller keeps: the line of an access is made of its thread, its variable
//! and its location.
ghost use Rattle.std.specs.Prelude.{◌≡◌, ◌-◌, ◌^◌, ◌<◌, ◌++◌, None, codes};
ghost use Rattle.std.specs.Option.{option_copied};
ghost use Rattle.shb_io.specs.Devices.{IsCounted, Writes};
ghost use Rattle.shb_lines.specs.text.Grammar.{word_of};
ghost use Rattle.shb_lines.specs.text.TraceData.{TraceData, barred};
ghost use Rattle.shb_format.specs.AccessText.{HasLineOf, access_kind, access_line};
ghost use Rattle.shb_format.specs.Report.{block_bytes};
ghost use Rattle.shb_format.specs.Writing.{Puts, labelled_line};

use super::buffer::TextBuffer;
use super::held::put_bytes;
use super::writer::push_race_line;
use shb_io::{Failed, Sink, write_all};
use shb_lines::Pair;

/// An access, and the texts that its line is made of.
#[derive(Clone, Copy)]
pub struct AccessText<'t> {
    /// The number of its event, from 0.
    pub event: u32,
    /// The name of its thread.
    pub thread: &'t [u8],
    /// Whether it writes; else it reads.
    pub writes: bool,
    /// The name of its variable.
    pub variable: &'t [u8],
    /// What stands after the second bar of its line, if there is one.
    pub location: Option<&'t [u8]>,
}

/// What stands between the thread and the variable of an access.
fn opening(writes: bool) -> &'static [u8]
    ensures { result.now ≡ codes "|" ++ (word_of (access_kind writes) ++ codes "(") }
{
    if writes { b"|w(" } else { b"|r(" }
}

/// Puts the second bar and the location after what is held back, if there is one.
fn put_barred<S: Sink>(
    sink: &mut S,
    held: &mut TextBuffer,
    location: Option<&[u8]>,
) -> Result<(), Failed>
    requires countable { S.failure_count sink.old < 2 ^ 64 - 1 }
    ensures put { Puts (S.taken sink.old) (S.taken sink.new) result held.old held.new (barred (option_copied location.entry)) }
    ensures counted { IsCounted (S.failure_count sink.old) (S.failure_count sink.new) result }
{
    match location {
        Some(text) => {
            put_bytes(sink, held, b"|")?;
            put_bytes(sink, held, text)
        }
        None => Ok(()),
    }
}

/// Puts what an access does, and what follows, after what is held back.
fn put_operation<S: Sink>(
    sink: &mut S,
    held: &mut TextBuffer,
    access: &AccessText<'_>,
) -> Result<(), Failed>
    requires countable { S.failure_count sink.old < 2 ^ 64 - 1 }
    ensures put { Puts (S.taken sink.old) (S.taken sink.new) result held.old held.new
        (access.now.variable.now ++ (codes ")" ++ barred (option_copied access.now.location))) }
    ensures counted { IsCounted (S.failure_count sink.old) (S.failure_count sink.new) result }
{
    put_bytes(sink, held, access.variable)?;
    put_bytes(sink, held, b")")?;
    put_barred(sink, held, access.location)
}

/// Puts the line of an access after what is held back, without its line feed.
fn put_access<S: Sink>(
    sink: &mut S,
    held: &mut TextBuffer,
    access: &AccessText<'_>,
) -> Result<(), Failed>
    requires countable { S.failure_count sink.old < 2 ^ 64 - 1 }
    ensures put { Puts (S.taken sink.old) (S.taken sink.new) result held.old held.new (access_line access.now) }
    ensures counted { IsCounted (S.failure_count sink.old) (S.failure_count sink.new) result }
{
    put_bytes(sink, held, access.thread)?;
    put_bytes(sink, held, opening(access.writes))?;
    put_operation(sink, held, access)
}

/// Puts a label and the line of an access after what is held back.
fn put_access_line<S: Sink>(
    sink: &mut S,
    held: &mut TextBuffer,
    label: &[u8],
    access: &AccessText<'_>,
) -> Result<(), Failed>
    requires countable { S.failure_count sink.old < 2 ^ 64 - 1 }
    ensures put { Puts (S.taken sink.old) (S.taken sink.new) result held.old held.new
        (labelled_line label.now (access_line access.now)) }
    ensures counted { IsCounted (S.failure_count sink.old) (S.failure_count sink.new) result }
{
    put_bytes(sink, held, label)?;
    put_access(sink, held, access)?;
    put_bytes(sink, held, b"\n")
}

/// Puts the lines of two accesses after what is held back.
fn put_accesses<S: Sink>(
    sink: &mut S,
    held: &mut TextBuffer,
    first: &AccessText<'_>,
    second: &AccessText<'_>,
) -> Result<(), Failed>
    requires countable { S.failure_count sink.old < 2 ^ 64 - 1 }
    ensures put { Puts (S.taken sink.old) (S.taken sink.new) result held.old held.new
        (labelled_line (codes "first ") (access_line first.now) ++ labelled_line (codes "second ") (access_line second.now)) }
    ensures counted { IsCounted (S.failure_count sink.old) (S.failure_count sink.new) result }
{
    put_access_line(sink, held, b"first ", first)?;
    put_access_line(sink, held, b"second ", second)
}

/// Writes the block of a race without a schedule, as [`block`](super::block) does, of accesses whose lines aren't kept.
///
/// The block is that of a trace in which the two events have the lines that the texts make.
///
/// On `Ok` the sink took exactly the block. On `Failed` it took a prefix of it that lacks at least one byte, and its
/// count of failures rose by one. The sink's count of failures must be below the greatest `u64`.
pub fn access_block<S: Sink>(
    sink: &mut S,
    number: u64,
    first: &AccessText<'_>,
    second: &AccessText<'_>,
) -> Result<(), Failed>
    requires countable { S.failure_count sink.old < 2 ^ 64 - 1 }
    ensures written { (trace : TraceData) → HasLineOf trace first.now → HasLineOf trace second.now
        → Writes (S.taken sink.old) (S.taken sink.new) result (block_bytes trace number (first.now.event, second.now.event) None) }
    ensures counted { IsCounted (S.failure_count sink.old) (S.failure_count sink.new) result }
{
    let mut held = TextBuffer::new();
    let pair = Pair {
        first: first.event,
        second: second.event,
    };
    push_race_line(&mut held, number, pair);
    put_accesses(sink, &mut held, first, second)?;
    write_all(sink, held.as_slice())
}
