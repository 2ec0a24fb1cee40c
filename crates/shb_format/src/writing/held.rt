//! Text that is held back in a buffer, and sent once the buffer is full.
ghost use Rattle.std.specs.Prelude.{◌+◌, ◌-◌, ◌^◌, ◌<◌, ◌≤◌, ◌++◌, Some, length, OnErr, OnOk};
ghost use Rattle.std.specs.Option.{option_map};
ghost use Rattle.shb_io.specs.Devices.{AppendsPrefix, HoldsBack, IsCounted};
ghost use Rattle.shb_format.specs.Writing.{Puts, event_number, event_numbers, labelled_line, schedule_start};
ghost use Rattle.shb_format.specs.Report.{schedule_lines};
ghost use Rattle.shb_format.specs.Value.{lines_text};
ghost use Rattle.shb_format.specs.declared.writing.buffer.TheConstants.{ROOM};

use super::buffer::{DIGITS, ROOM, TextBuffer};
use shb_io::{Failed, Sink, write_all};

/// Sends what is held back where `more` bytes have no room after it.
pub(crate) fn make_room<S: Sink>(
    sink: &mut S,
    held: &mut TextBuffer,
    more: usize,
) -> Result<(), Failed>
    requires fits { more ≤ ROOM }
    requires countable { S.failure_count sink.old < 2 ^ 64 - 1 }
    ensures room { OnOk result (length held.new + more ≤ ROOM) }
    ensures ok { OnOk result (HoldsBack (S.taken sink.old) (S.taken sink.new) held.new held.old) }
    ensures err { OnErr result (AppendsPrefix (S.taken sink.old) (S.taken sink.new) held.old) }
    ensures counted { IsCounted (S.failure_count sink.old) (S.failure_count sink.new) result }
{
    if held.len() + more > ROOM {
        write_all(sink, held.as_slice())?;
        held.clear();
    }
    Ok(())
}

/// Puts some bytes after what is held back.
pub(crate) fn put_bytes<S: Sink>(
    sink: &mut S,
    held: &mut TextBuffer,
    bytes: &[u8],
) -> Result<(), Failed>
    requires countable { S.failure_count sink.old < 2 ^ 64 - 1 }
    ensures put { Puts (S.taken sink.old) (S.taken sink.new) result held.old held.new bytes.now }
    ensures counted { IsCounted (S.failure_count sink.old) (S.failure_count sink.new) result }
{
    if bytes.len() > ROOM {
        write_all(sink, held.as_slice())?;
        held.clear();
        return write_all(sink, bytes);
    }
    make_room(sink, held, bytes.len())?;
    held.push_bytes(bytes);
    Ok(())
}

/// Puts a label, a text and a line feed after what is held back.
pub(crate) fn put_line<S: Sink>(
    sink: &mut S,
    held: &mut TextBuffer,
    label: &[u8],
    text: &[u8],
) -> Result<(), Failed>
    requires countable { S.failure_count sink.old < 2 ^ 64 - 1 }
    ensures put { Puts (S.taken sink.old) (S.taken sink.new) result held.old held.new
        (labelled_line label.now text.now) }
    ensures counted { IsCounted (S.failure_count sink.old) (S.failure_count sink.new) result }
{
    put_bytes(sink, held, label)?;
    put_bytes(sink, held, text)?;
    put_bytes(sink, held, b"\n")
}

/// Puts how many events a schedule has after what is held back.
pub(crate) fn put_schedule_start<S: Sink>(
    sink: &mut S,
    held: &mut TextBuffer,
    count: u64,
) -> Result<(), Failed>
    requires countable { S.failure_count sink.old < 2 ^ 64 - 1 }
    ensures put { Puts (S.taken sink.old) (S.taken sink.new) result held.old held.new (schedule_start count) }
    ensures counted { IsCounted (S.failure_count sink.old) (S.failure_count sink.new) result }
{
    make_room(sink, held, DIGITS + 10)?;
    held.push_labelled(b"schedule ", count);
    held.push_byte(b':');
    Ok(())
}

/// Puts the number of an event, counted from 1, after what is held back.
pub(crate) fn put_event<S: Sink>(
    sink: &mut S,
    held: &mut TextBuffer,
    event: u32,
) -> Result<(), Failed>
    requires countable { S.failure_count sink.old < 2 ^ 64 - 1 }
    ensures put { Puts (S.taken sink.old) (S.taken sink.new) result held.old held.new (event_number event) }
    ensures counted { IsCounted (S.failure_count sink.old) (S.failure_count sink.new) result }
{
    make_room(sink, held, DIGITS + 1)?;
    held.push_byte(b' ');
    held.push_number(u64::from(event) + 1);
    Ok(())
}

/// Puts the numbers of some events after what is held back.
fn put_events<S: Sink>(sink: &mut S, held: &mut TextBuffer, events: &[u32]) -> Result<(), Failed>
    requires countable { S.failure_count sink.old < 2 ^ 64 - 1 }
    ensures put { Puts (S.taken sink.old) (S.taken sink.new) result held.old held.new (event_numbers events.now) }
    ensures counted { IsCounted (S.failure_count sink.old) (S.failure_count sink.new) result }
{
    for event in events {
        put_event(sink, held, *event)?;
    }
    Ok(())
}

/// Puts the line of a schedule after what is held back.
fn put_schedule_line<S: Sink>(
    sink: &mut S,
    held: &mut TextBuffer,
    events: &[u32],
) -> Result<(), Failed>
    requires countable { S.failure_count sink.old < 2 ^ 64 - 1 }
    ensures put { Puts (S.taken sink.old) (S.taken sink.new) result held.old held.new
        (lines_text (schedule_lines (Some events.now))) }
    ensures counted { IsCounted (S.failure_count sink.old) (S.failure_count sink.new) result }
{
    put_schedule_start(sink, held, events.len() as u64)?;
    put_events(sink, held, events)?;
    put_bytes(sink, held, b"\n")
}

/// Puts the line of a schedule after what is held back, if there is one.
pub(crate) fn put_schedule<S: Sink>(
    sink: &mut S,
    held: &mut TextBuffer,
    schedule: Option<&[u32]>,
) -> Result<(), Failed>
    requires countable { S.failure_count sink.old < 2 ^ 64 - 1 }
    ensures put { Puts (S.taken sink.old) (S.taken sink.new) result held.old held.new
        (lines_text (schedule_lines (option_map (λ s. s.now) schedule.entry))) }
    ensures counted { IsCounted (S.failure_count sink.old) (S.failure_count sink.new) result }
{
    match schedule {
        Some(events) => put_schedule_line(sink, held, events),
        None => Ok(()),
    }
}
