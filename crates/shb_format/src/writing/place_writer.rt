//! Writes the lines of the places.
ghost use Rattle.std.specs.Prelude.{◌≡◌, ◌+◌, ◌-◌, ◌^◌, ◌<◌, ◌≤◌, ◌++◌, ◌∷◌, [], All, List, codes, length};
ghost use Rattle.shb_io.specs.Devices.{IsCounted, Writes};
ghost use Rattle.shb_lines.specs.declared.event.Pair.{Pair};
ghost use Rattle.shb_lines.specs.text.TraceData.{TraceData};
ghost use Rattle.shb_format.specs.Keyed.{AreKeyed};
ghost use Rattle.shb_format.specs.Writing.{Puts, place_text};
ghost use Rattle.shb_format.specs.Places.{IsPlaceOf, PlaceOf, counts_in, places_bytes, places_of_pairs, section_bytes};
ghost use Rattle.shb_format.specs.Value.{place_line};
ghost use Rattle.shb_format.specs.declared.writing.buffer.TheConstants.{ROOM};

use super::buffer::{DIGITS, TextBuffer};
use super::held::{make_room, put_line};
use crate::places::{PlaceCount, PlaceTable, Places};
use shb_io::{Failed, Sink, write_all};
use shb_lines::{OwnedNames, Trace};

/// Puts the first line of a place after what is held back.
fn put_place_line<S: Sink>(
    sink: &mut S,
    held: &mut TextBuffer,
    number: u64,
    count: u64,
) -> Result<(), Failed>
    requires countable { S.failure_count sink.old < 2 ^ 64 - 1 }
    ensures put { Puts (S.taken sink.old) (S.taken sink.new) result held.old held.new (place_line number count ++ codes "\n") }
    ensures counted { IsCounted (S.failure_count sink.old) (S.failure_count sink.new) result }
{
    make_room(sink, held, 2 * DIGITS + 9)?;
    held.push_labelled(b"place ", number);
    held.push_labelled(b": ", count);
    held.push_byte(b'\n');
    Ok(())
}

/// Puts the lines of a place with these locations after what is held back.
fn put_place<S: Sink>(
    sink: &mut S,
    held: &mut TextBuffer,
    number: u64,
    count: u64,
    first: &[u8],
    second: &[u8],
) -> Result<(), Failed>
    requires countable { S.failure_count sink.old < 2 ^ 64 - 1 }
    ensures put { Puts (S.taken sink.old) (S.taken sink.new) result held.old held.new (place_text number count first.now second.now) }
    ensures counted { IsCounted (S.failure_count sink.old) (S.failure_count sink.new) result }
{
    put_place_line(sink, held, number, count)?;
    put_line(sink, held, b"at ", first)?;
    put_line(sink, held, b"and ", second)
}

/// Puts the lines of some places, of which the first has number 1, after what is held back.
fn put_places<S: Sink>(
    sink: &mut S,
    held: &mut TextBuffer,
    trace: &Trace,
    places: &[PlaceCount],
) -> Result<(), Failed>
    requires countable { S.failure_count sink.old < 2 ^ 64 - 1 }
    requires in_range { All (IsPlaceOf trace.now) places.now }
    ensures put { Puts (S.taken sink.old) (S.taken sink.new) result held.old held.new (places_bytes trace.now places.now) }
    ensures counted { IsCounted (S.failure_count sink.old) (S.failure_count sink.new) result }
{
    for (k, place) in places.iter().enumerate() {
        let first = trace.location(place.pair.first);
        let second = trace.location(place.pair.second);
        put_place(sink, held, k as u64 + 1, place.count, first, second)?;
    }
    Ok(())
}

/// Writes how many places there are and the lines of each: how many pairs have it, and its two locations.
///
/// The events of each place must be events of the trace, as they are where `places_of` made the places of
/// pairs of that trace.
///
/// On `Ok` the sink took exactly these lines. On `Failed` it took a prefix of them that lacks at least
/// one byte, and its count of failures rose by one. The sink's count of failures must be below the
/// greatest `u64`.
pub fn place_lines<S: Sink>(sink: &mut S, trace: &Trace, places: &Places) -> Result<(), Failed>
    requires countable { S.failure_count sink.old < 2 ^ 64 - 1 }
    requires in_range { All (IsPlaceOf trace.now) places.now }
    ensures written { Writes (S.taken sink.old) (S.taken sink.new) result (section_bytes trace.now places.now) }
    ensures counted { IsCounted (S.failure_count sink.old) (S.failure_count sink.new) result }
{
    let mut held = TextBuffer::new();
    held.push_labelled(b"places ", places.len());
    held.push_byte(b'\n');
    put_places(sink, &mut held, trace, places.as_slice())?;
    write_all(sink, held.as_slice())
}

/// Puts the lines of the places in a table, of which the first has number 1, after what is held back.
fn put_named_places<S: Sink>(
    sink: &mut S,
    held: &mut TextBuffer,
    locations: &OwnedNames,
    places: &PlaceTable,
) -> Result<(), Failed>
    requires countable { S.failure_count sink.old < 2 ^ 64 - 1 }
    requires few { length locations.now ≤ 2 ^ 32 }
    requires keyed { (placed : List PlaceOf) × AreKeyed locations.now places.now placed }
    ensures put { (trace : TraceData) (pairs : List Pair) → AreKeyed locations.now places.now (places_of_pairs trace pairs)
        → Puts (S.taken sink.old) (S.taken sink.new) result held.old held.new (places_bytes trace (counts_in (places_of_pairs trace pairs))) }
    ensures counted { IsCounted (S.failure_count sink.old) (S.failure_count sink.new) result }
{
    for q in 0..places.len() {
        let (key, counted) = places.place(q);
        let first = locations.name(key.0 as u32);
        let second = locations.name(key.1 as u32);
        put_place(sink, held, q as u64 + 1, counted.count, first, second)?;
    }
    Ok(())
}

/// Writes what [`place_lines`] writes, of places in a table, whose numbers are those of the locations in `locations`.
///
/// The two numbers of each place must be numbers of locations, of which there are at most 4,294,967,296. The lines are
/// those of the places of a trace's pairs where the locations and the counts are those of these places.
///
/// On `Ok` the sink took exactly these lines. On `Failed` it took a prefix of them that lacks at least one byte, and its
/// count of failures rose by one. The sink's count of failures must be below the greatest `u64`.
pub fn named_place_lines<S: Sink>(
    sink: &mut S,
    locations: &OwnedNames,
    places: &PlaceTable,
) -> Result<(), Failed>
    requires countable { S.failure_count sink.old < 2 ^ 64 - 1 }
    requires few { length locations.now ≤ 2 ^ 32 }
    requires keyed { (placed : List PlaceOf) × AreKeyed locations.now places.now placed }
    ensures written { (trace : TraceData) (pairs : List Pair) → AreKeyed locations.now places.now (places_of_pairs trace pairs)
        → Writes (S.taken sink.old) (S.taken sink.new) result (section_bytes trace (counts_in (places_of_pairs trace pairs))) }
    ensures counted { IsCounted (S.failure_count sink.old) (S.failure_count sink.new) result }
{
    let mut held = TextBuffer::new();
    held.push_labelled(b"places ", places.len() as u64);
    held.push_byte(b'\n');
    put_named_places(sink, &mut held, locations, places)?;
    write_all(sink, held.as_slice())
}
