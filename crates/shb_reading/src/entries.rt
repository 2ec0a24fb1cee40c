//! Reads the blocks of the races and the places, and the whole text of a report.
ghost use Rattle.std.specs.Prelude.{◌≡◌, ◌+◌, ◌-◌, ◌<◌, ◌≤◌, ◌++◌, ◌∷◌, [], ℕ, List, length, take, IfOk, OnOk, vec_len, codes};
ghost use Rattle.shb_lines.specs.text.Limits.{most_bytes};
ghost use Rattle.shb_reading.specs.Forms.{Form, block_forms, place_forms, End, Version, IsBadFrom, places_form};
ghost use Rattle.shb_reading.specs.Lines.{IfBad, IsAt, IsBadAt, Passes, bytes_from};
ghost use Rattle.shb_reading.specs.Parts.{IsPlaceIn, IsRaceIn, KeepsFirst, ReadsBlock, ReadsBlocks, ReadsPlace, ReadsPlaces, block_at, place_in_text, IsScanned, ReadsHead, ReadsSection};
ghost use Rattle.shb_format.specs.Value.{lines_text};

use crate::keeping::{AsWritten, Keeping};
use crate::lines::{
    read_counts, read_end, read_named, read_place_count, read_place_line, read_race_count,
    read_race_line, read_schedule, read_version,
};
use crate::parts::{Parts, PlaceEntry, RaceEntry};
use crate::position::{Position, ReadStop};
use shb_format::Counts;
use shb_io::NoMemory;
use std::alloc::Global;

/// Reads the block of this number, and adds what is kept of the numbers of its schedule. The text has at
/// most 1,073,741,824 bytes.
///
/// # Errors
///
/// `BadLine` where a line of the block is bad, and `Memory` where a growth was refused. Where the reading
/// stands is unspecified then.
pub fn read_block<K: Keeping>(
    text: &[u8],
    at: &mut Position,
    number: u64,
    keeping: &K,
    numbers: &mut Vec<K::Kept>,
) -> Result<RaceEntry, ReadStop>
    requires short { length text.now ≤ most_bytes }
    requires at { IsAt text.now at.old }
    ensures at { OnOk result (IsAt text.now at.new) }
    ensures read { IfOk result (λ entry.
        ReadsBlock (K.kept keeping.now) (K.most_kept keeping.now) text.now at.old at.new number numbers.old.items numbers.new.items entry) }
    ensures passes { OnOk result ((forms : List Form) → Passes text.now at.old at.new (block_forms number 1 ++ forms) forms) }
    ensures bad { (forms : List Form) → IfBad result (IsBadAt text.now at.old (block_forms number 1 ++ forms)) }
{
    let Some((first, second)) = read_race_line(text, at, number) else {
        return Err(ReadStop::BadLine(at.lines + 1));
    };
    let Some(first_line) = read_named(text, at, b"first ", 1) else {
        return Err(ReadStop::BadLine(at.lines + 1));
    };
    let Some(second_line) = read_named(text, at, b"second ", 1) else {
        return Err(ReadStop::BadLine(at.lines + 1));
    };
    let schedule_start = numbers.len();
    if !read_schedule(text, at, keeping, numbers)? {
        return Err(ReadStop::BadLine(at.lines + 1));
    }
    Ok(RaceEntry {
        first,
        second,
        first_line,
        second_line,
        schedule_start,
        schedule_len: numbers.len() - schedule_start,
    })
}

/// Reads the lines of the place of this number.
fn read_place(text: &[u8], at: &mut Position, number: u64) -> Result<PlaceEntry, ReadStop>
    requires short { length text.now ≤ most_bytes }
    requires at { IsAt text.now at.old }
    ensures at { OnOk result (IsAt text.now at.new) }
    ensures read { IfOk result (λ entry. ReadsPlace text.now at.old at.new number entry) }
    ensures passes { OnOk result ((forms : List Form) → Passes text.now at.old at.new (place_forms number 1 ++ forms) forms) }
    ensures bad { (forms : List Form) → IfBad result (IsBadAt text.now at.old (place_forms number 1 ++ forms)) }
{
    let Some(count) = read_place_line(text, at, number) else {
        return Err(ReadStop::BadLine(at.lines + 1));
    };
    let Some(first) = read_named(text, at, b"at ", 0) else {
        return Err(ReadStop::BadLine(at.lines + 1));
    };
    let Some(second) = read_named(text, at, b"and ", 0) else {
        return Err(ReadStop::BadLine(at.lines + 1));
    };
    Ok(PlaceEntry {
        count,
        first,
        second,
    })
}

/// Reads so many blocks: where each stands, and the numbers of all their schedules.
fn read_blocks(
    alloc: Global,
    text: &[u8],
    at: &mut Position,
    count: u64,
) -> Result<(Vec<RaceEntry>, Vec<u64>), ReadStop>
    requires short { length text.now ≤ most_bytes }
    requires at { IsAt text.now at.old }
    ensures at { OnOk result (IsAt text.now at.new) }
    ensures read { IfOk result (λ blocks. ReadsBlocks text.now at.old at.new count blocks.1.items blocks.0.items) }
    ensures passes { OnOk result ((forms : List Form) → Passes text.now at.old at.new (block_forms 1 count ++ forms) forms) }
    ensures bad { (forms : List Form) → IfBad result (IsBadAt text.now at.old (block_forms 1 count ++ forms)) }
{
    let mut races = Vec::new(alloc);
    let mut numbers = Vec::new(alloc);
    let mut number = 0;
    while number < count {
        number += 1;
        let entry = read_block(text, at, number, &AsWritten, &mut numbers)?;
        match races.push(entry) {
            Ok(()) => {}
            Err(refused) => return Err(ReadStop::Memory(NoMemory::from(refused))),
        }
    }
    Ok((races, numbers))
}

/// Adds the entry of the place of this number, if it is one of the first that are kept.
fn add_place(
    places: &mut Vec<PlaceEntry>,
    most: u64,
    number: u64,
    entry: PlaceEntry,
) -> Result<(), NoMemory>
    ensures { (all : List PlaceEntry) → length all + 1 ≡ number → places.old.items ≡ take most all
        → OnOk result (places.new.items ≡ take most (all ++ entry ∷ [])) }
{
    if number <= most {
        places.push(entry)?;
    }
    Ok(())
}

/// Reads so many places, and keeps the entries of the first of them, at most so many.
fn read_place_entries(
    alloc: Global,
    text: &[u8],
    at: &mut Position,
    count: u64,
    most: u64,
) -> Result<Vec<PlaceEntry>, ReadStop>
    requires short { length text.now ≤ most_bytes }
    requires at { IsAt text.now at.old }
    ensures at { OnOk result (IsAt text.now at.new) }
    ensures read { IfOk result (λ places. KeepsFirst most (ReadsPlaces text.now at.old at.new count) places.items) }
    ensures passes { OnOk result ((forms : List Form) → Passes text.now at.old at.new (place_forms 1 count ++ forms) forms) }
    ensures bad { (forms : List Form) → IfBad result (IsBadAt text.now at.old (place_forms 1 count ++ forms)) }
{
    let mut places = Vec::new(alloc);
    let mut number = 0;
    while number < count {
        number += 1;
        let entry = read_place(text, at, number)?;
        add_place(&mut places, most, number, entry)?;
    }
    Ok(places)
}

/// What the first three lines of a report say.
#[derive(Clone, Copy)]
pub struct Head {
    /// Whether the report has places, as those of version 2 have.
    pub with_places: bool,
    /// The counts of its trace.
    pub counts: Counts,
    /// How many races it lists.
    pub races: u64,
}

/// Reads the first three lines. The text has at most 1,073,741,824 bytes.
///
/// # Errors
///
/// `BadLine` where one of them is bad.
pub fn read_head(text: &[u8], at: &mut Position) -> Result<Head, ReadStop>
    requires short { length text.now ≤ most_bytes }
    requires at { IsAt text.now at.old }
    ensures at { OnOk result (IsAt text.now at.new) }
    ensures read { IfOk result (λ head. ReadsHead text.now at.old at.new head) }
    ensures passes { IfOk result (λ head. (forms : List Form)
        → Passes text.now at.old at.new (Version ∷ forms) (places_form head.with_places ++ (block_forms 1 head.races ++ forms))) }
    ensures bad { (forms : List Form) → IfBad result (IsBadAt text.now at.old (Version ∷ forms)) }
{
    let Some(with_places) = read_version(text, at) else {
        return Err(ReadStop::BadLine(at.lines + 1));
    };
    let Some(counts) = read_counts(text, at) else {
        return Err(ReadStop::BadLine(at.lines + 1));
    };
    let Some(races) = read_race_count(text, at) else {
        return Err(ReadStop::BadLine(at.lines + 1));
    };
    Ok(Head {
        with_places,
        counts,
        races,
    })
}

/// Reads the lines of the places, where the report has them, and keeps the entries of the first places, at
/// most so many. The text has at most 1,073,741,824 bytes.
///
/// # Errors
///
/// `BadLine` where one of them is bad, and `Memory` where a growth was refused.
pub fn read_places(
    alloc: Global,
    text: &[u8],
    at: &mut Position,
    with_places: bool,
    most: u64,
) -> Result<Vec<PlaceEntry>, ReadStop>
    requires short { length text.now ≤ most_bytes }
    requires at { IsAt text.now at.old }
    ensures at { OnOk result (IsAt text.now at.new) }
    ensures read { IfOk result (λ places. KeepsFirst most (ReadsSection text.now at.old at.new with_places) places.items) }
    ensures passes { OnOk result ((forms : List Form) → Passes text.now at.old at.new (places_form with_places ++ forms) forms) }
    ensures bad { (forms : List Form) → IfBad result (IsBadAt text.now at.old (places_form with_places ++ forms)) }
{
    if !with_places {
        return Ok(Vec::new(alloc));
    }
    let Some(count) = read_place_count(text, at) else {
        return Err(ReadStop::BadLine(at.lines + 1));
    };
    let places = read_place_entries(alloc, text, at, count, most)?;
    Ok(places)
}

/// Reads the last line, after which nothing may stand. The text has at most 1,073,741,824 bytes.
///
/// # Errors
///
/// `BadLine` where it is bad, or something stands after it.
pub fn read_tail(text: &[u8], at: &mut Position) -> Result<(), ReadStop>
    requires short { length text.now ≤ most_bytes }
    requires at { IsAt text.now at.old }
    ensures bytes { OnOk result (bytes_from text.now at.old ≡ lines_text (codes "end" ∷ [])) }
    ensures lines { OnOk result (at.new.lines ≡ at.old.lines + 1) }
    ensures within { OnOk result (at.new.lines ≤ most_bytes) }
    ensures bad { IfBad result (IsBadAt text.now at.old (End ∷ [])) }
{
    if !read_end(text, at) {
        return Err(ReadStop::BadLine(at.lines + 1));
    }
    if at.start < text.len() {
        return Err(ReadStop::BadLine(at.lines + 1));
    }
    Ok(())
}

/// Reads the text of a report: its parts, and how many lines it has.
pub(crate) fn scan(alloc: Global, text: &[u8]) -> Result<(Parts, u64), ReadStop>
    requires short { length text.now ≤ most_bytes }
    ensures read { IfOk result (λ scanned. IsScanned text.now scanned.0 scanned.1) }
    ensures few { IfOk result (λ scanned. scanned.1 ≤ most_bytes) }
    ensures bad { IfBad result (IsBadFrom (Version ∷ (End ∷ [])) 0 text.now) }
{
    let mut at = Position { start: 0, lines: 0 };
    let head = read_head(text, &mut at)?;
    let places = read_places(alloc, text, &mut at, head.with_places, u64::MAX)?;
    let (races, numbers) = read_blocks(alloc, text, &mut at, head.races)?;
    read_tail(text, &mut at)?;
    let parts = Parts {
        counts: head.counts,
        with_places: head.with_places,
        places,
        races,
        numbers,
    };
    Ok((parts, at.lines))
}
