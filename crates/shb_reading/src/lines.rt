//! Reads the parts of a report.
ghost use Rattle.std.specs.Prelude.{◌≡◌, ◌≢◌, ◌+◌, ◌<◌, ◌≤◌, ◌++◌, ◌∷◌, [], Bool, ℕ, List, codes, decimal, length, IfOk, IsTrue, MatchBool, MatchOption, OnOk, if◌then◌else◌, vec_len};
ghost use Rattle.std.specs.List.{AllByRecursion};
ghost use Rattle.shb_lines.specs.text.Limits.{most_bytes};
ghost use Rattle.shb_reading.specs.Lines.{AddsShown};
ghost use Rattle.shb_format.specs.Value.{AreShown, IsRest, IsShown, counts_line, numbers_line, place_line, places_line, race_numbers_line, races_line, version_line};
ghost use Rattle.shb_reading.specs.Forms.{Form, Label, label_bytes, least_after, Version, CountsForm, Races, Places, PlaceForm, Race, Named, Schedule, End};
ghost use Rattle.shb_reading.specs.Parts.{IsPlaceIn, IsRaceIn, IsSpanIn, block_at, bytes_at, place_in_text};
ghost use Rattle.shb_reading.specs.Lines.{BeginsWithLine, IfBad, IsAt, IsBadAt, Lacks, Passes, TakesLine, bytes_from};

use crate::grammar::{counts_in, is_end, named_in, number_in, place_in, race_in, version_in};
use crate::keeping::Keeping;
use crate::parts::{PlaceEntry, RaceEntry, Span};
use crate::position::{Position, next_line};
use crate::schedule::add_schedule;
use shb_format::Counts;
use shb_io::NoMemory;

/// Reads the line of the version, and says whether the report has places.
pub(crate) fn read_version(text: &[u8], at: &mut Position) -> Option<bool>
    requires short { length text.now ≤ most_bytes }
    requires at { IsAt text.now at.old }
    ensures { MatchOption result
        ((at.new ≡ at.old) × Lacks Version (bytes_from text.now at.old))
        (λ with_places. TakesLine text.now at.old at.new (version_line with_places)) }
{
    let line = next_line(text, *at)?;
    let with_places = version_in(line)?;
    *at = at.after(line);
    Some(with_places)
}

/// Reads the line of the counts.
pub(crate) fn read_counts(text: &[u8], at: &mut Position) -> Option<Counts>
    requires short { length text.now ≤ most_bytes }
    requires at { IsAt text.now at.old }
    ensures { MatchOption result
        ((at.new ≡ at.old) × Lacks CountsForm (bytes_from text.now at.old))
        (λ counts. TakesLine text.now at.old at.new (counts_line counts) × AreShown counts) }
{
    let line = next_line(text, *at)?;
    let counts = counts_in(line)?;
    *at = at.after(line);
    Some(counts)
}

/// Reads the line that says how many races there are.
pub(crate) fn read_race_count(text: &[u8], at: &mut Position) -> Option<u64>
    requires short { length text.now ≤ most_bytes }
    requires at { IsAt text.now at.old }
    ensures { MatchOption result
        ((at.new ≡ at.old) × ((with_places : Bool) → Lacks (Races with_places) (bytes_from text.now at.old)))
        (λ n. TakesLine text.now at.old at.new (races_line n) × IsShown n) }
{
    let line = next_line(text, *at)?;
    let count = number_in(line, b"races ")?;
    *at = at.after(line);
    Some(count)
}

/// Reads the line that says how many places there are.
pub(crate) fn read_place_count(text: &[u8], at: &mut Position) -> Option<u64>
    requires short { length text.now ≤ most_bytes }
    requires at { IsAt text.now at.old }
    ensures { MatchOption result
        ((at.new ≡ at.old) × Lacks Places (bytes_from text.now at.old))
        (λ n. TakesLine text.now at.old at.new (places_line n) × IsShown n) }
{
    let line = next_line(text, *at)?;
    let count = number_in(line, b"places ")?;
    *at = at.after(line);
    Some(count)
}

/// Reads the first line of the place of this number: how many races have it.
pub(crate) fn read_place_line(text: &[u8], at: &mut Position, number: u64) -> Option<u64>
    requires short { length text.now ≤ most_bytes }
    requires at { IsAt text.now at.old }
    ensures { MatchOption result
        ((at.new ≡ at.old) × Lacks (PlaceForm number) (bytes_from text.now at.old))
        (λ n. TakesLine text.now at.old at.new (place_line number n) × IsShown n) }
{
    let line = next_line(text, *at)?;
    let count = place_in(line, number)?;
    *at = at.after(line);
    Some(count)
}

/// Reads the first line of the block of this number: the numbers of the two events.
pub(crate) fn read_race_line(text: &[u8], at: &mut Position, number: u64) -> Option<(u64, u64)>
    requires short { length text.now ≤ most_bytes }
    requires at { IsAt text.now at.old }
    ensures { MatchOption result
        ((at.new ≡ at.old) × Lacks (Race number) (bytes_from text.now at.old))
        (λ pair. TakesLine text.now at.old at.new (race_numbers_line number pair.0 pair.1) × IsShown pair.0 × IsShown pair.1) }
{
    let line = next_line(text, *at)?;
    let pair = race_in(line, number)?;
    *at = at.after(line);
    Some(pair)
}

/// Reads a line of a label and at least so many bytes, and answers where those bytes stand.
pub(crate) fn read_named(text: &[u8], at: &mut Position, label: &[u8], least: usize) -> Option<Span>
    requires short { length text.now ≤ most_bytes }
    requires at { IsAt text.now at.old }
    ensures { MatchOption result
        ((at.new ≡ at.old)
        × ((l : Label) → label.now ≡ label_bytes l → least ≡ least_after l → Lacks (Named l) (bytes_from text.now at.old)))
        (λ span. TakesLine text.now at.old at.new (label.now ++ bytes_at text.now span)
        × IsRest least (bytes_at text.now span) × IsSpanIn text.now span) }
{
    let line = next_line(text, *at)?;
    let bytes = named_in(line, label, least)?;
    let span = Span {
        start: (at.start + label.len()) as u32,
        len: bytes.len() as u32,
    };
    *at = at.after(line);
    Some(span)
}

/// Reads the line of a schedule, adds what is kept of its numbers, and says whether there is such a line.
pub(crate) fn read_schedule<K: Keeping>(
    text: &[u8],
    at: &mut Position,
    keeping: &K,
    numbers: &mut Vec<K::Kept>,
) -> Result<bool, NoMemory>
    requires short { length text.now ≤ most_bytes }
    requires at { IsAt text.now at.old }
    ensures { IfOk result (λ found. MatchBool found
        ((ns : List ℕ) × AddsShown (K.kept keeping.now) (K.most_kept keeping.now) numbers.old.items numbers.new.items ns
        × IsShown (length ns) × TakesLine text.now at.old at.new (numbers_line ns))
        ((at.new ≡ at.old) × Lacks Schedule (bytes_from text.now at.old))) }
{
    let Some(line) = next_line(text, *at) else {
        return Ok(false);
    };
    if !add_schedule(line, keeping, numbers)? {
        return Ok(false);
    }
    *at = at.after(line);
    Ok(true)
}

/// Reads the last line, and says whether it is there.
pub(crate) fn read_end(text: &[u8], at: &mut Position) -> bool
    requires short { length text.now ≤ most_bytes }
    requires at { IsAt text.now at.old }
    ensures { MatchBool result
        (TakesLine text.now at.old at.new (codes "end"))
        ((at.new ≡ at.old) × Lacks End (bytes_from text.now at.old)) }
{
    let Some(line) = next_line(text, *at) else {
        return false;
    };
    if !is_end(line) {
        return false;
    }
    *at = at.after(line);
    true
}
