//! Reads the line of a schedule.
ghost use Rattle.std.specs.Prelude.{◌≡◌, ◌≢◌, ◌+◌, ◌<◌, ◌≤◌, ◌++◌, ◌∷◌, [], ℕ, List, length, IfOk, MatchBool, MatchOption, OnOk, map, take};
ghost use Rattle.std.specs.List.{AllByRecursion};
ghost use Rattle.shb_reading.specs.Lines.{AddsShown};
ghost use Rattle.shb_format.specs.Value.{IsShown, listed, numbers_line};

use crate::grammar::{after_label, labelled};
use crate::keeping::Keeping;
use shb_io::NoMemory;

/// Adds what is kept of a number that stands after so many others.
fn add_number<K: Keeping>(
    keeping: &K,
    before: u64,
    number: u64,
    numbers: &mut Vec<K::Kept>,
) -> Result<(), NoMemory>
    ensures { (old : List K.Kept) (ns : List ℕ) → length ns ≡ before
        → numbers.old.items ≡ old ++ take (K.most_kept keeping.now) (map (K.kept keeping.now) ns)
        → OnOk result (numbers.new.items ≡ old ++ take (K.most_kept keeping.now) (map (K.kept keeping.now) (ns ++ number ∷ []))) }
{
    if before < keeping.most() {
        numbers.push(keeping.keep(number))?;
    }
    Ok(())
}

/// Adds what is kept of the numbers of a text, each of which stands after a space, and answers how many they
/// are, or nothing where the text has something else.
fn add_numbers<K: Keeping>(
    text: &[u8],
    keeping: &K,
    numbers: &mut Vec<K::Kept>,
) -> Result<Option<u64>, NoMemory>
    ensures { IfOk result (λ found. MatchOption found
        ((ns : List ℕ) → AllByRecursion IsShown ns → text.now ≢ listed ns)
        (λ count. (ns : List ℕ) × AddsShown (K.kept keeping.now) (K.most_kept keeping.now) numbers.old.items numbers.new.items ns
        × (text.now ≡ listed ns) × (length ns ≡ count))) }
{
    let mut rest = text;
    let mut count: u64 = 0;
    while !rest.is_empty() {
        let Some((number, after)) = labelled(rest, b" ") else {
            return Ok(None);
        };
        add_number(keeping, count, number, numbers)?;
        count += 1;
        rest = after;
    }
    Ok(Some(count))
}

/// Adds what is kept of the numbers of a schedule's line, and says whether the line is one.
pub(crate) fn add_schedule<K: Keeping>(
    line: &[u8],
    keeping: &K,
    numbers: &mut Vec<K::Kept>,
) -> Result<bool, NoMemory>
    ensures { IfOk result (λ good. MatchBool good
        ((ns : List ℕ) × AddsShown (K.kept keeping.now) (K.most_kept keeping.now) numbers.old.items numbers.new.items ns
        × IsShown (length ns) × (line.now ≡ numbers_line ns))
        ((ns : List ℕ) → AllByRecursion IsShown ns → IsShown (length ns) → line.now ≢ numbers_line ns)) }
{
    let Some((count, after_count)) = labelled(line, b"schedule ") else {
        return Ok(false);
    };
    let Some(text) = after_label(after_count, b":") else {
        return Ok(false);
    };
    let Some(read) = add_numbers(text, keeping, numbers)? else {
        return Ok(false);
    };
    Ok(read == count)
}
