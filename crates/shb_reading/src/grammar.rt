//! Reads labels and numbers at the front of a text, and single lines of a report.
ghost use Rattle.std.specs.Prelude.{◌≡◌, ◌≢◌, ◌+◌, ◌<◌, ◌≤◌, ◌^◌, ◌++◌, Bool, ℕ, List, codes, decimal, length, IfOk, IsTrue, MatchBool, MatchOption, vec_len, ◌↔◌, true, [], take, drop, slice_index};
ghost use Rattle.std.specs.List.{AllByRecursion, list_all};
ghost use Rattle.shb_reading.specs.Lines.{IsLabelled, Stops};
ghost use Rattle.shb_format.specs.Value.{AreShown, HasNoLineFeed, IsRest, IsShown, counts_line, listed, numbers_line, place_line, race_numbers_line, version_line};
ghost use Rattle.shb_format.specs.declared.counts.Counts.{Counts};
ghost use Rattle.std.specs.Char.{is_ascii_digit};
ghost use Rattle.std.specs.Str.Parse.{digits_value};

use shb_format::Counts;

/// How many digits stand at the front of a text.
fn digits_in(text: &[u8]) -> usize
    ensures within { result ≤ length text.now }
    ensures digits { list_all is_ascii_digit (take result text.now) ≡ true }
    ensures ends { Stops is_ascii_digit (drop result text.now) }
{
    for (count, byte) in text.iter().enumerate() {
        if !byte.is_ascii_digit() {
            return count;
        }
    }
    text.len()
}

/// The digits at the front of a text, and what stands after them.
fn split_digits(text: &[u8]) -> (&[u8], &[u8])
    ensures whole { text.now ≡ result.0.now ++ result.1.now }
    ensures digits { list_all is_ascii_digit result.0.now ≡ true }
    ensures ends { Stops is_ascii_digit result.1.now }
{
    text.split_at(digits_in(text))
}

/// Whether digits write a number without leading zeros.
fn is_numeral(digits: &[u8]) -> bool
    ensures { IsTrue result ↔ ((0 < length digits.now) × (slice_index digits.now 0 ≡ 48 → length digits.now ≡ 1)) }
{
    match digits {
        [] => false,
        [_] => true,
        [first, ..] => *first != b'0',
    }
}

/// The number that digits write, where it has 64 bits.
fn value_of(digits: &[u8]) -> Option<u64>
    requires { list_all is_ascii_digit digits.now ≡ true }
    ensures { MatchOption result (2 ^ 64 ≤ digits_value 10 digits.now) (λ n. (n < 2 ^ 64) × (n ≡ digits_value 10 digits.now)) }
{
    let mut value: u64 = 0;
    for digit in digits {
        let more = value.checked_mul(10)?;
        let next = more.checked_add(u64::from(*digit - b'0'))?;
        value = next;
    }
    Some(value)
}

/// The number at the front of a text, and what stands after it.
fn number(text: &[u8]) -> Option<(u64, &[u8])>
    ensures { MatchOption result
        ((n : ℕ) (rest : List ℕ) → n < 2 ^ 64 → IsLabelled [] text.now n rest → ⊥)
        (λ r. (r.0 < 2 ^ 64) × IsLabelled [] text.now r.0 r.1.now) }
{
    let (digits, rest) = split_digits(text);
    if !is_numeral(digits) {
        return None;
    }
    let value = value_of(digits)?;
    Some((value, rest))
}

/// What stands after a label at the front of a text.
pub(crate) fn after_label<'t>(text: &'t [u8], label: &[u8]) -> Option<&'t [u8]>
    ensures { MatchOption result ((rest : List ℕ) → text.now ≢ label.now ++ rest) (λ r. text.now ≡ label.now ++ r.now) }
{
    text.strip_prefix(label)
}

/// The number after a label at the front of a text, and what stands after that number.
pub(crate) fn labelled<'t>(text: &'t [u8], label: &[u8]) -> Option<(u64, &'t [u8])>
    ensures { MatchOption result
        ((n : ℕ) (rest : List ℕ) → n < 2 ^ 64 → IsLabelled label.now text.now n rest → ⊥)
        (λ r. (r.0 < 2 ^ 64) × IsLabelled label.now text.now r.0 r.1.now) }
{
    let rest = after_label(text, label)?;
    number(rest)
}

/// Whether the report that begins with this line has places, as those of version 2 have.
pub(crate) fn version_in(line: &[u8]) -> Option<bool>
    ensures { MatchOption result
        ((with_places : Bool) → line.now ≢ version_line with_places)
        (λ with_places. line.now ≡ version_line with_places) }
{
    let version = after_label(line, b"shb-report ")?;
    match version {
        b"1" => Some(false),
        b"2" => Some(true),
        _ => None,
    }
}

/// Whether this is the last line of a report.
pub(crate) fn is_end(line: &[u8]) -> bool
    ensures { MatchBool result (line.now ≡ codes "end") (line.now ≢ codes "end") }
{
    match line {
        b"end" => true,
        _ => false,
    }
}

/// The number that is all of a text but for its label.
pub(crate) fn number_in(text: &[u8], label: &[u8]) -> Option<u64>
    ensures { MatchOption result
        ((n : ℕ) → IsShown n → text.now ≢ label.now ++ decimal n)
        (λ n. IsShown n × (text.now ≡ label.now ++ decimal n)) }
{
    let (number, rest) = labelled(text, label)?;
    if rest.is_empty() { Some(number) } else { None }
}

/// The counts in the second line of a report.
pub(crate) fn counts_in(line: &[u8]) -> Option<Counts>
    ensures { MatchOption result
        ((counts : Counts) → AreShown counts → line.now ≢ counts_line counts)
        (λ counts. AreShown counts × (line.now ≡ counts_line counts)) }
{
    let (events, after_events) = labelled(line, b"events ")?;
    let (threads, after_threads) = labelled(after_events, b" threads ")?;
    let (locks, after_locks) = labelled(after_threads, b" locks ")?;
    let variables = number_in(after_locks, b" variables ")?;
    Some(Counts {
        events,
        threads,
        locks,
        variables,
    })
}

/// What stands after a label and this number.
fn after_number<'t>(text: &'t [u8], label: &[u8], number: u64) -> Option<&'t [u8]>
    ensures { MatchOption result
        ((rest : List ℕ) → IsLabelled label.now text.now number rest → ⊥)
        (λ r. IsLabelled label.now text.now number r.now) }
{
    let (found, rest) = labelled(text, label)?;
    if found == number { Some(rest) } else { None }
}

/// How many races have the place of this number, in its first line.
pub(crate) fn place_in(line: &[u8], number: u64) -> Option<u64>
    ensures { MatchOption result
        ((n : ℕ) → IsShown n → line.now ≢ place_line number n)
        (λ n. IsShown n × (line.now ≡ place_line number n)) }
{
    let rest = after_number(line, b"place ", number)?;
    number_in(rest, b": ")
}

/// The numbers of the two events of a race of this number, in its first line.
pub(crate) fn race_in(line: &[u8], number: u64) -> Option<(u64, u64)>
    ensures { MatchOption result
        ((i : ℕ) (j : ℕ) → IsShown i → IsShown j → line.now ≢ race_numbers_line number i j)
        (λ pair. IsShown pair.0 × IsShown pair.1 × (line.now ≡ race_numbers_line number pair.0 pair.1)) }
{
    let numbers = after_number(line, b"race ", number)?;
    let (first, after_first) = labelled(numbers, b": ")?;
    let second = number_in(after_first, b" ")?;
    Some((first, second))
}

/// The bytes after a label, of which there are at least so many, and not more than a line may have.
pub(crate) fn named_in<'t>(line: &'t [u8], label: &[u8], least: usize) -> Option<&'t [u8]>
    requires { HasNoLineFeed line.now }
    ensures { MatchOption result
        ((bytes : List ℕ) → IsRest least bytes → line.now ≢ label.now ++ bytes)
        (λ r. IsRest least r.now × (line.now ≡ label.now ++ r.now)) }
{
    let bytes = after_label(line, label)?;
    if bytes.len() < least || bytes.len() > 4096 {
        return None;
    }
    Some(bytes)
}
