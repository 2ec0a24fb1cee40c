//! A set of numbers of which some are 64 or more, a bit each where they are near.

ghost use Rattle.std.specs.Prelude.{◌≡◌, ◌+◌, ◌<◌, ◌≤◌, ◌∷◌, ◌≢◌, [], ℕ, true, MatchOption, OnErr, OnOk, length, slice_index};
ghost use Rattle.std.specs.FinSet as set;
ghost use Rattle.std.specs.List.Sorted.{IsStrictlyIncreasing};
ghost use Rattle.shb_numbers.specs.Numbers.{HasNone, IsLeast, both, has_key, marked};

use crate::dense::Dense;
use shb_io::NoMemory;
use std::alloc::Global;
use std::marker::Model;

/// So many words, of 64 numbers each, a number may cost.
const MOST_WORDS: usize = 16;

/// A set of numbers. Near numbers have a bit each, up to the greatest of them; those further up are kept one by one, until
/// they are so many that bits take less. So a set takes at most some hundred bytes a number.
pub struct LargeSet {
    near: Dense,
    /// In their order.
    far: Vec<u32>,
}

impl Model for LargeSet {
    ghost use Rattle.std.specs.Coded.{coded_ℕ};
    ghost use Rattle.std.specs.FinSet as set;
    ghost use Rattle.std.specs.List.Sorted.{IsStrictlyIncreasing};
    ghost use Rattle.shb_numbers.specs.Numbers.{Numbers, both};

    ghost Value = { Numbers };

    ghost coded = { set.code coded_ℕ };

    ghost view = { λ s. both s.near s.far.items };

    ghost invariant = { λ s. IsStrictlyIncreasing s.far.items };
}

// By hand: a derived one stands in each function that drops it, with a step for each part.
impl Drop for LargeSet {
    fn drop(self) {
        let LargeSet { near: _, far: _ } = self;
    }
}

impl LargeSet {
    /// The numbers below 64 that a word has bits for.
    pub fn of_word(alloc: Global, word: u64) -> LargeSet
        ensures { result ≡ marked (word ∷ []) }
    {
        LargeSet {
            near: Dense::of_word(alloc, word),
            far: Vec::new(alloc),
        }
    }

    /// Puts a number into the set. `NoMemory` where memory was refused; the set is then as it was.
    #[inline(always)]
    pub fn insert(&mut self, number: u32) -> Result<(), NoMemory>
        ensures inserted { OnOk result (self.new ≡ set.insert self.old number) }
        ensures kept { OnErr result (self.new ≡ self.old) }
    {
        if (number / 64) as usize <= self.near.words_more() {
            return self.near.insert(number);
        }
        insert_past(&mut self.near, &mut self.far, number)
    }

    /// Whether a number is in the set.
    pub fn contains(&self, number: u32) -> bool
        ensures { result ≡ set.contains self.now number }
    {
        if self.near.contains(number) {
            return true;
        }
        has(self.far.as_slice(), number)
    }

    /// The least number, from `from` on and below `end`, that is in this set and not in the other. It
    /// looks at a word of each set for 64 numbers, and at none past this set's last word.
    #[inline(always)]
    pub fn first_not_in(&self, other: &LargeSet, from: u32, end: u32) -> Option<u32>
        ensures { MatchOption result
            (HasNone (set.difference self.now other.now) from end)
            (IsLeast (set.difference self.now other.now) from end) }
    {
        let (far, there) = (self.far.as_slice(), other.far.as_slice());
        if far.len() == 0 {
            if there.len() == 0 {
                return self.near.first_not_in(&other.near, from, end);
            }
        }
        self.first_of_both(other, from, end)
    }

    /// The same where some numbers are far.
    #[inline(never)]
    fn first_of_both(&self, other: &LargeSet, from: u32, end: u32) -> Option<u32>
        ensures { MatchOption result
            (HasNone (set.difference self.now other.now) from end)
            (IsLeast (set.difference self.now other.now) from end) }
    {
        let near = near_not_in(&self.near, other, from, end);
        let until = near.unwrap_or(end);
        far_not_in(self.far.as_slice(), other, from, until).or(near)
    }
}

/// Whether a number is one of some in their order.
fn has(numbers: &[u32], number: u32) -> bool
    requires rising { IsStrictlyIncreasing numbers.now }
    ensures { result ≡ has_key numbers.now number }
{
    numbers.binary_search(&number).is_ok()
}

/// Puts a number into those that are far.
fn insert_far(far: &mut Vec<u32>, number: u32) -> Result<(), NoMemory>
    requires rising { IsStrictlyIncreasing far.old.items }
    ensures rises { IsStrictlyIncreasing far.new.items }
    ensures there { OnOk result (has_key far.new.items number ≡ true) }
    ensures others { OnOk result ((q : ℕ) → q ≢ number → has_key far.new.items q ≡ has_key far.old.items q) }
    ensures kept { OnErr result (far.new.items ≡ far.old.items) }
{
    match far.binary_search(&number) {
        Ok(_) => Ok(()),
        Err(at) => {
            far.insert(at, number)?;
            Ok(())
        }
    }
}

/// Puts a number past the near ones into the set.
fn insert_past(near: &mut Dense, far: &mut Vec<u32>, number: u32) -> Result<(), NoMemory>
    requires rising { IsStrictlyIncreasing far.old.items }
    ensures rises { IsStrictlyIncreasing far.new.items }
    ensures inserted { OnOk result (both near.new far.new.items ≡ set.insert (both near.old far.old.items) number) }
    ensures kept { OnErr result (both near.new far.new.items ≡ both near.old far.old.items) }
{
    if are_too_few(near, far.as_slice(), number) {
        return insert_far(far, number);
    }
    bring_near(near, far)?;
    near.insert(number)
}

/// Whether a bit for each number up to the last would take more than [`MOST_WORDS`] for each that is far. Only what takes
/// less time and memory depends on it.
fn are_too_few(near: &Dense, far: &[u32], number: u32) -> bool {
    let last = far.last().copied().unwrap_or(0).max(number);
    let words = (last as usize / 64).saturating_sub(near.words_more());
    words > far.len().saturating_add(1).saturating_mul(MOST_WORDS)
}

/// Gives each far number a bit.
fn bring_near(near: &mut Dense, far: &mut Vec<u32>) -> Result<(), NoMemory>
    requires rising { IsStrictlyIncreasing far.old.items }
    ensures rises { IsStrictlyIncreasing far.new.items }
    ensures same { both near.new far.new.items ≡ both near.old far.old.items }
{
    for at in 0..far.len() {
        near.insert(far[at])?;
    }
    far.clear();
    Ok(())
}

/// The least of the near numbers, from `from` on and below `end`, that isn't in a set.
fn near_not_in(near: &Dense, other: &LargeSet, from: u32, end: u32) -> Option<u32>
    ensures { MatchOption result
        (HasNone (set.difference near.now other.now) from end)
        (IsLeast (set.difference near.now other.now) from end) }
{
    let mut at = from;
    while at < end {
        let Some(k) = near.first_not_in(&other.near, at, end) else {
            return None;
        };
        let far = has(other.far.as_slice(), k);
        if !far {
            return Some(k);
        }
        at = k + 1;
    }
    None
}

/// The index, from `low` on, of the first number that isn't below `from`.
fn index_from(numbers: &[u32], low: usize, from: u32) -> usize
    requires { (k : ℕ) → k < low → slice_index numbers.now k < from }
    ensures below { (k : ℕ) → k < result → slice_index numbers.now k < from }
    ensures from { result < length numbers.now → from ≤ slice_index numbers.now result }
{
    let mut at = low;
    while at < numbers.len() {
        if numbers[at] >= from {
            return at;
        }
        at += 1;
    }
    at
}

/// Whether a number is one of some in their order, where it would be at an index.
fn is_at(numbers: &[u32], at: usize, number: u32) -> bool
    requires rising { IsStrictlyIncreasing numbers.now }
    requires below { (k : ℕ) → k < at → slice_index numbers.now k < number }
    requires from { at < length numbers.now → number ≤ slice_index numbers.now at }
    ensures { result ≡ has_key numbers.now number }
{
    at < numbers.len() && numbers[at] == number
}

/// The least of the far numbers, from `from` on and below `end`, that isn't in a set: one pass over the far numbers of both.
fn far_not_in(far: &[u32], other: &LargeSet, from: u32, end: u32) -> Option<u32>
    requires rising { IsStrictlyIncreasing far.now }
    ensures { MatchOption result
        (HasNone (set.difference (set.from_list far.now) other.now) from end)
        (IsLeast (set.difference (set.from_list far.now) other.now) from end) }
{
    let there = other.far.as_slice();
    let mut passed = 0;
    for at in index_from(far, 0, from)..far.len() {
        let number = far[at];
        if number >= end {
            return None;
        }
        passed = index_from(there, passed, number);
        let found = is_at(there, passed, number);
        if !found {
            let near = other.near.contains(number);
            if !near {
                return Some(number);
            }
        }
    }
    None
}
