//! A set of numbers, a bit each.

ghost use Rattle.std.specs.Prelude.{◌≡◌, ◌^◌, [], ℕ, ◌<◌, ◌≤◌, ◌∷◌, length, slice_index, OnOk, OnErr, IfNone, IfSome, MatchOption, max};
ghost use Rattle.std.specs.FinSet as set;
ghost use Rattle.shb_numbers.specs.Numbers.{HasNone, IsLeast, marked};

use crate::bits::{lowest_only_in, with_bit};
use crate::words::{Words, word_at};
use shb_io::NoMemory;
use std::alloc::Global;
use std::marker::Model;

/// A set of numbers, a bit each up to its greatest. Numbers below 64 take no memory beside the value's own.
#[derive(Drop)]
pub struct Dense {
    first: u64,
    more: Vec<u64>,
}

impl Model for Dense {
    ghost use Rattle.std.specs.Prelude.{◌^◌, ◌<◌, ◌∷◌, length};
    ghost use Rattle.std.specs.Coded.{coded_ℕ};
    ghost use Rattle.std.specs.FinSet as set;
    ghost use Rattle.shb_numbers.specs.Numbers.{Numbers, marked};

    ghost Value = { Numbers };

    ghost coded = { set.code coded_ℕ };

    ghost view = { λ s. marked (s.first ∷ s.more.items) };

    ghost invariant = { λ s. length s.more.items < 2 ^ 26 };
}

impl Dense {
    /// The numbers below 64 that a word has bits for.
    pub fn of_word(alloc: Global, word: u64) -> Dense
        ensures { result ≡ marked (word ∷ []) }
    {
        Dense {
            first: word,
            more: Vec::new(alloc),
        }
    }

    /// Puts a number into the set. `NoMemory` where memory was refused; the set is then as it was.
    #[inline(always)]
    pub fn insert(&mut self, number: u32) -> Result<(), NoMemory>
        ensures inserted { OnOk result (self.new ≡ set.insert self.old number) }
        ensures kept { OnErr result (self.new ≡ self.old) }
    {
        let (at, bit) = ((number / 64) as usize, number % 64);
        if at == 0 {
            self.first = with_bit(self.first, bit);
            return Ok(());
        }
        make_room(&mut self.more, at)?;
        self.more[at - 1] = with_bit(self.more[at - 1], bit);
        Ok(())
    }

    /// Whether a number is in the set.
    #[inline(always)]
    pub fn contains(&self, number: u32) -> bool
        ensures { result ≡ set.contains self.now number }
    {
        let word = word_at(self.words(), (number / 64) as usize);
        (word >> (number % 64)) & 1 == 1
    }

    /// How many words the set has beside its first.
    #[inline(always)]
    pub fn words_more(&self) -> usize {
        self.more.len()
    }

    /// The least number, from `from` on and below `end`, that is in this set and not in the other. It
    /// looks at a word of each set for 64 numbers, and at none past this set's last word.
    #[inline(always)]
    pub fn first_not_in(&self, other: &Dense, from: u32, end: u32) -> Option<u32>
        ensures { MatchOption result
            (HasNone (set.difference self.now other.now) from end)
            (IsLeast (set.difference self.now other.now) from end) }
    {
        first_of_words(self.words(), other.words(), from, end)
    }

    #[inline(always)]
    fn words(&self) -> Words<'_>
        ensures words { marked (result.first ∷ result.more.now) ≡ self.now }
        ensures few { length result.more.now < 2 ^ 26 }
    {
        Words {
            first: self.first,
            more: self.more.as_slice(),
        }
    }
}

/// The same of the words of two sets.
#[inline(always)]
pub fn first_of_words(here: Words<'_>, there: Words<'_>, from: u32, end: u32) -> Option<u32>
    ensures none { IfNone result (HasNone
        (set.difference (marked (here.entry.first ∷ here.entry.more.now)) (marked (there.entry.first ∷ there.entry.more.now)))
        from end) }
    ensures some { IfSome result (IsLeast
        (set.difference (marked (here.entry.first ∷ here.entry.more.now)) (marked (there.entry.first ∷ there.entry.more.now)))
        from end) }
{
    let last = here.more.len().min((end / 64) as usize);
    let mut at = (from / 64) as usize;
    let mut low = from % 64;
    while at <= last {
        let bit = lowest_only_in(word_at(here, at), word_at(there, at), low);
        if bit < 64 {
            let number = at as u64 * 64 + u64::from(bit);
            return if number < u64::from(end) {
                Some(number as u32)
            } else {
                None
            };
        }
        low = 0;
        at += 1;
    }
    None
}

/// Makes as many words as `count`, with no numbers in the new ones.
#[inline(always)]
fn make_room(words: &mut Vec<u64>, count: usize) -> Result<(), NoMemory>
    ensures room { OnOk result (length words.new.items ≡ max (length words.old.items) count) }
    ensures same { OnOk result ((k : ℕ) → slice_index words.new.items k ≡ slice_index words.old.items k) }
    ensures kept { OnErr result (words.new.items ≡ words.old.items) }
{
    if words.len() < count {
        words.resize(count, 0)?;
    }
    Ok(())
}
