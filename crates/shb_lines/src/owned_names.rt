//! Names, numbered in order of first appearance, and looked up by their hashes.
ghost use Rattle.std.specs.Prelude.{◌≡◌, ◌<◌, ◌^◌, [], ℕ, List, false, true, Some, length, slice_get, IfNone, IfOk, IfSome, OnOk};
ghost use Rattle.std.specs.Option.{option_copied};
ghost use Rattle.std.specs.List.{list_any};
ghost use Rattle.std.specs.Str.{bytes_eq};
ghost use Rattle.shb_lines.specs.declared.hashing.HashKeys.{HashKeys};
ghost use Rattle.shb_lines.specs.text.Hashing.{AreHashed, hash_in};
ghost use Rattle.shb_lines.specs.text.Text.{with_name};

use crate::growing::item_or;
use crate::hashing::HashKeys;
use crate::names::Names;
use indexmap::IndexSet;
use shb_io::NoMemory;
use std::alloc::Global;
use std::marker::Model;
use std::random::RandomSource;

/// How many guesses are kept.
const GUESSES: u64 = 1 << 13;

/// The names of one name space, in order of first appearance. Contracts see it as the list of the names.
#[derive(Drop)]
pub struct OwnedNames {
    names: Names,
    /// The hashes of the names, each at its name's number unless two names have one hash.
    hashes: IndexSet<u64>,
    keys: HashKeys,
    /// By the hash of a name, the number of the last one that was looked up by it.
    guesses: Vec<u32>,
}

impl Model for OwnedNames {
    ghost use Rattle.std.specs.Prelude.{ℕ, List};
    ghost use Rattle.shb_lines.specs.text.Hashing.{AreHashed};

    ghost Value = { List (List ℕ) };

    ghost view = { λ n. n.names };

    ghost invariant = { λ n. AreHashed n.keys n.hashes.keys n.names };
}

/// The number of a name, if it has one, which mostly is that of its hash. Of names that have one hash the first has its
/// number, and the others are found by a look at all names; under secret keys none are known.
fn found(names: &Names, number: usize, name: &[u8]) -> Option<usize>
    ensures some { IfSome result (λ number. slice_get names.now number ≡ Some name.now) }
    ensures none { IfNone result (list_any (bytes_eq name.now) names.now ≡ false) }
{
    if names.is_named(number, name) {
        Some(number)
    } else {
        names.position(name)
    }
}

/// Keeps a number as the guess for a hash.
fn guess(guesses: &mut [u32], hash: u64, number: usize) {
    if let Some(guess) = guesses.get_mut((hash % GUESSES) as usize) {
        *guess = (number & 0xFFFF_FFFF) as u32;
    }
}

/// The number of a name with this hash, by a look-up. A name that is new is put last, and copied.
#[tactic(auto, using(crate::proofs::text::NameLemmas::known_stays))]
#[inline(never)]
fn looked_up(
    names: &mut Names,
    hashes: &mut IndexSet<u64>,
    hash: u64,
    name: &[u8],
) -> Result<usize, NoMemory>
    ensures hashed { (keys : HashKeys) → hash ≡ hash_in keys name.now → AreHashed keys hashes.old.keys names.old → AreHashed keys hashes.new.keys names.new }
    ensures names { (keys : HashKeys) → hash ≡ hash_in keys name.now → AreHashed keys hashes.old.keys names.old → OnOk result (names.new ≡ with_name names.old name.now) }
    ensures number { IfOk result (λ number. slice_get names.new number ≡ Some name.now) }
{
    let (first, is_new) = hashes.insert_full(hash)?;
    if !is_new {
        if let Some(number) = found(&*names, first, name) {
            return Ok(number);
        }
    }
    let number = names.len();
    names.push(name)?;
    Ok(number)
}

impl OwnedNames {
    /// No names yet.
    pub fn new<R: RandomSource>(rt: &R, alloc: Global) -> Result<OwnedNames, NoMemory>
        ensures { IfOk result (λ names. names ≡ []) }
    {
        let mut guesses = Vec::new(alloc);
        guesses.resize(GUESSES as usize, 0)?;
        Ok(OwnedNames {
            names: Names::new(alloc),
            hashes: IndexSet::new(alloc),
            keys: HashKeys::new(rt)?,
            guesses,
        })
    }

    /// How many names there are.
    pub fn len(&self) -> usize
        ensures len { result ≡ length self.now }
        ensures small { result < 2 ^ 63 }
    {
        self.names.len()
    }

    /// The names, without what they are looked up by.
    pub(crate) fn into_names(self) -> Names
        ensures { result ≡ self }
    {
        let OwnedNames {
            names,
            hashes: _,
            keys: _,
            guesses: _,
        } = self;
        names
    }

    /// Whether the name has a number.
    pub(crate) fn contains(&self, name: &[u8]) -> bool
        ensures { result ≡ list_any (bytes_eq name.now) self.now }
    {
        match self.hashes.get_index_of(&self.keys.hash_of(name)) {
            Some(number) => found(&self.names, number, name).is_some(),
            None => false,
        }
    }

    /// The name of this number. There must be one.
    pub fn name(&self, number: u32) -> &[u8]
        requires { number < length self.now }
        ensures { slice_get self.now number ≡ Some result.now }
    {
        self.names.name(number as usize)
    }

    /// The name of a number, if there is one.
    pub fn known(&self, number: u32) -> Option<&[u8]>
        ensures { option_copied result ≡ slice_get self.now number }
    {
        self.names.get(number as usize)
    }

    /// The number of a name, by the guess for its hash or by a look-up. A name that is new is put last, and copied.
    #[tactic(auto, using(crate::proofs::text::NameLemmas::known_stays))]
    pub fn number_of(&mut self, name: &[u8]) -> Result<u32, NoMemory>
        requires room { length self.old < 2 ^ 32 }
        ensures names { OnOk result (self.new ≡ with_name self.old name.now) }
        ensures number { IfOk result (λ number. slice_get self.new number ≡ Some name.now) }
    {
        let hash = self.keys.hash_of(name);
        let guessed = item_or(self.guesses.as_slice(), (hash % GUESSES) as u32, 0);
        if self.names.is_named(guessed as usize, name) {
            return Ok(guessed);
        }
        let (names, hashes) = (&mut self.names, &mut self.hashes);
        let number = looked_up(names, hashes, hash, name)?;
        guess(self.guesses.as_mut_slice(), hash, number);
        Ok(number as u32)
    }

    /// The number of a name, which may be known.
    #[tactic(auto, using(crate::proofs::text::NameLemmas::known_stays))]
    pub fn known_or_number_of(&mut self, known: Option<u32>, name: &[u8]) -> Result<u32, NoMemory>
        requires room { length self.old < 2 ^ 32 }
        requires known { IfSome known (λ number. slice_get self.old number ≡ Some name.now) }
        ensures names { OnOk result (self.new ≡ with_name self.old name.now) }
        ensures number { IfOk result (λ number. slice_get self.new number ≡ Some name.now) }
    {
        match known {
            Some(number) => Ok(number),
            None => self.number_of(name),
        }
    }
}
