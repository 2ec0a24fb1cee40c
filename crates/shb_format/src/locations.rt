//! Numbers of locations, in order of first appearance.
ghost use Rattle.std.specs.Prelude.{◌≡◌, [], Some, length, slice_get, IfOk, IfSome, OnOk};
ghost use Rattle.std.specs.List.{IsDistinct};
ghost use Rattle.std.specs.Str.{bytes_eq};
ghost use Rattle.indexmap.specs.IndexSet.{insert_key};

use indexmap::IndexSet;
use shb_io::NoMemory;
use shb_lines::{HashKeys, TextKey};
use std::alloc::Global;
use std::marker::Model;
use std::random::RandomSource;

/// Different locations, each with its index as its number: two texts that were numbered have equal numbers
/// exactly if they are equal. They are hashed as names are, under two random keys, so that nobody can choose
/// locations that meet. Contracts see the locations by number.
pub struct Locations<'t> {
    known: IndexSet<TextKey<'t>, HashKeys>,
    /// By the ends of a location, the number of the last one that had them: a guess, which is compared.
    guesses: Vec<usize>,
}

// By hand: a derived one stands in each function that drops them, with a step for each part of the set.
impl Drop for Locations<'_> {
    fn drop(self) {
        let Locations {
            known: _,
            guesses: _,
        } = self;
    }
}

impl<'t> Model for Locations<'t> {
    ghost use Rattle.std.specs.Prelude.{ℕ, List, map};
    ghost use Rattle.std.specs.List.{IsDistinct};
    ghost use Rattle.std.specs.Str.{bytes_eq};

    ghost Value = { List (List ℕ) };

    ghost view = { λ l. map (λ location. location.bytes.now) l.known.keys };

    ghost invariant = { λ l. IsDistinct bytes_eq (map (λ location. location.bytes.now) l.known.keys) };
}

/// How many guesses are kept.
const GUESSES: usize = 1024;

/// Where the guess for a location is kept.
fn place_of(location: &[u8]) -> usize {
    let ends = match location {
        [first, .., before, last] => {
            usize::from(*first) * 5 + usize::from(*before) * 16 + usize::from(*last)
        }
        _ => 0,
    };
    (ends + location.len() % 16 * 64) % GUESSES
}

impl<'t> Locations<'t> {
    /// No locations yet.
    ///
    /// # Errors
    ///
    /// `NoMemory` where there were no random numbers for the table.
    pub fn new<R: RandomSource>(rt: &R, alloc: Global) -> Result<Locations<'t>, NoMemory>
        ensures { IfOk result (λ locations. locations ≡ []) }
    {
        let mut guesses = Vec::new(alloc);
        guesses.resize(GUESSES, 0)?;
        Ok(Locations {
            known: IndexSet::with_hasher(alloc, HashKeys::new(rt)?),
            guesses,
        })
    }

    /// The number of a location. One that is new is put last, and the numbers of the others stay.
    ///
    /// # Errors
    ///
    /// `NoMemory` where a growth was refused.
    pub fn number_of(&mut self, location: &'t [u8]) -> Result<usize, NoMemory>
        ensures known { OnOk result (self.new ≡ insert_key bytes_eq self.old location.now) }
        ensures number { IfOk result (λ number. slice_get self.new number ≡ Some location.now) }
    {
        let place = place_of(location);
        if let Some(number) = self.guessed(place, location) {
            return Ok(number);
        }
        let (number, _) = self.known.insert_full(TextKey { bytes: location })?;
        if let Some(guess) = self.guesses.get_mut(place) {
            *guess = number;
        }
        Ok(number)
    }

    /// The number of a location, if the guess at this place is right.
    fn guessed(&self, place: usize, location: &[u8]) -> Option<usize>
        ensures { IfSome result (λ number. slice_get self.now number ≡ Some location.now) }
    {
        let number = *self.guesses.get(place)?;
        let known = self.known.get_index(number)?;
        if known.bytes == location {
            Some(number)
        } else {
            None
        }
    }

    /// How many locations have numbers.
    pub fn len(&self) -> usize
        ensures { result ≡ length self.now }
    {
        self.known.len()
    }

    /// Different numbers have different locations. A law in the form of a call: it does nothing, and its
    /// callers may rely on what it states.
    pub fn are_different(&self)
        ensures { IsDistinct bytes_eq self.now }
    {
        let _ = &self.known;
    }
}
