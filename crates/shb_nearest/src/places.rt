//! The places that are found, with the nearest race of each.

ghost use Rattle.std.specs.Prelude.{◌≡◌, [], IfOk, OnOk, map};
ghost use Rattle.std.specs.List.{IsDistinct};
ghost use Rattle.std.specs.Map.{keys_of, lookup};
ghost use Rattle.shb_nearest.specs.Places.{is_nearer, offered, offered_all, place_of, same_place};

use crate::access::{FoundAccess, FoundRace};
use indexmap::IndexMap;
use shb_io::NoMemory;
use shb_lines::HashKeys;
use std::alloc::Global;
use std::random::RandomSource;

/// What the races of a place have in common.
#[derive(Clone, Copy, PartialEq, Eq, Hash)]
pub struct Place {
    /// The location of the earlier access, and that of the later one.
    pub first: u32,
    pub second: u32,
    /// The variable, or 0 where variables tell no places apart.
    pub variable: u32,
}

/// Of each place that is known its race. The table is hashed under two random keys.
pub struct Places {
    pub races: IndexMap<Place, FoundRace, HashKeys>,
}

/// The place of a race.
fn place_of(by_variable: bool, race: FoundRace) -> Place
    ensures { result ≡ place_of by_variable race }
{
    Place {
        first: race.first.spot.location,
        second: race.second.spot.location,
        variable: if by_variable { race.variable } else { 0 },
    }
}

// By hand: a derived one stands in each function that drops it, with a step for each part of the table.
impl Drop for Places {
    fn drop(self) {
        let Places { races: _ } = self;
    }
}

impl Places {
    /// No place.
    pub fn new<R: RandomSource>(rt: &R, alloc: Global) -> Result<Places, NoMemory>
        ensures { IfOk result (λ places. places.races.entries ≡ []) }
    {
        Ok(Places {
            races: IndexMap::with_hasher(alloc, HashKeys::new(rt)?),
        })
    }

    /// Whether a race is nearer than what is known of its place: the place isn't known, or by a race with the same later
    /// access and a lesser earlier one.
    fn is_nearer(&self, place: Place, race: FoundRace) -> bool
        ensures { result ≡ is_nearer (lookup (same_place place) self.now.races.entries) race }
    {
        match self.races.get(&place) {
            Some(known) => {
                known.second.event == race.second.event && known.first.event < race.first.event
            }
            None => true,
        }
    }

    /// Takes a race where it is nearer than what is known of its place.
    fn offer(&mut self, by_variable: bool, race: FoundRace) -> Result<(), NoMemory>
        ensures { OnOk result (self.new.races.entries ≡ offered by_variable self.old.races.entries race) }
    {
        let place = place_of(by_variable, race);
        let nearer = self.is_nearer(place, race);
        if !nearer {
            return Ok(());
        }
        self.races.insert(place, race)?;
        Ok(())
    }

    /// Takes the races of an access of a variable with earlier ones, where they are nearer than what is known of their
    /// places.
    pub fn offer_all(
        &mut self,
        by_variable: bool,
        variable: u32,
        second: FoundAccess,
        rivals: &[FoundAccess],
    ) -> Result<(), NoMemory>
        ensures { OnOk result (self.new.races.entries ≡ offered_all by_variable variable second self.old.races.entries rivals.now) }
    {
        for first in rivals {
            self.offer(
                by_variable,
                FoundRace {
                    variable,
                    first: *first,
                    second,
                },
            )?;
        }
        Ok(())
    }

    /// No two races have one place. A law in the form of a call: it does nothing, and its callers may rely on
    /// what it states.
    pub fn are_different(&self)
        ensures { IsDistinct same_place (keys_of self.now.races.entries) }
    {
        let _ = self.races.len();
    }

    /// The races, one of each place.
    pub fn to_races(&self, alloc: Global) -> Result<Vec<FoundRace>, NoMemory>
        ensures { IfOk result (λ races. races.items ≡ map (λ e. e.1) self.now.races.entries) }
    {
        let mut races = Vec::with_capacity(alloc, self.races.len())?;
        for race in self.races.values() {
            races.push(*race)?;
        }
        Ok(races)
    }
}
