//! Sums of races by place.

ghost use Rattle.std.specs.Prelude.{◌≡◌, ℕ, [], ◌∷◌, ◌++◌, IfOk, IfSome, List, OnOk, false, true};
ghost use Rattle.shb_lines.specs.declared.event.Event.{Event};
ghost use Rattle.shb_lines.specs.declared.event.Pair.{Pair};
ghost use Rattle.shb_counts.specs.Numbered.{key_in};
ghost use Rattle.shb_counts.specs.PlaceSums.{AreSums};
ghost use Rattle.shb_counts.specs.Sums.{AreSumsOf, IsNotAfter, IsPlaceSum, sum_of};
ghost use Rattle.shb_counts.specs.SumTables.{HasJoined, IsAlike, IsJoined, IsNoLater};

use shb_io::NoMemory;
use std::alloc::Global;

/// How many races two locations have, by their numbers, and the first one of these races. Sums are ordered by place, then
/// by that race.
#[derive(Clone, Copy, PartialEq, Eq, PartialOrd, Ord)]
pub struct PlaceSum {
    pub first: u32,
    pub second: u32,
    pub variable: u32,
    pub later: u32,
    pub earlier: u32,
    pub count: u64,
}

/// Sums to which races are added. Of each number of an earlier location it finds the newest sum again, so races that come
/// by their later location and variable are one sum for each place.
#[derive(Drop)]
pub struct SumTable {
    /// By the number of an earlier location, where its newest sum may stand.
    slots: Vec<usize>,
    pub sums: Vec<PlaceSum>,
}

/// Whether two sums are of one place and variable.
fn are_alike(one: PlaceSum, other: PlaceSum) -> bool
    ensures { result ≡ true → IsAlike one other }
{
    one.first == other.first && one.second == other.second && one.variable == other.variable
}

/// Whether the race of one sum stands before that of another of its variable.
fn stands_before(one: PlaceSum, other: PlaceSum) -> bool
    ensures before { result ≡ true → IsNoLater one other }
    ensures after { result ≡ false → IsNoLater other one }
{
    one.later < other.later || (one.later == other.later && one.earlier < other.earlier)
}

/// Two sums of one place as one, if their number fits.
fn joined(known: PlaceSum, sum: PlaceSum) -> Option<PlaceSum>
    ensures { IfSome result (IsJoined known sum) }
{
    if !are_alike(known, sum) {
        return None;
    }
    let count = known.count.checked_add(sum.count)?;
    if stands_before(sum, known) {
        return Some(PlaceSum { count, ..sum });
    }
    Some(PlaceSum { count, ..known })
}

/// Adds a sum to the one that may stand at a slot, if both are of one place, and says whether it did.
fn join(sums: &mut Vec<PlaceSum>, slot: usize, sum: PlaceSum) -> bool
    ensures joined { result ≡ true → HasJoined sum sums.old.items sums.new.items }
    ensures kept { result ≡ false → sums.new.items ≡ sums.old.items }
{
    if slot >= sums.len() {
        return false;
    }
    let Some(both) = joined(sums[slot], sum) else {
        return false;
    };
    sums[slot] = both;
    true
}

impl SumTable {
    /// No sums, for races at so many locations.
    ///
    /// # Errors
    ///
    /// `NoMemory` where memory is refused.
    pub fn new(alloc: Global, locations: u32) -> Result<SumTable, NoMemory>
        ensures { IfOk result (λ table. table.sums.items ≡ []) }
    {
        Ok(SumTable {
            slots: vec![in alloc; 0; locations as usize]?,
            sums: Vec::new(alloc),
        })
    }

    /// Adds a sum to the newest one of its earlier location, if both are of one place, and says whether it did. Else the
    /// next sum is the newest one.
    fn join_newest(&mut self, sum: PlaceSum) -> bool
        ensures joined { result ≡ true → HasJoined sum self.old.sums.items self.new.sums.items }
        ensures kept { result ≡ false → self.new.sums.items ≡ self.old.sums.items }
    {
        let Some(slot) = self.slots.get_mut(sum.first as usize) else {
            return false;
        };
        if join(&mut self.sums, *slot, sum) {
            return true;
        }
        *slot = self.sums.len();
        false
    }

    /// Adds so many races of a place, of which one is the first.
    ///
    /// # Errors
    ///
    /// `NoMemory` where a growth was refused.
    pub fn add(&mut self, sum: PlaceSum) -> Result<(), NoMemory>
        ensures { (trace : List Event) (numbers : List ℕ) (pairs more : List Pair) → AreSumsOf trace numbers pairs self.old.sums.items
            → IsPlaceSum trace numbers sum → AreSums (key_in numbers) (IsNotAfter trace) more (sum_of sum ∷ [])
            → OnOk result (AreSumsOf trace numbers (pairs ++ more) self.new.sums.items) }
    {
        if self.join_newest(sum) {
            return Ok(());
        }
        self.sums.push(sum)?;
        Ok(())
    }

    /// Its sums.
    pub fn into_sums(self) -> Vec<PlaceSum>
        ensures { result ≡ self.sums }
    {
        let SumTable { slots: _, sums } = self;
        sums
    }
}
