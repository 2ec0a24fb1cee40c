//! The locations of a variable with groups, and of which two of them the place is known.

ghost use Rattle.std.specs.Prelude.{◌≡◌, ◌<◌, ℕ, Bool, true, not, [], All, List, IfOk, IfSome, OnOk, Some, slice_get};
ghost use Rattle.std.specs.FinSet as set;
ghost use Rattle.shb_nearest.specs.Places.{IsKnown, PlaceEntry};
ghost use Rattle.shb_nearest.specs.Sites.{AreAllNoted, AreFew, AreNoted, ArePaired, HasSets, HasSetsOf, HasSite, IsAfter, IsDone, IsNoted, IsPair, IsSite, of_group, of_kind, place_at};
ghost use Rattle.shb_nearest.specs.declared.sites.Site.{Site as SiteData};

use crate::access::FoundAccess;
use crate::groups::{Group, KeptAccess};
use crate::thresholds::SITES_UNPAIRED;
use indexmap::IndexMap;
use shb_io::NoMemory;
use shb_lines::HashKeys;
use shb_numbers::NumberSet;
use std::alloc::Global;

/// A location of accesses of a variable.
#[derive(Drop)]
pub struct Site {
    pub location: u32,
    /// The newest access there.
    pub newest: u32,
    /// Whether more than one came there.
    pub again: bool,
    /// The sites whose place with this one, as that of the later access, is known.
    pub paired: NumberSet,
}

/// The sites of a variable with groups, by number.
pub struct Sites {
    pub all: Vec<Site>,
    /// At which of them reads are, and at which writes.
    pub reads: NumberSet,
    pub writes: NumberSet,
    /// At which the accesses of each group are.
    pub of_groups: Vec<NumberSet>,
    /// The site of the access that was noted last.
    own: u32,
    /// The number of each location. What it answers is looked at.
    numbers: IndexMap<u32, u32, HashKeys>,
}

// By hand: a derived one stands in each function that drops it, with a step for each part of the table.
impl Drop for Sites {
    fn drop(self) {
        let Sites {
            all: _,
            reads: _,
            writes: _,
            of_groups: _,
            own: _,
            numbers: _,
        } = self;
    }
}

/// Whether the site of a number is at a location.
fn is_at(all: &[Site], number: u32, location: u32) -> bool
    ensures { result ≡ true → IsSite all.now location number }
{
    match all.get(number as usize) {
        Some(site) => site.location == location,
        None => false,
    }
}

/// Makes empty sets, so that there is one of this index.
fn make_sets(alloc: Global, sets: &mut Vec<NumberSet>, at: usize) -> Result<(), NoMemory>
    ensures { OnOk result (HasSets sets.old.items sets.new.items at) }
{
    while sets.len() <= at {
        sets.push(NumberSet::new(alloc))?;
    }
    Ok(())
}

/// An access came to the site of a number, again.
fn come_again(all: &mut Vec<Site>, number: u32, event: u32)
    ensures { (location : ℕ) → IsSite all.old.items location number → HasSite all.old.items all.new.items location event number }
{
    if let Some(site) = all.get_mut(number as usize) {
        site.newest = site.newest.max(event);
        site.again = true;
    }
}

impl Sites {
    /// None, with a table under these keys.
    pub fn new(alloc: Global, keys: HashKeys) -> Sites
        ensures { result.all.items ≡ [] }
    {
        Sites {
            all: Vec::new(alloc),
            reads: NumberSet::new(alloc),
            writes: NumberSet::new(alloc),
            of_groups: Vec::new(alloc),
            own: 0,
            numbers: IndexMap::with_hasher(alloc, keys),
        }
    }

    /// The number of the site of a location, if there is one.
    fn number(&self, location: u32) -> Option<u32>
        ensures { IfSome result (IsSite self.now.all.items location) }
    {
        let Some(number) = self.numbers.get(&location) else {
            return None;
        };
        let found = is_at(self.all.as_slice(), *number, location);
        if found { Some(*number) } else { None }
    }

    /// Takes an access to the site of its location, which is made where there is none, and answers its number.
    fn take(&mut self, alloc: Global, location: u32, event: u32) -> Result<u32, NoMemory>
        ensures site { IfOk result (HasSite self.old.all.items self.new.all.items location event) }
        ensures sets { OnOk result (HasSetsOf self.old self.new) }
    {
        let known = self.number(location);
        if let Some(number) = known {
            come_again(&mut self.all, number, event);
            return Ok(number);
        }
        let number = self.all.len().min(u32::MAX as usize) as u32;
        self.numbers.insert(location, number)?;
        self.all.push(Site {
            location,
            newest: event,
            again: false,
            paired: NumberSet::new(alloc),
        })?;
        Ok(number)
    }

    /// Notes that there are accesses of a kind at the site of a number.
    fn mark(&mut self, writes: bool, number: u32) -> Result<(), NoMemory>
        ensures kind { OnOk result (of_kind self.new writes ≡ set.insert (of_kind self.old writes) number) }
        ensures other { OnOk result (of_kind self.new (not writes) ≡ of_kind self.old (not writes)) }
        ensures all { OnOk result (self.new.all.items ≡ self.old.all.items) }
        ensures of_groups { OnOk result (self.new.of_groups.items ≡ self.old.of_groups.items) }
    {
        if writes {
            self.writes.insert(number)?;
            return Ok(());
        }
        self.reads.insert(number)?;
        Ok(())
    }

    /// Notes an access that the group at an index keeps, of a kind, and answers the number of its site.
    pub fn note(
        &mut self,
        alloc: Global,
        at: usize,
        writes: bool,
        location: u32,
        event: u32,
    ) -> Result<u32, NoMemory>
        ensures after { OnOk result (IsAfter self.old self.new) }
        ensures noted { OnOk result (AreFew self.new → IsNoted self.new at writes location event) }
        ensures paired { (by_variable : Bool) (x : ℕ) (entries : List PlaceEntry) → ArePaired by_variable x entries self.old.all.items → OnOk result (ArePaired by_variable x entries self.new.all.items) }
    {
        let number = self.take(alloc, location, event)?;
        self.mark(writes, number)?;
        make_sets(alloc, &mut self.of_groups, at)?;
        self.of_groups[at].insert(number)?;
        self.own = number;
        Ok(number)
    }

    /// Notes what the group at an index keeps.
    fn note_group(&mut self, alloc: Global, at: usize, group: &Group) -> Result<(), NoMemory>
        ensures after { OnOk result (IsAfter self.old self.new) }
        ensures noted { OnOk result (AreNoted self.new at group.now.writes group.now.kept.items) }
        ensures paired { (by_variable : Bool) (x : ℕ) (entries : List PlaceEntry) → ArePaired by_variable x entries self.old.all.items → OnOk result (ArePaired by_variable x entries self.new.all.items) }
    {
        for access in group.kept.as_slice() {
            self.note(alloc, at, group.writes, access.spot.location, access.event)?;
        }
        Ok(())
    }

    /// Notes what groups keep.
    pub fn note_all(&mut self, alloc: Global, groups: &[Group]) -> Result<(), NoMemory>
        ensures noted { OnOk result (AreAllNoted self.new groups.now) }
        ensures paired { (by_variable : Bool) (x : ℕ) (entries : List PlaceEntry) → ArePaired by_variable x entries self.old.all.items → OnOk result (ArePaired by_variable x entries self.new.all.items) }
    {
        for at in 0..groups.len() {
            self.note_group(alloc, at, &groups[at])?;
        }
        Ok(())
    }

    /// Whether the newest access at the site of a number is before an event.
    fn is_old(&self, number: u32, since: u32) -> bool
        ensures { result ≡ true → (site : SiteData) × (slice_get self.now.all.items number ≡ Some site) × (site.newest < since) }
    {
        match self.all.get(number as usize) {
            Some(site) => site.newest < since,
            None => false,
        }
    }

    /// Whether each site of a set is paired with that of the access that was noted last, which is at this location, or has
    /// no access from an event on. It may say no where many aren't paired.
    fn is_done(&self, numbers: &NumberSet, second: u32, since: u32) -> bool
        ensures { result ≡ true → IsDone self.now.all.items numbers.now second since }
    {
        let Some(own) = self.all.get(self.own as usize) else {
            return false;
        };
        if own.location != second {
            return false;
        }
        if self.all.len() > u32::MAX as usize {
            return false;
        }
        let mut from = 0;
        for _ in 0..SITES_UNPAIRED {
            let Some(number) = numbers.first_not_in(&own.paired, from, u32::MAX) else {
                return true;
            };
            let old = self.is_old(number, since);
            if !old {
                return false;
            }
            from = number + 1;
        }
        false
    }

    /// Whether no group has to be looked at.
    pub fn are_done(&self, writes: bool, second: u32, since: u32) -> bool
        ensures writes { result ≡ true → IsDone self.now.all.items self.now.writes second since }
        ensures reads { result ≡ true → writes ≡ true → IsDone self.now.all.items self.now.reads second since }
    {
        let done = self.is_done(&self.writes, second, since);
        if !done {
            return false;
        }
        if !writes {
            return true;
        }
        self.is_done(&self.reads, second, since)
    }

    /// The same of the group at an index.
    pub fn group_is_done(&self, at: usize, second: u32, since: u32) -> bool
        ensures { result ≡ true → IsDone self.now.all.items (of_group self.now at) second since }
    {
        match self.of_groups.get(at) {
            Some(numbers) => self.is_done(numbers, second, since),
            None => false,
        }
    }

    /// Whether a site, that at the first location perhaps, is paired with that of the access that was noted last, which is
    /// at the second one.
    pub fn are_paired(&self, number: u32, first: u32, second: u32) -> bool
        ensures { result ≡ true → IsPair self.now.all.items first second }
    {
        let found = is_at(self.all.as_slice(), number, first);
        if !found {
            return false;
        }
        match self.all.get(self.own as usize) {
            Some(own) => own.location == second && own.paired.contains(number),
            None => false,
        }
    }

    /// Pairs the site of a location with that of the access that was noted last, which is at the second one.
    fn pair(&mut self, first: u32, second: u32) -> Result<(), NoMemory>
        ensures after { OnOk result (IsAfter self.old self.new) }
        ensures paired { (by_variable : Bool) (x : ℕ) (entries : List PlaceEntry) → IsKnown entries (place_at by_variable x first second) → ArePaired by_variable x entries self.old.all.items → OnOk result (ArePaired by_variable x entries self.new.all.items) }
    {
        let found = is_at(self.all.as_slice(), self.own, second);
        if !found {
            return Ok(());
        }
        let Some(number) = self.number(first) else {
            return Ok(());
        };
        if let Some(own) = self.all.get_mut(self.own as usize) {
            own.paired.insert(number)?;
        }
        Ok(())
    }

    /// Whether more than one access came to the site of the one that was noted last.
    fn is_again(&self) -> bool {
        match self.all.get(self.own as usize) {
            Some(own) => own.again,
            None => false,
        }
    }

    /// Pairs the sites of accesses with that of the access that was noted last, which is at the second location, since
    /// their places are known. What came to a site once needn't be known.
    pub fn learn(&mut self, second: u32, rivals: &[FoundAccess]) -> Result<(), NoMemory>
        ensures after { OnOk result (IsAfter self.old self.new) }
        ensures paired { (by_variable : Bool) (x : ℕ) (entries : List PlaceEntry) → All (λ a. IsKnown entries (place_at by_variable x a.spot.location second)) rivals.now → ArePaired by_variable x entries self.old.all.items → OnOk result (ArePaired by_variable x entries self.new.all.items) }
    {
        let again = self.is_again();
        if !again {
            return Ok(());
        }
        for first in rivals {
            self.pair(first.spot.location, second)?;
        }
        Ok(())
    }
}
