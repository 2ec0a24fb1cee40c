//! The accesses that are kept of a variable, by thread and kind.

ghost use Rattle.std.specs.Prelude.{All, AllPairs, ◌*◌, ◌⊎◌, max, ◌≡◌, ◌<◌, ◌≤◌, ◌+◌, ◌++◌, ◌∷◌, [], ℕ, Bool, true, List, Box, IfOk, IfSome, None, OnOk, Some, filter, length, slice_get};
ghost use Rattle.shb_lines.specs.declared.event.Event.{Event};
ghost use Rattle.shb_nearest.specs.Classes.{AreClasses};
ghost use Rattle.shb_nearest.specs.Found.{IsFoundAccess};
ghost use Rattle.shb_nearest.specs.Groups.{AreGroups, HasGroupAt, HasKept, HasLast, IsAt, IsEarlier, IsOfGroup, IsRun, IsSince, is_newest_kept};
ghost use Rattle.shb_nearest.specs.Late.{IsLate, access_in};
ghost use Rattle.std.specs.Global.{Global as GlobalData};
ghost use Rattle.shb_nearest.specs.Places.{IsKnown, PlaceEntry};
ghost use Rattle.shb_nearest.specs.Sites.{HasNoted, HaveSites, IsDone, IsSettled, of_group, place_at};
ghost use Rattle.shb_nearest.specs.declared.access.Spot.{Spot as SpotData};
ghost use Rattle.shb_nearest.specs.declared.groups.KeptAccess.{KeptAccess as KeptData};
ghost use Rattle.shb_nearest.specs.declared.sites.Sites.{Sites as SitesData};

use crate::access::{FoundAccess, Spot};
use crate::classes::{Class, Classes};
use crate::late::Late;
use crate::sites::Sites;
use crate::thresholds::{ACCESSES_BEFORE_SITES, ACCESSES_IN_TURN, GROUPS_IN_TURN};
use shb_io::NoMemory;
use smallvec::SmallVec;
use std::alloc::Global;

/// An access that a group keeps.
#[derive(Clone, Copy, Default)]
pub struct KeptAccess {
    pub event: u32,
    /// How many events its thread had, with this one.
    pub time: u32,
    pub spot: Spot,
    /// The site of its location, where the variable had sites. It is looked at.
    pub site: u32,
}

/// Accesses of a variable by one thread, writes or reads, in the order of the stream. The newest one at each location
/// is among them. One access, as most groups have, needs no memory of its own.
#[derive(Drop)]
pub struct Group {
    pub thread: u32,
    pub writes: bool,
    pub kept: SmallVec<KeptAccess, 1>,
    /// With more than so many it forgets those that aren't the last at their location.
    pub most: usize,
}

/// The last accesses of a variable that one thread did, and no other between them.
#[derive(Clone, Copy)]
pub struct Run {
    pub thread: u32,
    /// The first of them, or 0 before the first access.
    pub start: u32,
}

/// The groups of a variable.
#[derive(Drop)]
pub struct Groups {
    pub variable: u32,
    pub each: Vec<Group>,
    /// How many accesses were taken in, as long as they are few.
    pub count: u32,
    /// The locations of what they keep, from then on.
    pub sites: Option<Box<Sites>>,
}

/// Of some accesses by a thread, of a kind, the last one at each location.
fn newest_of(
    alloc: Global,
    classes: &Classes,
    variable: u32,
    thread: u32,
    writes: bool,
    kept: &[KeptAccess],
) -> Result<Classes, NoMemory>
    ensures { AllPairs IsEarlier kept.now → IfOk result (λ newest. HasLast newest.newest.entries variable thread writes kept.now) }
{
    let mut newest = classes.emptied(alloc);
    for access in kept {
        let class = Class {
            variable,
            location: access.spot.location,
            thread,
            writes,
        };
        newest.put(class, access.event)?;
    }
    Ok(newest)
}

/// The index of the last kept access at a location, if there is one.
fn index_at(kept: &[KeptAccess], location: u32) -> Option<usize>
    ensures { IfSome result (λ at. (a : KeptData) × (slice_get kept.now at ≡ Some a) × (a.spot.location ≡ location)) }
{
    let mut from = kept.len();
    while from > 0 {
        from -= 1;
        let found = kept[from].spot.location == location;
        if found {
            return Some(from);
        }
    }
    None
}

/// Whether the group of a thread and a kind is at an index.
pub fn is_at(groups: &[Group], at: usize, thread: u32, writes: bool) -> bool
    ensures { result ≡ true → (group : Group) × (slice_get groups.now at ≡ Some group) × IsOfGroup group thread writes }
{
    match groups.get(at) {
        Some(group) => group.is_of(thread, writes),
        None => false,
    }
}

/// The index of the group of a thread and a kind, if it is among the first few.
fn index_among(groups: &[Group], thread: u32, writes: bool) -> Option<usize>
    ensures { IfSome result (λ at. (group : Group) × (slice_get groups.now at ≡ Some group) × IsOfGroup group thread writes) }
{
    for at in 0..groups.len().min(GROUPS_IN_TURN) {
        let found = is_at(groups, at, thread, writes);
        if found {
            return Some(at);
        }
    }
    None
}

/// Forgets those that a table doesn't have.
fn forget(
    kept: &mut SmallVec<KeptAccess, 1>,
    classes: &Classes,
    variable: u32,
    thread: u32,
    writes: bool,
)
    ensures { kept.new.items ≡ filter (is_newest_kept classes.now.newest.entries variable thread writes) kept.old.items }
{
    kept.retain(|access| {
        let class = Class {
            variable,
            location: access.spot.location,
            thread,
            writes,
        };
        classes.is_newest(class, access.event)
    });
}

impl Run {
    /// Whether only a thread accessed the variable from an event on.
    pub fn is_alone(self, thread: u32, since: u32) -> bool
        ensures { result ≡ true → (thread ≡ self.thread) × (self.start ≤ since) }
    {
        thread == self.thread && self.start <= since
    }

    /// The run after one access more.
    pub fn after(self, access: FoundAccess) -> Run
        ensures { (trace : List Event) (spots : List SpotData) (x : ℕ) → IsFoundAccess trace spots x access → IsRun trace x access.event self
            → IsRun trace x (access.event + 1) result }
    {
        if self.thread == access.thread {
            return self;
        }
        Run {
            thread: access.thread,
            start: access.event,
        }
    }
}

impl Group {
    /// No access by a thread of a kind.
    fn new(alloc: Global, thread: u32, writes: bool) -> Group
        ensures own { IsOfGroup result thread writes }
        ensures none { result.kept.items ≡ [] }
    {
        Group {
            thread,
            writes,
            kept: SmallVec::new(alloc),
            most: ACCESSES_IN_TURN,
        }
    }

    /// Whether it has the accesses by a thread of a kind.
    fn is_of(&self, thread: u32, writes: bool) -> bool
        ensures { result ≡ true → IsOfGroup self.now thread writes }
    {
        self.thread == thread && self.writes == writes
    }

    /// Keeps an access in place of the last one at its location, where there is one, and answers that one, or 0.
    fn replace(&mut self, access: KeptAccess) -> Result<u32, NoMemory>
        ensures kept { OnOk result (HasKept access self.old self.new) }
        ensures before { IfOk result (IsAt self.old.kept.items access.spot.location) }
    {
        let Some(at) = index_at(self.kept.as_slice(), access.spot.location) else {
            self.kept.push(access)?;
            return Ok(0);
        };
        let before = self.kept.remove(at);
        self.kept.push(access)?;
        Ok(before.event)
    }

    /// Keeps an access, and forgets others where there are too many.
    fn keep(
        &mut self,
        alloc: Global,
        classes: &Classes,
        variable: u32,
        access: KeptAccess,
    ) -> Result<(), NoMemory>
        ensures kept { OnOk result (HasKept access self.old self.new) }
        ensures room { OnOk result (length self.new.kept.items ≤ self.new.most) }
        ensures most { OnOk result ((self.new.most ≡ self.old.most) ⊎ (self.new.most ≤ max 64 (2 * length self.new.kept.items))) }
    {
        self.kept.push(access)?;
        if self.kept.len() <= self.most {
            return Ok(());
        }
        let newest = newest_of(
            alloc,
            classes,
            variable,
            self.thread,
            self.writes,
            self.kept.as_slice(),
        )?;
        forget(&mut self.kept, &newest, variable, self.thread, self.writes);
        self.most = self.kept.len().saturating_mul(2).max(ACCESSES_IN_TURN);
        Ok(())
    }
}

impl Groups {
    /// None.
    pub fn new(alloc: Global, variable: u32) -> Groups
        ensures none { result.each.items ≡ [] }
        ensures own { result.variable ≡ variable }
        ensures no_sites { result.sites ≡ None }
    {
        Groups {
            variable,
            each: Vec::new(alloc),
            count: 0,
            sites: None,
        }
    }

    /// Whether each race with an access of what a group keeps from an event on has a known place.
    pub fn is_done(&self, at: usize, second: u32, since: u32) -> bool
        ensures { result ≡ true → (sites : Box SitesData GlobalData) × (self.now.sites ≡ Some sites) × IsDone sites.value.all.items (of_group sites.value at) second since }
    {
        match &self.sites {
            Some(sites) => sites.group_is_done(at, second, since),
            None => false,
        }
    }

    /// Whether no group has to be looked at.
    pub fn are_done(&self, writes: bool, second: u32, since: u32) -> bool
        ensures writes { result ≡ true → (sites : Box SitesData GlobalData) × (self.now.sites ≡ Some sites) × IsDone sites.value.all.items sites.value.writes second since }
        ensures reads { result ≡ true → writes ≡ true → (sites : Box SitesData GlobalData) × (self.now.sites ≡ Some sites) × IsDone sites.value.all.items sites.value.reads second since }
    {
        if self.each.len() < GROUPS_IN_TURN {
            return false;
        }
        match &self.sites {
            Some(sites) => sites.are_done(writes, second, since),
            None => false,
        }
    }

    /// Whether the place of an access with a later one at a location is known.
    pub fn is_settled(&self, access: KeptAccess, second: u32) -> bool
        ensures { result ≡ true → IsSettled self.now access.spot.location second }
    {
        match &self.sites {
            Some(sites) => sites.are_paired(access.site, access.spot.location, second),
            None => false,
        }
    }

    /// Keeps in mind that places are known of some accesses with the one that was taken last, at this location.
    pub fn learn(&mut self, second: u32, rivals: &[FoundAccess]) -> Result<(), NoMemory>
        ensures each { OnOk result (self.new.each.items ≡ self.old.each.items) }
        ensures own { OnOk result (self.new.variable ≡ self.old.variable) }
        ensures sites { (by_variable : Bool) (x : ℕ) (entries : List PlaceEntry) → All (λ a. IsKnown entries (place_at by_variable x a.spot.location second)) rivals.now → HaveSites by_variable x entries self.old → OnOk result (HaveSites by_variable x entries self.new) }
    {
        if let Some(sites) = &mut self.sites {
            sites.learn(second, rivals)?;
        }
        Ok(())
    }

    /// Notes an access that the group at an index is to keep, and answers its site, or any number. When many came, sites are
    /// made.
    fn note(
        &mut self,
        alloc: Global,
        classes: &Classes,
        at: usize,
        late: Late,
    ) -> Result<u32, NoMemory>
        ensures each { OnOk result (self.new.each.items ≡ self.old.each.items) }
        ensures own { OnOk result (self.new.variable ≡ self.old.variable) }
        ensures sites { (by_variable : Bool) (x : ℕ) (entries : List PlaceEntry) → HaveSites by_variable x entries self.old → OnOk result (HaveSites by_variable x entries self.new) }
        ensures noted { OnOk result (HasNoted self.new at late) }
    {
        if let Some(sites) = &mut self.sites {
            let known = sites.note(alloc, at, late.writes, late.location, late.event)?;
            return Ok(known);
        }
        if self.count < ACCESSES_BEFORE_SITES {
            self.count += 1;
            return Ok(0);
        }
        let mut sites = Sites::new(alloc, classes.keys());
        sites.note_all(alloc, self.each.as_slice())?;
        let site = sites.note(alloc, at, late.writes, late.location, late.event)?;
        self.sites = Some(Box::new(alloc, sites)?);
        Ok(site)
    }

    /// The index of the group of a thread and a kind, which is made if there is none. `indices` has those of groups that aren't
    /// among the first few, by class without a location.
    fn group_at(
        &mut self,
        alloc: Global,
        indices: &mut Classes,
        thread: u32,
        writes: bool,
    ) -> Result<usize, NoMemory>
        ensures group { IfOk result (HasGroupAt self.old.each.items self.new.each.items thread writes) }
        ensures sites { OnOk result (self.new.sites ≡ self.old.sites) }
        ensures own { OnOk result (self.new.variable ≡ self.old.variable) }
    {
        if let Some(at) = index_among(self.each.as_slice(), thread, writes) {
            return Ok(at);
        }
        let class = Class {
            variable: self.variable,
            location: 0,
            thread,
            writes,
        };
        let noted = indices.last(class) as usize;
        let found = is_at(self.each.as_slice(), noted, thread, writes);
        if found {
            return Ok(noted);
        }
        let at = self.each.len();
        if at >= GROUPS_IN_TURN {
            indices.put(class, at.min(u32::MAX as usize) as u32)?;
        }
        self.each.push(Group::new(alloc, thread, writes))?;
        Ok(at)
    }

    /// Takes an access in, and answers an earlier access of its class, or 0: the last one, where its group keeps few;
    /// else the one that the table of classes had, which takes this access.
    pub fn take(
        &mut self,
        alloc: Global,
        classes: &mut Classes,
        indices: &mut Classes,
        variable: u32,
        late: Late,
    ) -> Result<u32, NoMemory>
        ensures since { (trace : List Event) (spots : List SpotData) (n : ℕ) → AreGroups trace spots variable late.event n self.old.each.items
            → AreClasses trace spots late.event classes.old.newest.entries → IfOk result (IsSince trace spots variable (access_in late)) }
        ensures classes { (trace : List Event) (spots : List SpotData) (n : ℕ) → IsLate trace spots variable late → late.event < n
            → AreClasses trace spots n classes.old.newest.entries → OnOk result (AreClasses trace spots n classes.new.newest.entries) }
        ensures groups { (trace : List Event) (spots : List SpotData) (n : ℕ) → AreGroups trace spots variable late.event n self.old.each.items
            → IsLate trace spots variable late → late.event < n → OnOk result (AreGroups trace spots variable (late.event + 1) n self.new.each.items) }
        ensures sites { (by_variable : Bool) (entries : List PlaceEntry) → HaveSites by_variable variable entries self.old → OnOk result (HaveSites by_variable variable entries self.new) }
        ensures own { OnOk result (self.new.variable ≡ self.old.variable) }
    {
        let at = self.group_at(alloc, indices, late.thread, late.writes)?;
        let site = self.note(alloc, &*classes, at, late)?;
        let kept = KeptAccess {
            event: late.event,
            time: late.time,
            spot: Spot {
                location: late.location,
                barred: late.barred,
            },
            site,
        };
        let Some(group) = self.each.get_mut(at) else {
            return Ok(0);
        };
        if group.kept.len() <= ACCESSES_IN_TURN {
            let before = group.replace(kept)?;
            return Ok(before);
        }
        let class = Class {
            variable,
            location: late.location,
            thread: late.thread,
            writes: late.writes,
        };
        let before = classes.put(class, late.event)?;
        group.keep(alloc, &*classes, variable, kept)?;
        Ok(before)
    }
}
