//! The accesses that race with the next access.

ghost use Rattle.std.specs.Prelude.{◌≡◌, ◌+◌, ◌<◌, ◌≤◌, ◌++◌, ◌∷◌, [], ℕ, false, true, List, OnOk, Some, length, map, slice_get};
ghost use Rattle.shb_lines.specs.declared.event.Event.{Event};
ghost use Rattle.shb_nearest.specs.Groups.{AreGroups, IsGroup, IsRun, access_of};
ghost use Rattle.shb_nearest.specs.Rivals.{AreRivals, CanRace, HasAdded, HasMet, HasMetGroup, IsFrom, IsNextAccess, IsOver};
ghost use Rattle.shb_nearest.specs.Sites.{AreMarked};
ghost use Rattle.shb_nearest.specs.declared.access.Spot.{Spot as SpotData};
ghost use Rattle.shb_nearest.specs.declared.groups.Group.{Group as GroupData};
ghost use Rattle.shb_nearest.specs.declared.groups.Groups.{Groups as GroupsData};

use crate::access::FoundAccess;
use crate::groups::{Group, Groups, KeptAccess, Run};
use crate::thresholds::ACCESSES_UNASKED;
use shb_io::NoMemory;
use shb_lines::{item_or, put};
use shb_stamps::StreamClocks;
use std::alloc::Global;

/// Accesses that race with the next one, one at each location: the last that was found there.
#[derive(Drop)]
pub struct Rivals {
    pub found: Vec<FoundAccess>,
    /// For each location the index of its access, if one is found. Others mean nothing.
    indices: Vec<u32>,
}

/// Whether a kept access, and so each one before it, needs no look: it is one of the first `below` events of its thread,
/// or before the event `since`.
fn is_over(access: KeptAccess, below: u32, since: u32) -> bool
    ensures over { result ≡ true → IsOver access below since }
    ensures not_over { result ≡ false → (below < access.time) × (since ≤ access.event) }
{
    access.time <= below || access.event < since
}

/// The index after the last kept access that needs no look.
fn index_after(kept: &[KeptAccess], below: u32, since: u32) -> usize
    ensures { IsFrom kept.now below since result }
{
    let mut from = kept.len();
    while from > 0 {
        let over = is_over(kept[from - 1], below, since);
        if over {
            return from;
        }
        from -= 1;
    }
    from
}

impl Rivals {
    /// None.
    pub fn new(alloc: Global) -> Rivals {
        Rivals {
            found: Vec::new(alloc),
            indices: Vec::new(alloc),
        }
    }

    /// Takes an access in, unless a later one at its location is there. An earlier one there goes.
    fn add(&mut self, access: FoundAccess) -> Result<(), NoMemory>
        ensures { (groups : GroupsData) (second : ℕ) → OnOk result (HasAdded groups second self.old.found.items self.new.found.items (access ∷ [])) }
    {
        let location = access.spot.location;
        let index = item_or(self.indices.as_slice(), location, 0);
        if let Some(known) = self.found.get_mut(index as usize) {
            if known.spot.location == location {
                if known.event < access.event {
                    *known = access;
                }
                return Ok(());
            }
        }
        let end = self.found.len().min(u32::MAX as usize) as u32;
        self.found.push(access)?;
        put(&mut self.indices, location, end, 0)?;
        Ok(())
    }

    /// Takes a kept access of a thread and a kind in, unless its place with a later one at this location is known.
    fn add_unsettled(
        &mut self,
        groups: &Groups,
        thread: u32,
        writes: bool,
        second: u32,
        kept: KeptAccess,
    ) -> Result<(), NoMemory>
        ensures { OnOk result (HasAdded groups.now second self.old.found.items self.new.found.items (access_of thread writes kept ∷ [])) }
    {
        let settled = groups.is_settled(kept, second);
        if settled {
            return Ok(());
        }
        self.add(FoundAccess {
            event: kept.event,
            thread,
            writes,
            spot: kept.spot,
        })?;
        Ok(())
    }

    /// Takes kept accesses of a thread and a kind in, but for those whose place with a later one at this location is known.
    fn add_all(
        &mut self,
        groups: &Groups,
        thread: u32,
        writes: bool,
        second: u32,
        kept: &[KeptAccess],
    ) -> Result<(), NoMemory>
        ensures { OnOk result (HasAdded groups.now second self.old.found.items self.new.found.items (map (access_of thread writes) kept.now)) }
    {
        for access in kept {
            self.add_unsettled(groups, thread, writes, second, *access)?;
        }
        Ok(())
    }
}

/// Adds what a group keeps after the last access that needs no look, but for those whose place with a later one at this
/// location is known.
fn meet(
    rivals: &mut Rivals,
    groups: &Groups,
    group: &Group,
    second: u32,
    below: u32,
    since: u32,
) -> Result<(), NoMemory>
    ensures { OnOk result (HasMet groups.now second group.now below since rivals.old.found.items rivals.new.found.items) }
{
    let from = index_after(group.kept.as_slice(), below, since);
    let (_, later) = group.kept.as_slice().split_at(from);
    rivals.add_all(groups, group.thread, group.writes, second, later)?;
    Ok(())
}

/// Whether accesses of a group can race with an access: they are of another thread, and one of both writes.
fn can_race(group: &Group, access: FoundAccess) -> bool
    ensures can { result ≡ true → CanRace group.now access }
    ensures cannot { result ≡ false → CanRace group.now access → ⊥ }
{
    group.thread != access.thread && (group.writes || access.writes)
}

/// Whether more than a few of what a group keeps need a look.
fn need_many(group: &Group, below: u32, since: u32) -> bool {
    let kept = group.kept.as_slice();
    if kept.len() < ACCESSES_UNASKED {
        return false;
    }
    let over = is_over(kept[kept.len() - ACCESSES_UNASKED], below, since);
    !over
}

/// Adds what the group at an index keeps from the event `since` on that races with the next access, but for those whose
/// place is known.
fn meet_group(
    rivals: &mut Rivals,
    clocks: &StreamClocks,
    groups: &Groups,
    at: usize,
    access: FoundAccess,
    since: u32,
) -> Result<(), NoMemory>
    requires there { at < length groups.now.each.items }
    ensures { (past : List Event) (e : Event) (spots : List SpotData) (x : ℕ) (group : GroupData) → IsNextAccess past e spots x clocks.now access
        → AreMarked groups.now → slice_get groups.now.each.items at ≡ Some group → IsGroup (past ++ e ∷ []) spots x (access.event + 1) group
        → OnOk result (HasMetGroup (past ++ e ∷ []) spots x groups.now access since group rivals.old.found.items rivals.new.found.items) }
{
    let group = &groups.each[at];
    let met = can_race(group, access);
    if !met {
        return Ok(());
    }
    let below = clocks.below_next(access.thread, group.thread);
    let many = need_many(group, below, since);
    if many {
        let done = groups.is_done(at, access.spot.location, since);
        if done {
            return Ok(());
        }
    }
    meet(rivals, groups, group, access.spot.location, below, since)?;
    Ok(())
}

/// Those that groups keep from the event `since` on, but for those whose place is known.
fn rivals_among(
    rivals: &mut Rivals,
    clocks: &StreamClocks,
    groups: &Groups,
    access: FoundAccess,
    since: u32,
) -> Result<(), NoMemory>
    requires none { rivals.old.found.items ≡ [] }
    ensures { (past : List Event) (e : Event) (spots : List SpotData) (x : ℕ) → IsNextAccess past e spots x clocks.now access → AreMarked groups.now
        → AreGroups (past ++ e ∷ []) spots x (access.event + 1) (access.event + 1) groups.now.each.items
        → OnOk result (AreRivals (past ++ e ∷ []) spots x groups.now access since rivals.new.found.items) }
{
    for at in 0..groups.each.len() {
        meet_group(rivals, clocks, groups, at, access, since)?;
    }
    Ok(())
}

impl Rivals {
    /// Finds accesses that race with the next one: those that the groups of its variable, which have it already, keep from
    /// the event `since` on, but for those whose place is known. There are none where by the run before it its thread alone
    /// accessed the variable since then.
    pub fn find(
        &mut self,
        clocks: &StreamClocks,
        run: Run,
        groups: &Groups,
        access: FoundAccess,
        since: u32,
    ) -> Result<(), NoMemory>
        ensures { (past : List Event) (e : Event) (spots : List SpotData) (x : ℕ) → IsNextAccess past e spots x clocks.now access → AreMarked groups.now
            → AreGroups (past ++ e ∷ []) spots x (access.event + 1) (access.event + 1) groups.now.each.items → IsRun (past ++ e ∷ []) x access.event run
            → OnOk result (AreRivals (past ++ e ∷ []) spots x groups.now access since self.new.found.items) }
    {
        self.found.clear();
        let alone = run.is_alone(access.thread, since);
        if alone {
            return Ok(());
        }
        let done = groups.are_done(access.writes, access.spot.location, since);
        if done {
            return Ok(());
        }
        rivals_among(self, clocks, groups, access, since)
    }
}
