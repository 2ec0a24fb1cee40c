//! The groups of the variables of which an access may race.

ghost use Rattle.std.specs.Prelude.{◌≡◌, ◌+◌, ◌≤◌, [], ℕ, Bool, List, IfOk, OnOk, length};
ghost use Rattle.shb_lines.specs.declared.event.Event.{Event};
ghost use Rattle.shb_nearest.specs.Classes.{AreClasses};
ghost use Rattle.shb_nearest.specs.Groups.{AreGroups, IsSince};
ghost use Rattle.shb_nearest.specs.Late.{AreAccesses, AreLate, HaveGroups, IsLate, StayGroups, access_in};
ghost use Rattle.shb_nearest.specs.Places.{PlaceEntry};
ghost use Rattle.shb_nearest.specs.Sites.{HaveAllSites, HaveSites};
ghost use Rattle.shb_nearest.specs.declared.access.Spot.{Spot as SpotData};

use crate::classes::Classes;
use crate::groups::Groups;
use crate::late::Late;
use crate::log::{Accesses, Log};
use shb_io::NoMemory;
use std::alloc::Global;

/// The groups of variables, and accesses by class where groups keep many.
#[derive(Drop)]
pub struct Opened {
    pub classes: Classes,
    /// Where groups are that aren't among the first few of their variable.
    pub indices: Classes,
    pub each: Vec<Groups>,
}

/// Takes accesses into the groups of their variable.
fn take_all(
    groups: &mut Groups,
    alloc: Global,
    classes: &mut Classes,
    indices: &mut Classes,
    variable: u32,
    waiting: &[Late],
) -> Result<(), NoMemory>
    ensures groups { (trace : List Event) (spots : List SpotData) (n m : ℕ) → AreGroups trace spots variable m n groups.old.each.items → AreLate trace spots variable n m waiting.now
        → OnOk result (AreGroups trace spots variable n n groups.new.each.items) }
    ensures classes { (trace : List Event) (spots : List SpotData) (n m : ℕ) → AreGroups trace spots variable m n groups.old.each.items → AreLate trace spots variable n m waiting.now
        → AreClasses trace spots n classes.old.newest.entries → OnOk result (AreClasses trace spots n classes.new.newest.entries) }
    ensures sites { (by_variable : Bool) (entries : List PlaceEntry) → HaveSites by_variable variable entries groups.old → OnOk result (HaveSites by_variable variable entries groups.new) }
    ensures own { OnOk result (groups.new.variable ≡ groups.old.variable) }
{
    for late in waiting {
        groups.take(alloc, classes, indices, variable, *late)?;
    }
    Ok(())
}

impl Opened {
    /// None.
    pub fn new(alloc: Global, classes: Classes) -> Opened
        ensures none { result.each.items ≡ [] }
        ensures classes { result.classes.newest.entries ≡ classes.newest.entries }
    {
        let indices = classes.emptied(alloc);
        Opened {
            classes,
            indices,
            each: Vec::new(alloc),
        }
    }

    /// The index of the groups of a variable, if that is below 2^32. They are made of its accesses where these wait.
    pub fn open(
        &mut self,
        alloc: Global,
        log: &mut Log,
        variable: u32,
        accesses: Accesses,
    ) -> Result<u32, NoMemory>
        ensures groups { (trace : List Event) (spots : List SpotData) (n : ℕ) → AreAccesses trace spots variable n log.old.entries.items self.old.each.items accesses
            → IfOk result (λ at. length self.new.each.items ≤ 4294967295 → HaveGroups trace spots variable n self.new.each.items at) }
        ensures classes { (trace : List Event) (spots : List SpotData) (n : ℕ) → AreAccesses trace spots variable n log.old.entries.items self.old.each.items accesses
            → AreClasses trace spots n self.old.classes.newest.entries → OnOk result (AreClasses trace spots n self.new.classes.newest.entries) }
        ensures others { OnOk result (StayGroups variable self.old.each.items self.new.each.items) }
        ensures sites { (by_variable : Bool) (entries : List PlaceEntry) → HaveAllSites by_variable entries self.old.each.items → OnOk result (HaveAllSites by_variable entries self.new.each.items) }
        ensures log { log.new.entries.items ≡ log.old.entries.items }
        ensures long { OnOk result (length self.new.each.items ≤ length self.old.each.items + 1) }
    {
        let newest = match accesses {
            Accesses::Grouped(at) => return Ok(at),
            Accesses::Waiting(newest) => newest,
        };
        log.gather(alloc, newest)?;
        let mut groups = Groups::new(alloc, variable);
        let (classes, indices) = (&mut self.classes, &mut self.indices);
        let gathered = log.gathered.as_slice();
        take_all(&mut groups, alloc, classes, indices, variable, gathered)?;
        let at = self.each.len().min(u32::MAX as usize) as u32;
        self.each.push(groups)?;
        Ok(at)
    }

    /// Takes an access into the groups of its variable, and answers an earlier access of its class, or 0.
    pub fn take(
        &mut self,
        alloc: Global,
        at: u32,
        variable: u32,
        late: Late,
    ) -> Result<u32, NoMemory>
        ensures since { (trace : List Event) (spots : List SpotData) → HaveGroups trace spots variable late.event self.old.each.items at
            → AreClasses trace spots late.event self.old.classes.newest.entries → IfOk result (IsSince trace spots variable (access_in late)) }
        ensures classes { (trace : List Event) (spots : List SpotData) → HaveGroups trace spots variable late.event self.old.each.items at → IsLate trace spots variable late
            → AreClasses trace spots late.event self.old.classes.newest.entries → OnOk result (AreClasses trace spots (late.event + 1) self.new.classes.newest.entries) }
        ensures groups { (trace : List Event) (spots : List SpotData) → HaveGroups trace spots variable late.event self.old.each.items at → IsLate trace spots variable late
            → OnOk result (HaveGroups trace spots variable (late.event + 1) self.new.each.items at) }
        ensures others { (trace : List Event) (spots : List SpotData) → HaveGroups trace spots variable late.event self.old.each.items at
            → OnOk result (StayGroups variable self.old.each.items self.new.each.items) }
        ensures sites { (trace : List Event) (spots : List SpotData) (by_variable : Bool) (entries : List PlaceEntry) → HaveGroups trace spots variable late.event self.old.each.items at
            → HaveAllSites by_variable entries self.old.each.items → OnOk result (HaveAllSites by_variable entries self.new.each.items) }
        ensures long { OnOk result (length self.new.each.items ≡ length self.old.each.items) }
    {
        let Some(groups) = self.each.get_mut(at as usize) else {
            return Ok(0);
        };
        let (classes, indices) = (&mut self.classes, &mut self.indices);
        let before = groups.take(alloc, classes, indices, variable, late)?;
        Ok(before)
    }
}
