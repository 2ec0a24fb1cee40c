//! The accesses of all variables that wait, in one list.

ghost use Rattle.std.specs.Prelude.{◌≡◌, ◌⊎◌, ◌+◌, ◌*◌, ◌<◌, ◌≤◌, [], ℕ, false, true, List, IfOk, MatchOption, OnOk, length, max, reverse};
ghost use Rattle.shb_lines.specs.declared.event.Event.{Event};
ghost use Rattle.shb_nearest.specs.Late.{AreLate, AreWaiting, HasPut, HasWritten, IsChain, IsEntryAt, IsLate, StayWaiting};
ghost use Rattle.shb_nearest.specs.Searched.{AreVariables};
ghost use Rattle.shb_nearest.specs.declared.access.Spot.{Spot as SpotData};
ghost use Rattle.shb_nearest.specs.declared.groups.Groups.{Groups as GroupsData};
ghost use Rattle.shb_nearest.specs.declared.late.Late.{Late as LateData};
ghost use Rattle.shb_nearest.specs.declared.log.Entry.{Entry as EntryData};

use crate::classes::Classes;
use crate::late::{Late, is_again, is_instead};
use crate::tables::Variable;
use crate::thresholds::{ENTRIES, ENTRIES_TIMES};
use shb_io::NoMemory;
use std::alloc::Global;

/// An access that waits.
#[derive(Clone, Copy)]
pub struct Entry {
    pub late: Late,
    /// The place of the access of its variable that waits before it, from 1, or 0.
    pub before: u32,
}

/// The accesses that wait, each behind those of its variable that came before it; those among them instead of which no
/// later one is enough.
#[derive(Drop)]
pub struct Log {
    pub entries: Vec<Entry>,
    /// With so many, those go instead of which a later one is enough.
    most: usize,
    /// Those of one variable, where they were gathered.
    pub gathered: Vec<Late>,
    /// No class: tables are made of it.
    classes: Classes,
}

/// The accesses of a variable.
#[derive(Clone, Copy)]
pub enum Accesses {
    /// None may race with an earlier one: all wait, the newest at this place, or there is none.
    Waiting(u32),
    /// Groups of all of them, at this index.
    Grouped(u32),
}

/// The entry at a place.
fn entry_at(entries: &[Entry], place: u32) -> Option<Entry>
    ensures { MatchOption result ((entry : EntryData) → IsEntryAt entries.now place entry → ⊥) (IsEntryAt entries.now place) }
{
    if place == 0 {
        return None;
    }
    entries.get(place as usize - 1).copied()
}

/// Writes an entry at a place.
fn write(entries: &mut Vec<Entry>, place: u32, entry: Entry)
    ensures written { HasWritten entries.old.items entries.new.items place entry }
    ensures long { length entries.new.items ≡ length entries.old.items }
{
    if place == 0 {
        return;
    }
    if let Some(there) = entries.get_mut(place as usize - 1) {
        *there = entry;
    }
}

/// Puts an access in place of the newest of its variable, which is at this place, or of the one before it, if it is enough
/// instead.
fn replace(entries: &mut Vec<Entry>, newest: u32, late: Late) -> bool
    ensures own { (trace : List Event) (spots : List SpotData) (x : ℕ) → AreWaiting trace spots x late.event entries.old.items newest → IsLate trace spots x late
        → result ≡ true → AreWaiting trace spots x (late.event + 1) entries.new.items newest }
    ensures others { (trace : List Event) (spots : List SpotData) (x : ℕ) → AreWaiting trace spots x late.event entries.old.items newest
        → result ≡ true → StayWaiting trace spots x entries.old.items entries.new.items }
    ensures same { result ≡ false → entries.new.items ≡ entries.old.items }
    ensures long { length entries.new.items ≡ length entries.old.items }
{
    let Some(last) = entry_at(entries.as_slice(), newest) else {
        return false;
    };
    let again = is_instead(late, last.late);
    if again {
        let before = last.before;
        write(entries, newest, Entry { late, before });
        return true;
    }
    let place = last.before;
    let Some(second) = entry_at(entries.as_slice(), place) else {
        return false;
    };
    let again = is_instead(late, second.late);
    if again {
        let moved = Entry {
            late: last.late,
            before: second.before,
        };
        write(entries, place, moved);
        let before = place;
        write(entries, newest, Entry { late, before });
    }
    again
}

/// Puts an access behind the newest of its variable, which is at this place, and answers its own place, if that is below
/// 2^32.
fn put(entries: &mut Vec<Entry>, newest: u32, late: Late) -> Result<u32, NoMemory>
    ensures put { IfOk result (λ place. length entries.new.items ≤ 4294967295 → HasPut entries.old.items entries.new.items newest late place) }
    ensures long { OnOk result (length entries.new.items ≡ length entries.old.items + 1) }
{
    let before = newest;
    entries.push(Entry { late, before })?;
    Ok(entries.len().min(u32::MAX as usize) as u32)
}

/// Puts the accesses of a variable, of which there is none yet, and answers the place of the last.
fn put_all(entries: &mut Vec<Entry>, accesses: &[Late]) -> Result<u32, NoMemory>
    ensures own { IfOk result (λ place. length entries.new.items ≤ 4294967295 → IsChain entries.new.items place (reverse accesses.now)) }
    ensures others { (place : ℕ) (late : List LateData) → IsChain entries.old.items place late → OnOk result (length entries.new.items ≤ 4294967295 → IsChain entries.new.items place late) }
    ensures longer { OnOk result (length entries.old.items ≤ length entries.new.items) }
{
    let mut newest = 0;
    for late in accesses {
        newest = put(entries, newest, *late)?;
    }
    Ok(newest)
}

/// The accesses of a variable, from the newest one back, which is at this place, without those instead of which a later one
/// is enough.
fn gather_back(
    entries: &[Entry],
    accesses: &mut Vec<Late>,
    indices: &mut Classes,
    newest: u32,
) -> Result<(), NoMemory>
    ensures { (trace : List Event) (spots : List SpotData) (x n : ℕ) → AreWaiting trace spots x n entries.now newest
        → OnOk result (AreLate trace spots x n 0 (reverse accesses.new.items)) }
{
    accesses.clear();
    let mut place = newest;
    while let Some(entry) = entry_at(entries, place) {
        let again = is_again(accesses.as_slice(), indices, entry.late)?;
        if !again {
            accesses.push(entry.late)?;
        }
        place = entry.before.min(place - 1);
    }
    Ok(())
}

impl Log {
    /// No access.
    pub fn new(alloc: Global, classes: Classes) -> Log
        ensures { result.entries.items ≡ [] }
    {
        Log {
            entries: Vec::new(alloc),
            most: ENTRIES,
            gathered: Vec::new(alloc),
            classes,
        }
    }

    /// Lets an access wait behind the newest of its variable, which is at this place, or there is none, and answers its own
    /// place. Older ones are looked at where this thread had the last access: else they are seldom in the cache.
    #[inline(always)]
    pub fn put_off(&mut self, newest: u32, thread: u32, late: Late) -> Result<u32, NoMemory>
        ensures own { (trace : List Event) (spots : List SpotData) (x : ℕ) → AreWaiting trace spots x late.event self.old.entries.items newest → IsLate trace spots x late
            → IfOk result (λ place. length self.new.entries.items ≤ 4294967295 → AreWaiting trace spots x (late.event + 1) self.new.entries.items place) }
        ensures others { (trace : List Event) (spots : List SpotData) (x : ℕ) → AreWaiting trace spots x late.event self.old.entries.items newest
            → OnOk result (length self.new.entries.items ≤ 4294967295 → StayWaiting trace spots x self.old.entries.items self.new.entries.items) }
        ensures long { OnOk result (length self.new.entries.items ≤ length self.old.entries.items + 1) }
    {
        if thread == late.thread {
            let again = replace(&mut self.entries, newest, late);
            if again {
                return Ok(newest);
            }
        }
        let place = put(&mut self.entries, newest, late)?;
        Ok(place)
    }

    /// Gathers the accesses of a variable, in their order. The newest is at this place.
    pub fn gather(&mut self, alloc: Global, newest: u32) -> Result<(), NoMemory>
        ensures same { self.new.entries.items ≡ self.old.entries.items }
        ensures gathered { (trace : List Event) (spots : List SpotData) (x n : ℕ) → AreWaiting trace spots x n self.old.entries.items newest
            → OnOk result (AreLate trace spots x n 0 self.new.gathered.items) }
    {
        let mut indices = self.classes.emptied(alloc);
        let gathered = &mut self.gathered;
        gather_back(self.entries.as_slice(), gathered, &mut indices, newest)?;
        gathered.reverse();
        Ok(())
    }

    /// Forgets accesses instead of which a later one is enough, if there are many.
    pub fn make_room(
        &mut self,
        alloc: Global,
        variables: &mut Vec<Variable>,
    ) -> Result<(), NoMemory>
        ensures variables { (trace : List Event) (spots : List SpotData) (n : ℕ) (groups : List GroupsData) → length self.old.entries.items ≤ 4294967295 → AreVariables trace spots n self.old.entries.items groups variables.old.items
            → OnOk result (AreVariables trace spots n self.new.entries.items groups variables.new.items) }
        ensures long { OnOk result (length self.new.entries.items ≤ length self.old.entries.items) }
        ensures room { length self.old.entries.items ≤ 4294967295 → OnOk result (length self.new.entries.items < self.new.most) }
        ensures most { OnOk result ((self.new.most ≡ self.old.most) ⊎ (self.new.most ≤ max 1048576 (4 * max (length self.new.entries.items) (length variables.new.items)))) }
    {
        if self.entries.len() < self.most {
            return Ok(());
        }
        let mut entries = Vec::new(alloc);
        let mut moved = Vec::with_capacity(alloc, variables.len())?;
        for known in variables.as_slice() {
            let mut variable = *known;
            if let Accesses::Waiting(newest) = known.accesses {
                self.gather(alloc, newest)?;
                let place = put_all(&mut entries, self.gathered.as_slice())?;
                variable.accesses = Accesses::Waiting(place);
            }
            moved.push(variable)?;
        }
        if entries.len() < self.entries.len() {
            self.entries = entries;
            *variables = moved;
        }
        let left = self.entries.len().max(variables.len());
        self.most = left.saturating_mul(ENTRIES_TIMES).max(ENTRIES);
        Ok(())
    }
}
