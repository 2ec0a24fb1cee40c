//! Accesses added up by the entries that race with them.

ghost use Rattle.std.specs.Prelude.{◌≡◌, ◌+◌, ◌<◌, ◌≤◌, ◌^◌, ◌++◌, ◌∷◌, [], ℕ, All, IfOk, List, OnOk, Some, count_by, flat_map, length, replicate, slice_get, slice_index_or};
ghost use Rattle.shb_lines.specs.declared.event.Event.{Event};
ghost use Rattle.shb_lines.specs.declared.event.Pair.{Pair};
ghost use Rattle.shb_lines.specs.events.Reach.{is_race};
ghost use Rattle.shb_counts.specs.Accesses.{IsEntry};
ghost use Rattle.shb_counts.specs.Covers.{AreMarked, AreRuns, HasCovered, HasWindow, IsAt, IsEarliest, IsSized, IsStep, pairs_at, racing_pairs};
ghost use Rattle.shb_counts.specs.Sums.{AreSumsOf};
ghost use Rattle.shb_counts.specs.Windows.{AreWindows};

use crate::accesses::{Access, Entry};
use crate::finder::Window;
use crate::sums::{PlaceSum, SumTable};
use shb_io::NoMemory;
use std::alloc::Global;

/// How many accesses race with each entry, and the first of them. An access is added by its windows: a running sum over the
/// entries says how many windows have each of them, and what is covered already isn't passed again.
#[derive(Drop)]
pub struct Cover {
    /// How many windows start at each index.
    starts: Vec<u32>,
    /// How many windows end at each index.
    ends: Vec<u32>,
    /// By entry the first access that races with it. Since it comes later, it isn't 0; 0 is for none.
    first: Vec<u32>,
    /// Of each index, so many entries before it are known to be covered.
    runs: Vec<u32>,
}

/// So many zeros.
fn zeros(alloc: Global, count: usize) -> Result<Vec<u32>, NoMemory>
    ensures { IfOk result (λ v. v.items ≡ replicate count 0) }
{
    Ok(vec![in alloc; 0; count]?)
}

/// Goes back from an index: past the entries before it that are known to be covered, else past one, which is marked.
fn step_back(first: &mut [u32], runs: &[u32], at: usize, later: u32) -> usize
    requires runs { AreRuns first.old runs.now }
    requires within { at ≤ length first.old }
    requires some { 0 < at }
    requires positive { 0 < later }
    ensures { IsStep at later result first.old first.new }
{
    let covered = runs[at] as usize;
    if covered > 0 {
        return at - covered;
    }
    if first[at - 1] == 0 {
        first[at - 1] = later;
    }
    at - 1
}

/// Marks the entries of a window that aren't covered yet, and keeps that all of them are.
fn mark(first: &mut [u32], runs: &mut [u32], window: Window, later: u32)
    requires runs { AreRuns first.old runs.old }
    requires within { window.end ≤ length first.old }
    requires some { window.start < window.end }
    requires positive { 0 < later }
    ensures marked { AreMarked window.start window.end later first.old first.new }
    ensures runs { AreRuns first.new runs.new }
{
    let mut at = window.end;
    while at > window.start {
        at = step_back(first, runs, at, later);
    }
    runs[window.end] = u32::try_from(window.end - at).unwrap_or(0);
}

/// Adds the sum of the accesses that race with an entry, if there are any.
fn add_sum(
    table: &mut SumTable,
    entry: Entry,
    access: Access,
    first: u32,
    count: u64,
) -> Result<(), NoMemory>
    ensures { (trace : List Event) (numbers : List ℕ) (events : List ℕ) (pairs : List Pair) → IsEarliest trace events entry.event first
        → count ≡ count_by (λ e. is_race trace entry.event e) events → IsEntry trace numbers entry → All (IsAt trace numbers access) events
        → AreSumsOf trace numbers pairs table.old.sums.items
        → OnOk result (AreSumsOf trace numbers (pairs ++ pairs_at trace events entry) table.new.sums.items) }
{
    if count == 0 {
        return Ok(());
    }
    table.add(PlaceSum {
        first: entry.location,
        second: access.location,
        variable: access.variable,
        later: first,
        earlier: entry.event,
        count,
    })
}

impl Cover {
    /// Of no access, over these entries.
    ///
    /// # Errors
    ///
    /// `NoMemory` where memory is refused.
    pub fn new(alloc: Global, entries: &[Entry]) -> Result<Cover, NoMemory>
        ensures { (trace : List Event) → IfOk result (HasCovered trace entries.now []) }
    {
        Ok(Cover {
            starts: zeros(alloc, entries.len() + 1)?,
            ends: zeros(alloc, entries.len() + 1)?,
            first: zeros(alloc, entries.len())?,
            runs: zeros(alloc, entries.len() + 1)?,
        })
    }

    /// Adds a window.
    fn add_window(&mut self, window: Window, later: u32)
        requires sized { IsSized (length self.old.first.items) self.old }
        requires within { (window.start ≤ window.end) × (window.end ≤ length self.old.first.items) }
        requires positive { window.start < window.end → 0 < later }
        requires room { window.start < window.end → (slice_index_or self.old.starts.items window.start 0 + 1 < 2 ^ 32) × (slice_index_or self.old.ends.items window.end 0 + 1 < 2 ^ 32) }
        ensures { HasWindow window later self.old self.new }
    {
        if window.start >= window.end {
            return;
        }
        self.starts[window.start] += 1;
        self.ends[window.end] += 1;
        mark(
            self.first.as_mut_slice(),
            self.runs.as_mut_slice(),
            window,
            later,
        );
    }

    /// Adds the windows of an access, which comes after those that were added.
    pub fn add(&mut self, windows: &[Window], later: u32)
        requires { (trace : List Event) × (entries : List Entry) × (events : List ℕ) × HasCovered trace entries events self.old
            × AreWindows trace later entries windows.now × All (λ e. e < later) events }
        ensures { (trace : List Event) (entries : List Entry) (events : List ℕ) → HasCovered trace entries events self.old
            → AreWindows trace later entries windows.now → All (λ e. e < later) events → HasCovered trace entries (events ++ later ∷ []) self.new }
    {
        for window in windows {
            self.add_window(*window, later);
        }
    }

    /// Adds the races of the accesses with the entries to a table. The accesses have the variable and location of this one.
    ///
    /// # Errors
    ///
    /// `NoMemory` where a growth was refused.
    pub fn count(
        &self,
        entries: &[Entry],
        access: Access,
        table: &mut SumTable,
    ) -> Result<(), NoMemory>
        requires { (trace : List Event) × (events : List ℕ) × HasCovered trace entries.now events self.now }
        ensures { (trace : List Event) (numbers : List ℕ) (events : List ℕ) (pairs : List Pair) → HasCovered trace entries.now events self.now
            → All (IsEntry trace numbers) entries.now → All (IsAt trace numbers access) events → AreSumsOf trace numbers pairs table.old.sums.items
            → OnOk result (AreSumsOf trace numbers (pairs ++ flat_map (racing_pairs trace entries.now) events) table.new.sums.items) }
    {
        let mut covering = 0;
        for k in 0..entries.len() {
            covering += u64::from(self.starts[k]);
            covering -= u64::from(self.ends[k]);
            add_sum(table, entries[k], access, self.first[k], covering)?;
        }
        Ok(())
    }
}
