//! The races of some accesses, counted by place.

ghost use Rattle.std.specs.Prelude.{◌≡◌, ◌<◌, ◌≤◌, ◌++◌, ◌∷◌, [], All, IfOk, List, OnOk, ℕ, Bool, true, flat_map, length, map, slice_range};
ghost use Rattle.shb_lines.specs.declared.event.Event.{Event};
ghost use Rattle.shb_lines.specs.declared.event.Pair.{Pair};
ghost use Rattle.shb_stamps.specs.Accesses.{races_with};
ghost use Rattle.shb_counts.specs.Accesses.{IsEntry};
ghost use Rattle.shb_counts.specs.Covers.{HasCovered, IsAt, racing_pairs};
ghost use Rattle.shb_counts.specs.Runs.{AreCountable, AreLike, HasAdded, IsLike, IsRun, IsSummed, MayCover, race_of};
ghost use Rattle.shb_counts.specs.Sums.{AreSumsOf, IsCounted, pairs_of};
ghost use Rattle.shb_counts.specs.Windows.{AreWindows};

use crate::accesses::{Access, Accesses, Entry};
use crate::cover::Cover;
use crate::finder::{Finder, Window};
use crate::sums::{PlaceSum, SumTable};
use shb_io::NoMemory;
use shb_stamps::ListedRows;
use std::alloc::Global;

/// What is counted of some accesses.
#[derive(Drop)]
pub struct Counted {
    /// How many races each of them has.
    pub races: Vec<u32>,
    /// Their sums by place.
    pub sums: Vec<PlaceSum>,
}

/// The sums of races by place, while a run is counted: of accesses of one variable, location and kind.
#[derive(Drop)]
struct RunSums {
    table: SumTable,
    /// The accesses of the run that have many races.
    cover: Option<Cover>,
}

/// Whether an access has so few races that they are counted one by one: as many as the accesses of its run share, or a few
/// for each window.
fn are_few(races: usize, entries: usize, accesses: usize, windows: usize) -> bool {
    races <= windows.saturating_mul(4) || races <= entries / accesses.max(1)
}

/// Adds the races of an access with the entries of a window, one by one.
fn add_window(
    table: &mut SumTable,
    entries: &[Entry],
    window: Window,
    access: Access,
) -> Result<(), NoMemory>
    requires forward { window.start ≤ window.end }
    requires within { window.end ≤ length entries.now }
    ensures { (trace : List Event) (numbers : List ℕ) (pairs : List Pair) → AreSumsOf trace numbers pairs table.old.sums.items
        → All (IsEntry trace numbers) entries.now → IsAt trace numbers access access.event
        → OnOk result (AreSumsOf trace numbers (pairs ++ map (race_of access.event) (slice_range entries.now window.start window.end)) table.new.sums.items) }
{
    for j in window.start..window.end {
        let entry = entries[j];
        table.add(PlaceSum {
            first: entry.location,
            second: access.location,
            variable: access.variable,
            later: access.event,
            earlier: entry.event,
            count: 1,
        })?;
    }
    Ok(())
}

/// Adds the races of an access with the entries of its windows, one by one.
fn add_windows(
    table: &mut SumTable,
    entries: &[Entry],
    windows: &[Window],
    access: Access,
) -> Result<(), NoMemory>
    requires { (trace : List Event) × AreWindows trace access.event entries.now windows.now }
    ensures { (trace : List Event) (numbers : List ℕ) (pairs : List Pair) → AreSumsOf trace numbers pairs table.old.sums.items
        → All (IsEntry trace numbers) entries.now → IsAt trace numbers access access.event → AreWindows trace access.event entries.now windows.now
        → OnOk result (AreSumsOf trace numbers (pairs ++ racing_pairs trace entries.now access.event) table.new.sums.items) }
{
    for window in windows {
        add_window(table, entries, *window, access)?;
    }
    Ok(())
}

/// The cover of a run, or a new one.
fn cover_of(alloc: Global, cover: Option<Cover>, entries: &[Entry]) -> Result<Cover, NoMemory>
    ensures { (trace : List Event) (events : List ℕ) → MayCover trace entries.now events cover → IfOk result (HasCovered trace entries.now events) }
{
    match cover {
        Some(cover) => Ok(cover),
        None => Cover::new(alloc, entries),
    }
}

impl RunSums {
    /// Adds the windows of an access to the cover.
    fn add_cover(
        &mut self,
        alloc: Global,
        entries: &[Entry],
        windows: &[Window],
        later: u32,
    ) -> Result<(), NoMemory>
        requires { (trace : List Event) × (events : List ℕ) × MayCover trace entries.now events self.old.cover × AreWindows trace later entries.now windows.now × All (λ e. e < later) events }
        ensures table { self.new.table ≡ self.old.table }
        ensures cover { (trace : List Event) (events : List ℕ) → MayCover trace entries.now events self.old.cover → AreWindows trace later entries.now windows.now → All (λ e. e < later) events
            → OnOk result (MayCover trace entries.now (events ++ later ∷ []) self.new.cover) }
    {
        let mut cover = cover_of(alloc, self.cover.take(), entries)?;
        cover.add(windows, later);
        self.cover = Some(cover);
        Ok(())
    }

    /// Adds the races of an access: one by one where they are few, else its windows to the cover.
    fn add(
        &mut self,
        alloc: Global,
        entries: &[Entry],
        windows: &[Window],
        access: Access,
        few: bool,
    ) -> Result<(), NoMemory>
        requires { (trace : List Event) × (numbers : List ℕ) × (pairs : List Pair) × (events : List ℕ) × HasAdded trace numbers entries.now pairs events self.old
            × AreWindows trace access.event entries.now windows.now × All (λ e. e < access.event) events }
        ensures { (trace : List Event) (numbers : List ℕ) (pairs : List Pair) (events : List ℕ) → HasAdded trace numbers entries.now pairs events self.old
            → AreWindows trace access.event entries.now windows.now → All (λ e. e < access.event) events → All (IsEntry trace numbers) entries.now → IsAt trace numbers access access.event
            → OnOk result (HasAdded trace numbers entries.now pairs (events ++ access.event ∷ []) self.new) }
    {
        if few {
            add_windows(&mut self.table, entries, windows, access)?;
            return Ok(());
        }
        self.add_cover(alloc, entries, windows, access.event)?;
        Ok(())
    }

    /// Adds what is in the cover to the table, at the end of a run that has an access like this one.
    fn finish(&mut self, entries: &[Entry], access: Access) -> Result<(), NoMemory>
        requires { (trace : List Event) × (numbers : List ℕ) × (pairs : List Pair) × (events : List ℕ) × HasAdded trace numbers entries.now pairs events self.old }
        ensures { (trace : List Event) (numbers : List ℕ) (pairs : List Pair) (events : List ℕ) → HasAdded trace numbers entries.now pairs events self.old
            → All (IsEntry trace numbers) entries.now → All (IsAt trace numbers access) events
            → OnOk result (IsSummed trace numbers (pairs ++ flat_map (racing_pairs trace entries.now) events) self.new) }
    {
        match self.cover.take() {
            None => Ok(()),
            Some(cover) => {
                cover.count(entries, access, &mut self.table)?;
                Ok(())
            }
        }
    }
}

/// Counts the races of a run.
fn count_run(
    alloc: Global,
    finder: &mut Finder<'_>,
    entries: &[Entry],
    run: &[Access],
    races: &mut Vec<u32>,
    sums: &mut RunSums,
) -> Result<(), NoMemory>
    requires some { 0 < length run.now }
    requires run { (numbers : List ℕ) × (pairs : List Pair) × IsRun finder.old.order.now numbers entries.now run.now × IsSummed finder.old.order.now.trace numbers pairs sums.old }
    ensures order { finder.new.order ≡ finder.old.order }
    ensures races { OnOk result (races.new.items ≡ races.old.items ++ map (λ access. length (races_with finder.old.order.now.trace access.event)) run.now) }
    ensures sums { (numbers : List ℕ) (pairs : List Pair) → IsRun finder.old.order.now numbers entries.now run.now → IsSummed finder.old.order.now.trace numbers pairs sums.old
        → OnOk result (IsSummed finder.old.order.now.trace numbers (pairs ++ pairs_of finder.old.order.now.trace run.now) sums.new) }
{
    for access in run {
        let found = finder.look(entries, *access)?;
        races.push(found as u32)?;
        let windows = finder.windows.as_slice();
        let few = are_few(found, entries.len(), run.len(), windows.len());
        sums.add(alloc, entries, windows, *access, few)?;
    }
    sums.finish(entries, run[0])?;
    Ok(())
}

/// Whether an access has the variable, location and kind of another.
fn is_like(one: Access, access: Access) -> bool
    ensures { result ≡ true → IsLike one access }
{
    access.variable == one.variable
        && access.location == one.location
        && access.writes == one.writes
}

/// Where the run ends that begins at an index.
fn run_end(list: &[Access], start: usize) -> usize
    requires { start < length list.now }
    ensures more { start < result }
    ensures within { result ≤ length list.now }
    ensures alike { AreLike list.now start result }
{
    let first = list[start];
    for end in start + 1..list.len() {
        if !is_like(first, list[end]) {
            return end;
        }
    }
    list.len()
}

/// Counts the races of some of the accesses that follow each other in the list, of a trace of so many threads and locations.
///
/// # Errors
///
/// `NoMemory` where a growth was refused.
pub fn count_races(
    alloc: Global,
    order: &ListedRows<'_>,
    accesses: &Accesses,
    list: &[Access],
    threads: u32,
    locations: u32,
) -> Result<Counted, NoMemory>
    requires { (flags : List Bool) × (numbers : List ℕ) × AreCountable order.now flags numbers accesses.now list.now }
    ensures { (flags : List Bool) (numbers : List ℕ) → AreCountable order.now flags numbers accesses.now list.now → IfOk result (IsCounted order.now.trace numbers list.now) }
{
    let mut finder = Finder::new(alloc, order, threads)?;
    let mut races = Vec::with_capacity(alloc, list.len())?;
    let mut sums = RunSums {
        table: SumTable::new(alloc, locations)?,
        cover: None,
    };
    let mut start = 0;
    while start < list.len() {
        let end = run_end(list, start);
        let first = list[start];
        let entries = accesses.by_variable[first.variable as usize].against(first.writes);
        count_run(
            alloc,
            &mut finder,
            entries,
            &list[start..end],
            &mut races,
            &mut sums,
        )?;
        start = end;
    }
    let RunSums { table, .. } = sums;
    let SumTable { sums, .. } = table;
    Ok(Counted { races, sums })
}
