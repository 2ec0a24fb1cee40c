//! The races of accesses, found one after the other.

ghost use Rattle.std.specs.Prelude.{◌≡◌, ◌≤◌, ◌++◌, ℕ, Bool, List, All, IfOk, OnOk, flat_map, length, map, slice_range, true};
ghost use Rattle.shb_lines.specs.events.Reach.{is_race, numbers_where};
ghost use Rattle.shb_stamps.specs.Accesses.{races_with};
ghost use Rattle.shb_stamps.specs.Listed.{is_listed};
ghost use Rattle.shb_counts.specs.Accesses.{AreAccesses};
ghost use Rattle.shb_lists.specs.Found.{CanBeFound, IsListed, races_of};
ghost use Rattle.shb_lists.specs.Listed.{pair_in, race_of};

use crate::by_event::ListedAccess;
use crate::listed::ListedRace;
use shb_counts::{Accesses, Entry, Finder, Window};
use shb_io::NoMemory;
use shb_stamps::ListedRows;
use std::alloc::Global;

/// Adds the events of some entries.
fn add_entries(entries: &[Entry], found: &mut Vec<u32>) -> Result<(), NoMemory>
    ensures { OnOk result (found.new.items ≡ found.old.items ++ map (λ entry. entry.event) entries.now) }
{
    for entry in entries {
        found.push(entry.event)?;
    }
    Ok(())
}

/// Adds the events of the entries in some windows.
fn add_windows(entries: &[Entry], windows: &[Window], found: &mut Vec<u32>) -> Result<(), NoMemory>
    requires { All (λ window. (window.start ≤ window.end) × (window.end ≤ length entries.now)) windows.now }
    ensures { OnOk result (found.new.items ≡ found.old.items ++ flat_map (λ window. map (λ entry. entry.event) (slice_range entries.now window.start window.end)) windows.now) }
{
    for window in windows {
        add_entries(&entries[window.start..window.end], found)?;
    }
    Ok(())
}

/// Adds the races of some events with a later one, which accesses this variable.
fn add_races(
    races: &mut Vec<ListedRace>,
    variable: u32,
    second: u32,
    firsts: &[u32],
) -> Result<(), NoMemory>
    ensures { OnOk result (races.new.items ≡ races.old.items ++ map (λ i. race_of variable second i) firsts.now) }
{
    for first in firsts {
        races.push(ListedRace {
            variable,
            second,
            first: *first,
        })?;
    }
    Ok(())
}

/// The events that race with an access and come before it, rising.
fn find_firsts(
    finder: &mut Finder<'_>,
    accesses: &Accesses,
    access: ListedAccess,
    found: &mut Vec<u32>,
) -> Result<(), NoMemory>
    requires kept { (flags : List Bool) × (numbers : List ℕ) × AreAccesses finder.old.order.now.trace flags numbers accesses.now × IsListed finder.old.order.now.trace flags numbers access }
    requires asked { is_listed finder.old.order.now.events access.event ≡ true }
    ensures found { OnOk result (found.new.items ≡ numbers_where (λ i. is_race finder.old.order.now.trace i access.event) access.event) }
    ensures order { finder.new.order.now ≡ finder.old.order.now }
{
    let entries = accesses.by_variable[access.variable as usize].against(access.writes);
    finder.look(entries, access.access())?;
    found.clear();
    add_windows(entries, finder.windows.as_slice(), found)?;
    found.sort_unstable();
    Ok(())
}

/// Finds the races of some accesses of open variables, in their order. The order has so many threads.
///
/// # Errors
///
/// `NoMemory` where a growth was refused.
pub fn find_races(
    alloc: Global,
    order: &ListedRows<'_>,
    accesses: &Accesses,
    list: &[ListedAccess],
    threads: u32,
) -> Result<Vec<ListedRace>, NoMemory>
    requires { (flags : List Bool) × (numbers : List ℕ) × CanBeFound order.now flags numbers accesses.now list.now }
    ensures { IfOk result (λ races. map pair_in races.items ≡ races_of order.now.trace list.now) }
{
    let mut finder = Finder::new(alloc, order, threads)?;
    let mut found = Vec::new(alloc);
    let mut races = Vec::new(alloc);
    for access in list {
        find_firsts(&mut finder, accesses, *access, &mut found)?;
        add_races(&mut races, access.variable, access.event, found.as_slice())?;
    }
    Ok(races)
}
