//! The variables that may have a race, by one pass over a trace.

ghost use Rattle.std.specs.Prelude.{◌≡◌, ℕ, ◌+◌, ◌<◌, false, true, IfOk, IsTrue, length, map};
ghost use Rattle.shb_stamps.specs.Open.{is_open as is_open_in};
ghost use Rattle.shb_stamps.specs.Settling.{AreOpen, AreScreened};
ghost use Rattle.shb_stamps.specs.Screen.{is_unknown};

use crate::ordered::Ordered;
use crate::screen::Latest;
use crate::sweep::Sweep;
use shb_discipline::Disciplined;
use shb_io::NoMemory;
use shb_links::{Linked, Links};
use std::alloc::Global;

/// Whether a variable is open by these flags: it is unless its flag is false.
pub fn is_open(flags: &[bool], x: u32) -> bool
    ensures { result ≡ is_open_in flags.now x }
{
    match flags.get(x as usize) {
        Some(flag) => *flag,
        None => true,
    }
}

/// Takes the event at e into what is kept of its variable, if it accesses one.
fn screen(ordered: &Ordered<'_, Sweep<'_>>, table: &mut Vec<Latest>, e: u32)
    requires in_range { e < length ordered.now.disciplined.now.events.now }
    requires next { ordered.now.order.now ≡ record { trace = ordered.now.disciplined.now.events.now; next = e } }
    requires screened { AreScreened ordered.now.disciplined.now.events.now e
        ordered.now.disciplined.now.sizes.variables table.old.items }
    ensures { AreScreened ordered.now.disciplined.now.events.now (e + 1)
        ordered.now.disciplined.now.sizes.variables table.new.items }
{
    if let Some(x) = ordered.disciplined.events.op(e).variable() {
        let latest = table[x as usize];
        table[x as usize] = ordered.order.screen(latest);
    }
}

/// Which variables are open, by what is kept of each.
fn flags_of(alloc: Global, table: &[Latest]) -> Result<Vec<bool>, NoMemory>
    ensures { IfOk result (λ flags. flags.items ≡ map (λ latest. is_unknown latest.write) table.now) }
{
    let mut flags = Vec::with_capacity(alloc, table.len())?;
    for latest in table {
        flags.push(latest.may_race())?;
    }
    Ok(flags)
}

/// Which variables may have a race, a flag for each: where it is false, no pair of accesses of the
/// variable is a race. One pass over the trace with a [`Sweep`], which is asked twice for each access.
/// Beside what the sweep keeps, 16 bytes per variable, and one for its flag.
///
/// A variable is settled where one thread alone accesses it, or where, of each access, the last write
/// before it is SHB-below its predecessor and, where the access writes, so is the newest read since that
/// write, which those before it are ordered before. A flag may be true though no pair races: where reads
/// between two writes aren't ordered.
///
/// # Errors
///
/// `NoMemory` where memory was refused.
pub fn open_variables(
    alloc: Global,
    disciplined: &Disciplined<'_>,
    links: &Links<'_>,
) -> Result<Vec<bool>, NoMemory>
    requires of_trace { links.now ≡ disciplined.now.events.now }
    ensures { IfOk result (λ flags. AreOpen disciplined.now.events.now flags.items) }
{
    let mut table = vec![in alloc; Latest::none(); disciplined.sizes.variables as usize]?;
    let mut sweep = Sweep::new(alloc, Linked::new(&*disciplined, &*links))?;
    for e in 0..disciplined.events.len() as u32 {
        let ordered = Ordered::new(&sweep, &*disciplined, &*links);
        screen(&ordered, &mut table, e);
        sweep.pass(alloc)?;
    }
    flags_of(alloc, table.as_slice())
}

/// Whether one of the first variables is open.
pub fn any_open(flags: &[bool], variables: u32) -> bool
    ensures shut { result ≡ false → (x : ℕ) → x < variables → is_open_in flags.now x ≡ false }
    ensures some { IsTrue result → (x : ℕ) × (x < variables) × (is_open_in flags.now x ≡ true) }
{
    for x in 0..variables {
        if is_open(flags, x) {
            return true;
        }
    }
    false
}
