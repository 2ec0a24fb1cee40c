//! The accesses of open variables in the order of the race list.

ghost use Rattle.std.specs.Prelude.{◌≡◌, ℕ, Bool, List, IfOk, length, map};
ghost use Rattle.shb_lines.specs.declared.event.Event.{Event};
ghost use Rattle.shb_stamps.specs.Accesses.{races_with};
ghost use Rattle.shb_counts.specs.Accesses.{AreAccesses};
ghost use Rattle.shb_lists.specs.Found.{AreListed, AreVariables, access_in};

use shb_counts::{Access, Accesses};
use shb_io::NoMemory;
use std::alloc::Global;

/// An access, with how many races it is the later one of. They are ordered by variable, then by event.
#[derive(Clone, Copy, PartialEq, Eq, PartialOrd, Ord)]
pub struct ListedAccess {
    pub variable: u32,
    pub event: u32,
    pub thread: u32,
    /// The number of its location.
    pub location: u32,
    pub races: u32,
    pub writes: bool,
}

impl ListedAccess {
    /// An access that has so many races.
    fn new(access: Access, races: u32) -> ListedAccess
        ensures access { access_in result ≡ access }
        ensures races { result.races ≡ races }
    {
        ListedAccess {
            variable: access.variable,
            event: access.event,
            thread: access.thread,
            location: access.location,
            races,
            writes: access.writes,
        }
    }

    /// The access alone.
    pub(crate) fn access(self) -> Access
        ensures { result ≡ access_in self }
    {
        Access {
            variable: self.variable,
            location: self.location,
            writes: self.writes,
            event: self.event,
            thread: self.thread,
        }
    }
}

/// Some accesses, each with a number of races.
fn with_races(alloc: Global, list: &[Access], races: &[u32]) -> Result<Vec<ListedAccess>, NoMemory>
    requires { length races.now ≡ length list.now }
    ensures accesses { IfOk result (λ listed. map access_in listed.items ≡ list.now) }
    ensures races { IfOk result (λ listed. map (λ access. access.races) listed.items ≡ races.now) }
{
    let mut listed = Vec::with_capacity(alloc, list.len())?;
    for k in 0..list.len() {
        listed.push(ListedAccess::new(list[k], races[k]))?;
    }
    Ok(listed)
}

/// The accesses of open variables in the order of the race list, if each of their list has so many races.
///
/// # Errors
///
/// `NoMemory` where a growth was refused.
pub fn accesses_by_event(
    alloc: Global,
    accesses: &Accesses,
    races: &[u32],
) -> Result<Vec<ListedAccess>, NoMemory>
    requires { length races.now ≡ length accesses.now.list.items }
    ensures { (trace : List Event) (flags : List Bool) (numbers : List ℕ) (variables : ℕ) → AreAccesses trace flags numbers accesses.now
        → races.now ≡ map (λ access. length (races_with trace access.event)) accesses.now.list.items → AreVariables trace variables
        → IfOk result (λ listed. AreListed trace flags numbers variables listed.items) }
{
    let mut listed = with_races(alloc, accesses.list.as_slice(), races)?;
    listed.sort_unstable();
    Ok(listed)
}
