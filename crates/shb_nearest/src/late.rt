//! Accesses that wait.

ghost use Rattle.std.specs.Prelude.{◌≡◌, ℕ, true, Contains, IfOk};
ghost use Rattle.shb_nearest.specs.Groups.{class_of};
ghost use Rattle.shb_nearest.specs.Late.{IsInstead, IsInsteadOne, access_in};
ghost use Rattle.shb_nearest.specs.declared.late.Late.{Late as LateData};

use crate::classes::{Class, Classes};
use crate::thresholds::ACCESSES_COMPARED;
use shb_io::NoMemory;

/// An access that comes to the groups, at once or later, in 20 bytes.
#[derive(Clone, Copy, Default)]
pub struct Late {
    pub event: u32,
    pub thread: u32,
    /// How many events its thread had, with this one.
    pub time: u32,
    pub location: u32,
    pub writes: bool,
    /// Whether its line has a second bar.
    pub barred: bool,
    /// Whether it is known to be after all accesses of its variable before it.
    pub after_all: bool,
}

impl Late {
    /// Its class, as an access of a variable.
    pub fn class(self, variable: u32) -> Class
        ensures { result ≡ class_of variable (access_in self) }
    {
        Class {
            variable,
            location: self.location,
            thread: self.thread,
            writes: self.writes,
        }
    }
}

/// Whether an access is enough instead of an earlier one of its variable: what races with that one races with this one at
/// the same place.
#[inline(always)]
pub fn is_instead(late: Late, earlier: Late) -> bool
    ensures { result ≡ true → IsInstead late earlier }
{
    if late.location != earlier.location || late.writes != earlier.writes {
        return false;
    }
    late.after_all || late.thread == earlier.thread
}

/// Whether one of these accesses is enough instead of an earlier one.
fn is_among(accesses: &[Late], late: Late) -> bool
    ensures { result ≡ true → IsInsteadOne accesses.now late }
{
    for one in accesses {
        let instead = is_instead(*one, late);
        if instead {
            return true;
        }
    }
    false
}

/// Whether the access that a table has of a class is enough instead of an earlier one, which else comes next to these
/// accesses and to the table.
fn is_in(
    accesses: &[Late],
    indices: &mut Classes,
    class: Class,
    late: Late,
) -> Result<bool, NoMemory>
    ensures { IfOk result (λ again. again ≡ true → IsInsteadOne accesses.now late) }
{
    let next = accesses.len().min(u32::MAX as usize) as u32;
    let at = indices.put(class, next)?;
    let Some(one) = accesses.get(at as usize) else {
        return Ok(false);
    };
    let again = is_instead(*one, late);
    if again {
        indices.put(class, at)?;
    }
    Ok(again)
}

/// Whether one of these accesses of a variable is enough instead of an earlier one, which comes next to them if none is. The
/// table has the indices of those that came here and aren't among the first few, by location and kind, with the thread and
/// without.
pub fn is_again(accesses: &[Late], indices: &mut Classes, late: Late) -> Result<bool, NoMemory>
    ensures { IfOk result (λ again. again ≡ true → IsInsteadOne accesses.now late) }
{
    let count = accesses.len();
    if count <= ACCESSES_COMPARED {
        let again = is_among(accesses, late);
        return Ok(again);
    }
    let (few, _) = accesses.split_at(ACCESSES_COMPARED);
    let again = is_among(few, late);
    if again {
        return Ok(true);
    }
    let of_all = Class {
        variable: 1,
        location: late.location,
        thread: 0,
        writes: late.writes,
    };
    let again = is_in(accesses, indices, of_all, late)?;
    if again {
        return Ok(true);
    }
    is_in(accesses, indices, late.class(0), late)
}
