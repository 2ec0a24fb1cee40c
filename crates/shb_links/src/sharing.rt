//! Which variables are shared: accessed by more than one thread.

ghost use Rattle.std.specs.Prelude.{◌≡◌, ℕ, ◌+◌, ◌<◌, List, Some, IfOk, length, map};
ghost use Rattle.shb_lines.specs.declared.event.Event.{Event};
ghost use Rattle.shb_lines.specs.events.Events.{thread_at};
ghost use Rattle.shb_lines.specs.events.Race.{variable_at};
ghost use Rattle.shb_links.specs.Sharing.{AreOwners, HasShared, IsOwner, is_several};

use shb_discipline::Disciplined;
use shb_io::NoMemory;
use std::alloc::Global;

/// Which threads access a variable.
#[derive(Clone, Copy)]
enum Owner {
    /// None.
    Nobody,
    /// This one alone.
    One(u32),
    /// More than one.
    Several,
}

impl Owner {
    /// Who accesses a variable, when one more event, of this thread, accesses it.
    fn with(self, thread: u32) -> Owner
        ensures { (trace : List Event) (x e : ℕ) → variable_at trace e ≡ Some x → thread_at trace e ≡ Some thread
            → IsOwner trace x e self → IsOwner trace x (e + 1) result }
    {
        match self {
            Owner::Nobody => Owner::One(thread),
            Owner::One(first) if first == thread => self,
            _ => Owner::Several,
        }
    }

    fn is_several(self) -> bool
        ensures { result ≡ is_several self }
    {
        matches!(self, Owner::Several)
    }
}

/// Takes the event at e into what is known of its variable, if it is an access.
fn note_access(disciplined: &Disciplined<'_>, owners: &mut Vec<Owner>, e: u32)
    requires in_range { e < length disciplined.now.events.now }
    requires owners { AreOwners disciplined.now.events.now e disciplined.now.sizes.variables owners.old.items }
    ensures { AreOwners disciplined.now.events.now (e + 1) disciplined.now.sizes.variables owners.new.items }
{
    if let Some(x) = disciplined.events.op(e).variable() {
        let owner = owners[x as usize];
        owners[x as usize] = owner.with(disciplined.events.thread(e));
    }
}

/// A flag for each variable: whether several threads access it.
fn flags_of(alloc: Global, owners: &[Owner]) -> Result<Vec<bool>, NoMemory>
    ensures { IfOk result (λ flags. flags.items ≡ map is_several owners.now) }
{
    let mut flags = Vec::with_capacity(alloc, owners.len())?;
    for owner in owners {
        flags.push(owner.is_several())?;
    }
    Ok(flags)
}

/// Which variables are shared, a flag for each, by one pass over a trace. Eight bytes a variable while
/// it runs. `NoMemory` where memory was refused.
pub(crate) fn shared_variables(
    alloc: Global,
    disciplined: &Disciplined<'_>,
) -> Result<Vec<bool>, NoMemory>
    ensures { IfOk result (λ flags. HasShared disciplined.now.events.now flags.items) }
{
    let nobody = Owner::Nobody;
    let mut owners = vec![in alloc; nobody; disciplined.sizes.variables as usize]?;
    for e in 0..disciplined.events.len() as u32 {
        note_access(disciplined, &mut owners, e);
    }
    flags_of(alloc, owners.as_slice())
}
