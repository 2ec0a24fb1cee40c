//! A trace whose variables are told apart.

ghost use Rattle.std.specs.Prelude.{◌≡◌};
ghost use Rattle.shb_stamps.specs.Settling.{AreOpen};

use shb_discipline::Disciplined;
use shb_links::Links;

/// A trace with its links, and a flag for each of its variables. That a variable whose flag is false has no race is
/// part of the type.
#[derive(Drop)]
pub struct Settled<'a> {
    pub disciplined: &'a Disciplined<'a>,
    pub links: &'a Links<'a>,
    /// Which variables are open.
    pub flags: &'a [bool],
    pub ghost of_trace: { links.now ≡ disciplined.now.events.now },
    pub ghost settled: { AreOpen disciplined.now.events.now flags.now },
}

impl<'a> Settled<'a> {
    /// A trace, its links, and these flags of its variables.
    pub fn new(
        disciplined: &'a Disciplined<'a>,
        links: &'a Links<'a>,
        flags: &'a [bool],
    ) -> Settled<'a>
        requires of_trace { links.now ≡ disciplined.now.events.now }
        requires settled { AreOpen disciplined.now.events.now flags.now }
        ensures { result.disciplined.now ≡ disciplined.now }
    {
        Settled {
            disciplined,
            links,
            flags,
        }
    }
}
