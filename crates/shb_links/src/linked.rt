//! A trace with its links.

ghost use Rattle.std.specs.Prelude.{◌≡◌, ◌≤◌, length};
ghost use Rattle.shb_lines.specs.events.Discipline.{IsDisciplined};
ghost use Rattle.shb_lines.specs.events.Sizes.{IsNumberedByAccess, IsWithin};
ghost use Rattle.shb_lines.proofs.events.Propositions.{IsDisciplined-prop, IsNumberedByAccess-prop, IsWithin-prop};
ghost use Rattle.shb_lines.specs.text.Limits.{most_events};

use crate::links::Links;
use shb_discipline::Disciplined;
use shb_lines::{Events, Sizes};

/// The events of a disciplined trace with their links. What a [`Disciplined`] says of its events is
/// part of the type, and so is that the links are those of these events: a function that takes one
/// has no condition on the two. It borrows both, and can be copied.
#[derive(Clone, Copy)]
pub struct Linked<'a> {
    /// The events, in the order of the trace.
    pub events: &'a Events,
    /// How many threads, locks and variables the trace names.
    pub sizes: Sizes,
    /// The links of the events: local time, predecessor, last write.
    pub links: &'a Links<'a>,
    pub ghost of_links: { links.now ≡ events.now },
    pub ghost few: { length events.now ≤ most_events },
    pub ghost within: { IsWithin events.now sizes } by { IsWithin-prop events.now sizes },
    pub ghost numbered: { IsNumberedByAccess events.now } by { IsNumberedByAccess-prop events.now },
    pub ghost meets: { IsDisciplined events.now } by { IsDisciplined-prop events.now },
}

impl<'a> Linked<'a> {
    /// A trace with its links.
    pub fn new(disciplined: &'a Disciplined<'a>, links: &'a Links<'a>) -> Linked<'a>
        requires linked { links.now ≡ disciplined.now.events.now }
        ensures events { result.events.now ≡ disciplined.now.events.now }
        ensures sizes { result.sizes ≡ disciplined.now.sizes }
    {
        Linked {
            events: disciplined.events,
            sizes: disciplined.sizes,
            links,
        }
    }
}
