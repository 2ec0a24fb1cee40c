//! A trace with its links and an order of it.

ghost use Rattle.std.specs.Prelude.{◌≡◌};

use crate::order::Order;
use shb_discipline::Disciplined;
use shb_links::Links;

/// What the analysis of a trace goes by: the trace, the links of its events, and an order of it. That
/// the links and the order are of this trace is part of the type, so a function that takes one has no
/// condition on the three.
#[derive(Drop)]
pub struct Ordered<'a, O: Order> {
    /// How far each thread is SHB-below the predecessor of an event.
    pub order: &'a O,
    /// The trace, which keeps the discipline of locks, forks and joins.
    pub disciplined: &'a Disciplined<'a>,
    /// The links of its events: local time, predecessor, last write.
    pub links: &'a Links<'a>,
    pub ghost of_trace: { O.trace order.now ≡ disciplined.now.events.now },
    pub ghost linked: { links.now ≡ disciplined.now.events.now },
}

impl<'a, O: Order> Ordered<'a, O> {
    /// A trace, its links and an order of it.
    pub fn new(
        order: &'a O,
        disciplined: &'a Disciplined<'a>,
        links: &'a Links<'a>,
    ) -> Ordered<'a, O>
        requires of_trace { O.trace order.now ≡ disciplined.now.events.now }
        requires linked { links.now ≡ disciplined.now.events.now }
        ensures disciplined { result.disciplined.now ≡ disciplined.now }
        ensures order { result.order.now ≡ order.now }
    {
        Ordered {
            order,
            disciplined,
            links,
        }
    }
}
