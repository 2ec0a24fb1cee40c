//! Which events conflict: accesses of one variable by different threads, at least one a write.
ghost use Rattle.std.specs.Prelude.{◌≡◌, ◌<◌, ◌↔◌, IsTrue, length};
ghost use Rattle.shb_lines.specs.events.Race.{Conflict};
ghost use Rattle.shb_lines.specs.events.Tests.{is_conflict_of};

use crate::event::Op;
use crate::stored::Events;
use crate::trace::Trace;

/// Whether two operations access one variable, and at least one of them writes it.
fn operations_conflict(first: Op, second: Op) -> bool
    ensures { result ≡ is_conflict_of first second }
{
    match (first.variable(), second.variable()) {
        (Some(x), Some(y)) => x == y && (first.is_write() || second.is_write()),
        _ => false,
    }
}

/// Whether two events of a trace's events conflict, by their numbers from 0: they access one variable,
/// their threads differ, and at least one of them writes (conflicting events as in the OOPSLA 2018 paper
/// of Mathur, Kini and Viswanathan).
pub fn events_conflict_at(events: &Events, first: u32, second: u32) -> bool
    requires first { first < length events.now }
    requires second { second < length events.now }
    ensures { IsTrue result ↔ Conflict events.now first second }
{
    operations_conflict(events.op(first), events.op(second))
        && events.thread(first) != events.thread(second)
}

/// Whether two events of a trace conflict, by their numbers from 0.
pub fn conflicts(trace: &Trace, first: u32, second: u32) -> bool
    requires first { first < length trace.now.events }
    requires second { second < length trace.now.events }
    ensures { IsTrue result ↔ Conflict trace.now.events first second }
{
    events_conflict_at(trace.events(), first, second)
}
