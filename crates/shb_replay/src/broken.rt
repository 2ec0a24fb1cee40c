//! Why a list of events is no schedule of a pair.

/// Why a list of events is no schedule. At each index of the list the event there is judged by the
/// events at indices before it, here called earlier; of several reasons at one index the first in
/// this enum is answered. The reasons and their order are this project's own.
#[derive(Clone, Copy, Debug, PartialEq, Eq)]
pub enum Why {
    /// The number is no event of the trace.
    NoSuchEvent,
    /// The event stands earlier.
    Repeated,
    /// The event before it in its thread doesn't stand earlier.
    ThreadOrder,
    /// It is the first event of its thread, and the fork of that thread doesn't stand earlier.
    ForkMissing,
    /// It joins a thread of which some event doesn't stand earlier, or it forks a thread of which a
    /// join stands earlier.
    JoinEarly,
    /// It acquires a lock of which some release that comes before it in the trace doesn't stand
    /// earlier.
    LockOrder,
    /// It reads a variable whose latest earlier write in the list isn't its last write in the trace.
    LastWrite,
    /// No index has a reason above, but one of the two accesses isn't next after the list.
    NotNext,
}

/// The first index of a list at which it stops to be a schedule, and why.
#[derive(Clone, Copy, Debug, PartialEq, Eq)]
pub struct Broken {
    /// The index in the list, from 0; the length of the list for [`Why::NotNext`].
    pub at: usize,
    /// The first reason that the event there has.
    pub why: Why,
}
