//! The exact check of one schedule: whether a list of events is a schedule of a pair, and if not,
//! the first index at which it isn't and why.
//!
//! One forward pass over the list, with a flag for each event that stands so far, a flag for each
//! thread of which a join stands, and the latest write of each variable. Four facts of the trace are
//! looked up beside: the last event of each thread, which the links have; and in tables of the judge the
//! predecessor of each event, the latest earlier release of the lock of each acquire, and the latest
//! earlier write of the variable of each read. One look-up each is exact, since where no index before has
//! a reason, each event that stands has all earlier ones of its thread before it; and an earlier release
//! by another thread stands before the acquire that came between. A [`Judge`] makes its tables once for a
//! trace, forgets a list by going over it again, and takes no memory for one.
#![tactic(auto)]

mod broken;
mod judging;
pub mod laws;
mod rules;
mod walked;

pub use broken::{Broken, Why};
pub use judging::{Judge, replay};
