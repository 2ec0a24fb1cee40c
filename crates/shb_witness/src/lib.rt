//! Schedules: for each race an order of events after which both accesses come next.
//!
//! A schedule has a *cut* for each thread, the greater of the order's two answers: it is all events up to these local times.
//! So it begins with all events before the first one that is past the cut of its thread, its *front* (`cuts`). What comes
//! after these is taken from the events of each thread ([`ThreadEvents`]) and sorted, or looked for among all events where
//! that is quicker (`schedules`). Take the events A1, B1, A2, A3, B2, C1, numbered by thread, with the cuts 3 for A, 0 for B and
//! 1 for C: the front is A1, and after it come A2, A3 and C1.
//!
//! [`schedule`] promises the printed schedule of a pair, and that it is a schedule of it. [`WitnessJob`] is the job whose
//! piece k is the schedule of race k, kept as runs of consecutive events.
//! [`order_of_races`] is an order for the schedules of some races alone.
#![tactic(auto)]

mod job;
pub mod laws;
mod schedules;
mod threads;

pub use job::{WitnessJob, order_of_races};
pub use schedules::schedule;
pub use threads::{ThreadEvents, thread_events};
