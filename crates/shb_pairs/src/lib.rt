//! The races of a trace: the race test, the accesses of each variable, and the search for all races
//! in pieces of work. Everything is generic in the order.
//!
//! All of it is for users of the library alone: a run searches by `shb_lists` and `shb_scan`. [`accesses_of`] collects the
//! accesses of each variable in one pass; [`pieces`] cuts each list into pieces of at most 64; [`PairJob`] is the job over
//! them, whose piece has the races with the later access among its accesses. It compares each access with all accesses of
//! its variable before it, by [`is_race`].
#![tactic(auto)]

mod accesses;
mod job;
pub mod laws;

pub use accesses::{Accesses, Piece, accesses_of, pieces};
pub use job::{PairJob, is_race};
