//! The races of a trace, listed: by the number of the variable, then by the later access, then by the earlier one.
//!
//! A [`RaceList`] gives the races of a report a part at a time, in this order. Kept ones it gives all at once. Else the races
//! are counted first (`shb_counts`), so it is known of each access how many races it has. The accesses that have some stand
//! in the order of the list (`by_event`), and a part has the races of some that follow each other: as many as have few
//! enough races together, or one. A sweep keeps what each of these knows, and workers find the races of pieces of them
//! (`find_job`): the windows of an access in the entries of its variable, sorted by event (`found`).
#![tactic(auto)]

mod by_event;
mod find_job;
mod found;
mod list;
mod listed;

pub use list::RaceList;
pub use listed::{ListedRace, pairs_of};
