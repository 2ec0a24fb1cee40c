//! The writing of a report of a trace, on some of its races or on all of them.
//!
//! [`write_races`] takes a list of races that gives them a part at a time (`RaceList` of `shb_lists`), and writes head,
//! places, the blocks of each part, and the tail. Without schedules workers make the texts of the blocks (`TextJob`), which
//! are written in order (`TextWriter`). With schedules workers make the pairs of a part (`PairsJob`) and then its schedules,
//! and a taker writes each block as soon as its schedule is there (`ScheduleWriter`). The sink is written by the caller's
//! thread alone and needn't be able to move.
#![tactic(auto)]

mod block_writer;
mod errors;
mod list;
mod pieces;
mod plan;
mod prepared;
mod report;
mod schedule_writer;
mod scheduled;
mod text;
mod text_writer;
mod texts;

pub use errors::WriteError;
pub use plan::BlockPlan;
pub use report::write_races;
