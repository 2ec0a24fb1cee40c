//! Judges a report against a trace.
//!
//! [`check_report`] judges a report that was read: its counts, its blocks with one judge, its places.
//! [`judge_report`] reads a report a block at a time and judges each once it is read. It keeps the
//! positions of one schedule, at most one more than the trace has events, and of the places at most
//! one more than the report has races. [`verdict_line`] writes what was said.
#![tactic(auto)]

mod checking;
mod judged;
pub mod laws;
mod text;
mod verdict;

pub use checking::check_report;
pub use text::judge_report;
pub use verdict::{RaceFault, Verdict, verdict_line};
