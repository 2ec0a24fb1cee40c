//! From the texts of a trace and of a report to the verdict, and what a run and a check have in common.
//!
//! [`read_trace`] reads a text, and [`judge`] says of it what it is: a disciplined trace, or refused for its first
//! fault. [`check`] reads and judges the trace, then the report, and writes one line. [`RunError`] is
//! why there is no answer, for a run too; [`exit_status`] and [`fault_line`] word it.
#![tactic(auto)]

mod errors;
pub mod laws;
mod verdicts;

pub use errors::{RunError, exit_status, fault_line, status_of_check};
pub use shb_judging::{RaceFault, Verdict};
pub use verdicts::{check, judge, read_trace};
