//! From the text of a trace to the report of its races.
//!
//! [`run`] is four stages over any source and sink: read (`parse`), judge (`judge` of `shb_check`), find
//! the races (`RaceList` of `shb_lists`), and write them (`write_races` of `shb_write`, by workers). [`run_gated`] is the same with
//! gates for tests. Both have the main theorem as their contract. [`run_places`] is the same body, and
//! lists of each place the nearest race. [`check`], from a trace and a report to a verdict, is that of
//! `shb_check`, and so are the errors. [`run_scan`], from a source that is read once to the nearest race of
//! each place, is that of `shb_scan`.
#![tactic(auto)]

pub mod laws;
mod lists;
mod pipeline;
mod settings;

pub use pipeline::{run, run_gated, run_places};
pub use settings::{Settings, Summary};
pub use shb_check::{
    RaceFault, RunError, Verdict, check, exit_status, fault_line, status_of_check,
};
pub use shb_fan::{FreeGate, Gate, Workers};
pub use shb_scan::{ScanError, run_scan, scan_line, status_of_scan};
