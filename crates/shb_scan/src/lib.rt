//! The nearest race of each place of a trace, from one pass over its events, and their list report.
//!
//! [`read_scan`] reads a source once: a line at a time is taken (`EventReader` of `shb_lines`), its event is judged
//! (`State` of `shb_discipline`) and searched for races (`NearestRaces` of `shb_nearest`), and then forgotten. What is
//! left is a `FoundScan`: the nearest races, of each place or of each place and variable, with their places, and the
//! names behind their numbers. [`write_found`] writes their list report. [`run_scan`] does both, and has the theorem as
//! its contract. [`nearest_races`] finds the same races in a trace whose events are kept.
#![tactic(auto)]

mod errors;
pub mod laws;
mod reading;
mod scan;
mod stored;
mod writing;

pub use errors::{ScanError, scan_line, scan_message, status_of_scan};
pub use reading::read_scan;
pub use scan::run_scan;
pub use stored::nearest_races;
pub use writing::write_found;
