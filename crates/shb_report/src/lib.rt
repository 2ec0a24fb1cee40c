//! Reports: their text, written and read, and what makes one good for a trace.
//!
//! This crate hands on three, so that who works with reports needs one name: `shb_format` writes them, `shb_reading` reads them,
//! and `shb_judging` judges one that was read. They are three so that an edit of one has not the others proved again; those
//! calls of `shb_reading` that read a report part by part stay there.
#![tactic(auto)]

pub use shb_format::{
    Counts, Locations, NumberTexts, PlaceCount, PlaceTable, Places, block, head, numbered_line,
    place_lines, places_of, scheduled_block, tail,
};
pub use shb_judging::{RaceFault, Verdict, check_report, judge_report, verdict_line};
pub use shb_reading::{Report, ReportError, read_report, read_report_within};
