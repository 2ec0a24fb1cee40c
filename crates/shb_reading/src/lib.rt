//! Reads reports, of version 2 and of version 1, which has no places, both with schedules.
//!
//! [`read_report`] reads the source whole and then line by line, by a list of the forms of the lines
//! that are still expected (`specs/Forms.antt`); what was read is kept as spans of the text, and
//! numbers as they are. So the first bad line is the first at which no report goes on.
//!
//! A caller that needs each block only once reads a text part by part: [`read_head`],
//! [`read_places`], [`read_block`] for each race and [`read_tail`] each read on from a [`Position`],
//! which starts as `Position { start: 0, lines: 0 }`. What is kept of the numbers of a schedule is
//! said by a [`Keeping`].
//!
//! The modules, lowest first: `labels` (a label and a number at the front of bytes), `grammar` and
//! `schedule` (what one line says), `position` (which line is next), `lines` (reads the next line),
//! `entries` (reads the lines of a block or a place), `whole` (reads a text), `report` (the value).
#![tactic(auto)]

mod entries;
mod grammar;
mod keeping;
pub mod laws;
mod lines;
mod listed;
mod parts;
mod position;
mod report;
mod schedule;

pub use entries::{read_block, read_head, read_places, read_tail};
pub use keeping::Keeping;
pub use listed::{BlockLines, Section, bytes_in, lines_at, section_of};
pub use parts::PlaceEntry;
pub use position::{Position, ReadStop};
pub use report::{Report, ReportError, read_report, read_report_within};
