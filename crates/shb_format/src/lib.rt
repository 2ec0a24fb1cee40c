//! What a report is, and its text: this project's report format, its counts and places.
//!
//! A report is the head, the places, a block for each race of the race list in order, and the tail.
//! Places are the pairs of locations of the races: [`places_of`] finds them. Each of the four parts
//! has a call that writes it into any sink. A call puts its text together in a buffer of 256 bytes and
//! sends that when it is full and at the end; it takes no memory. [`scheduled_block`] copies the
//! runs of a schedule out of one text of all numbers, [`NumberTexts`], which is made once.
//!
//! Where no trace is kept, the same text is written of names: the places by [`named_place_lines`], and the block of a race
//! by [`access_block`], of what its two lines are made of.
#![tactic(auto)]

mod counts;
pub mod laws;
mod locations;
mod places;
mod writing;

pub use counts::Counts;
pub use locations::Locations;
pub use places::{PlaceCount, PlaceTable, Places, places_of};
pub use writing::{
    AccessText, NumberTexts, access_block, block, head, named_place_lines, numbered_line,
    place_lines, scheduled_block, tail,
};
