//! The number of the races of a trace, and their places, counted by workers.
#![tactic(auto)]

mod accesses;
mod counted;
mod cover;
mod finder;
mod job;
mod numbering;
mod places;
mod runs;
mod settled;
mod sums;

pub use accesses::{Access, Accesses, Entries, Entry};
pub use counted::{RaceCount, counted_races, turn_length};
pub use finder::{Finder, Window};
pub use settled::Settled;
