//! Writes the parts of a report.
mod access_writer;
mod buffer;
mod held;
mod held_runs;
mod number_texts;
mod numbered;
mod place_writer;
mod writer;

pub use access_writer::{AccessText, access_block};
pub use number_texts::NumberTexts;
pub use numbered::numbered_line;
pub use place_writer::{named_place_lines, place_lines};
pub use writer::{block, head, scheduled_block, tail};
