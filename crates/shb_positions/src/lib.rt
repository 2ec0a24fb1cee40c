//! Lists of positions, kept as runs of consecutive ones: 8 bytes a run. Contracts see a value as
//! the list of its positions, so only a caller that reads the runs knows of them.
#![tactic(auto)]

mod positions;

pub use positions::{Positions, Run};
