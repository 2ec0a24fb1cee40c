//! What the words of a command line ask for, by `clap`, and the texts of help. It promises no more
//! than that it is safe and that no words at all are the list report of standard input by 4 workers;
//! what other words ask for is tested with the built program. It is a crate of its own so that no edit
//! elsewhere pays for `clap` again.
#![tactic(auto)]

mod command;
mod help;
mod plan;

pub use plan::{Plan, WordsFault, plan_of};
