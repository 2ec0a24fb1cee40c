//! The discipline of locks, forks and joins, judged once by one forward pass, and handed on as a
//! type: a [`Disciplined`] is a trace that is known to meet it.
//!
//! A [`State`] holds for each lock its holder and depth, and for each thread whether it had an event,
//! was forked, was joined, in flat arrays by number, which grow as events name more of them. It answers
//! the lowest fault of an event, or takes note of the event; what it knows is said of the list of the
//! events so far. [`check`] asks it for each event of a trace, and a stream can be judged by it as well.
//!
//! [`laws`] ties this to the text: with what `parse` says, a fault found here is the first fault of
//! the text; without one the stop of `parse` is; without either no line has a fault.
#![tactic(auto)]

mod checking;
mod disciplined;
pub mod laws;
mod state;

pub use checking::{CheckError, check};
pub use disciplined::Disciplined;
pub use state::State;
