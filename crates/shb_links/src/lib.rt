//! The links of a disciplined trace: the local time of each event, its predecessor, the
//! last write of each read, the fork of each thread, and which variables more than one thread accesses.
//!
//! One forward pass with two tables: the last event and the fork of each thread. Both are kept: by the
//! discipline nothing of a thread follows a join of it, so at a join the first tells the thread's last
//! event so far. Another pass finds the shared variables: it knows of each variable that no thread has
//! accessed it so far, or which one alone has, or that several have.
//!
//! Predecessors and last writes aren't kept: they are searched for in the trace when they are asked for.
//! A report asks for the two predecessors of each race whose schedule it has, and for no last write.
//!
//! [`Linked`] is a trace with its links, which the crates above hand on as one.
#![tactic(auto)]

mod linked;
mod links;
mod pass;
mod sharing;

pub use linked::Linked;
pub use links::{Links, links_of};
pub use pass::{empty_table, note_thread};
