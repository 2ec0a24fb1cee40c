//! Work shared out to threads by tickets, and its results in order through 64 slots.
//!
//! A [`Job`] is numbered pieces of work, each with a value that a definition names. [`Tickets`]
//! give out the numbers below a limit, each once, to passes. A [`Ring`] hands a result from the
//! thread that made it to the one that takes it: piece k by slot k % 64, with one word a slot that
//! says how far its piece is (4k empty, 4k + 1 claimed, 4k + 2 placed, 4k + 3 lifted, 4(k + 64)
//! freed). [`stream`] hands the values of all pieces to a [`Taker`] in order while workers run
//! pieces; [`gather`] is `stream` into a list.
//!
//! All that threads share is words and slots of two tables of `atomic_table`, each with a rule that
//! every single step keeps; there is no lock. `ticket_table` and `ring_table` are the two rules,
//! `ticket_steps` and `ring_steps` the kinds of step. [`machine`] is the same core without threads:
//! a state, the steps, and what holds after every list of allowed steps. `Tickets::close` says that
//! what the passes drew is a run of that machine; no record of what the threads did is kept for it.
//! `Ring::close` says of the pieces only what was placed and lifted. `stream` closes both once
//! its threads have ended (`crew`).
//!
//! How `stream` works: there is a pass and a seat for each worker and one for the caller. A worker
//! draws, runs, claims and places until there is no more, memory runs out or a stop is seen; the
//! caller's thread waits for each piece in order, lifts it and hands it on (`sides`: all at once).
//! Where nobody has drawn the piece that the caller waits for, it draws and makes that piece itself,
//! so nothing is waited for that nobody makes. A thread that waits lets others run for 20 turns and
//! then sleeps, for 1 to 256 microseconds; it wakes by time alone.
//!
//! Six arguments are made by no public clause:
//!
//! - Every piece was drawn once if `stream` succeeds: by `drawn` of the private `stream_to_close` as many numbers were
//!   drawn as there are pieces, and nobody stopped; `each_once` does the rest. That the workers drew from these tickets is
//!   by reading.
//! - Tickets and ring are closed on Ok: only `Tickets::end` makes the `DrawEnd` in that answer, and only `Ring::close`
//!   gives `drawn`. On an error it is by reading.
//! - An error of the caller's side comes only once its pass has stopped the draw or seen a stop (`stopped` of the private
//!   `take_all`, `worked` of `work_and_take`). How far the draw came isn't stated.
//! - No drawn piece is lost: who draws has placed all that it drew before (`CanDraw`, `HasEnded`, `CanTake`).
//! - A caller that sees a stop finds the refusal for it, which is put there before the draw is stopped. A wait that has
//!   seen a stop gets no slot and no result after it (`won` of the private `wait_to_claim`; `CanTake` of `wait_to_lift`).
//! - The start of a taker's results is the taker as it was handed to `stream` (`nothing`, `may_take`).
#![tactic(auto)]

mod crew;
mod gate;
mod gathered;
mod job;
pub mod machine;
mod pass;
mod ring;
mod ring_steps;
mod ring_table;
mod shares;
mod sides;
mod step;
mod streaming;
mod taker;
mod ticket_steps;
mod ticket_table;
mod tickets;
mod workers;

pub use gate::{FreeGate, Gate};
pub use gathered::gather;
pub use job::Job;
pub use pass::Pass;
pub use shares::{Ring, Seat};
pub use streaming::stream;
pub use taker::{StreamError, Taker};
pub use tickets::{Closed, Tickets};
pub use workers::Workers;
