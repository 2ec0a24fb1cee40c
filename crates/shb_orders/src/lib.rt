//! Orders that can be asked about each event of a trace. No run uses them: tests compare what they answer
//! with one another and with the orders of `shb_stamps`, and search races with them.
//!
//! [`PlainOrder`] has marks by a backward sweep over the edges, for small traces. [`FullClocks`] has a
//! vector clock for each event, made of what `Sweep` of `shb_stamps` answers. [`ClockVersions`] has the rows of
//! `at_events`, which are kept only where a thread learns of others, for all events; and it gives the local
//! times at which a thread may learn (its first event, an acquire, a join, a read that has a last write).
#![tactic(auto)]

mod clock_versions;
mod full_clocks;
mod plain_order;
mod row;

pub use clock_versions::{ClockVersions, versions};
pub use full_clocks::{FullClocks, full};
pub use plain_order::{PlainOrder, plain};
