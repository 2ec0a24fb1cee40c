//! Orders of a trace: how far each thread is SHB-below the predecessor of an event.
//!
//! The trait [`Order`] has a call for one thread and one for all, and their contracts name paths of edges alone. An order says
//! about which events it can be asked. Two orders serve the run. [`Sweep`] goes over the trace once and can be
//! asked about the next event alone, so it keeps only what later events may need. [`ListedRows`] can be
//! asked about the events of a list, so it keeps rows for these alone, found by binary search. Orders that can be asked about each event are in
//! `shb_orders`, for tests. [`Ordered`] is a trace with its links and an order of it, which are of one
//! trace by its type. What is kept of a variable, its [`Latest`] write and read, tells of most accesses that they race with
//! none before them; the clocks of the next event are asked for that (`screen`). [`open_variables`] goes over the trace once,
//! with a sweep, and finds variables that can't race ("settled"): before each access the last write is SHB-below its
//! predecessor and, before a write, so is the newest read since, and before that the read before it. The others are open.
//!
//! A vector clock of a property of events has for each thread the number of its events, from the
//! first on, that have the property (`IsFrontBut`). Clocks are rows of one memory, and a row says
//! nothing of its own thread: the event's local time stands in when it is read. So an event at which its
//! thread learns nothing new shares the row before. A row of more than 512 entries may begin with chunks of 64, and
//! rows share the chunks in which they are equal (`row_list`): what threads that are joined one after the other
//! knew takes little more than what the last one did.
//!
//! `clocks` makes the rows in one forward pass, for a stored trace (`trace_clocks`) and for a stream
//! ([`StreamClocks`], which counts each thread's events besides). A stamp is a row, a thread and a local time, which
//! together are an event's clock; one is kept for the last release of each lock and the last write of each variable,
//! of a stored trace only where it is shared, and for each thread the row of what it knows. An acquire, a read or a
//! join asks whether its thread's row has the stamp's local time already, and adds a row only where it hasn't. A fork
//! adds the forked thread's first row. Where all that a thread knew is below a write that it reads, its new row is
//! the write's clock. The stamp of the write names that row from then on, so other readers take over its
//! number, and no row is made for them. Rows are never changed. When there are many, `moving` moves those
//! that these tables name to new ones, the last ones first, and frees the old ones meanwhile, so that both together
//! take little more than the old ones did. `KeptRows` copies the row before each listed event to rows that stay,
//! unless it is the last one that was copied for its thread.
#![tactic(auto)]

mod clock;
mod clocks;
pub mod laws;
mod listed_rows;
mod moving;
mod order;
mod ordered;
mod row;
mod row_list;
mod screen;
mod settling;
mod stamp;
mod stream_clocks;
mod sweep;
mod trace_clocks;

pub use listed_rows::{ListedRows, at_events};
pub use order::Order;
pub use ordered::Ordered;
pub use screen::{Epoch, Latest};
pub use settling::{any_open, is_open, open_variables};
pub use stream_clocks::StreamClocks;
pub use sweep::Sweep;
