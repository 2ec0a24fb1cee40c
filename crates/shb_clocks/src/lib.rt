//! Orders of a trace: how far each thread is SHB-below the predecessor of an event. The trait [`Order`] and all its forms.
//!
//! This crate hands on two, so that who needs an order needs one name: `shb_stamps`, which has the trait and the orders that a
//! run makes, and `shb_orders`, whose orders ([`plain`], [`full`] and [`versions`]) can be asked about each event. They are two
//! so that an edit of one has not the other proved again.
#![tactic(auto)]

pub use shb_orders::{ClockVersions, FullClocks, PlainOrder, full, plain, versions};
pub use shb_stamps::{ListedRows, Order, Ordered, Sweep, at_events, is_open, laws};
