//! The ring and its seats.
ghost use Rattle.std.specs.Prelude.{◌≡◌};

use crate::job::Job;
use crate::ring_table::{SeatView, Slots};
use atomic_table::Table;
use std::alloc::Global;

/// One thread's seat at the ring.
#[derive(Drop)]
pub struct Seat<T, M> {
    pub(crate) place: atomic_table::Seat<Option<T>, SeatView<M>>,
}

/// The slots through which the results of a job's pieces pass, piece k by slot k % 64.
#[derive(Drop)]
pub struct Ring<T: Drop, M, J: Job<Out = T, Meaning = M>> {
    pub(crate) table: Table<Option<T>, SeatView<M>, J, Slots<J>, Global>,
    ghost sized: { (table.shared.table_id.words ≡ 64) × (table.shared.table_id.slots ≡ 64) },
}
