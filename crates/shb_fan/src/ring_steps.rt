//! What each step on the ring's table tells its seat.
use crate::job::Job;
use crate::ring_table::SeatView;
use atomic_table::{Join, Play, Split};
use std::marker::PhantomData;

/// An empty slot is claimed.
pub(crate) struct Claim;

impl<T, M> Play<Option<T>, SeatView<M>> for Claim {
    ghost use Rattle.shb_fan.specs.Slots.{claimed};

    ghost then = { claimed };
}

/// The value of a claimed piece is placed.
pub(crate) struct Place;

impl<T, M> Play<Option<T>, SeatView<M>> for Place {
    ghost use Rattle.shb_fan.specs.Slots.{placed};

    ghost then = { placed };
}

/// A placed value is lifted.
pub(crate) struct Lift<J> {
    job: PhantomData<J>,
}

impl<T: Drop, M, J: Job<Out = T, Meaning = M>> Play<Option<T>, SeatView<M>> for Lift<J> {
    ghost use Rattle.shb_fan.specs.Slots.{raised};

    ghost then = { raised J.meaning };
}

/// The slot of a lifted piece is freed.
pub(crate) struct Free;

impl<T, M> Play<Option<T>, SeatView<M>> for Free {
    ghost use Rattle.shb_fan.specs.Slots.{freed};

    ghost then = { freed };
}

/// One part is cut off.
pub(crate) struct CutSeat;

impl<M> Split<SeatView<M>> for CutSeat {
    ghost use Rattle.shb_fan.specs.Slots.{left_over, one_part};

    ghost left = { left_over };

    ghost right = { one_part };
}

/// Two seats are made one.
pub(crate) struct MergeSeats;

impl<M> Join<SeatView<M>> for MergeSeats {
    ghost use Rattle.shb_fan.specs.Slots.{joined, spent_seat_view};

    ghost both = { joined };

    ghost spent = { spent_seat_view };
}
