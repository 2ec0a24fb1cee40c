//! The table that the ring's seats share: word and slot k % 64 are those of piece k.
use crate::job::Job;
use atomic_table::TableRule;
use std::collections::LinkedList;
use std::marker::PhantomData;

/// What a seat knows. No value of it is made.
pub struct SeatView<M> {
    /// How many of the parts it stands for: none once it has joined another.
    pub parts: u64,
    /// The values of all pieces.
    pub wanted: LinkedList<M>,
    /// The pieces that it claimed and has not placed.
    pub claimed: LinkedList<u64>,
    /// The pieces that it placed.
    pub placed: LinkedList<u64>,
    /// The pieces that it lifted and has not freed.
    pub lifting: LinkedList<u64>,
    /// The pieces that it lifted.
    pub lifted: LinkedList<u64>,
}

/// The rule of the table. No value of it is made.
pub struct Slots<J> {
    job: PhantomData<J>,
}

impl<T: Drop, M, J: Job<Out = T, Meaning = M>> TableRule<Option<T>, SeatView<M>, J> for Slots<J> {
    ghost use Rattle.std.specs.Prelude.{[]};
    ghost use Rattle.shb_fan.specs.Values.{values_of};
    ghost use Rattle.shb_fan.specs.Slots.{KeepsSlots, seat_view};

    ghost holds = { λ job. KeepsSlots J.meaning (values_of (J.value job) (J.count job)) };

    ghost first = { λ job. seat_view 65 (values_of (J.value job) (J.count job)) [] [] [] [] };
}
