//! The passes and seats that a stream's threads have, made before it and taken back after it.
ghost use Rattle.std.specs.Prelude.{◌≡◌, ◌+◌, ◌<◌, ◌≤◌, [], false, All, IfOk, length};
ghost use Rattle.std.specs.Vec.{vec_capacity};
ghost use Rattle.shb_fan.specs.Passes.{fresh};
ghost use Rattle.shb_fan.specs.Seated.{IsNewSeat};
ghost use Rattle.shb_fan.specs.Streamed.{IsIdle, IsNew, HasWorked, HasAccounts, HasLifted, AreBack};

use crate::job::Job;
use crate::pass::Pass;
use crate::shares::{Ring, Seat};
use crate::tickets::{DrawEnd, Tickets};
use shb_io::NoMemory;
use std::alloc::Global;

/// One thread's pass and seat.
#[derive(Drop)]
pub(crate) struct Worker<T, M> {
    pub(crate) pass: Pass,
    pub(crate) seat: Seat<T, M>,
}

/// What the threads draw from, and what they hand results over by.
#[derive(Drop)]
pub(crate) struct Desk<T: Drop, M, J: Job<Out = T, Meaning = M>> {
    pub(crate) tickets: Tickets,
    pub(crate) ring: Ring<T, M, J>,
}

impl<T: Drop, M, J: Job<Out = T, Meaning = M>> Desk<T, M, J> {
    /// A worker of this desk for each pass. The seats that are left over stay.
    pub(crate) fn make_workers(
        &self,
        alloc: Global,
        passes: &mut Vec<Pass>,
        seats: &mut Vec<Seat<T, M>>,
    ) -> Result<Vec<Worker<T, M>>, NoMemory>
        requires passes { All (λ p. p ≡ fresh self.now.tickets) passes.old.items }
        requires seats { All (IsNewSeat J.value J.count self.now.ring) seats.old.items }
        requires count { length passes.old.items ≤ length seats.old.items }
        ensures workers { IfOk result (λ v. (length v.items ≡ length passes.old.items)
            × All (IsNew J.value J.count self.now.tickets self.now.ring) v.items) }
        ensures passes { IfOk result (λ _. (passes.new.items ≡ []) × (vec_capacity passes.new ≡ vec_capacity passes.old)) }
        ensures seats { IfOk result (λ _. All (IsNewSeat J.value J.count self.now.ring) seats.new.items
            × (length seats.new.items + length passes.old.items ≡ length seats.old.items)
            × (vec_capacity seats.new ≡ vec_capacity seats.old)) }
    {
        let mut workers = Vec::with_capacity(alloc, passes.len())?;
        while let Some(pass) = passes.pop() {
            let Some(seat) = seats.pop() else {
                unreachable!()
            };
            workers.push(Worker { pass, seat })?;
        }
        Ok(workers)
    }

    /// Takes the passes and seats of this desk's workers back, to those that were left over.
    pub(crate) fn take_back(
        &self,
        mut workers: Vec<Worker<T, M>>,
        passes: &mut Vec<Pass>,
        seats: &mut Vec<Seat<T, M>>,
    )
        requires workers { All (HasWorked J.value J.count self.now.tickets self.now.ring) workers.items }
        requires passes { (passes.old.items ≡ []) × (length workers.items < vec_capacity passes.old) }
        requires seats { All (IsNewSeat J.value J.count self.now.ring) seats.old.items
            × (length seats.old.items + length workers.items < vec_capacity seats.old) }
        ensures back { AreBack J.value J.count self.now.tickets self.now.ring passes.new.items seats.new.items }
        ensures passes { (length passes.new.items ≡ length workers.items) × (length passes.new.items < vec_capacity passes.new) }
        ensures seats { (length seats.new.items ≡ length seats.old.items + length workers.items)
            × (length seats.new.items < vec_capacity seats.new) }
    {
        while let Some(worker) = workers.pop() {
            let Worker { pass, seat } = worker;
            passes.push(pass).unwrap();
            seats.push(seat).unwrap();
        }
    }

    /// Ends the draw and the ring, once the caller's pass and seat have come back too, and says how far the
    /// draw came: where the caller lifted every piece, to the limit, and nobody stopped it.
    pub(crate) fn close_both(
        self,
        mut passes: Vec<Pass>,
        mut seats: Vec<Seat<T, M>>,
        own: Worker<T, M>,
    ) -> DrawEnd
        requires back { AreBack J.value J.count self.tickets self.ring passes.items seats.items }
        requires passes { (length passes.items + 1 ≡ self.tickets.passes) × (length passes.items < vec_capacity passes) }
        requires seats { (length seats.items + 1 ≡ 65) × (length seats.items < vec_capacity seats) }
        requires own { IsIdle J.value J.count self.tickets self.ring own }
        ensures { HasAccounts own → HasLifted own self.tickets.limit → (result.closed.drawn ≡ self.tickets.limit) × (result.closed.stopped ≡ false) }
    {
        let Worker { pass, seat } = own;
        let Desk { tickets, ring } = self;
        passes.push(pass).unwrap();
        seats.push(seat).unwrap();
        ring.close(seats);
        tickets.end(passes)
    }
}
