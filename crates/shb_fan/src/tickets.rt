//! Numbers in order, each drawn once.
ghost use Rattle.std.specs.Prelude.{◌≡◌, ℕ, ◌+◌, ◌∷◌, ◌++◌, [], ◌<◌, ◌≤◌, ◌^◌, true, false, IsTrue, All, IfSome, IfNone, IfOk, None, replicate, length, sum_by, Any, ◌↔◌, IsFalse};
ghost use Rattle.std.specs.Vec.{vec_capacity};
ghost use Rattle.std.specs.List.Sorted.{IsStrictlyIncreasing};
ghost use Rattle.shb_fan.specs.Numbers.{times, once_below};
ghost use Rattle.shb_fan.specs.Passes.{fresh};
ghost use Rattle.shb_fan.specs.Turns.{IsMachineRun};

use crate::pass::Pass;
use crate::ticket_steps::{Cut, Draw, DrawThis, Look, Merge, See, StopDraw};
use crate::ticket_table::{Draws, PassView, Plan};
use atomic_table::Table;
use shb_io::NoMemory;
use std::alloc::Global;
use std::marker::Model;

const TICKET: usize = 0;

const STOP: usize = 1;

/// The numbers below a limit, in order.
#[derive(Drop)]
pub struct Tickets {
    table: Table<(), PassView, Plan, Draws, Global>,
    plan: Plan,
}

impl Model for Tickets {
    ghost use Rattle.std.specs.Prelude.{◌≡◌, ◌≤◌, ◌<◌, ◌^◌};
    ghost use Rattle.shb_fan.specs.Passes.{TicketSource, source_coded, source_of};

    ghost Value = { TicketSource };

    ghost coded = { source_coded };

    ghost view = { λ t. source_of t.table.shared.table_id t.plan };

    ghost invariant = { λ t. (t.table.shared.table_id.words ≡ 2) × (t.table.shared.table_id.slots ≡ 0)
        × (t.table.shared.key ≡ t.plan) × (0 < t.plan.passes) };
}

/// What is known once every pass has come back.
#[derive(Debug, Drop, Clone, Copy, PartialEq, Eq)]
pub struct Closed {
    /// The numbers that were drawn are those below it, each once.
    pub drawn: u64,
    /// Whether some pass stopped the draw.
    pub stopped: bool,
}

/// How the draw of some tickets ended. [`Tickets::end`] alone makes one, so who has one has closed tickets.
#[derive(Clone, Copy)]
pub(crate) struct DrawEnd {
    closed: Closed,
}

impl Tickets {
    /// Tickets for the numbers below `limit`, at most 2 to the 60th, and the 1 to 65 passes that draw them,
    /// in a list that has room for them again.
    /// `NoMemory` where memory was refused.
    pub fn new(alloc: Global, limit: u64, passes: u32) -> Result<(Tickets, Vec<Pass>), NoMemory>
        requires limit { limit ≤ 2 ^ 60 }
        requires passes { (1 ≤ passes) × (passes ≤ 65) }
        ensures { IfOk result (λ r. (r.0.limit ≡ limit) × (r.0.passes ≡ passes)
            × (r.1.items ≡ replicate passes (fresh r.0)) × (passes ≤ vec_capacity r.1)) }
    {
        let plan = Plan {
            limit,
            passes: u64::from(passes),
        };
        let (table, mut first) = Table::of_words(alloc, &[0, 0], &plan)?;
        let mut made = Vec::with_capacity(alloc, passes as usize)?;
        for _ in 1..passes {
            let seat = table.shared.split_seat::<Cut>(&mut first);
            made.push(Pass { seat, spent: false })?;
        }
        made.push(Pass {
            seat: first,
            spent: false,
        })?;
        Ok((Tickets { table, plan }, made))
    }

    /// The next number, above all that the pass drew, or `None` where there is no more or a stop was seen.
    /// After `None` the pass is spent, and draws nothing more.
    pub fn draw(&self, pass: &mut Pass) -> Option<u64>
        requires { pass.old.source ≡ self.now }
        ensures source { pass.new.source ≡ self.now }
        ensures halted { pass.new.halted ≡ pass.old.halted }
        ensures seen { pass.new.seen ≡ pass.old.seen }
        ensures some { IfSome result (λ k. (k < self.now.limit) × All (λ x. x < k) pass.old.drawn
            × (pass.new.drawn ≡ pass.old.drawn ++ k ∷ []) × (pass.new.spent ≡ false) × (pass.new.halted ≡ false)
            × (pass.new.seen ≡ false)) }
        ensures none { IfNone result ((pass.new.drawn ≡ pass.old.drawn) × (pass.new.spent ≡ true)) }
        ensures spent_stays { IsTrue pass.old.spent → (result ≡ None) × (pass.new ≡ pass.old) }
        ensures halted_gets_none { IsTrue pass.old.halted → result ≡ None }
        ensures seen_gets_none { IsTrue pass.old.seen → result ≡ None }
    {
        if pass.spent {
            return None;
        }
        let shared = &self.table.shared;
        let stop = shared.load::<See>(&mut pass.seat, STOP);
        let stopped = stop != 0;
        if stopped {
            pass.spent = true;
            return None;
        }
        let number = shared.fetch_add::<Draw>(&mut pass.seat, TICKET, 1);
        if number < self.plan.limit {
            Some(number)
        } else {
            pass.spent = true;
            None
        }
    }

    /// Asks every pass to stop. This one draws nothing more; what was drawn stays drawn.
    pub fn stop(&self, pass: &mut Pass)
        requires { pass.old.source ≡ self.now }
        ensures { pass.new ≡ record pass.old { halted = true } }
    {
        self.table.shared.store::<StopDraw>(&mut pass.seat, STOP, 1);
    }

    /// Whether a stop is seen: always by a pass that stopped the draw itself or has seen a stop before, and
    /// never while no pass has stopped the draw, as `close` says (`seen`). The pass keeps whether it has seen one.
    pub fn stopped(&self, pass: &mut Pass) -> bool
        requires { pass.old.source ≡ self.now }
        ensures seen { pass.new ≡ record pass.old { seen = result } }
        ensures again { IsTrue pass.old.seen → IsTrue result }
        ensures halted { IsTrue pass.old.halted → IsTrue result }
    {
        self.table.shared.load::<Look>(&mut pass.seat, STOP) != 0
    }

    /// One try to draw this number, which is won only while it is the next. Says whether it was; else nothing changes.
    pub(crate) fn draw_this(&self, pass: &mut Pass, number: u64) -> bool
        requires source { pass.old.source ≡ self.now }
        requires number { (number < self.now.limit) × (number < 2 ^ 60) }
        ensures won { IsTrue result → All (λ x. x < number) pass.old.drawn
            × (pass.new ≡ record pass.old { drawn = pass.old.drawn ++ number ∷ [] }) }
        ensures lost { IsFalse result → pass.new ≡ pass.old }
    {
        self.table
            .shared
            .compare_exchange::<DrawThis>(&mut pass.seat, TICKET, number, number + 1)
            == number
    }

    /// Ends the draw, once all passes have come back, and says how far it came.
    pub fn close(self, mut passes: Vec<Pass>) -> Closed
        requires all { length passes.items ≡ self.passes }
        requires ours { All (λ p. p.source ≡ self) passes.items }
        ensures each_once { (x : ℕ) → sum_by (λ p. times x p.drawn) passes.items ≡ once_below x result.drawn }
        ensures rising { All (λ p. IsStrictlyIncreasing p.drawn) passes.items }
        ensures few { result.drawn ≤ self.limit }
        ensures stopped { IsTrue result.stopped ↔ Any (λ p. IsTrue p.halted) passes.items }
        ensures seen { Any (λ p. IsTrue p.seen) passes.items → IsTrue result.stopped }
        ensures machine { IsMachineRun self.limit passes.items result.drawn result.stopped }
        ensures ended { IsFalse result.stopped → Any (λ p. IsTrue p.spent) passes.items → result.drawn ≡ self.limit }
    {
        let Tickets { table, plan } = self;
        let Some(first) = passes.pop() else {
            unreachable!()
        };
        let Pass { mut seat, spent: _ } = first;
        while let Some(pass) = passes.pop() {
            let Pass {
                seat: other,
                spent: _,
            } = pass;
            table.shared.join_seat::<Merge>(&mut seat, other);
        }
        let words = table.close_with(seat);
        let ticket = words.word(TICKET);
        let stop = words.word(STOP);
        words.free();
        Closed {
            drawn: ticket.min(plan.limit),
            stopped: stop != 0,
        }
    }

    /// What `close` does, and the evidence of it.
    pub(crate) fn end(self, passes: Vec<Pass>) -> DrawEnd
        requires all { length passes.items ≡ self.passes }
        requires ours { All (λ p. p.source ≡ self) passes.items }
        ensures each_once { (x : ℕ) → sum_by (λ p. times x p.drawn) passes.items ≡ once_below x result.closed.drawn }
        ensures few { result.closed.drawn ≤ self.limit }
        ensures stopped { IsTrue result.closed.stopped → Any (λ p. IsTrue p.halted) passes.items }
    {
        DrawEnd {
            closed: self.close(passes),
        }
    }
}
