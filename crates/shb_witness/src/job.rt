//! The schedules of races as work in pieces, and the order of a trace that they are made with.

ghost use Rattle.std.specs.Prelude.{◌≡◌, ℕ, IfSome, List, length, ◌↔◌, Contains, IfOk};
ghost use Rattle.shb_lines.specs.events.Race.{Race};
ghost use Rattle.shb_lines.specs.declared.event.Event.{Event};
ghost use Rattle.shb_lines.specs.declared.event.Pair.{Pair};
ghost use Rattle.shb_witness.specs.Schedules.{Asked, AreRaces, AsksEach, schedule_at, ends_of};
ghost use Rattle.shb_stamps.specs.Listed.{is_listed};

use crate::schedules::{schedule_alone, schedule_runs};
use crate::threads::ThreadEvents;
use shb_discipline::Disciplined;
use shb_fan::Job;
use shb_io::NoMemory;
use shb_lines::Pair;
use shb_links::{Linked, Links};
use shb_positions::Positions;
use shb_stamps::{ListedRows, Order, Ordered, at_events};
use std::alloc::Global;
use std::collections::LinkedList;
use std::marker::Model;

/// The events of some pairs.
fn events_of(alloc: Global, pairs: &[Pair]) -> Result<Vec<u32>, NoMemory>
    ensures { IfOk result (λ events. events.items ≡ ends_of pairs.now) }
{
    let mut events = Vec::new(alloc);
    for k in 0..pairs.len() {
        let pair = pairs[k];
        events.push(pair.first)?;
        events.push(pair.second)?;
    }
    Ok(events)
}

/// The order of a trace at the events of these races, which is what their schedules are made with.
/// Memory: at most 16 bytes and eight bytes a thread for each race, and while it is made the events
/// once more and what a [`Sweep`](shb_stamps::Sweep) takes.
///
/// # Errors
///
/// `NoMemory` where memory is refused; nothing is kept then.
pub fn order_of_races<'a>(
    alloc: Global,
    linked: Linked<'a>,
    races: &[Pair],
) -> Result<ListedRows<'a>, NoMemory>
    requires races { AreRaces linked.events.now races.now }
    ensures trace { IfOk result (λ order. order.trace ≡ linked.entry.events.now) }
    ensures events { (e : ℕ) → IfOk result (λ order. Contains order.events e ↔ Contains (ends_of races.now) e) }
    ensures asked { IfOk result (λ order. AsksEach (is_listed order.events) races.now) }
{
    let events = events_of(alloc, races)?;
    let order = at_events(alloc, linked, events.as_slice())?;
    Ok(order)
}

/// Makes the schedules of races: piece k is the printed schedule of race k, kept as runs. Contracts see it as the
/// trace and its races, which fix every schedule.
#[derive(Drop)]
pub struct WitnessJob<'a, O: Order> {
    ordered: Ordered<'a, O>,
    pairs: &'a [Pair],
    threads: Option<&'a ThreadEvents<'a>>,
}

impl<'a, O: Order> Model for WitnessJob<'a, O> {
    ghost Value = { Asked };

    ghost view = { λ j. record { trace = j.ordered.disciplined.now.events.now; races = j.pairs.now } };

    ghost invariant = { λ j. AreRaces j.ordered.disciplined.now.events.now j.pairs.now
        × IfSome j.threads (λ t. t.now ≡ j.ordered.disciplined.now.events.now)
        × AsksEach (O.asks j.ordered.order.now) j.pairs.now };
}

impl<'a, O: Order> WitnessJob<'a, O> {
    /// The work of making a schedule for each of these races. The order can be asked about their events.
    pub fn new(
        order: &'a O,
        disciplined: &'a Disciplined<'a>,
        links: &'a Links<'a>,
        pairs: &'a [Pair],
    ) -> Self
        requires of_trace { O.trace order.now ≡ disciplined.now.events.now }
        requires linked { links.now ≡ disciplined.now.events.now }
        requires races { AreRaces disciplined.now.events.now pairs.now }
        requires asked { AsksEach (O.asks order.now) pairs.now }
        ensures { result ≡ record { trace = disciplined.now.events.now; races = pairs.now } }
    {
        let ordered = Ordered {
            order,
            disciplined,
            links,
        };
        WitnessJob {
            ordered,
            pairs,
            threads: None,
        }
    }

    /// The same work, done quicker: the events of each thread of the trace aren't looked for anew for each race.
    pub fn with_thread_events(self, threads: &'a ThreadEvents<'a>) -> Self
        requires { threads.now ≡ self.trace }
        ensures { result ≡ self.entry }
    {
        WitnessJob {
            threads: Some(threads),
            ..self
        }
    }
}

impl<'a, O: Order> Job for WitnessJob<'a, O> {
    type Out = Positions;

    type Meaning = LinkedList<u32>;

    ghost meaning = { λ positions. positions };

    ghost value = { λ asked k. schedule_at asked.trace asked.races k };

    ghost count = { λ asked. length asked.races };

    fn pieces(&self) -> u64 {
        self.pairs.len() as u64
    }

    fn run(&self, alloc: Global, k: u64) -> Result<Positions, NoMemory> {
        match self.threads {
            Some(threads) => schedule_runs(alloc, &self.ordered, threads, self.pairs[k as usize]),
            None => schedule_alone(alloc, &self.ordered, self.pairs[k as usize]),
        }
    }
}
