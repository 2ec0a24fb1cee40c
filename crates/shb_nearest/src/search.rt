//! The nearest race of each place, event by event.

ghost use Rattle.std.specs.Prelude.{◌≡◌, ◌+◌, ◌++◌, ◌∷◌, [], List, IfOk, OnOk};
ghost use Rattle.shb_lines.specs.declared.event.Event.{Event};
ghost use Rattle.shb_lines.specs.events.Discipline.{IsDisciplined};
ghost use Rattle.shb_nearest.specs.Searched.{AreNearestRaces, AreTables, HasRoom, HasSearched, IsNextEvent};
ghost use Rattle.shb_nearest.specs.Found.{IsInOrder};
ghost use Rattle.shb_nearest.specs.declared.access.Spot.{Spot as SpotData};

use crate::access::{FoundAccess, FoundRace, Spot};
use crate::tables::Tables;
use shb_io::NoMemory;
use shb_lines::{Op, Step};
use shb_stamps::StreamClocks;
use std::alloc::Global;
use std::random::RandomSource;

/// What is known of the races of a stream after some events.
#[derive(Drop)]
pub struct NearestRaces {
    clocks: StreamClocks,
    /// How many events were taken.
    events: u32,
    /// Whether places are told apart by their variable too.
    by_variable: bool,
    tables: Tables,
}

/// Takes an event into the tables, if its operation is an access, which is given.
fn take_event(
    tables: &mut Tables,
    alloc: Global,
    clocks: &StreamClocks,
    by_variable: bool,
    op: Op,
    access: FoundAccess,
) -> Result<(), NoMemory>
    ensures { (past : List Event) (e : Event) (spots : List SpotData) → IsNextEvent past e spots clocks.now op access
        → AreTables by_variable (past ++ e ∷ []) spots access.event tables.old → OnOk result (AreTables by_variable (past ++ e ∷ []) spots (access.event + 1) tables.new) }
{
    match op.variable() {
        Some(variable) => {
            tables.take(alloc, clocks, by_variable, variable, access)?;
            Ok(())
        }
        None => Ok(()),
    }
}

/// Some races by their later events, then by their earlier ones.
fn in_order(races: Vec<FoundRace>) -> Vec<FoundRace>
    ensures { IsInOrder races.items result.items }
{
    let mut sorted = races;
    sorted.sort_unstable_by_key(|race| (race.second.event, race.first.event));
    sorted
}

impl NearestRaces {
    /// What is known before the first event. A place is two locations; with `by_variable`, and a variable.
    ///
    /// # Errors
    ///
    /// `NoMemory` where memory was refused, or where there were no random numbers for the tables.
    pub fn new<R: RandomSource>(
        rt: &R,
        alloc: Global,
        by_variable: bool,
    ) -> Result<NearestRaces, NoMemory>
        ensures searched { IfOk result (HasSearched [] []) }
        ensures form { IfOk result (λ search. search.by_variable ≡ by_variable) }
    {
        let clocks = StreamClocks::new(alloc)?;
        let tables = Tables::new(rt, alloc)?;
        Ok(NearestRaces {
            clocks,
            events: 0,
            by_variable,
            tables,
        })
    }

    /// Takes the next event of the stream. The spot of an event that is no access says nothing.
    ///
    /// # Errors
    ///
    /// `NoMemory` where a growth was refused. Nothing can be asked then.
    pub fn take(&mut self, alloc: Global, step: Step, spot: Spot) -> Result<(), NoMemory>
        ensures form { self.new.by_variable ≡ self.old.by_variable }
        ensures searched { (past : List Event) (spots : List SpotData) (e : Event) → e.thread ≡ step.thread → e.op ≡ step.op → HasRoom past
            → IsDisciplined (past ++ e ∷ []) → HasSearched past spots self.old
            → OnOk result (HasSearched (past ++ e ∷ []) (spots ++ spot ∷ []) self.new) }
    {
        let access = FoundAccess {
            event: self.events,
            thread: step.thread,
            writes: step.op.is_write(),
            spot,
        };
        take_event(
            &mut self.tables,
            alloc,
            &self.clocks,
            self.by_variable,
            step.op,
            access,
        )?;
        self.clocks.take(alloc, step.thread, step.op)?;
        self.events = self.events.saturating_add(1);
        Ok(())
    }

    /// The nearest race of each place, by its later event, then by its earlier one. The search stays as it is, so
    /// more events can be taken.
    ///
    /// # Errors
    ///
    /// `NoMemory` where memory was refused.
    pub fn races(&self, alloc: Global) -> Result<Vec<FoundRace>, NoMemory>
        ensures { (past : List Event) (spots : List SpotData) → HasSearched past spots self.now
            → IfOk result (λ races. AreNearestRaces self.now.by_variable past spots races.items) }
    {
        self.tables.places.are_different();
        let races = self.tables.places.to_races(alloc)?;
        let sorted = in_order(races);
        Ok(sorted)
    }
}
