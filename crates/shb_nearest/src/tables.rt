//! What is known of the accesses of a stream: classes, groups and places.

ghost use Rattle.std.specs.Prelude.{◌≡◌, ◌+◌, ◌<◌, ◌++◌, ◌∷◌, [], Bool, List, IfOk, OnOk, length};
ghost use Rattle.shb_lines.specs.declared.event.Event.{Event};
ghost use Rattle.shb_nearest.specs.Groups.{AreGroups, IsRun, IsSince};
ghost use Rattle.shb_nearest.specs.Places.{ArePlaces};
ghost use Rattle.shb_nearest.specs.Rivals.{IsNextAccess};
ghost use Rattle.shb_nearest.specs.Searched.{AreMoreVariables, AreTables, HasRoom};
ghost use Rattle.shb_nearest.specs.Sites.{HasOffered, HaveSites};
ghost use Rattle.shb_nearest.specs.declared.access.Spot.{Spot as SpotData};

use crate::access::FoundAccess;
use crate::classes::Classes;
use crate::groups::{Groups, Run};
use crate::late::Late;
use crate::log::{Accesses, Log};
use crate::opened::Opened;
use crate::places::Places;
use crate::rivals::Rivals;
use shb_io::NoMemory;
use shb_stamps::{Epoch, Latest, StreamClocks};
use std::alloc::Global;
use std::random::RandomSource;

/// What is kept of a variable: where its accesses are, its run, and that by which most of its accesses are known to race
/// with none.
#[derive(Clone, Copy)]
pub struct Variable {
    pub accesses: Accesses,
    pub run: Run,
    pub latest: Latest,
}

/// An access that came to the groups of its variable, with the run before it and an earlier access of its class, or 0.
#[derive(Clone, Copy)]
struct Next {
    access: FoundAccess,
    run: Run,
    since: u32,
}

/// What is kept of each variable, the accesses, and the places that are found.
#[derive(Drop)]
pub struct Tables {
    pub variables: Vec<Variable>,
    pub log: Log,
    pub opened: Opened,
    pub places: Places,
    /// Those that race with an access while it is taken.
    pub rivals: Rivals,
}

/// Makes variables, so that there is one of this number.
fn make_space(variables: &mut Vec<Variable>, variable: u32) -> Result<(), NoMemory>
    ensures more { OnOk result (AreMoreVariables variables.old.items variables.new.items) }
    ensures wide { OnOk result (variable < length variables.new.items) }
{
    while variables.len() <= variable as usize {
        variables.push(Variable {
            accesses: Accesses::Waiting(0),
            run: Run {
                thread: 0,
                start: 0,
            },
            latest: Latest::none(),
        })?;
    }
    Ok(())
}

/// Offers the races of the next access with those that the groups of its variable keep, and lets these know of the places.
/// They have it already.
fn offer_races(
    places: &mut Places,
    rivals: &mut Rivals,
    clocks: &StreamClocks,
    by_variable: bool,
    groups: &mut Groups,
    next: Next,
) -> Result<(), NoMemory>
    ensures offered { (past : List Event) (e : Event) (spots : List SpotData) → IsNextAccess past e spots groups.old.variable clocks.now next.access
        → AreGroups (past ++ e ∷ []) spots groups.old.variable (next.access.event + 1) (next.access.event + 1) groups.old.each.items
        → IsRun (past ++ e ∷ []) groups.old.variable next.access.event next.run → IsSince (past ++ e ∷ []) spots groups.old.variable next.access next.since
        → ArePlaces by_variable (past ++ e ∷ []) spots next.access.event places.old.races.entries → HaveSites by_variable groups.old.variable places.old.races.entries groups.old
        → OnOk result (HasOffered by_variable (past ++ e ∷ []) spots (next.access.event + 1) places.old.races.entries places.new.races.entries groups.new) }
    ensures each { OnOk result (groups.new.each.items ≡ groups.old.each.items) }
    ensures own { OnOk result (groups.new.variable ≡ groups.old.variable) }
{
    rivals.find(clocks, next.run, &*groups, next.access, next.since)?;
    let found = rivals.found.as_slice();
    places.offer_all(by_variable, groups.variable, next.access, found)?;
    groups.learn(next.access.spot.location, found)?;
    Ok(())
}

impl Tables {
    /// No access.
    pub fn new<R: RandomSource>(rt: &R, alloc: Global) -> Result<Tables, NoMemory>
        ensures { (by_variable : Bool) (trace : List Event) (spots : List SpotData) → IfOk result (AreTables by_variable trace spots 0) }
    {
        let classes = Classes::new(rt, alloc)?;
        let places = Places::new(rt, alloc)?;
        let none = classes.emptied(alloc);
        Ok(Tables {
            variables: Vec::new(alloc),
            log: Log::new(alloc, none),
            opened: Opened::new(alloc, classes),
            places,
            rivals: Rivals::new(alloc),
        })
    }

    /// Takes an access of a variable, the next event of the stream. Places are told apart by their variable too, or aren't.
    pub fn take(
        &mut self,
        alloc: Global,
        clocks: &StreamClocks,
        by_variable: bool,
        variable: u32,
        access: FoundAccess,
    ) -> Result<(), NoMemory>
        ensures { (past : List Event) (e : Event) (spots : List SpotData) → HasRoom past → IsNextAccess past e spots variable clocks.now access
            → AreTables by_variable (past ++ e ∷ []) spots access.event self.old → OnOk result (AreTables by_variable (past ++ e ∷ []) spots (access.event + 1) self.new) }
    {
        self.log.make_room(alloc, &mut self.variables)?;
        make_space(&mut self.variables, variable)?;
        let known = &mut self.variables[variable as usize];
        let run = known.run;
        let time = clocks
            .below_next(access.thread, access.thread)
            .saturating_add(1);
        let own = Epoch {
            time,
            thread: access.thread,
        };
        known.run = run.after(access);
        known.latest = clocks.screen(known.latest, own, access.writes);
        let open = known.latest.may_race();
        let late = Late {
            event: access.event,
            thread: access.thread,
            time,
            location: access.spot.location,
            writes: access.writes,
            barred: access.spot.barred,
            after_all: known.latest.is_after_all(),
        };
        if !open {
            if let Accesses::Waiting(newest) = known.accesses {
                let place = self.log.put_off(newest, run.thread, late)?;
                known.accesses = Accesses::Waiting(place);
                return Ok(());
            }
        }
        let log = &mut self.log;
        let at = self.opened.open(alloc, log, variable, known.accesses)?;
        known.accesses = Accesses::Grouped(at);
        let since = self.opened.take(alloc, at, variable, late)?;
        let Some(groups) = self.opened.each.get_mut(at as usize) else {
            return Ok(());
        };
        let next = Next { access, run, since };
        let (places, rivals) = (&mut self.places, &mut self.rivals);
        offer_races(places, rivals, clocks, by_variable, groups, next)?;
        Ok(())
    }
}
