//! From a source to the nearest races of its trace, or to the first fault of its text. Neither the text nor the
//! events are kept.
ghost use Rattle.std.specs.Prelude.{◌≡◌, ◌+◌, ◌-◌, ◌^◌, ◌<◌, ◌↔◌, ◌++◌, ◌∷◌, ℕ, All, List, [], IsTrue, IfOk, OnOk, Option, Some, length, is_some};
ghost use Rattle.std.specs.List.{IsDistinct};
ghost use Rattle.std.specs.Option.{option_copied};
ghost use Rattle.std.specs.Str.{bytes_eq};
ghost use Rattle.std.specs.Str.Lines.{strip_carriage_return};
ghost use Rattle.shb_io.specs.Devices.{CountsFailure};
ghost use Rattle.shb_lines.specs.events.Discipline.{MayCome};
ghost use Rattle.shb_lines.specs.events.Events.{variable_of};
ghost use Rattle.shb_lines.specs.text.Lines.{Moves};
ghost use Rattle.shb_lines.specs.text.Text.{with_name};
ghost use Rattle.shb_lines.specs.text.Numbering.{IsWithin, event_of, with_step};
ghost use Rattle.shb_lines.specs.text.Numbers.{Tables, events_of};
ghost use Rattle.shb_lines.specs.text.Taken.{HasBar, IsBarred};
ghost use Rattle.shb_lines.specs.text.TraceData.{TraceData, location_after, location_of};
ghost use Rattle.shb_format.specs.Keyed.{AreKeyed};
ghost use Rattle.shb_nearest.specs.declared.access.Spot.{Spot as SpotData};
ghost use Rattle.shb_scan.specs.declared.errors.ScanError.TheVariants.{Trace};
ghost use Rattle.shb_scan.specs.Errors.{IsDeviceless, source_failed};
ghost use Rattle.shb_scan.specs.Outcomes.{most_scan_events, scan_bounds};
ghost use Rattle.shb_scan.specs.FoundNames.{IsRaceLocated, IsSpotOf};
ghost use Rattle.shb_scan.specs.Scans.{HasEnded, HasNoted, HasReadScan, HasScanned, HasSpot, IsFoundIn, IsNext, IsStepped, places_in};

use crate::errors::ScanError;
use crate::writing::FoundScan;
use shb_discipline::State;
use shb_format::PlaceTable;
use shb_io::{NoMemory, Source};
use shb_lines::{EventReader, Fault, Limits, Op, OwnedNames, Pair, Step, Taken};
use shb_nearest::{FoundRace, NearestRaces, Spot};
use std::alloc::Global;
use std::random::RandomSource;

/// What is known of a text after some of its lines.
pub struct Scan {
    reader: EventReader,
    /// The different locations of accesses.
    locations: OwnedNames,
    state: State,
    nearest: NearestRaces,
}

impl Drop for Scan {
    fn drop(self) {
        let Scan {
            reader: _,
            locations: _,
            state: _,
            nearest: _,
        } = self;
    }
}

/// The limits of a scan: 4,294,967,294 events, 65,535 threads and 4,096 bytes a line. A text may have any number of bytes.
fn scan_bounds() -> Limits
    ensures { result ≡ scan_bounds }
{
    Limits {
        text: 0,
        line: 4096,
        events: 4_294_967_294,
        threads: 65_535,
    }
}

/// Where an access stands, by the location in its line, if there is one. A location that is new is put last.
fn spot_of(locations: &mut OwnedNames, location: Option<&[u8]>) -> Result<Spot, NoMemory>
    requires room { length locations.old < 2 ^ 32 }
    ensures spot { (line : List ℕ) → option_copied location.entry ≡ location_after line → IfOk result (IsSpotOf locations.new line) }
    ensures names { (line : List ℕ) → option_copied location.entry ≡ location_after line
        → OnOk result (locations.new ≡ with_name locations.old (location_of line)) }
{
    match location {
        Some(text) => {
            let location = locations.number_of(text)?;
            Ok(Spot {
                location,
                barred: true,
            })
        }
        None => {
            let location = locations.number_of(b"")?;
            Ok(Spot {
                location,
                barred: false,
            })
        }
    }
}

/// The places of some races, by the numbers of their locations, each with how many of the races it has.
fn places_of<R: RandomSource>(
    rt: &R,
    alloc: Global,
    races: &[FoundRace],
) -> Result<PlaceTable, NoMemory>
    ensures { IfOk result (λ places. (trace : TraceData) (locations : List (List ℕ)) → IsDistinct bytes_eq locations → All (IsRaceLocated locations trace) races.now
        → AreKeyed locations places (places_in trace races.now)) }
{
    let mut places = PlaceTable::new(rt, alloc)?;
    for race in races {
        let key = (
            race.first.spot.location as usize,
            race.second.spot.location as usize,
        );
        let pair = Pair {
            first: race.first.event,
            second: race.second.event,
        };
        places.add(key, pair)?;
    }
    Ok(places)
}

impl Scan {
    /// Nothing read yet. Places are told apart by their variable too, or aren't.
    fn new<R: RandomSource>(rt: &R, alloc: Global, by_variable: bool) -> Result<Scan, NoMemory>
        ensures scanned { (left : Option (List ℕ)) → IfOk result (HasScanned [] [] left) }
        ensures form { IfOk result (λ scan. scan.nearest.by_variable ≡ by_variable) }
    {
        Ok(Scan {
            reader: EventReader::new(rt, alloc)?,
            locations: OwnedNames::new(rt, alloc)?,
            state: State::new(alloc),
            nearest: NearestRaces::new(rt, alloc, by_variable)?,
        })
    }

    /// Where the event of the line that was given last stands. Of an event that is no access the spot says nothing.
    fn spot(&mut self, op: Op) -> Result<Spot, NoMemory>
        requires room { length self.old.locations < 2 ^ 32 }
        requires bar { HasBar self.old.reader }
        ensures reader { self.new.reader ≡ self.old.reader }
        ensures state { self.new.state ≡ self.old.state }
        ensures nearest { self.new.nearest ≡ self.old.nearest }
        ensures spot { IfOk result (HasSpot self.old.locations self.new.locations op (strip_carriage_return self.old.reader.lines.line)) }
    {
        if op.variable().is_some() {
            return spot_of(&mut self.locations, self.reader.location());
        }
        Ok(Spot {
            location: 0,
            barred: false,
        })
    }

    /// Takes note of an event that may come, and where it stands.
    fn note(&mut self, alloc: Global, step: Step) -> Result<(), NoMemory>
        requires room { length self.old.locations < 2 ^ 32 }
        requires bar { HasBar self.old.reader }
        ensures reader { self.new.reader ≡ self.old.reader }
        ensures form { self.new.nearest.by_variable ≡ self.old.nearest.by_variable }
        ensures noted { (trace : TraceData) (spots : List SpotData) (tables : Tables) (line : ℕ) → HasNoted trace spots self.old.locations self.old.state self.old.nearest
            → MayCome trace.events (event_of step line) → length trace.events < most_scan_events
            → OnOk result ((spot : SpotData) × HasNoted (with_step trace tables step line (strip_carriage_return self.old.reader.lines.line))
            (spots ++ spot ∷ []) self.new.locations self.new.state self.new.nearest) }
    {
        self.state.note(step.thread, step.op)?;
        let spot = self.spot(step.op)?;
        self.nearest.take(alloc, step, spot)
    }

    /// The line that was taken last has this fault.
    fn refused(&self, fault: Fault) -> ScanError
        ensures { result ≡ Trace self.now.reader.line fault }
    {
        ScanError::Trace {
            line: self.reader.line_count(),
            fault,
        }
    }

    /// Takes note of what was taken next, and says whether it is an event.
    ///
    /// # Errors
    ///
    /// `Trace` where it is a fault, or an event that may not come. `TooManyLines` where nothing was taken.
    fn take(&mut self, alloc: Global, taken: Taken) -> Result<bool, ScanError>
        requires room { length self.old.locations < 2 ^ 32 }
        requires bar { IsBarred self.old.reader taken }
        ensures reader { self.new.reader ≡ self.old.reader }
        ensures form { self.new.nearest.by_variable ≡ self.old.nearest.by_variable }
        ensures reading { IsDeviceless result }
        ensures stepped { (read : List ℕ) (lines : List (List ℕ)) (left : Option (List ℕ)) (before : ℕ) → IsNext read lines left self.old taken
            → length (events_of lines) ≡ before → IsStepped read left before self.new result }
    {
        match taken {
            Taken::Nothing => Err(ScanError::TooManyLines),
            Taken::Fault(fault) => Err(self.refused(fault)),
            Taken::End => Ok(false),
            Taken::Step(step) => {
                if let Some(fault) = self.state.fault(step.thread, step.op) {
                    return Err(self.refused(fault));
                }
                self.note(alloc, step)?;
                Ok(true)
            }
        }
    }

    /// Takes lines up to the next event, takes note of it, and says whether there was one.
    fn advance<S: Source>(
        &mut self,
        alloc: Global,
        source: &mut S,
        limits: &Limits,
    ) -> Result<bool, ScanError>
        requires limits { limits.now ≡ scan_bounds }
        requires within { IsWithin limits.now self.old.reader.numbering }
        requires room { length self.old.locations < 2 ^ 32 }
        requires countable { S.failure_count source.old < 2 ^ 64 - 1 }
        ensures stepped { (read : List ℕ) (lines : List (List ℕ)) → HasScanned read lines (S.remaining source.old) self.old
            → (more : List ℕ) × Moves (S.remaining source.old) (S.remaining source.new) (S.given_count source.old) (S.given_count source.new) more
            × IsStepped (read ++ more) (S.remaining source.new) self.old.reader.numbering.events self.new result }
        ensures counted { CountsFailure source_failed (S.failure_count source.old) (S.failure_count source.new) result }
        ensures form { self.new.nearest.by_variable ≡ self.old.nearest.by_variable }
    {
        let taken = self.reader.next_event(source, limits)?;
        self.take(alloc, taken)
    }

    /// The races that were found, their places, and the names behind their numbers. The search was asked to tell races
    /// apart so.
    fn into_found<R: RandomSource>(
        self,
        rt: &R,
        alloc: Global,
        by_variable: bool,
    ) -> Result<FoundScan, NoMemory>
        requires { self.nearest.by_variable ≡ by_variable }
        ensures found { (text : List ℕ) (left : Option (List ℕ)) → HasEnded text left self → IfOk result (IsFoundIn text) }
        ensures form { IfOk result (λ found. found.by_variable ≡ by_variable) }
    {
        let Scan {
            reader,
            locations,
            state: _,
            nearest,
        } = self;
        let races = nearest.races(alloc)?;
        let places = places_of(rt, alloc, races.as_slice())?;
        Ok(FoundScan {
            reader,
            locations,
            by_variable,
            races,
            places,
        })
    }
}

/// Reads a source to its end, and finds the nearest races of its trace, one of each place; with `by_variable`, one of each
/// place and variable. Neither the text nor the events are kept: memory grows with names, and with what the search keeps.
///
/// # Errors
///
/// - [`ScanError::Trace`]: the text has a fault, and this is the first. What follows its line isn't judged.
/// - [`ScanError::TooManyLines`]: the text has 18,446,744,073,709,551,615 lines or more, and none of the first has a fault.
/// - [`ScanError::Source`]: the source failed, at once.
/// - [`ScanError::Memory`]: memory was refused.
pub fn read_scan<S: Source, R: RandomSource>(
    rt: &R,
    alloc: Global,
    by_variable: bool,
    source: &mut S,
) -> Result<FoundScan, ScanError>
    requires { S.failure_count source.old < 2 ^ 64 - 1 }
    ensures reading { HasReadScan (S.remaining source.old) (S.remaining source.new) (S.given_count source.old) (S.given_count source.new)
        (S.failure_count source.old) (S.failure_count source.new) result }
    ensures form { IfOk result (λ found. found.by_variable ≡ by_variable) }
{
    let limits = scan_bounds();
    let mut scan = Scan::new(rt, alloc, by_variable)?;
    while scan.advance(alloc, source, &limits)? {}
    Ok(scan.into_found(rt, alloc, by_variable)?)
}
