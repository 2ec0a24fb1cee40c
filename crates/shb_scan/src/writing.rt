//! What was found in a text that was read once, and its scan: the list report of the races, of the names behind their numbers.
ghost use Rattle.std.specs.Prelude.{◌≡◌, ◌-◌, ◌^◌, ◌<◌, ◌≤◌, All, List, None, length, map, ℕ};
ghost use Rattle.shb_io.specs.Devices.{IsCounted, Writes};
ghost use Rattle.shb_lines.specs.text.TraceData.{TraceData};
ghost use Rattle.shb_format.specs.AccessText.{HasLineOf};
ghost use Rattle.shb_format.specs.Keyed.{AreKeyed};
ghost use Rattle.shb_format.specs.Places.{PlaceOf};
ghost use Rattle.shb_format.specs.Report.{block_bytes, counts_of};
ghost use Rattle.shb_nearest.specs.Found.{ends_of};
ghost use Rattle.shb_scan.specs.FoundNames.{HasNames, HasRaceNames, IsMadeOf, IsRaceMadeOf, blocks_of, listing_bytes};
ghost use Rattle.shb_scan.specs.Scans.{places_in, IsFoundIn, counts_in};

use shb_format::{AccessText, Counts, PlaceTable, access_block, head, named_place_lines, tail};
use shb_io::{Failed, Sink};
use shb_lines::{EventReader, Numbering, OwnedNames};
use shb_nearest::{FoundAccess, FoundRace};

/// The names behind the numbers of accesses.
#[derive(Clone, Copy)]
pub struct ScanNames<'n> {
    /// Those of threads.
    pub threads: &'n OwnedNames,
    /// Those of variables.
    pub variables: &'n OwnedNames,
    /// The locations.
    pub locations: &'n OwnedNames,
}

/// The texts that the line of an access of a variable is made of.
fn access_text<'n>(names: &ScanNames<'n>, variable: u32, access: FoundAccess) -> AccessText<'n>
    requires { HasNames names.now variable access }
    ensures event { result.event ≡ access.event }
    ensures line { (trace : TraceData) → IsMadeOf names.now trace variable access → HasLineOf trace result }
{
    AccessText {
        event: access.event,
        thread: names.threads.name(access.thread),
        writes: access.writes,
        variable: names.variables.name(variable),
        location: access
            .spot
            .barred
            .then_some(names.locations.name(access.spot.location)),
    }
}

/// Writes the block of a race, which has this number.
fn write_race<S: Sink>(
    sink: &mut S,
    names: &ScanNames<'_>,
    number: u64,
    race: FoundRace,
) -> Result<(), Failed>
    requires countable { S.failure_count sink.old < 2 ^ 64 - 1 }
    requires named { HasRaceNames names.now race }
    ensures written { (trace : TraceData) → IsRaceMadeOf names.now trace race → Writes (S.taken sink.old) (S.taken sink.new) result
        (block_bytes trace number (ends_of race) None) }
    ensures counted { IsCounted (S.failure_count sink.old) (S.failure_count sink.new) result }
{
    let first = access_text(names, race.variable, race.first);
    let second = access_text(names, race.variable, race.second);
    access_block(sink, number, &first, &second)
}

/// Writes the blocks of races, of which the first has number 1.
fn write_races<S: Sink>(
    sink: &mut S,
    names: &ScanNames<'_>,
    races: &[FoundRace],
) -> Result<(), Failed>
    requires countable { S.failure_count sink.old < 2 ^ 64 - 1 }
    requires named { All (HasRaceNames names.now) races.now }
    ensures written { (trace : TraceData) → All (IsRaceMadeOf names.now trace) races.now
        → Writes (S.taken sink.old) (S.taken sink.new) result (blocks_of trace (map ends_of races.now)) }
    ensures counted { IsCounted (S.failure_count sink.old) (S.failure_count sink.new) result }
{
    for (k, race) in races.iter().enumerate() {
        write_race(sink, names, k as u64 + 1, *race)?;
    }
    Ok(())
}

/// Writes a list report: its head with the counts of the trace, the places of the races, the block of each race in the
/// order of `races`, and its tail. The lines are made of names: none was kept.
///
/// The numbers of each race and of each place must have names. Where the counts, the places and the lines made of these
/// names are those of a trace, the text is the trace's; else nothing is said of it.
fn write_scan<S: Sink>(
    sink: &mut S,
    counts: &Counts,
    names: &ScanNames<'_>,
    places: &PlaceTable,
    races: &[FoundRace],
) -> Result<(), Failed>
    requires countable { S.failure_count sink.old < 2 ^ 64 - 1 }
    requires named { All (HasRaceNames names.now) races.now }
    requires few { length names.now.locations.now ≤ 2 ^ 32 }
    requires keyed { (placed : List PlaceOf) × AreKeyed names.now.locations.now places.now placed }
    ensures written { (trace : TraceData) → counts.now ≡ counts_of trace → All (IsRaceMadeOf names.now trace) races.now
        → AreKeyed names.now.locations.now places.now (places_in trace races.now)
        → Writes (S.taken sink.old) (S.taken sink.new) result (listing_bytes trace (map ends_of races.now)) }
    ensures counted { IsCounted (S.failure_count sink.old) (S.failure_count sink.new) result }
{
    head(sink, counts, races.len() as u64)?;
    named_place_lines(sink, names.locations, places)?;
    write_races(sink, names, races)?;
    tail(sink)
}

/// What was found in a text that has no fault.
pub struct FoundScan {
    /// The counts of the trace, and the names of its threads, locks and variables.
    pub reader: EventReader,
    /// The different locations of its accesses.
    pub locations: OwnedNames,
    /// Whether races are told apart by their variable too.
    pub by_variable: bool,
    /// Its nearest races, in order.
    pub races: Vec<FoundRace>,
    /// Their places, by the numbers of their locations.
    pub places: PlaceTable,
}

impl Drop for FoundScan {
    fn drop(self) {
        let FoundScan {
            reader: _,
            locations: _,
            by_variable: _,
            races: _,
            places: _,
        } = self;
    }
}

/// How many events, threads, locks and variables were numbered.
fn counts_of(numbering: &Numbering) -> Counts
    ensures { result ≡ counts_in numbering.now }
{
    Counts {
        events: u64::from(numbering.events()),
        threads: numbering.threads().len() as u64,
        locks: numbering.locks().len() as u64,
        variables: numbering.variables().len() as u64,
    }
}

/// Writes the scan of the text that this was found in, the list report of its nearest races.
///
/// # Errors
///
/// [`Failed`]: the sink failed, once. It took less than the scan, the front of it. No memory is asked for.
pub fn write_found<K: Sink>(sink: &mut K, found: &FoundScan) -> Result<(), Failed>
    requires countable { K.failure_count sink.old < 2 ^ 64 - 1 }
    requires found { (text : List ℕ) × IsFoundIn text found.now }
    ensures written { (text : List ℕ) (in_text : IsFoundIn text found.now) → Writes (K.taken sink.old) (K.taken sink.new) result
        (listing_bytes in_text.trace (map ends_of found.now.races.items)) }
    ensures counted { IsCounted (K.failure_count sink.old) (K.failure_count sink.new) result }
{
    let numbering = found.reader.numbering();
    let counts = counts_of(numbering);
    let names = ScanNames {
        threads: numbering.threads(),
        variables: numbering.variables(),
        locations: &found.locations,
    };
    write_scan(sink, &counts, &names, &found.places, found.races.as_slice())
}
