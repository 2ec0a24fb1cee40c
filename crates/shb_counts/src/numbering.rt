//! Numbers of the locations of accesses.

ghost use Rattle.std.specs.Prelude.{◌≡◌, ◌<◌, ◌≤◌, IfOk, length};
ghost use Rattle.shb_stamps.specs.Open.{accesses_open};
ghost use Rattle.shb_counts.specs.Numbered.{AreNumbered, IsNumbered};

use shb_discipline::Disciplined;
use shb_format::Locations;
use shb_io::NoMemory;
use shb_lines::Events;
use shb_stamps::is_open;
use std::alloc::Global;
use std::random::RandomSource;

/// The number of each event's location, and the locations.
pub(crate) struct LocationNumbers<'t> {
    /// By event, from 0.
    pub(crate) numbers: Vec<u32>,
    /// By number, from 0.
    pub(crate) locations: Locations<'t>,
}

// By hand: a derived one stands in each function that drops it, with a step for each part.
impl Drop for LocationNumbers<'_> {
    fn drop(self) {
        let LocationNumbers {
            numbers: _,
            locations: _,
        } = self;
    }
}

/// Whether an event accesses an open variable.
pub(crate) fn is_access(events: &Events, flags: &[bool], e: u32) -> bool
    requires { e < length events.now }
    ensures { result ≡ accesses_open flags.now events.now e }
{
    match events.op(e).variable() {
        Some(x) => is_open(flags, x),
        None => false,
    }
}

/// The number of an event's location, if it accesses an open variable, or 0.
fn number_of<'t>(
    disciplined: &Disciplined<'t>,
    flags: &[bool],
    locations: &mut Locations<'t>,
    e: u32,
) -> Result<u32, NoMemory>
    requires in_range { e < length disciplined.now.events.now }
    requires few { length locations.old ≤ e }
    ensures { IfOk result (IsNumbered disciplined.now.trace.now flags.now e locations.old locations.new) }
{
    if !is_access(disciplined.events, flags, e) {
        return Ok(0);
    }
    let number = locations.number_of(disciplined.trace.location(e))?;
    Ok(number as u32)
}

/// Numbers the locations of the accesses of open variables, in the order of the first event that has each. Other events
/// have number 0.
///
/// # Errors
///
/// `NoMemory` where a growth was refused, or where there were no random numbers for a table.
pub(crate) fn location_numbers<'t, R: RandomSource>(
    rt: &R,
    alloc: Global,
    disciplined: &Disciplined<'t>,
    flags: &[bool],
) -> Result<LocationNumbers<'t>, NoMemory>
    ensures { IfOk result (λ n. AreNumbered disciplined.now.trace.now flags.now (length disciplined.now.events.now) n.numbers.items n.locations) }
{
    let mut locations = Locations::new(rt, alloc)?;
    let mut numbers = Vec::new(alloc);
    for e in 0..disciplined.events.len() as u32 {
        let number = number_of(disciplined, flags, &mut locations, e)?;
        numbers.push(number)?;
    }
    Ok(LocationNumbers { numbers, locations })
}
