//! The whole scan: read, judge and search, event by event, then write.
ghost use Rattle.std.specs.Prelude.{◌-◌, ◌^◌, ◌<◌};
ghost use Rattle.shb_scan.specs.Outcomes.{IsScanOutcome};

use crate::errors::ScanError;
use crate::reading::read_scan;
use crate::writing::write_found;
use shb_io::{Sink, Source};
use std::alloc::Global;
use std::random::RandomSource;

/// Reads a trace once, from front to end, and writes its scan: the list report of its nearest races, one of each place
/// that has a race; with `by_variable`, one of each place and variable. A place is two locations.
///
/// The trace may have any number of bytes, 4,294,967,294 events, 65,535 threads and lines of 4,096 bytes. Neither its
/// text nor its events are kept: memory grows with its names, with what threads know of each other and with its places.
/// Nothing is written before the end of the text was read and judged.
///
/// # Errors
///
/// - [`ScanError::Source`]: the source failed. Nothing was written.
/// - [`ScanError::Trace`]: the text has a fault, and this is the first. Nothing was written.
/// - [`ScanError::TooManyLines`]: the text has 18,446,744,073,709,551,615 lines or more. Nothing was written.
/// - [`ScanError::Sink`]: the sink failed. The text has no fault. The sink took less than the scan, the front of it.
/// - [`ScanError::Memory`]: memory was refused. Nothing was written.
///
/// What was read of the source stays read.
pub fn run_scan<S: Source, K: Sink, R: RandomSource>(
    rt: &R,
    alloc: Global,
    by_variable: bool,
    source: &mut S,
    sink: &mut K,
) -> Result<(), ScanError>
    requires source_countable { S.failure_count source.old < 2 ^ 64 - 1 }
    requires sink_countable { K.failure_count sink.old < 2 ^ 64 - 1 }
    ensures { IsScanOutcome S.remaining S.given_count S.failure_count source.old source.new
        K.taken K.failure_count sink.old sink.new by_variable result }
{
    let found = read_scan(rt, alloc, by_variable, source)?;
    match write_found(sink, &found) {
        Ok(()) => Ok(()),
        Err(_) => Err(ScanError::Sink),
    }
}
