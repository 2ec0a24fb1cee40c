//! What is said of a report, and the line that says it.
ghost use Rattle.std.specs.Prelude.{◌≡◌, ◌+◌, ◌-◌, ◌^◌, ◌<◌, ◌++◌, codes, decimal};
ghost use Rattle.shb_io.specs.Devices.{IsCounted, Writes};
ghost use Rattle.shb_judging.specs.Verdicts.{verdict_bytes};

use shb_format::numbered_line;
use shb_io::{Failed, Sink, write_all};
use shb_replay::Broken;

/// Why the block of a race is bad. Of several faults the first in this enum is answered. The faults
/// and their order are this project's profile.
#[derive(Clone, Copy, Debug, PartialEq, Eq)]
pub enum RaceFault {
    /// One of the two numbers is that of no event of the trace.
    Absent,
    /// The first event isn't earlier than the second, or the two don't conflict.
    NoConflict,
    /// The first line isn't that of the first event.
    FirstLine,
    /// The second line isn't that of the second event.
    SecondLine,
    /// The numbers are no schedule of the two events.
    Schedule(Broken),
}

/// What is said of a report against a trace: the first of these that applies, but for `Good`.
#[derive(Clone, Copy, Debug, PartialEq, Eq)]
pub enum Verdict {
    /// The report is good, and lists so many races.
    Good { races: u64 },
    /// The line of this number, counted from 1, is the first that no report has there.
    BadLine { line: u64 },
    /// The counts aren't those of the trace.
    BadCounts,
    /// The block of this number, counted from 1, is the first that is bad.
    BadRace { race: u64, why: RaceFault },
    /// The places aren't those of the listed pairs.
    BadPlaces,
}

/// Writes the line of a verdict: `ok R`, `bad line N`, `bad counts`, `bad race K` or `bad places`.
///
/// On `Ok` the sink took exactly this line. On `Failed` it took a prefix of it that lacks at least one
/// byte, and its count of failures rose by one. The sink's count of failures must be below the greatest
/// `u64`.
pub fn verdict_line<S: Sink>(sink: &mut S, verdict: Verdict) -> Result<(), Failed>
    requires countable { S.failure_count sink.old < 2 ^ 64 - 1 }
    ensures written { Writes (S.taken sink.old) (S.taken sink.new) result (verdict_bytes verdict) }
    ensures counted { IsCounted (S.failure_count sink.old) (S.failure_count sink.new) result }
{
    match verdict {
        Verdict::Good { races } => numbered_line(sink, b"ok ", races),
        Verdict::BadLine { line } => numbered_line(sink, b"bad line ", line),
        Verdict::BadCounts => write_all(sink, b"bad counts\n"),
        Verdict::BadRace { race, .. } => numbered_line(sink, b"bad race ", race),
        Verdict::BadPlaces => write_all(sink, b"bad places\n"),
    }
}
