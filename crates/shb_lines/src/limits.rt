//! How much a text may hold.
ghost use Rattle.std.specs.Prelude.{◌≡◌};
ghost use Rattle.shb_lines.specs.text.Limits.{standard_limits};

/// How many bytes a text may have, that of a trace or of a report.
pub const MOST_BYTES: u64 = 1_073_741_824;

/// How much a text may hold. The limits are this project's own; tests use small ones.
#[derive(Clone, Copy, Debug, PartialEq, Eq)]
pub struct Limits {
    /// Bytes of the text, at most 1,073,741,824.
    pub text: u64,
    /// Bytes of a line before its line feed, a carriage return counted, at most 4,096.
    pub line: u32,
    /// Events, at most 4,194,304.
    pub events: u32,
    /// Threads, those counted that are only forked or joined, at most 1,024.
    pub threads: u32,
}

impl Limits {
    /// The limits of the program, the greatest that `parse` takes.
    pub fn standard() -> Limits
        ensures { result ≡ standard_limits }
    {
        Limits {
            text: MOST_BYTES,
            line: 4096,
            events: 4_194_304,
            threads: 1024,
        }
    }
}
