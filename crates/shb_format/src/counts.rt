//! How much there is in a trace.

/// How much there is in a trace: the second line of its report.
#[derive(Clone, Copy, Debug, PartialEq, Eq)]
pub struct Counts {
    /// How many events there are.
    pub events: u64,
    /// How many threads are named, those that are only forked or joined counted as well.
    pub threads: u64,
    /// How many locks are named.
    pub locks: u64,
    /// How many variables are named.
    pub variables: u64,
}
