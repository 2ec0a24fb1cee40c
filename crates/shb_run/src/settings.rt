//! How a run is made, and what it found.
use shb_fan::Workers;

/// How a run is made.
#[derive(Clone, Copy, Debug, PartialEq, Eq)]
pub struct Settings {
    /// How many workers count and find the races, and make their schedules and their text. The report is the same for
    /// every number of them.
    pub workers: Workers,
    /// Whether each race is shown with its schedule.
    pub schedules: bool,
}

/// Which races of a trace a report lists.
#[derive(Clone, Copy)]
pub(crate) enum Choice {
    /// All of them.
    All,
    /// Of each place the nearest one, or of each place and variable.
    Nearest { by_variable: bool },
}

/// What a run found in the trace.
#[derive(Clone, Copy, Debug, PartialEq, Eq)]
pub struct Summary {
    /// How many events there are.
    pub events: u64,
    /// How many threads are named, those that are only forked or joined too.
    pub threads: u64,
    /// How many locks are named.
    pub locks: u64,
    /// How many variables are named.
    pub variables: u64,
    /// How many races are listed.
    pub races: u64,
}
