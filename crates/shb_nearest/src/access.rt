//! Accesses and races that are found.

/// Where an event stands.
#[derive(Clone, Copy, Debug, Default, PartialEq, Eq)]
pub struct Spot {
    /// The number of its location.
    pub location: u32,
    /// Whether its line has a second bar.
    pub barred: bool,
}

/// An access that is found.
#[derive(Clone, Copy, Debug, Default, PartialEq, Eq)]
pub struct FoundAccess {
    /// Its number, from 0.
    pub event: u32,
    /// The number of its thread.
    pub thread: u32,
    /// Whether it writes; else it reads.
    pub writes: bool,
    /// Where it stands.
    pub spot: Spot,
}

/// A race that is found.
#[derive(Clone, Copy, Debug, PartialEq, Eq)]
pub struct FoundRace {
    /// The number of the variable that both access.
    pub variable: u32,
    /// Its earlier access.
    pub first: FoundAccess,
    /// Its later access.
    pub second: FoundAccess,
}
