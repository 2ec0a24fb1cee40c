//! Where the parts of a report stand in its text.
use shb_format::Counts;

/// A part of a text.
#[derive(Clone, Copy)]
pub struct Span {
    /// How many bytes stand before it.
    pub start: u32,
    /// How many bytes it has.
    pub len: u32,
}

/// A place: how many races have it, and where its two locations stand.
#[derive(Clone, Copy)]
pub struct PlaceEntry {
    /// How many races have it, as it is written.
    pub count: u64,
    /// Where its first location stands.
    pub first: Span,
    /// Where its second location stands.
    pub second: Span,
}

/// The block of a race: the numbers of its two events, where their lines stand, and where its
/// schedule stands among the numbers of all schedules.
#[derive(Clone, Copy)]
pub struct RaceEntry {
    /// The number of its first event, as it is written.
    pub first: u64,
    /// The number of its second event, as it is written.
    pub second: u64,
    /// Where the line of its first event stands.
    pub first_line: Span,
    /// Where the line of its second event stands.
    pub second_line: Span,
    /// How much is kept of the numbers of the schedules before its own.
    pub schedule_start: usize,
    /// How much is kept of the numbers of its schedule.
    pub schedule_len: usize,
}

/// Where the parts of a report stand in its text.
#[derive(Drop)]
pub(crate) struct Parts {
    pub counts: Counts,
    pub with_places: bool,
    pub places: Vec<PlaceEntry>,
    pub races: Vec<RaceEntry>,
    pub numbers: Vec<u64>,
}
