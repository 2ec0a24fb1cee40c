//! The steps of the machine, and how far a piece has come.

/// How far a piece has come.
#[derive(Clone, Copy, Debug, PartialEq, Eq)]
pub enum PieceState {
    /// Nobody has its slot.
    Empty,
    /// This actor has its slot.
    Claimed(u32),
    /// Its result is in the slot.
    Placed,
    /// Its taker has the slot.
    Lifted,
    /// Its slot waits for the piece 64 further on.
    Freed,
}

/// One actor's step.
#[derive(Clone, Copy, Debug, PartialEq, Eq)]
pub enum Step {
    /// The actor takes the next number or, where there is none, is spent.
    Draw(u32),
    /// The actor takes the slot of a piece that it drew.
    Claim(u32, u64),
    /// The actor puts the result of a piece that it claimed into the slot.
    Place(u32, u64),
    /// The result of the next piece is taken out of its slot.
    Lift(u64),
    /// The slot of a piece that was lifted is left to the piece 64 further on.
    Free(u64),
    /// The actor asks all to stop.
    Stop(u32),
}
