//! What is done about a call of a reader or a writer that is interrupted.

/// How often a call is made in a row while it is interrupted: once, and 1,000 times again.
pub(crate) const TRIES: u32 = 1_001;
