//! Want of memory, which only this crate can say.

use std::alloc::{AllocError, AllocFailed};

/// There was no memory, or there were no random numbers. No other crate can make one: it comes of a refusal of
/// the allocator, or of a random source that failed.
#[derive(Clone, Copy, Debug, PartialEq, Eq)]
pub struct NoMemory {
    refused: (),
}

impl From<AllocError> for NoMemory {
    fn from(_error: AllocError) -> NoMemory {
        NoMemory { refused: () }
    }
}

impl<T: Drop> From<AllocFailed<T>> for NoMemory {
    fn from(_error: AllocFailed<T>) -> NoMemory {
        NoMemory { refused: () }
    }
}

impl NoMemory {
    /// What a random source that failed is answered with.
    pub(crate) fn of_random_source() -> NoMemory {
        NoMemory { refused: () }
    }
}
