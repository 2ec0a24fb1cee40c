//! What all tests assert with, and the runtime that they have.
use std::fmt::Debug;
use std::process::Abort;
use std::random::RandomSource;
use std::sync::Wait;
use std::thread::Threads;

/// A runtime for tests, which may do all that a call of the library asks for, and end the test.
pub trait Host: Abort + AllocGlobal + RandomSource + Threads + Wait + Sync {}

impl<R: Abort + AllocGlobal + RandomSource + Threads + Wait + Sync> Host for R {}

/// Asserts that what was found is what is wanted.
pub fn same<T: PartialEq + Debug>(rt: &impl Abort, found: &T, wanted: &T, what: &str) {
    assert_eq!(rt; found, wanted, "{what}");
}

/// Asserts that what was found is what this row of a table wants.
pub fn same_in_row<T: PartialEq + Debug>(rt: &impl Abort, found: &T, wanted: &T, row: usize) {
    assert_eq!(rt; found, wanted, "row {row}");
}

/// Asserts that these bytes were read or written.
pub fn same_bytes(rt: &impl Abort, found: &[u8], wanted: &[u8], what: &str) {
    assert_eq!(rt; found, wanted, "{what}");
}

/// Asserts that something holds.
pub fn holds(rt: &impl Abort, condition: bool, what: &str) {
    assert!(rt; condition, "{what}");
}
