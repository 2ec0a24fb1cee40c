//! What a worker passes before it runs a piece.
use std::sync::Wait;

/// What a worker passes before it runs a piece. Tests hold pieces back with it.
pub trait Gate {
    /// Called by a worker before it runs piece k; it may wait.
    fn enter<R: Wait>(&self, rt: &R, k: u64);
}

/// A gate that is always open.
#[derive(Debug, Drop, Clone, Copy)]
pub struct FreeGate;

impl Gate for FreeGate {
    fn enter<R: Wait>(&self, _rt: &R, _k: u64) {}
}
