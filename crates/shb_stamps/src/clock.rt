//! Clocks: one number for each thread.

ghost use Rattle.std.specs.Prelude.{◌≡◌, ℕ, ◌≤◌, IfOk, OnOk, true, replicate, slice_index_or, length};

use shb_io::NoMemory;
use std::alloc::Global;

/// The entry of a thread, 0 where the clock has none.
pub fn entry(clock: &[u32], t: u32) -> u32
    ensures { result ≡ slice_index_or clock.now t 0 }
{
    match clock.get(t as usize) {
        Some(number) => *number,
        None => 0,
    }
}

/// Whether no entry of a clock is above that of another, which has as many at least.
pub fn is_below(clock: &[u32], other: &[u32]) -> bool
    ensures { result ≡ true → (t : ℕ) → slice_index_or clock.now t 0 ≤ slice_index_or other.now t 0 }
{
    if clock.len() > other.len() {
        return false;
    }
    let mut excess = 0;
    for t in 0..clock.len() {
        excess = excess.max(clock[t].saturating_sub(other[t]));
    }
    excess == 0
}

/// Gives a clock so many entries. Those behind the old ones are 0.
#[inline(always)]
pub fn set_length(clock: &mut Vec<u32>, size: usize) -> Result<(), NoMemory>
    ensures long { OnOk result (length clock.new.items ≡ size) }
    ensures same { length clock.old.items ≤ size → OnOk result ((t : ℕ) → slice_index_or clock.new.items t 0 ≡ slice_index_or clock.old.items t 0) }
{
    if clock.len() != size {
        clock.resize(size, 0)?;
    }
    Ok(())
}

/// As many zeros as this.
pub fn zeros(alloc: Global, size: u32) -> Result<Vec<u32>, NoMemory>
    ensures { IfOk result (λ zeros. zeros.items ≡ replicate size 0) }
{
    Ok(vec![in alloc; 0; size as usize]?)
}
