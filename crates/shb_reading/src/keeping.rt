//! What is kept of the numbers of a schedule that is read.
ghost use Rattle.std.specs.Prelude.{◌≡◌, ◌+◌, ◌-◌, ◌^◌, ℕ};

/// What is kept of each number of a schedule, and of how many numbers.
pub trait Keeping {
    /// What is kept of a number.
    type Kept: Drop;

    /// What is kept of a number.
    ghost kept: { Self → ℕ → Self.Kept };

    /// Of how many numbers something is kept.
    ghost most_kept: { Self → ℕ };

    /// Of how many numbers of a schedule, the first ones, something is kept.
    fn most(&self) -> u64
        ensures { result ≡ most_kept self.now };

    /// What is kept of this number.
    fn keep(&self, number: u64) -> Self::Kept
        ensures { result ≡ kept self.now number };
}

/// Keeps all numbers, as they are written.
#[derive(Clone, Copy)]
pub(crate) struct AsWritten;

impl Keeping for AsWritten {
    type Kept = u64;

    ghost kept = { λ _ n. n };

    ghost most_kept = { λ _. 2 ^ 64 - 1 };

    fn most(&self) -> u64 {
        u64::MAX
    }

    fn keep(&self, number: u64) -> u64 {
        number
    }
}
