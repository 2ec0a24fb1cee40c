//! Work in numbered pieces.
ghost use Rattle.std.specs.Prelude.{◌≡◌, ℕ, ◌<◌, ◌≤◌, ◌^◌, IfOk};

use shb_io::NoMemory;
use std::alloc::Global;

/// Work in pieces, each of which has a value.
pub trait Job {
    /// What running a piece gives. `gather` and `stream` ask that it may move between threads.
    type Out: Drop;

    /// What a value of `Out` stands for, as a list for a `Vec`. No value of it is made.
    type Meaning;

    ghost meaning: { Self.Out → Self.Meaning };

    ghost value: { Self → ℕ → Self.Meaning };

    ghost count: { Self → ℕ };

    /// How many pieces there are, at most 2 to the 60th.
    fn pieces(&self) -> u64
        ensures exact { result ≡ count self.now }
        ensures most { result ≤ 2 ^ 60 };

    /// The value of piece k. `NoMemory` where a growth was refused.
    fn run(&self, alloc: Global, k: u64) -> Result<Self::Out, NoMemory>
        requires { k < count self.now }
        ensures { IfOk result (λ out. meaning out ≡ value self.now k) };
}
