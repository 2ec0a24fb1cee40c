//! Who takes results in order.
ghost use Rattle.std.specs.Prelude.{◌≡◌, ℕ, ◌∷◌, ◌++◌, [], List, length, IfOk, IfErr};

use shb_io::NoMemory;

/// What takes results in the order of their pieces.
pub trait Taker<T> {
    /// Why a result was refused.
    type Error;

    /// Of the taker before, the results that it was given in order, and the taker after.
    ghost takes: { Self → List T → Self → Type 0 };

    /// Of the taker before, the results that it was given in order, the one that it then refused, its answer, and the taker after.
    ghost refuses: { Self → List T → T → Self.Error → Self → Type 0 };

    /// Of the taker before, the results that it was given in order, and the next: whether it may be given that one.
    ghost may_take: { Self → List T → T → Type 0 };

    /// Takes the result of piece k, after those of all pieces below k. After an error no other call follows.
    fn take(&mut self, k: u64, out: T) -> Result<(), Self::Error>
        requires { (start : Self) × (given : List T) × (length given ≡ k) × takes start given self.old × may_take start given out }
        ensures taken { (start : Self) (given : List T) → length given ≡ k → takes start given self.old
            → may_take start given out → IfOk result (λ _. takes start (given ++ out ∷ []) self.new) }
        ensures refused { (start : Self) (given : List T) → length given ≡ k → takes start given self.old
            → may_take start given out → IfErr result (λ e. refuses start given out e self.new) };

    /// A taker that was given nothing is as it was.
    ghost nothing: { (s : Self) → takes s [] s };
}

/// Why not all results were taken.
#[derive(Debug, Drop, Clone, Copy, PartialEq, Eq)]
pub enum StreamError<E> {
    /// Memory was refused.
    Memory(NoMemory),
    /// The taker refused a result.
    Taker(E),
}
