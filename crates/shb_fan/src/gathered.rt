//! The values of all pieces, gathered.
ghost use Rattle.std.specs.Prelude.{◌≡◌, IfOk, map};
ghost use Rattle.shb_fan.specs.Values.{values_of};

use crate::gate::Gate;
use crate::job::Job;
use crate::streaming::stream;
use crate::taker::{StreamError, Taker};
use crate::workers::Workers;
use shb_io::NoMemory;
use std::alloc::Global;
use std::sync::Wait;
use std::thread::Threads;

/// Keeps what it is given.
#[derive(Drop)]
struct Keeper<T: Drop> {
    values: Vec<T>,
}

impl<T: Drop> Taker<T> for Keeper<T> {
    ghost use Rattle.std.specs.Prelude.{◌≡◌, ◌++◌};
    ghost use Rattle.std.proofs.Common.{sym, append-nil};

    type Error = NoMemory;

    ghost takes = { λ start given end. end.values.items ≡ start.values.items ++ given };

    ghost may_take = { λ _ _ _. Unit {0} };

    ghost refuses = { λ start given _ _ end. end.values.items ≡ start.values.items ++ given };

    ghost nothing = { λ s. sym (append-nil s.values.items) };

    fn take(&mut self, _k: u64, out: T) -> Result<(), NoMemory> {
        self.values.push(out)?;
        Ok(())
    }
}

/// The values of all pieces in order, by workers that run pieces at once.
///
/// `NoMemory` where memory was refused, here or to a piece.
pub fn gather<
    R: Threads + Wait + Sync,
    T: Drop + Send,
    M,
    J: Job<Out = T, Meaning = M> + Sync,
    G: Gate + Sync,
>(rt: &R, alloc: Global, job: &J, gate: &G, workers: Workers) -> Result<Vec<T>, NoMemory>
    ensures { IfOk result (λ v. map J.meaning v.items ≡ values_of (J.value job.now) (J.count job.now)) }
{
    let mut keeper = Keeper {
        values: Vec::with_capacity(alloc, job.pieces() as usize)?,
    };
    match stream(rt, alloc, job, gate, workers, &mut keeper) {
        Ok(_) => {}
        Err(StreamError::Memory(refused) | StreamError::Taker(refused)) => return Err(refused),
    }
    let Keeper { values } = keeper;
    Ok(values)
}
