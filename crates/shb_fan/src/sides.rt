//! The work of all workers, at once with what the caller does.
ghost use Rattle.std.specs.Prelude.{All, ◌≡◌, length};
ghost use Rattle.std.specs.Thread.{IsSync, IsSend};

use std::sync::Wait;
use std::thread::{Threads, for_each_mut, join_mut};

/// What each worker does.
pub(crate) trait WorkerSide<W> {
    ghost ready: { Self → W → Type 0 };

    ghost has_worked: { Self → W → Type 0 };

    fn work<R: Wait>(&self, rt: &R, worker: &mut W)
        requires { ready self.now worker.old }
        ensures { has_worked self.now worker.new };
}

/// What the caller does with a taker `K` in the meantime, with what it has of its own, `O`.
pub(crate) trait CallerSide<O, K> {
    type Answer;

    ghost can_take: { Self → O → K → Type 0 };

    ghost gives: { Self → K → Self.Answer → K → Type 0 };

    ghost leaves: { Self → Self.Answer → O → Type 0 };

    fn take<R: Wait>(&self, rt: &R, own: &mut O, taker: &mut K) -> Self::Answer
        requires { can_take self.now own.old taker.old }
        ensures answer { gives self.now taker.old result taker.new }
        ensures own { leaves self.now result own.new };
}

/// Each worker works, at once with the others.
fn work_all<R: Threads + Wait + Sync, W: Send, C: WorkerSide<W> + Sync>(
    rt: &R,
    side: &C,
    workers: &mut [W],
)
    requires { All (C.ready side.now) workers.old }
    ensures { (length workers.new ≡ length workers.old) × All (C.has_worked side.now) workers.new }
{
    let work = |_: usize, worker: &mut W|
        requires { C.ready side.now worker.old }
        ensures { C.has_worked side.entry.now worker.new }
    { side.work(rt, worker) };
    let threads = workers.len().max(1);
    for_each_mut(rt, workers, threads, &work);
}

/// The work, at once with what the caller does in its own thread. The work comes last where no thread
/// is found for it.
pub(crate) fn run_both_sides<
    R: Threads + Wait + Sync,
    W: Send,
    C: WorkerSide<W> + Sync,
    O,
    K,
    L: CallerSide<O, K>,
>(rt: &R, side: &C, workers: &mut [W], caller: &L, own: &mut O, taker: &mut K) -> L::Answer
    requires ready { All (C.ready side.now) workers.old }
    requires own { L.can_take caller.now own.old taker.old }
    ensures workers { (length workers.new ≡ length workers.old) × All (C.has_worked side.now) workers.new }
    ensures answer { L.gives caller.now taker.old result taker.new }
    ensures own { L.leaves caller.now result own.new }
{
    let mut work = ||
        requires { IsSync R.row × IsSync C.row × IsSend W.row × All (C.ready side.now) workers.now }
        ensures { (length workers.exit.now ≡ length workers.entry.now) × All (C.has_worked side.entry.now) workers.exit.now }
    { work_all(rt, side, workers) };
    let mut take = ||
        requires { L.can_take caller.now own.now taker.now }
        ensures { L.gives caller.entry.now taker.entry.now result taker.exit.now × L.leaves caller.entry.now result own.exit.now }
    { caller.take(rt, own, taker) };
    let ((), answer) = join_mut(rt, &mut work, &mut take);
    answer
}
