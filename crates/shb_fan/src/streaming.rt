//! Results in the order of their pieces, while others are computed.
ghost use Rattle.std.specs.Prelude.{◌≡◌, ◌∷◌, ◌++◌, ◌+◌, ◌<◌, [], None, Some, true, false, All, IfOk, IfErr, IfSome, IfNone, IsTrue, IsFalse, length};
ghost use Rattle.shb_fan.specs.Seated.{IsSeatOf, job_of, claimed_of, placed_of, lifted_of};
ghost use Rattle.shb_fan.specs.Streamed.{IsIdle, IsShared, IsRunning, HasWorked, HasAccounts, HasLifted, HasEnded, HasPlacedAllBut, KnowsStop, CanBegin, CanDraw, CanMake, CanTake, CanWork, MayTake, Ended};

use crate::crew::{Desk, Worker};
use crate::gate::Gate;
use crate::job::Job;
use crate::shares::Ring;
use crate::sides::{CallerSide, WorkerSide, run_both_sides};
use crate::taker::{StreamError, Taker};
use crate::tickets::{DrawEnd, Tickets};
use crate::workers::Workers;
use shb_io::NoMemory;
use std::alloc::Global;
use std::sync::{OnceLock, Wait};
use std::thread::Threads;

/// What is run: the pieces of a job, each once its gate lets it pass.
#[derive(Drop)]
pub(crate) struct GatedJob<'a, J, G> {
    pub(crate) job: &'a J,
    pub(crate) gate: &'a G,
    pub(crate) alloc: Global,
}

/// What all workers and the caller share. `refused` keeps the first refusal of memory, from before the draw is
/// stopped for it.
#[derive(Drop)]
pub(crate) struct Shared<'a, T: Drop, M, J: Job<Out = T, Meaning = M>, G> {
    pub(crate) gated: GatedJob<'a, J, G>,
    pub(crate) desk: &'a Desk<T, M, J>,
    pub(crate) refused: &'a OnceLock<NoMemory>,
    pub(crate) pieces: u64,
}

/// Whether the slot of piece k was got before a stop was seen.
fn wait_to_claim<R: Wait, T: Drop, M, J: Job<Out = T, Meaning = M>, G: Gate>(
    rt: &R,
    shared: &Shared<'_, T, M, J, G>,
    worker: &mut Worker<T, M>,
    k: u64,
) -> bool
    requires ready { IsShared J.value J.count shared.now
        × IsIdle J.value J.count shared.now.desk.now.tickets shared.now.desk.now.ring worker.old }
    requires piece { k < J.count shared.now.gated.job.now }
    ensures pass { (worker.new.pass.source ≡ worker.old.pass.source) × (worker.new.pass.drawn ≡ worker.old.pass.drawn)
        × (worker.new.pass.halted ≡ worker.old.pass.halted) }
    ensures seat { IsSeatOf J.value J.count shared.now.desk.now.ring worker.new.seat }
    ensures placed { placed_of worker.new.seat ≡ placed_of worker.old.seat }
    ensures lifted { lifted_of worker.new.seat ≡ lifted_of worker.old.seat }
    ensures won { IsTrue result → (claimed_of worker.new.seat ≡ k ∷ []) × (worker.new.pass.seen ≡ worker.old.pass.seen) }
    ensures stopped { IsFalse result → (claimed_of worker.new.seat ≡ []) × IsTrue worker.new.pass.seen }
{
    let mut turns = 0u32;
    for _ in rt.forever() {
        if shared.desk.ring.claim(&mut worker.seat, k) {
            return true;
        }
        if shared.desk.tickets.stopped(&mut worker.pass) {
            return false;
        }
        shared.desk.ring.pause(rt, k, 4 * k, turns);
        turns = turns.saturating_add(1);
    }
    unreachable!()
}

/// Runs piece k and places its value, unless memory runs out or a stop is seen. Says whether it did.
fn make<R: Wait, T: Drop, M, J: Job<Out = T, Meaning = M>, G: Gate>(
    rt: &R,
    shared: &Shared<'_, T, M, J, G>,
    worker: &mut Worker<T, M>,
    k: u64,
) -> bool
    requires ready { CanMake J.value J.count shared.now worker.old k }
    requires piece { k < J.count shared.now.gated.job.now }
    ensures ready { CanWork J.value J.count shared.now worker.new }
    ensures made { IsTrue result → IsRunning worker.new × HasPlacedAllBut worker.new [] }
    ensures stopped { IsFalse result → KnowsStop worker.new }
    ensures lifted { lifted_of worker.new.seat ≡ lifted_of worker.old.seat }
{
    shared.gated.gate.enter(rt, k);
    let out = match shared.gated.job.run(shared.gated.alloc, k) {
        Ok(out) => out,
        Err(refused) => {
            let _ = shared.refused.set(rt, refused);
            shared.desk.tickets.stop(&mut worker.pass);
            return false;
        }
    };
    if !wait_to_claim(rt, shared, worker, k) {
        return false;
    }
    shared.desk.ring.place(&mut worker.seat, k, out);
    true
}

/// Draws, runs and places pieces, until there is no more, memory runs out or a stop is seen.
fn work<R: Wait, T: Drop, M, J: Job<Out = T, Meaning = M>, G: Gate>(
    rt: &R,
    shared: &Shared<'_, T, M, J, G>,
    worker: &mut Worker<T, M>,
)
    requires { CanDraw J.value J.count shared.now worker.old }
    ensures worked { CanWork J.value J.count shared.now worker.new }
    ensures ended { HasEnded worker.new }
{
    for _ in rt.forever() {
        let Some(k) = shared.desk.tickets.draw(&mut worker.pass) else {
            return;
        };
        if !make(rt, shared, worker, k) {
            return;
        }
    }
    unreachable!()
}

/// The value of piece k, unless memory runs out or a stop is seen first.
///
/// Where nobody has drawn piece k the caller draws it and makes it itself. So nothing is waited for that
/// no thread will make.
fn wait_to_lift<R: Wait, T: Drop, M, J: Job<Out = T, Meaning = M>, G: Gate>(
    rt: &R,
    shared: &Shared<'_, T, M, J, G>,
    own: &mut Worker<T, M>,
    k: u64,
) -> Option<T>
    requires ready { CanTake J.value J.count shared.now own.old }
    requires piece { k < J.count shared.now.gated.job.now }
    ensures ready { CanWork J.value J.count shared.now own.new }
    ensures value { IfSome result (λ out. (J.meaning out ≡ J.value shared.now.gated.job.now k)
        × CanTake J.value J.count shared.now own.new
        × (lifted_of own.new.seat ≡ lifted_of own.old.seat ++ k ∷ [])) }
    ensures stopped { IfNone result (KnowsStop own.new) }
{
    let mut turns = 0u32;
    for _ in rt.forever() {
        let lifted = shared.desk.ring.lift(&mut own.seat, k);
        if lifted.is_some() {
            return lifted;
        }
        if shared.desk.tickets.stopped(&mut own.pass) {
            return None;
        }
        if shared.desk.tickets.draw_this(&mut own.pass, k) {
            if !make(rt, shared, own, k) {
                return None;
            }
        } else {
            shared.desk.ring.pause(rt, k, 4 * k + 2, turns);
            turns = turns.saturating_add(1);
        }
    }
    unreachable!()
}

/// Hands all results to the taker, in order, unless it refuses one, memory runs out or a stop is seen. An error
/// comes only once the caller's pass has stopped the draw or has seen that it is stopped.
fn take_all<R: Wait, T: Drop, M, J: Job<Out = T, Meaning = M>, G: Gate, E, K: Taker<T, Error = E>>(
    rt: &R,
    shared: &Shared<'_, T, M, J, G>,
    own: &mut Worker<T, M>,
    taker: &mut K,
) -> Result<(), StreamError<E>>
    requires ready { CanTake J.value J.count shared.now own.old }
    requires may_take { MayTake J.meaning (J.value shared.now.gated.job.now) K.may_take (J.count shared.now.gated.job.now) taker.old }
    ensures ended { Ended J.meaning (J.value shared.now.gated.job.now) K.takes K.refuses (J.count shared.now.gated.job.now)
        taker.old result taker.new }
    ensures idle { IsIdle J.value J.count shared.now.desk.now.tickets shared.now.desk.now.ring own.new }
    ensures all { IfOk result (λ _. HasAccounts own.new × HasLifted own.new (J.count shared.now.gated.job.now)) }
    ensures stopped { IfErr result (λ _. KnowsStop own.new) }
{
    for k in 0..shared.pieces {
        let Some(out) = wait_to_lift(rt, shared, own, k) else {
            return Err(StreamError::Memory(*shared.refused.wait(rt)));
        };
        match taker.take(k, out) {
            Ok(()) => {}
            Err(e) => {
                shared.desk.tickets.stop(&mut own.pass);
                return Err(StreamError::Taker(e));
            }
        }
    }
    Ok(())
}

impl<'a, T: Drop, M, J: Job<Out = T, Meaning = M>, G: Gate> WorkerSide<Worker<T, M>>
    for Shared<'a, T, M, J, G> {
    ghost use Rattle.shb_fan.specs.Streamed.{CanDraw, CanWork, HasEnded};

    ghost ready = { λ shared worker. CanDraw J.value J.count shared worker };

    ghost has_worked = { λ shared worker. CanWork J.value J.count shared worker × HasEnded worker };

    fn work<R: Wait>(&self, rt: &R, worker: &mut Worker<T, M>) {
        work(rt, self, worker);
    }
}

impl<'a, T: Drop, M, J: Job<Out = T, Meaning = M>, G: Gate, E, K: Taker<T, Error = E>> CallerSide<
    Worker<T, M>,
    K,
> for Shared<'a, T, M, J, G> {
    ghost use Rattle.std.specs.Prelude.{IfOk, IfErr};
    ghost use Rattle.shb_fan.specs.Streamed.{CanTake, MayTake, Ended, IsIdle, HasAccounts, HasLifted, KnowsStop};

    type Answer = Result<(), StreamError<E>>;

    ghost can_take = { λ shared own taker. CanTake J.value J.count shared own
        × MayTake J.meaning (J.value shared.gated.job.now) K.may_take (J.count shared.gated.job.now) taker };

    ghost leaves = { λ shared answer own.
        IsIdle J.value J.count shared.desk.now.tickets shared.desk.now.ring own
        × IfOk answer (λ _. HasAccounts own × HasLifted own (J.count shared.gated.job.now))
        × IfErr answer (λ _. KnowsStop own) };

    ghost gives = { λ shared start answer end.
        Ended J.meaning (J.value shared.gated.job.now) K.takes K.refuses (J.count shared.gated.job.now) start answer end };

    fn take<R: Wait>(
        &self,
        rt: &R,
        own: &mut Worker<T, M>,
        taker: &mut K,
    ) -> Result<(), StreamError<E>> {
        take_all(rt, self, own, taker)
    }
}

/// The workers work, and the caller takes.
fn work_and_take<
    R: Threads + Wait + Sync,
    T: Drop + Send,
    M,
    J: Job<Out = T, Meaning = M> + Sync,
    G: Gate + Sync,
    E,
    K: Taker<T, Error = E>,
>(
    rt: &R,
    gated: GatedJob<'_, J, G>,
    desk: &Desk<T, M, J>,
    workers: &mut [Worker<T, M>],
    own: &mut Worker<T, M>,
    taker: &mut K,
) -> Result<(), StreamError<E>>
    requires tickets { desk.now.tickets.limit ≡ J.count gated.job.now }
    requires ring { job_of desk.now.ring ≡ gated.job.now }
    requires workers { All (CanBegin J.value J.count desk.now.tickets desk.now.ring) workers.old }
    requires own { CanBegin J.value J.count desk.now.tickets desk.now.ring own.old }
    requires may_take { MayTake J.meaning (J.value gated.job.now) K.may_take (J.count gated.job.now) taker.old }
    ensures ended { Ended J.meaning (J.value gated.entry.job.now) K.takes K.refuses (J.count gated.entry.job.now) taker.old result taker.new }
    ensures workers { (length workers.new ≡ length workers.old)
        × All (HasWorked J.value J.count desk.now.tickets desk.now.ring) workers.new }
    ensures worked { All HasEnded workers.new }
    ensures idle { IsIdle J.value J.count desk.now.tickets desk.now.ring own.new }
    ensures all { IfOk result (λ _. HasAccounts own.new × HasLifted own.new (J.count gated.entry.job.now)) }
    ensures stopped { IfErr result (λ _. KnowsStop own.new) }
{
    let refused = OnceLock::new();
    let pieces = gated.job.pieces();
    let shared = Shared {
        gated,
        desk,
        refused: &refused,
        pieces,
    };
    run_both_sides(rt, &shared, workers, &shared, own, taker)
}

/// What `stream` does, and how the draw ended: on Ok as many numbers were drawn as there are pieces, and nobody
/// stopped. Who closes no tickets has no such answer to give. Of how far the draw came before an error no clause
/// speaks.
fn stream_to_close<
    R: Threads + Wait + Sync,
    T: Drop + Send,
    M,
    J: Job<Out = T, Meaning = M> + Sync,
    G: Gate + Sync,
    E,
    K: Taker<T, Error = E>,
>(
    rt: &R,
    alloc: Global,
    job: &J,
    gate: &G,
    workers: Workers,
    taker: &mut K,
) -> Result<DrawEnd, StreamError<E>>
    requires { MayTake J.meaning (J.value job.now) K.may_take (J.count job.now) taker.old }
    ensures ended { Ended J.meaning (J.value job.now) K.takes K.refuses (J.count job.now) taker.old result taker.new }
    ensures drawn { IfOk result (λ end. (end.closed.drawn ≡ J.count job.now) × (end.closed.stopped ≡ false)) }
{
    let threads = workers.get() + 1;
    let (tickets, mut passes) = match Tickets::new(alloc, job.pieces(), threads) {
        Ok(made) => made,
        Err(refused) => return Err(StreamError::Memory(refused)),
    };
    let (ring, mut seats) = match Ring::new(alloc, job) {
        Ok(made) => made,
        Err(refused) => return Err(StreamError::Memory(refused)),
    };
    let desk = Desk { tickets, ring };
    let mut workers = match desk.make_workers(alloc, &mut passes, &mut seats) {
        Ok(made) => made,
        Err(refused) => return Err(StreamError::Memory(refused)),
    };
    let Some(mut own) = workers.pop() else {
        unreachable!()
    };
    let gated = GatedJob { job, gate, alloc };
    let answer = work_and_take(rt, gated, &desk, workers.as_mut_slice(), &mut own, taker);
    // From here on it is the same for a success and an error: all passes and seats come back, and the tickets
    // and the ring are closed. Of an error this is what the code does, and no clause says it.
    desk.take_back(workers, &mut passes, &mut seats);
    let end = desk.close_both(passes, seats, own);
    answer?;
    Ok(end)
}

/// Hands the values of all pieces to the taker in order, while workers run pieces at once.
///
/// At each call of the taker, also of a run that never ends, its number is how many came before it, what
/// came before are the values of the pieces below that number in order, and the result is that of the
/// piece. What the taker asks of such a call is all that the caller has to show.
///
/// The caller's thread takes; each worker runs in a thread of its own where the system has one for it. A piece
/// that nobody has drawn when its turn comes the caller runs itself, so all of them where no worker has a
/// thread. `Memory` where memory was refused, here or to a piece; `Taker` where the taker refused a value.
/// After an error the taker was given the values of the first pieces, no call follows one that it refused, and
/// values that it wasn't given are dropped.
pub fn stream<
    R: Threads + Wait + Sync,
    T: Drop + Send,
    M,
    J: Job<Out = T, Meaning = M> + Sync,
    G: Gate + Sync,
    E,
    K: Taker<T, Error = E>,
>(
    rt: &R,
    alloc: Global,
    job: &J,
    gate: &G,
    workers: Workers,
    taker: &mut K,
) -> Result<(), StreamError<E>>
    requires { MayTake J.meaning (J.value job.now) K.may_take (J.count job.now) taker.old }
    ensures ended { Ended J.meaning (J.value job.now) K.takes K.refuses (J.count job.now) taker.old result taker.new }
{
    stream_to_close(rt, alloc, job, gate, workers, taker)?;
    Ok(())
}
