//! What the events so far did to each lock and each thread.
ghost use Rattle.std.specs.Prelude.{◌≡◌, ◌<◌, ◌↔◌, ◌^◌, ◌+◌, ◌++◌, ℕ, List, IsTrue, None, OnOk, true, length, count_by, slice_index_or, [], ◌∷◌};
ghost use Rattle.shb_lines.specs.declared.event.Event.{Event};
ghost use Rattle.shb_lines.specs.declared.event.Op.TheVariants.{Acquire, Release, Fork, Join};
ghost use Rattle.shb_lines.specs.events.Discipline.{MayCome, acquires, is_fork, is_join, is_of, only, other_than, releases};
ghost use Rattle.shb_discipline.specs.Faults.{HasDisciplineFault};
ghost use Rattle.shb_discipline.specs.State.{IsLockAfter, IsStateAfter, Tells, free_lock};
ghost use Rattle.shb_lines.specs.Lowest.{IsLowest};
ghost use Rattle.shb_lines.specs.text.Faults.{number_of};

use shb_io::NoMemory;
use shb_lines::{Fault, Op, item_or, put};
use std::alloc::Global;

/// A lock after some events: its holder, and how many of the holder's acquires are not yet
/// released, 0 where the lock is free.
#[derive(Clone, Copy, Debug)]
pub(crate) struct LockState {
    pub(crate) holder: u32,
    pub(crate) depth: u32,
}

/// The discipline event by event: all locks and threads after some events, by their numbers. It grows as
/// events name more of them.
#[derive(Drop)]
pub struct State {
    pub(crate) locks: Vec<LockState>,
    /// Whether a thread had an event.
    pub(crate) started: Vec<bool>,
    /// Whether a thread was forked.
    pub(crate) forked: Vec<bool>,
    /// Whether a thread was joined.
    pub(crate) joined: Vec<bool>,
    /// The thread of the last event, if there was one.
    pub(crate) last: Option<u32>,
}

/// A lock that no event names.
fn free_lock() -> LockState
    ensures { result ≡ free_lock }
{
    LockState {
        holder: 0,
        depth: 0,
    }
}

impl LockState {
    /// Whether no other thread than this holds the lock.
    fn is_available_to(self, thread: u32) -> bool
        ensures { (past : List Event) (l : ℕ) → IsLockAfter past l self → IsTrue result
            ↔ (acquires (other_than thread) l past ≡ releases (other_than thread) l past) }
    {
        self.depth == 0 || self.holder == thread
    }

    /// Whether this thread holds the lock.
    fn is_held_by(self, thread: u32) -> bool
        ensures { (past : List Event) (l : ℕ) → IsLockAfter past l self → IsTrue result
            ↔ (releases (only thread) l past < acquires (only thread) l past) }
    {
        self.depth > 0 && self.holder == thread
    }

    /// The fault of an acquire by this thread, if it has one.
    fn acquire_fault(self, thread: u32, lock: u32) -> Option<Fault>
        ensures { (past : List Event) (e : Event) → e.thread ≡ thread → e.op ≡ Acquire lock
            → count_by (is_join thread) past ≡ 0 → IsLockAfter past lock self
            → IsLowest number_of (HasDisciplineFault past e) result }
    {
        if self.is_available_to(thread) {
            None
        } else {
            Some(Fault::LockHeld)
        }
    }

    /// The fault of a release by this thread, if it has one.
    fn release_fault(self, thread: u32, lock: u32) -> Option<Fault>
        ensures { (past : List Event) (e : Event) → e.thread ≡ thread → e.op ≡ Release lock
            → count_by (is_join thread) past ≡ 0 → IsLockAfter past lock self
            → IsLowest number_of (HasDisciplineFault past e) result }
    {
        if self.is_held_by(thread) {
            None
        } else {
            Some(Fault::NotHeld)
        }
    }
}

/// The fault of a join by this thread, if it has one.
fn join_fault(thread: u32, child: u32) -> Option<Fault>
    ensures { (past : List Event) (e : Event) → e.thread ≡ thread → e.op ≡ Join child
        → count_by (is_join thread) past ≡ 0 → IsLowest number_of (HasDisciplineFault past e) result }
{
    if child == thread {
        Some(Fault::JoinSelf)
    } else {
        None
    }
}

impl State {
    /// Before all events: each lock is free, and no thread has begun.
    pub fn new(alloc: Global) -> State
        ensures { IsStateAfter [] result }
    {
        State {
            locks: Vec::new(alloc),
            started: Vec::new(alloc),
            forked: Vec::new(alloc),
            joined: Vec::new(alloc),
            last: None,
        }
    }

    /// Whether the thread had an event.
    fn is_started(&self, thread: u32) -> bool
        ensures { (past : List Event) → IsStateAfter past self.now → Tells result (count_by (is_of thread) past) }
    {
        item_or(self.started.as_slice(), thread, false)
    }

    /// Whether the thread was forked.
    fn is_forked(&self, thread: u32) -> bool
        ensures { (past : List Event) → IsStateAfter past self.now → Tells result (count_by (is_fork thread) past) }
    {
        item_or(self.forked.as_slice(), thread, false)
    }

    /// Whether the thread was joined.
    fn is_joined(&self, thread: u32) -> bool
        ensures { (past : List Event) → IsStateAfter past self.now → Tells result (count_by (is_join thread) past) }
    {
        item_or(self.joined.as_slice(), thread, false)
    }

    /// What is known of the lock.
    fn lock(&self, lock: u32) -> LockState
        ensures { result ≡ slice_index_or self.now.locks.items lock free_lock }
    {
        item_or(self.locks.as_slice(), lock, free_lock())
    }

    /// The fault of a fork by this thread, if it has one.
    fn fork_fault(&self, thread: u32, child: u32) -> Option<Fault>
        ensures { (past : List Event) (e : Event) → e.thread ≡ thread → e.op ≡ Fork child
            → count_by (is_join thread) past ≡ 0 → IsStateAfter past self.now
            → IsLowest number_of (HasDisciplineFault past e) result }
    {
        if child == thread {
            Some(Fault::ForkSelf)
        } else if self.is_started(child) {
            Some(Fault::ForkStarted)
        } else if self.is_forked(child) {
            Some(Fault::ForkTwice)
        } else if self.is_joined(child) {
            Some(Fault::ForkJoined)
        } else {
            None
        }
    }

    /// The fault of lowest number of an operation by this thread, which was not joined, if it has one.
    fn operation_fault(&self, thread: u32, op: Op) -> Option<Fault>
        ensures { (past : List Event) (e : Event) → e.thread ≡ thread → e.op ≡ op → count_by (is_join thread) past ≡ 0
            → IsStateAfter past self.now → IsLowest number_of (HasDisciplineFault past e) result }
    {
        match op {
            Op::Acquire(lock) => self.lock(lock).acquire_fault(thread, lock),
            Op::Release(lock) => self.lock(lock).release_fault(thread, lock),
            Op::Fork(child) => self.fork_fault(thread, child),
            Op::Join(child) => join_fault(thread, child),
            _ => None,
        }
    }

    /// Whether it is an access by the thread of the last event. It has no fault, and changes nothing that is known.
    #[inline(always)]
    fn is_plain(&self, thread: u32, op: Op) -> bool
        ensures fault { (past : List Event) (e : Event) → e.thread ≡ thread → e.op ≡ op → IsStateAfter past self.now
            → result ≡ true → IsLowest number_of (HasDisciplineFault past e) None }
        ensures same { (past : List Event) (e : Event) → e.thread ≡ thread → e.op ≡ op → MayCome past e
            → IsStateAfter past self.now → result ≡ true → IsStateAfter (past ++ e ∷ []) self.now }
    {
        let Some(last) = self.last else {
            return false;
        };
        if last != thread {
            return false;
        }
        match op {
            Op::Read(_) => true,
            Op::Write(_) => true,
            _ => false,
        }
    }

    /// The fault of lowest number of an operation by this thread, if it has one.
    #[inline(always)]
    pub fn fault(&self, thread: u32, op: Op) -> Option<Fault>
        ensures { (past : List Event) (e : Event) → e.thread ≡ thread → e.op ≡ op → IsStateAfter past self.now
            → IsLowest number_of (HasDisciplineFault past e) result }
    {
        if self.is_plain(thread, op) {
            return None;
        }
        if self.is_joined(thread) {
            Some(Fault::AfterJoin)
        } else {
            self.operation_fault(thread, op)
        }
    }

    /// Takes note of an event, which has no fault, after fewer than 4,294,967,295 others.
    ///
    /// # Errors
    ///
    /// `NoMemory` where a growth is refused. Nothing can be asked then.
    #[inline(always)]
    pub fn note(&mut self, thread: u32, op: Op) -> Result<(), NoMemory>
        ensures { (past : List Event) (e : Event) → e.thread ≡ thread → e.op ≡ op → length past + 1 < 2 ^ 32 → MayCome past e
            → IsStateAfter past self.old → OnOk result (IsStateAfter (past ++ e ∷ []) self.new) }
    {
        if self.is_plain(thread, op) {
            return Ok(());
        }
        self.note_other(thread, op)
    }

    /// Takes note of an event that isn't an access by the thread of the last one.
    fn note_other(&mut self, thread: u32, op: Op) -> Result<(), NoMemory>
        ensures { (past : List Event) (e : Event) → e.thread ≡ thread → e.op ≡ op → length past + 1 < 2 ^ 32 → MayCome past e
            → IsStateAfter past self.old → OnOk result (IsStateAfter (past ++ e ∷ []) self.new) }
    {
        self.last = Some(thread);
        put(&mut self.started, thread, true, false)?;
        match op {
            Op::Acquire(lock) => {
                let depth = self.lock(lock).depth.saturating_add(1);
                let taken = LockState {
                    holder: thread,
                    depth,
                };
                put(&mut self.locks, lock, taken, free_lock())?;
                Ok(())
            }
            Op::Release(lock) => {
                let held = self.lock(lock);
                let left = LockState {
                    holder: held.holder,
                    depth: held.depth.saturating_sub(1),
                };
                put(&mut self.locks, lock, left, free_lock())?;
                Ok(())
            }
            Op::Fork(child) => {
                put(&mut self.forked, child, true, false)?;
                Ok(())
            }
            Op::Join(child) => {
                put(&mut self.joined, child, true, false)?;
                Ok(())
            }
            _ => Ok(()),
        }
    }
}
