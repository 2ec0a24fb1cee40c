//! What is kept of a variable so that most accesses are known to race with none before them.
//!
//! An access races with none before it where the last write of its variable is SHB-below its predecessor and, where the
//! access writes, so is the newest read since that write, which all reads before it since the write are ordered before.

ghost use Rattle.std.specs.Prelude.{◌≡◌, ◌+◌, ℕ, Bool, false, true, List, Some};
ghost use Rattle.shb_lines.specs.declared.event.Event.{Event};
ghost use Rattle.shb_lines.specs.events.Discipline.{IsDisciplined};
ghost use Rattle.shb_lines.specs.events.Events.{thread_at};
ghost use Rattle.shb_stamps.specs.Clocks.{IsBefore};
ghost use Rattle.shb_stamps.specs.Screen.{IsAccess, IsAfterAll, IsPast, IsScreened, is_unknown as is_unknown_epoch};

use crate::clocks::Clocks;

/// The local time of an event that isn't known any more, above that of each event.
const NO_TIME: u32 = u32::MAX;

/// An event by its local time, from 1, and its thread; or nothing, or an event that isn't known any more.
#[derive(Clone, Copy)]
pub struct Epoch {
    pub time: u32,
    pub thread: u32,
}

/// The last write of a variable, and the newest read since, which all reads before it since the write are ordered
/// before. Where the write isn't known, nothing is; where the read isn't, nothing of the reads.
#[derive(Clone, Copy)]
pub struct Latest {
    pub write: Epoch,
    pub read: Epoch,
}

impl Latest {
    /// Before the first access.
    pub fn none() -> Latest
        ensures write { result.write.time ≡ 0 }
        ensures read { result.read.time ≡ 0 }
    {
        Latest {
            write: nothing(),
            read: nothing(),
        }
    }

    /// Whether an access so far may race with one before it.
    pub fn may_race(self) -> bool
        ensures { result ≡ is_unknown_epoch self.write }
    {
        is_unknown(self.write)
    }

    /// Whether the newest access is known to be after all before it.
    pub fn is_after_all(self) -> bool
        ensures write { result ≡ true → is_unknown_epoch self.write ≡ false }
        ensures read { result ≡ true → is_unknown_epoch self.read ≡ false }
    {
        if self.may_race() {
            return false;
        }
        !is_unknown(self.read)
    }
}

/// The epoch of nothing, which each event is after.
fn nothing() -> Epoch
    ensures { result.time ≡ 0 }
{
    Epoch { time: 0, thread: 0 }
}

/// The epoch that no event is known to be after.
fn unknown() -> Epoch
    ensures { is_unknown_epoch result ≡ true }
{
    Epoch {
        time: NO_TIME,
        thread: 0,
    }
}

/// Whether the event of an epoch isn't known any more.
fn is_unknown(epoch: Epoch) -> bool
    ensures { result ≡ is_unknown_epoch epoch }
{
    epoch.time == NO_TIME
}

/// Whether what an epoch stands for is SHB-below the predecessor of the next event, which is of this thread.
#[inline(always)]
fn is_past(clocks: &Clocks, epoch: Epoch, thread: u32) -> bool
    ensures { (trace : List Event) (n : ℕ) (all : Bool) → IsDisciplined trace → IsBefore trace n all clocks.now
        → thread_at trace n ≡ Some thread → result ≡ true → IsPast trace n epoch }
{
    let lost = is_unknown(epoch);
    if lost {
        return false;
    }
    // What asks the clocks nothing comes first.
    if epoch.time == 0 {
        return true;
    }
    if epoch.thread == thread {
        return true;
    }
    let below = clocks.known_of(thread, epoch.thread);
    if epoch.time <= below {
        return true;
    }
    false
}

/// What is kept of a variable after the next event, an access of it.
#[inline(always)]
pub fn after_access(clocks: &Clocks, latest: Latest, own: Epoch, writes: bool) -> Latest
    ensures screened { (trace : List Event) (n x : ℕ) (all : Bool) → IsDisciplined trace → IsBefore trace n all clocks.now
        → IsAccess trace n x own writes → IsScreened trace x n latest → IsScreened trace x (n + 1) result }
    ensures after { (trace : List Event) (n x : ℕ) (all : Bool) → IsDisciplined trace → IsBefore trace n all clocks.now
        → IsAccess trace n x own writes → IsScreened trace x n latest → IsAfterAll trace x n result }
{
    let read = nothing();
    let past = is_past(clocks, latest.write, own.thread);
    if !past {
        let write = unknown();
        return Latest { write, read };
    }
    let after_read = is_past(clocks, latest.read, own.thread);
    let newest = if after_read { own } else { unknown() };
    if writes {
        return Latest {
            write: newest,
            read,
        };
    }
    Latest {
        write: latest.write,
        read: newest,
    }
}
