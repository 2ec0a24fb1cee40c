//! What an order answers.

ghost use Rattle.std.specs.Prelude.{◌≡◌, ℕ, ◌<◌, ◌≤◌, ◌^◌, Bool, true, List, OnOk, length};
ghost use Rattle.shb_lines.specs.declared.event.Event.{Event};
ghost use Rattle.shb_lines.specs.events.Order.{IsBelowPredCount};
ghost use Rattle.shb_stamps.specs.Counts.{AreRaisedCounts};

use shb_io::NoMemory;

/// How far each thread is SHB-below the predecessor of an event.
///
/// Schedulable happens-before (SHB) is the order by paths of edges: thread order, a release to a
/// later acquire of its lock, a fork to the forked thread, a thread to a join of it, and a write to
/// each read whose last write it is. It comes from the OOPSLA 2018 paper of Mathur, Kini and
/// Viswanathan. The predecessor of an event is the event before it in its thread or, for a thread's
/// first event, the fork of the thread. An order can be asked about some events, which it names.
pub trait Order {
    /// The trace that is ordered.
    ghost trace: { Self → List Event };

    /// The events that it can be asked about.
    ghost asks: { Self → ℕ → Bool };

    /// The number of events of thread `t` that are SHB-below the predecessor of event `e`, or are
    /// it; 0 where `e` has none, and for every `t` that names no thread. Events and threads count
    /// from 0. These events are the first ones of their thread, so an earlier event of thread `t` is
    /// SHB-below the predecessor exactly where its local time is at most this
    /// number.
    fn below_pred(&self, e: u32, t: u32) -> u32
        requires in_range { e < length (trace self.now) }
        requires asked { asks self.now e ≡ true }
        ensures { IsBelowPredCount (trace self.now) t e result };

    /// Raises a count for each of the first threads to what [`below_pred`](Order::below_pred) says of it at event `e`, where
    /// that is more.
    ///
    /// # Errors
    ///
    /// `NoMemory` where memory is refused; nothing is known of the counts then.
    fn raise_below(&self, e: u32, counts: &mut Vec<u32>) -> Result<(), NoMemory>
        requires in_range { e < length (trace self.now) }
        requires asked { asks self.now e ≡ true }
        requires few { length counts.old.items ≤ 2 ^ 32 }
        ensures { OnOk result (AreRaisedCounts (trace self.now) e counts.old.items counts.new.items) }
    {
        for t in 0..counts.len() {
            let below = self.below_pred(e, t as u32);
            counts[t] = counts[t].max(below);
        }
        Ok(())
    }
}
