//! Stamps: the clock of an event in twelve bytes, over a row that others share.

ghost use Rattle.std.specs.Prelude.{◌≡◌, ℕ, ◌≤◌, ◌↔◌, IfOk, IsTrue, [], true, replicate, slice_index_or};
ghost use Rattle.shb_stamps.specs.Stamps.{KnowsStamp, empty_stamp};

use crate::row_list::RowList;
use shb_io::NoMemory;
use std::alloc::Global;

/// The clock of an event: the row of that number, with the entry of the event's thread set to the
/// event's local time, from 1. Time 0 stands for no event.
#[derive(Clone, Copy)]
pub struct Stamp {
    pub row: u32,
    pub thread: u32,
    pub time: u32,
}

impl Stamp {
    /// The stamp of no event.
    pub fn empty() -> Stamp
        ensures { result ≡ empty_stamp }
    {
        Stamp {
            row: 0,
            thread: 0,
            time: 0,
        }
    }

    /// Whether a thread that knows a row, but for its own entry, knows the event of this stamp.
    #[inline(always)]
    pub fn is_known(self, thread: u32, rows: &RowList, row: u32) -> bool
        ensures { IsTrue result ↔ KnowsStamp (slice_index_or rows.now.list row []) thread self }
    {
        self.thread == thread || self.time <= rows.entry(row, self.thread)
    }
}

/// Whether a stamp's row is the clock of the stamp, and a known row is below it. Then that clock is the known row raised
/// to it.
#[inline(always)]
pub fn is_joined(rows: &RowList, known: u32, stamp: Stamp) -> bool
    ensures { result ≡ true → (slice_index_or (slice_index_or rows.now.list stamp.row []) stamp.thread 0 ≡ stamp.time)
        × ((t : ℕ) → slice_index_or (slice_index_or rows.now.list known []) t 0 ≤ slice_index_or (slice_index_or rows.now.list stamp.row []) t 0) }
{
    if rows.entry(stamp.row, stamp.thread) != stamp.time {
        return false;
    }
    rows.is_below(known, stamp.row)
}

/// Stamps of no event.
pub fn no_stamps(alloc: Global, size: u32) -> Result<Vec<Stamp>, NoMemory>
    ensures { IfOk result (λ stamps. stamps.items ≡ replicate size empty_stamp) }
{
    let empty = Stamp::empty();
    Ok(vec![in alloc; empty; size as usize]?)
}
