//! What the threads know before an event: rows that never change, and stamps that name them.
//!
//! Four events of the threads A, B and C, which are 0, 1 and 2. Row 0 has no entry. A stamp is a row, a thread and a
//! local time.
//!
//! | Event | New row | Rows of A, B and C | Stamp of x |
//! |---|---|---|---|
//! | `A|w(x)` | | 0, 0, 0 | 0 A 1: the first event of A |
//! | `B|r(x)` | 1: `1` | 0, 1, 0 | 1 A 1: the same clock, by the new row |
//! | `C|r(x)` | none: the stamp names it | 0, 1, 1 | 1 A 1 |
//! | `B|w(x)` | | 0, 1, 1 | 1 B 2: the clock `1 2` |

ghost use Rattle.std.specs.Prelude.{◌≡◌, ◌+◌, ◌-◌, ◌*◌, ◌/◌, ◌⊎◌, ◌<◌, ◌≤◌, ◌↔◌, ◌^◌, ℕ, Bool, List, [], IfOk, IsTrue, OnOk, false, true, length, max, min, slice_index_or};
ghost use Rattle.shb_lines.specs.Growing.{IsPut};
ghost use Rattle.shb_lines.specs.declared.event.Event.{Event};
ghost use Rattle.shb_lines.specs.declared.event.Op.TheVariants.{Fork, Read, Release, Write};
ghost use Rattle.shb_stamps.specs.Clocks.{Covers, HasRowAfter, IsBefore, IsNext, KeepsWrite};
ghost use Rattle.shb_stamps.specs.Stamps.{IsSource, KnowsStamp, empty_stamp};

use crate::clock::zeros;
use crate::moving::compact;
use crate::row_list::RowList;
use crate::stamp::{Stamp, is_joined, no_stamps};
use shb_io::NoMemory;
use shb_lines::{Op, Sizes, item_or, put};
use std::alloc::Global;

/// What is known of the order before an event. Threads, locks and variables are told by their numbers, and each
/// event may name new ones. A row has an entry for each thread up to the last one that it knows, and never
/// changes. Where the rows have grown by four fifths of what those in use took, the ones that a thread, a lock or a
/// variable names are moved to a new memory, and the old one is freed meanwhile.
#[derive(Drop)]
pub struct Clocks {
    pub rows: RowList,
    /// For each thread the number of the row of what it knows, 0 for nothing.
    pub current: Vec<u32>,
    /// For each lock the stamp of its last release.
    pub locks: Vec<Stamp>,
    /// For each variable the stamp of its last write that is kept.
    pub variables: Vec<Stamp>,
    /// Space to make a row in.
    pub clock: Vec<u32>,
    /// The size of the rows at which those that nothing names are freed.
    pub limit: usize,
}

/// The number of a thread's row after an event, and whether it is a new one that is the clock of what the thread
/// learned of.
#[derive(Clone, Copy)]
pub struct AfterSource {
    pub row: u32,
    pub renames: bool,
}

/// The size of the rows at which the next compaction is due: four fifths more than that of those in use, at least
/// 1 MiB, and at least the bytes of all stamps, which a compaction looks at.
fn size_limit(used: usize, stamps: usize) -> usize
    ensures { result ≡ max (max (min (used + used / 5 * 4) (2 ^ 64 - 1)) (min (stamps * 12) (2 ^ 64 - 1))) 1048576 }
{
    used.saturating_add(used / 5 * 4)
        .max(stamps.saturating_mul(12))
        .max(1_048_576)
}

/// Makes a clock that of a row, with a time put at a thread.
#[inline(always)]
fn set_clock(
    clock: &mut Vec<u32>,
    rows: &RowList,
    row: u32,
    thread: u32,
    time: u32,
) -> Result<(), NoMemory>
    ensures { OnOk result (IsPut 0 thread time (slice_index_or rows.now.list row []) clock.new.items) }
{
    rows.copy_to(row, clock)?;
    put(clock, thread, time, 0)?;
    Ok(())
}

/// Whether a row has all events of a thread before that of this time, and there are some. What the thread knows is
/// below the row then.
#[inline(always)]
fn covers(rows: &RowList, row: u32, thread: u32, time: u32) -> bool
    ensures { result ≡ true → Covers (slice_index_or rows.now.list row []) thread time }
{
    if time <= 1 {
        return false;
    }
    rows.entry(row, thread) >= time - 1
}

/// Raises each entry of a clock to that of a row, unless it covers the row. Says whether the clock is the same.
#[inline(always)]
fn join(clock: &mut Vec<u32>, rows: &RowList, row: u32, covered: bool) -> Result<bool, NoMemory>
    ensures raised { covered ≡ false → OnOk result ((t : ℕ) → slice_index_or clock.new.items t 0 ≡ max (slice_index_or clock.old.items t 0) (slice_index_or (slice_index_or rows.now.list row []) t 0)) }
    ensures same { IfOk result (λ same. same ≡ true → clock.new.items ≡ clock.old.items) }
    ensures covered { covered ≡ true → OnOk result (clock.new.items ≡ clock.old.items) }
{
    if covered {
        return Ok(true);
    }
    let below = rows.is_within(row, clock.as_slice());
    if below {
        return Ok(true);
    }
    rows.raise(row, clock)?;
    Ok(false)
}

/// The row of what a thread knows after an event that learns of the source: the one before it where it knows the
/// source, or that of the source; no row is made then. Else a new one. The event has this local time, and the clock is
/// space to work in.
fn row_after(
    rows: &mut RowList,
    clock: &mut Vec<u32>,
    thread: u32,
    time: u32,
    before: u32,
    source: Stamp,
) -> Result<AfterSource, NoMemory>
    ensures { IfOk result (HasRowAfter rows.old.list rows.new.list thread time before source) }
{
    let told = source.is_known(thread, rows, before);
    if told {
        return Ok(AfterSource {
            row: before,
            renames: false,
        });
    }
    let shared = is_joined(rows, before, source);
    if shared {
        return Ok(AfterSource {
            row: source.row,
            renames: false,
        });
    }
    set_clock(clock, rows, source.row, source.thread, source.time)?;
    let covered = covers(rows, source.row, thread, time);
    let renames = join(clock, rows, before, covered)?;
    let row = rows.push(clock.as_slice(), source.row, renames)?;
    Ok(AfterSource { row, renames })
}

/// Where a read's new row is the clock of the variable's last write, names this row in the write's stamp. So the
/// next reads of it need no row of their own.
fn rename(
    variables: &mut Vec<Stamp>,
    variable: u32,
    source: Stamp,
    after: AfterSource,
) -> Result<(), NoMemory>
    ensures kept { after.renames ≡ false → OnOk result (variables.new.items ≡ variables.old.items) }
    ensures named { after.renames ≡ true → OnOk result (IsPut empty_stamp variable (record source { row = after.row }) variables.old.items variables.new.items) }
{
    if after.renames {
        let stamp = Stamp {
            row: after.row,
            thread: source.thread,
            time: source.time,
        };
        put(variables, variable, stamp, Stamp::empty())?;
    }
    Ok(())
}

impl Clocks {
    /// What is known before the first event. There is room for so many threads, locks and variables.
    pub fn new(alloc: Global, sizes: Sizes) -> Result<Clocks, NoMemory>
        ensures before { (trace : List Event) (all : Bool) → IfOk result (IsBefore trace 0 all) }
        ensures limit { IfOk result (λ clocks. clocks.limit ≤ max 1048576 (12 * (sizes.locks + sizes.variables))) }
    {
        let stamps = (sizes.locks as usize).saturating_add(sizes.variables as usize);
        Ok(Clocks {
            rows: RowList::new(alloc)?,
            current: zeros(alloc, sizes.threads)?,
            locks: no_stamps(alloc, sizes.locks)?,
            variables: no_stamps(alloc, sizes.variables)?,
            clock: Vec::new(alloc),
            limit: size_limit(0, stamps),
        })
    }

    /// The number of the row of what a thread knows.
    #[inline(always)]
    pub fn row_number(&self, thread: u32) -> u32
        ensures { result ≡ slice_index_or self.now.current.items thread 0 }
    {
        item_or(self.current.as_slice(), thread, 0)
    }

    /// The stamp of a lock's last release.
    fn lock_stamp(&self, lock: u32) -> Stamp
        ensures { result ≡ slice_index_or self.now.locks.items lock empty_stamp }
    {
        item_or(self.locks.as_slice(), lock, Stamp::empty())
    }

    /// The stamp of a variable's last write.
    #[inline(always)]
    fn write_stamp(&self, variable: u32) -> Stamp
        ensures { result ≡ slice_index_or self.now.variables.items variable empty_stamp }
    {
        item_or(self.variables.as_slice(), variable, Stamp::empty())
    }

    /// The stamp of what an event learns of other threads: by an acquire that of the lock's last release, by a read
    /// that of the variable's last write, and by a join that of the last event of the thread, which had so many.
    fn source(&self, op: Op, joined: u32) -> Stamp
        ensures source { (trace : List Event) (n thread time : ℕ) (all : Bool) → IsNext trace n thread op time joined → IsBefore trace n all self.now
            → IsSource trace self.now.rows.list n result }
        ensures write { (x : ℕ) → op ≡ Read x → result ≡ slice_index_or self.now.variables.items x empty_stamp }
    {
        match op {
            Op::Acquire(lock) => self.lock_stamp(lock),
            Op::Read(variable) => self.write_stamp(variable),
            Op::Join(child) => {
                let row = self.row_number(child);
                Stamp {
                    row,
                    thread: child,
                    time: joined,
                }
            }
            _ => Stamp::empty(),
        }
    }

    /// How many events of another thread a thread knows.
    #[inline(always)]
    pub fn known_of(&self, thread: u32, other: u32) -> u32
        ensures { result ≡ slice_index_or (slice_index_or self.now.rows.list (slice_index_or self.now.current.items thread 0) []) other 0 }
    {
        let number = self.row_number(thread);
        self.rows.entry(number, other)
    }

    /// Whether a thread knows the last write of a variable. Nothing changes when it reads it then.
    #[inline(always)]
    pub fn knows_write(&self, thread: u32, variable: u32) -> bool
        ensures { (trace : List Event) (n time joined : ℕ) (all : Bool) → IsNext trace n thread (Read variable) time joined → IsBefore trace n all self.now
            → result ≡ true → IsBefore trace (n + 1) all self.now }
    {
        let source = self.write_stamp(variable);
        if source.thread == thread {
            return true;
        }
        let known = self.known_of(thread, source.thread);
        if source.time <= known {
            return true;
        }
        false
    }

    /// Takes a write, and keeps its stamp. Its thread learns nothing of others.
    #[inline(always)]
    pub fn take_write(&mut self, thread: u32, variable: u32, time: u32) -> Result<(), NoMemory>
        ensures { (trace : List Event) (n joined : ℕ) (all : Bool) → IsNext trace n thread (Write variable) time joined
            → KeepsWrite all trace variable n → IsBefore trace n all self.old → OnOk result (IsBefore trace (n + 1) all self.new) }
    {
        let row = self.row_number(thread);
        let stamp = Stamp { row, thread, time };
        put(&mut self.variables, variable, stamp, Stamp::empty())?;
        Ok(())
    }

    /// Takes a release, and keeps its stamp. Its thread learns nothing of others.
    fn take_release(&mut self, thread: u32, lock: u32, time: u32) -> Result<(), NoMemory>
        ensures { (trace : List Event) (n joined : ℕ) (all : Bool) → IsNext trace n thread (Release lock) time joined
            → IsBefore trace n all self.old → OnOk result (IsBefore trace (n + 1) all self.new) }
    {
        let row = self.row_number(thread);
        let stamp = Stamp { row, thread, time };
        put(&mut self.locks, lock, stamp, Stamp::empty())?;
        Ok(())
    }

    /// Takes a fork: the forked thread knows its clock. Its own thread learns nothing of others.
    fn take_fork(&mut self, thread: u32, child: u32, time: u32) -> Result<(), NoMemory>
        ensures { (trace : List Event) (n joined : ℕ) (all : Bool) → IsNext trace n thread (Fork child) time joined
            → IsBefore trace n all self.old → OnOk result (IsBefore trace (n + 1) all self.new) }
    {
        let own = self.row_number(thread);
        set_clock(&mut self.clock, &self.rows, own, thread, time)?;
        let forked = self.rows.push(self.clock.as_slice(), own, true)?;
        put(&mut self.current, child, forked, 0)?;
        Ok(())
    }

    /// Takes an event whose thread may learn of others.
    fn learn(&mut self, thread: u32, op: Op, time: u32, joined: u32) -> Result<(), NoMemory>
        requires no_write { (x : ℕ) → op ≡ Write x → ⊥ }
        requires no_release { (l : ℕ) → op ≡ Release l → ⊥ }
        requires no_fork { (t : ℕ) → op ≡ Fork t → ⊥ }
        ensures { (trace : List Event) (n : ℕ) (all : Bool) → IsNext trace n thread op time joined → IsBefore trace n all self.old
            → OnOk result (IsBefore trace (n + 1) all self.new) }
    {
        let source = self.source(op, joined);
        let before = self.row_number(thread);
        let after = row_after(
            &mut self.rows,
            &mut self.clock,
            thread,
            time,
            before,
            source,
        )?;
        put(&mut self.current, thread, after.row, 0)?;
        if let Op::Read(variable) = op {
            rename(&mut self.variables, variable, source, after)?;
        }
        Ok(())
    }

    /// Frees the rows that nothing names.
    fn compact(&mut self, alloc: Global) -> Result<(), NoMemory>
        ensures room { OnOk result (self.new.rows.size ≤ self.new.limit) }
        ensures most { OnOk result (self.new.limit ≤ max 1048576 (max (12 * (length self.new.locks.items + length self.new.variables.items)) (2 * self.new.rows.size))) }
        ensures before { (trace : List Event) (n : ℕ) (all : Bool) → n + 1 < 2 ^ 32 → IsBefore trace n all self.old → OnOk result (IsBefore trace n all self.new) }
    {
        compact(
            alloc,
            &mut self.rows,
            &mut self.current,
            &mut self.locks,
            &mut self.variables,
        )?;
        let stamps = self.locks.len().saturating_add(self.variables.len());
        self.limit = size_limit(self.rows.size(), stamps);
        Ok(())
    }

    /// Frees the rows that nothing names where all have grown to their limit.
    #[inline(always)]
    fn make_room(&mut self, alloc: Global) -> Result<(), NoMemory>
        ensures room { OnOk result (self.new.rows.size ≤ self.new.limit) }
        ensures most { OnOk result ((self.new.limit ≡ self.old.limit) ⊎ (self.new.limit ≤ max 1048576 (max (12 * (length self.new.locks.items + length self.new.variables.items)) (2 * self.new.rows.size)))) }
        ensures before { (trace : List Event) (n : ℕ) (all : Bool) → n + 1 < 2 ^ 32 → IsBefore trace n all self.old → OnOk result (IsBefore trace n all self.new) }
    {
        if self.rows.size() < self.limit {
            return Ok(());
        }
        self.compact(alloc)
    }

    /// Takes an event that is no write. Where the rows had grown to their limit, those that nothing names are freed first.
    #[inline(never)]
    pub fn take_other(
        &mut self,
        alloc: Global,
        thread: u32,
        op: Op,
        time: u32,
        joined: u32,
    ) -> Result<(), NoMemory>
        requires no_write { (x : ℕ) → op ≡ Write x → ⊥ }
        ensures { (trace : List Event) (n : ℕ) (all : Bool) → IsNext trace n thread op time joined → IsBefore trace n all self.old
            → OnOk result (IsBefore trace (n + 1) all self.new) }
    {
        self.make_room(alloc)?;
        match op {
            Op::Release(lock) => self.take_release(thread, lock, time),
            Op::Fork(child) => self.take_fork(thread, child, time),
            _ => self.learn(thread, op, time, joined),
        }
    }
}
