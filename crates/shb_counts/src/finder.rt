//! The races of an access: of each thread the newest ones of its accesses to the variable.

ghost use Rattle.std.specs.Prelude.{◌≡◌, ◌-◌, ◌<◌, ◌≤◌, ◌^◌, ◌++◌, ◌∷◌, List, ℕ, Some, cond, nat_lt, slice_get, slice_index_or, false, true, IfOk, OnOk, [], length};
ghost use Rattle.shb_lines.specs.declared.event.Event.{Event};
ghost use Rattle.shb_lines.specs.events.Order.{IsBelowPredCount};
ghost use Rattle.shb_lines.specs.events.Reach.{is_race};
ghost use Rattle.shb_stamps.specs.Accesses.{races_with};
ghost use Rattle.shb_stamps.specs.Listed.{is_listed};
ghost use Rattle.shb_counts.specs.Accesses.{AreEntries, IsAccess};
ghost use Rattle.shb_counts.specs.declared.finder.Limit.TheVariants.{Above};
ghost use Rattle.shb_counts.specs.Windows.{AreBelow, AreRising, AreWindows, IsFirst, IsLooked, IsWindow, is_between, is_past};

use crate::accesses::{Access, Entry};
use shb_io::NoMemory;
use shb_stamps::{ListedRows, Order};
use std::alloc::Global;
use std::mem::swap;

/// Of this many threads one is asked about for the price of all. The number is this project's own.
const ASKED: usize = 32;

/// Some entries that follow each other, by index.
#[derive(Clone, Copy)]
pub struct Window {
    pub start: usize,
    pub end: usize,
}

/// Which entries of a thread are looked for.
#[derive(Clone, Copy)]
enum Limit {
    /// Those from an event on.
    From(u32),
    /// Those above a local time.
    Above(u32),
}

/// Whether an entry is past a limit.
#[inline(always)]
fn is_past(entry: Entry, limit: Limit) -> bool
    ensures { result ≡ is_past limit entry }
{
    match limit {
        Limit::From(event) => entry.event >= event,
        Limit::Above(time) => entry.time > time,
    }
}

/// The index from one up to another that is nearest to a third.
#[inline(always)]
fn nearest(from: usize, to: usize, index: usize) -> usize
    requires { from < to }
    ensures from { from ≤ result }
    ensures to { result < to }
{
    index.min(to - 1).max(from)
}

/// Where to look next: at the hint, or half way where the step is longer than what is left.
#[inline(always)]
fn halved(low: usize, high: usize, hint: usize, step: usize) -> usize
    requires { low ≤ high }
{
    let left = high - low;
    if step > left {
        return low + left / 2;
    }
    hint
}

/// Whether there is no entry at an index before another one, or it is past a limit.
#[inline(always)]
fn is_past_at(entries: &[Entry], at: usize, to: usize, limit: Limit) -> bool
    requires { to ≤ length entries.now }
    ensures { result ≡ true → (entry : Entry) → slice_get entries.now at ≡ Some entry → at < to → is_past limit entry ≡ true }
{
    if at >= to {
        return true;
    }
    is_past(entries[at], limit)
}

/// Whether there is no entry before an index from another one on, or the last one isn't past a limit.
#[inline(always)]
fn none_past_before(entries: &[Entry], from: usize, at: usize, limit: Limit) -> bool
    requires { at ≤ length entries.now }
    ensures { result ≡ true → (entry : Entry) → slice_get entries.now (at - 1) ≡ Some entry → from < at → is_past limit entry ≡ false }
{
    if at <= from {
        return true;
    }
    let past = is_past(entries[at - 1], limit);
    !past
}

/// Whether an index is the first one past a limit, of rising entries from one index up to another.
#[inline(always)]
fn is_first(entries: &[Entry], from: usize, to: usize, at: usize, limit: Limit) -> bool
    requires { AreRising entries.now from to }
    ensures { result ≡ true → IsFirst limit entries.now from to at }
{
    if at < from {
        return false;
    }
    if at > to {
        return false;
    }
    let past = is_past_at(entries, at, to, limit);
    if !past {
        return false;
    }
    none_past_before(entries, from, at, limit)
}

/// The first index of rising entries, from one up to another, that is past a limit: looked for from a hint in steps that
/// double, then by halves.
fn first_past(entries: &[Entry], from: usize, to: usize, hint: usize, limit: Limit) -> usize
    requires { AreRising entries.now from to }
    ensures { IsFirst limit entries.now from to result }
{
    let mut low = from;
    let mut high = to;
    let mut hint = hint;
    let mut step = 1;
    while low < high {
        let at = nearest(low, high, hint);
        if is_past(entries[at], limit) {
            high = at;
            hint = at.saturating_sub(step);
        } else {
            low = at + 1;
            hint = at.saturating_add(step);
        }
        step = step.saturating_mul(2);
        hint = halved(low, high, hint, step);
    }
    low
}

/// The same, and the hint at once where it is right.
#[inline(always)]
fn first_from(entries: &[Entry], from: usize, to: usize, hint: usize, limit: Limit) -> usize
    requires { AreRising entries.now from to }
    ensures { IsFirst limit entries.now from to result }
{
    let right = is_first(entries, from, to, hint, limit);
    if right {
        return hint;
    }
    first_past(entries, from, to, hint, limit)
}

/// The first index of rising entries, from one up to another, that is above a local time: the hint or the end at once, where
/// one of them is right.
#[inline(always)]
fn start_of(entries: &[Entry], from: usize, end: usize, hint: usize, time: u32) -> usize
    requires { AreRising entries.now from end }
    ensures { IsFirst (Above time) entries.now from end result }
{
    let right = is_first(entries, from, end, hint, Limit::Above(time));
    if right {
        return hint;
    }
    let none = is_first(entries, from, end, end, Limit::Above(time));
    if none {
        return end;
    }
    first_past(entries, from, end, hint, Limit::Above(time))
}

/// The rising entries, from one index up to another, that are before an event and above a local time. The hint is a window
/// that may be near.
fn window_in(
    entries: &[Entry],
    from: usize,
    to: usize,
    hint: Window,
    event: u32,
    time: u32,
) -> Window
    requires { AreRising entries.now from to }
    ensures { IsWindow (is_between event time) entries.now from to result }
{
    let end = first_from(entries, from, to, hint.end, Limit::From(event));
    let start = start_of(entries, from, end, hint.start, time);
    Window { start, end }
}

/// Where the entries of the thread of an entry end.
fn end_of(entry: Entry) -> usize
    ensures end { result ≡ entry.end }
    ensures few { result < 2 ^ 32 }
{
    entry.end as usize
}

/// Whether it is seen at an index that no entry of a thread, from one index up to another, is before an event and above a
/// local time: none of those before it is above it, and none from there on is before the event.
#[inline(always)]
fn is_empty_at(entries: &[Entry], from: usize, to: usize, at: usize, event: u32, time: u32) -> bool
    requires { AreRising entries.now from to }
    ensures { result ≡ true → IsWindow (is_between event time) entries.now from to (record { start = at; end = at }) }
{
    if at <= from {
        return false;
    }
    if at > to {
        return false;
    }
    let past = is_past_at(entries, at, to, Limit::From(event));
    if !past {
        return false;
    }
    none_past_before(entries, from, at, Limit::Above(time))
}

/// Some of the threads of a variable were passed: how many, and where the entries of the next one start.
#[derive(Clone, Copy)]
struct Passed {
    threads: usize,
    from: usize,
}

/// Whether it is seen at the end of a hint that no entry of the next thread races with an access.
#[inline(always)]
fn is_empty(entries: &[Entry], below: &[u32], hints: &[Window], at: Passed, event: u32) -> bool
    requires { (entry : Entry) → slice_get entries.now at.from ≡ Some entry → AreRising entries.now at.from entry.end }
    ensures more { result ≡ true → at.from < length entries.now }
    ensures empty { result ≡ true → (entry : Entry) → slice_get entries.now at.from ≡ Some entry
        → (entry.thread < length below.now) × (k : ℕ) × IsWindow (is_between event (slice_index_or below.now entry.thread 0)) entries.now at.from entry.end (record { start = k; end = k }) }
{
    if at.from >= entries.len() {
        return false;
    }
    if at.threads >= hints.len() {
        return false;
    }
    let entry = entries[at.from];
    if entry.thread as usize >= below.len() {
        return false;
    }
    is_empty_at(
        entries,
        at.from,
        end_of(entry),
        hints[at.threads].end,
        event,
        below[entry.thread as usize],
    )
}

/// Passes threads none of whose entries races with an access, as far as it is seen at the ends of hints.
fn pass_empty(
    entries: &[Entry],
    below: &[u32],
    hints: &[Window],
    passed: Passed,
    access: Access,
) -> Passed
    requires few { passed.threads ≤ passed.from }
    requires conflicting { (trace : List Event) × (numbers : List ℕ) × IsAccess trace numbers access × AreEntries trace numbers access.variable access.writes entries.now × AreBelow trace access.event below.now }
    ensures looked { (trace : List Event) (numbers : List ℕ) (races : ℕ) (windows : List Window) → IsAccess trace numbers access → AreEntries trace numbers access.variable access.writes entries.now
        → AreBelow trace access.event below.now → IsLooked trace access.event entries.now passed.from races windows → IsLooked trace access.event entries.now result.from races windows }
    ensures forward { passed.from ≤ result.from }
    ensures few { result.threads ≤ result.from }
{
    let mut at = passed;
    while is_empty(entries, below, hints, at, access.event) {
        at = Passed {
            threads: at.threads + 1,
            from: end_of(entries[at.from]),
        };
    }
    at
}

/// Whether an entry from an index on may come before an event.
fn any_before(entries: &[Entry], from: usize, event: u32) -> bool
    ensures more { result ≡ true → from < length entries.now }
    ensures none { result ≡ false → (entry : Entry) → slice_get entries.now from ≡ Some entry → event ≤ entry.least }
{
    if from >= entries.len() {
        return false;
    }
    entries[from].least < event
}

/// A search for the races of accesses, one after the other.
#[derive(Drop)]
pub struct Finder<'a> {
    order: &'a ListedRows<'a>,
    threads: u32,
    /// How many events of each of the first threads are below the access: of none, or of all.
    below: Vec<u32>,
    /// The entries that race with the access: by thread of the variable, of those that have some.
    pub windows: Vec<Window>,
    /// By thread of the variable, where its window may be: of accesses that write or read like the one before, and of others.
    hints: Vec<Window>,
    others: Vec<Window>,
    /// Whether the access before writes.
    writes: bool,
    /// So many threads of its variable were gone through.
    passed: usize,
}

/// So many zeros.
fn fill_zeros(numbers: &mut Vec<u32>, n: u32) -> Result<(), NoMemory>
    ensures as_many { OnOk result (length numbers.new.items ≡ n) }
    ensures each { (k : ℕ) → k < n → OnOk result (slice_index_or numbers.new.items k 0 ≡ 0) }
{
    numbers.clear();
    numbers.resize(n as usize, 0)?;
    Ok(())
}

impl<'a> Finder<'a> {
    /// A search by an order of so many threads.
    ///
    /// # Errors
    ///
    /// `NoMemory` where memory is refused.
    pub fn new(
        alloc: Global,
        order: &'a ListedRows<'a>,
        threads: u32,
    ) -> Result<Finder<'a>, NoMemory>
        ensures { IfOk result (λ finder. finder.order.now ≡ order.now) }
    {
        Ok(Finder {
            order,
            threads,
            below: Vec::with_capacity(alloc, threads as usize)?,
            windows: Vec::new(alloc),
            hints: Vec::new(alloc),
            others: Vec::new(alloc),
            writes: false,
            passed: 0,
        })
    }

    /// Asks the order about an event and all threads, unless few threads are looked at: those are asked about one by one.
    fn begin(&mut self, event: u32, writes: bool) -> Result<(), NoMemory>
        requires in_range { event < length self.old.order.now.trace }
        requires asked { is_listed self.old.order.now.events event ≡ true }
        ensures below { OnOk result (AreBelow self.old.order.now.trace event self.new.below.items) }
        ensures windows { OnOk result (self.new.windows.items ≡ []) }
        ensures order { self.new.order ≡ self.old.order }
    {
        if writes != self.writes {
            swap(&mut self.hints, &mut self.others);
            self.writes = writes;
        }
        self.windows.clear();
        self.below.clear();
        if self.passed <= 1 + self.threads as usize / ASKED {
            return Ok(());
        }
        fill_zeros(&mut self.below, self.threads)?;
        self.order.raise_below(event, &mut self.below)
    }

    /// How many events of a thread are below an event, which is the one that the order was asked about.
    fn below_of(&self, event: u32, thread: u32) -> u32
        requires in_range { event < length self.now.order.now.trace }
        requires asked { is_listed self.now.order.now.events event ≡ true }
        requires below { AreBelow self.now.order.now.trace event self.now.below.items }
        ensures { IsBelowPredCount self.now.order.now.trace thread event result }
    {
        if (thread as usize) < self.below.len() {
            return self.below[thread as usize];
        }
        self.order.below_pred(event, thread)
    }

    /// Where the window of a thread may be.
    fn hint(&self, thread: usize) -> Window {
        if thread < self.hints.len() {
            return self.hints[thread];
        }
        Window { start: 0, end: 0 }
    }

    /// The hints by which threads are passed after one with this window: none, unless it is empty.
    fn hints_after(&self, window: Window) -> &[Window] {
        if window.start < window.end {
            return &self.hints[..0];
        }
        self.hints.as_slice()
    }

    /// The entries of a thread that race with an access.
    fn window_of(&self, entries: &[Entry], at: Passed, access: Access) -> Window
        requires more { at.from < length entries.now }
        requires asked { is_listed self.now.order.now.events access.event ≡ true }
        requires below { AreBelow self.now.order.now.trace access.event self.now.below.items }
        requires conflicting { (numbers : List ℕ) × IsAccess self.now.order.now.trace numbers access × AreEntries self.now.order.now.trace numbers access.variable access.writes entries.now }
        ensures { (entry : Entry) → slice_get entries.now at.from ≡ Some entry → IsWindow (λ entry. is_race self.now.order.now.trace entry.event access.event) entries.now at.from entry.end result }
    {
        let entry = entries[at.from];
        if entry.event >= access.event {
            return Window {
                start: at.from,
                end: at.from,
            };
        }
        let below = self.below_of(access.event, entry.thread);
        let hint = self.hint(at.threads);
        window_in(entries, at.from, end_of(entry), hint, access.event, below)
    }

    /// Keeps the window of a thread as a hint, and among those of the access if it isn't empty. Of an empty one only the end
    /// serves.
    fn keep(&mut self, thread: usize, window: Window) -> Result<(), NoMemory>
        ensures windows { OnOk result (self.new.windows.items ≡ cond (nat_lt window.start window.end) (self.old.windows.items ++ window ∷ []) self.old.windows.items) }
        ensures below { self.new.below.items ≡ self.old.below.items }
        ensures order { self.new.order ≡ self.old.order }
    {
        let mut hint = window;
        if window.start < window.end {
            self.windows.push(window)?;
        } else {
            hint.start = self.hint(thread).start;
        }
        if thread < self.hints.len() {
            self.hints[thread] = hint;
            return Ok(());
        }
        self.hints.push(hint)?;
        Ok(())
    }

    /// Finds the entries that race with an access, and says how many there are. `entries` are those that it conflicts with.
    ///
    /// # Errors
    ///
    /// `NoMemory` where a growth was refused.
    pub fn look(&mut self, entries: &[Entry], access: Access) -> Result<usize, NoMemory>
        requires asked { is_listed self.old.order.now.events access.event ≡ true }
        requires conflicting { (numbers : List ℕ) × IsAccess self.old.order.now.trace numbers access × AreEntries self.old.order.now.trace numbers access.variable access.writes entries.now }
        ensures windows { OnOk result (AreWindows self.old.order.now.trace access.event entries.now self.new.windows.items) }
        ensures count { IfOk result (λ n. n ≡ length (races_with self.old.order.now.trace access.event)) }
        ensures few { IfOk result (λ n. n < 2 ^ 32) }
        ensures order { self.new.order ≡ self.old.order }
    {
        self.begin(access.event, access.writes)?;
        let mut races = 0;
        let mut at = Passed {
            threads: 0,
            from: 0,
        };
        while any_before(entries, at.from, access.event) {
            let to = end_of(entries[at.from]);
            let window = self.window_of(entries, at, access);
            self.keep(at.threads, window)?;
            races += window.end - window.start;
            let next = Passed {
                threads: at.threads + 1,
                from: to,
            };
            at = pass_empty(
                entries,
                self.below.as_slice(),
                self.hints_after(window),
                next,
                access,
            );
        }
        self.passed = at.threads;
        Ok(races)
    }
}
