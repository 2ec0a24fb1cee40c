//! The events of a trace, in eight bytes each.
ghost use Rattle.std.specs.Prelude.{◌≡◌, ◌+◌, ◌<◌, ◌≤◌, ◌^◌, [], ◌∷◌, ◌++◌, List, OnOk, Some, length, slice_get};
ghost use Rattle.shb_lines.specs.events.Events.{op_at, thread_at};
ghost use Rattle.shb_lines.specs.text.Numbers.{op_for};
ghost use Rattle.shb_lines.specs.declared.stored.StoredEvent.{StoredEvent};
ghost use Rattle.shb_lines.specs.text.Stored.{events_in, lines_before};

use crate::event::{Event, Kind, Op};
use shb_io::NoMemory;
use std::alloc::Global;
use std::marker::Model;

/// An event without the number of its line. A thread's number has room in two bytes, since a trace has
/// at most 1,024 threads.
#[derive(Clone, Copy)]
pub struct StoredEvent {
    pub operand: u32,
    pub thread: u16,
    pub kind: Kind,
}

/// How many lines without an event stand before an event, and before those that follow it.
#[derive(Clone, Copy)]
pub struct Skipped {
    pub event: u32,
    pub lines: u32,
}

/// How many lines without an event stand before event `k`.
fn lines_before(skipped: &[Skipped], k: u32) -> u32
    ensures { result ≡ lines_before skipped.now k }
{
    let mut rest = skipped.len();
    while rest > 0 {
        rest -= 1;
        if skipped[rest].event <= k {
            return skipped[rest].lines;
        }
    }
    0
}

/// Notes how many lines without an event stand before event `k`, the next one.
fn note_lines(skipped: &mut Vec<Skipped>, k: u32, lines: u32) -> Result<(), NoMemory>
    ensures noted { OnOk result (lines_before skipped.new.items k ≡ lines) }
    ensures earlier { (stored : List StoredEvent) → length stored ≤ k → events_in skipped.new.items stored ≡ events_in skipped.old.items stored }
{
    if lines_before(skipped.as_slice(), k) != lines {
        skipped.push(Skipped { event: k, lines })?;
    }
    Ok(())
}

/// The operation of this kind with this number, which a mark lacks.
#[inline(always)]
pub(crate) fn op_with(kind: Kind, number: u32) -> Op
    ensures { result ≡ op_for kind number }
{
    match kind {
        Kind::Read => Op::Read(number),
        Kind::Write => Op::Write(number),
        Kind::Acquire => Op::Acquire(number),
        Kind::Release => Op::Release(number),
        Kind::Fork => Op::Fork(number),
        Kind::Join => Op::Join(number),
        Kind::BeginMark => Op::BeginMark,
        Kind::EndMark => Op::EndMark,
    }
}

/// The kind of an operation, and its number, 0 where it is a mark.
#[inline(always)]
fn parts_of(op: Op) -> (Kind, u32)
    ensures { op_for result.0 result.1 ≡ op }
{
    match op {
        Op::Read(number) => (Kind::Read, number),
        Op::Write(number) => (Kind::Write, number),
        Op::Acquire(number) => (Kind::Acquire, number),
        Op::Release(number) => (Kind::Release, number),
        Op::Fork(number) => (Kind::Fork, number),
        Op::Join(number) => (Kind::Join, number),
        Op::BeginMark => (Kind::BeginMark, 0),
        Op::EndMark => (Kind::EndMark, 0),
    }
}

/// The events of a trace, by their numbers from 0. Memory: eight bytes for each event, and eight for each
/// event that comes right after a line without one. Contracts see it as the list of the events.
pub struct Events {
    stored: Vec<StoredEvent>,
    skipped: Vec<Skipped>,
}

// By hand: a derived one stands in each function that drops events, with a step for each vector.
impl Drop for Events {
    fn drop(self) {
        let Events {
            stored: _,
            skipped: _,
        } = self;
    }
}

impl Model for Events {
    ghost use Rattle.std.specs.Prelude.{◌<◌, ◌^◌, List};
    ghost use Rattle.std.specs.List.{AllByRecursion};
    ghost use Rattle.shb_lines.specs.declared.event.Event.{Event};
    ghost use Rattle.shb_lines.specs.text.Stored.{events_in};

    ghost Value = { List Event };

    ghost view = { λ e. events_in e.skipped.items e.stored.items };

    ghost invariant = { λ e. AllByRecursion (λ (event : Event). event.line < 2 ^ 32) (events_in e.skipped.items e.stored.items) };
}

impl Events {
    /// No events yet.
    pub(crate) fn new(alloc: Global) -> Events
        ensures { result ≡ [] }
    {
        Events {
            stored: Vec::new(alloc),
            skipped: Vec::new(alloc),
        }
    }

    /// Adds the event of a line.
    pub(crate) fn push(&mut self, thread: u32, op: Op, line: u32) -> Result<(), NoMemory>
        requires thread { thread < 2 ^ 16 }
        requires line { length self.old < line }
        ensures { OnOk result (self.new ≡ self.old ++ record { thread = thread; op = op; line = line } ∷ []) }
    {
        let event = self.stored.len() as u32;
        note_lines(&mut self.skipped, event, line - 1 - event)?;
        let (kind, operand) = parts_of(op);
        self.stored.push(StoredEvent {
            operand,
            thread: thread as u16,
            kind,
        })?;
        Ok(())
    }

    /// How many events there are.
    pub fn len(&self) -> usize
        ensures { result ≡ length self.now }
    {
        self.stored.len()
    }

    /// The number of the thread of event `e`.
    pub fn thread(&self, e: u32) -> u32
        requires { e < length self.now }
        ensures { thread_at self.now e ≡ Some result }
    {
        u32::from(self.stored[e as usize].thread)
    }

    /// What event `e` does.
    pub fn op(&self, e: u32) -> Op
        requires { e < length self.now }
        ensures { op_at self.now e ≡ Some result }
    {
        let stored = self.stored[e as usize];
        op_with(stored.kind, stored.operand)
    }

    /// Event `e`, with the number of its line, which is searched for among the lines without an event, from
    /// the last one on: for one event, and not for each.
    pub fn event(&self, e: u32) -> Event
        requires { e < length self.now }
        ensures { slice_get self.now e ≡ Some result }
    {
        let stored = self.stored[e as usize];
        Event {
            thread: u32::from(stored.thread),
            op: op_with(stored.kind, stored.operand),
            line: e + lines_before(self.skipped.as_slice(), e) + 1,
        }
    }
}
