//! The links of a trace: local times, predecessors, last writes and forks.

ghost use Rattle.std.specs.Prelude.{◌≡◌, ℕ, ◌<◌, ◌≤◌, ◌↔◌, List, Some, IfOk, IsTrue, length};
ghost use Rattle.shb_lines.specs.declared.event.Event.{Event};
ghost use Rattle.shb_lines.specs.declared.event.Op.TheVariants.{Write};
ghost use Rattle.shb_lines.specs.events.Discipline.{local_time};
ghost use Rattle.shb_lines.specs.events.Order.{IsPred, LastWrite};
ghost use Rattle.shb_lines.specs.events.Events.{thread_at};
ghost use Rattle.shb_links.specs.Latest.{Latest, OfThread, ForksThread, WritesVariable};
ghost use Rattle.shb_links.specs.Links.{Exactly, IsLocal, HasLinks};
ghost use Rattle.shb_links.specs.Sharing.{IsShared};

use crate::pass::LocalTimes;
use crate::sharing::shared_variables;
use shb_discipline::Disciplined;
use shb_io::NoMemory;
use shb_lines::{Events, Op};
use std::alloc::Global;
use std::marker::Model;

/// The latest event of a thread before `end`, if there is one.
fn latest_of_thread(events: &Events, thread: u32, end: u32) -> Option<u32>
    requires { end ≤ length events.now }
    ensures { Latest (OfThread events.now thread) end result }
{
    let mut e = end;
    while e > 0 {
        e -= 1;
        if events.thread(e) == thread {
            return Some(e);
        }
    }
    None
}

/// Whether an operation is a write of this variable.
fn is_write_of(op: Op, variable: u32) -> bool
    ensures { IsTrue result ↔ (op ≡ Write variable) }
{
    matches!(op, Op::Write(x) if x == variable)
}

/// The latest write of a variable before `end`, if there is one.
fn latest_write(events: &Events, variable: u32, end: u32) -> Option<u32>
    requires { end ≤ length events.now }
    ensures { Latest (WritesVariable events.now variable) end result }
{
    let mut e = end;
    while e > 0 {
        e -= 1;
        if is_write_of(events.op(e), variable) {
            return Some(e);
        }
    }
    None
}

/// The links of a trace, and which of its variables are shared. Contracts see it as the list of the
/// trace's events, since that list fixes both.
pub struct Links<'a> {
    disciplined: &'a Disciplined<'a>,
    locals: Vec<u32>,
    forks: Vec<Option<u32>>,
    last: Vec<Option<u32>>,
    shared: Vec<bool>,
}

// By hand: a derived one stands in each function that drops links, with a step for each vector.
impl<'a> Drop for Links<'a> {
    fn drop(self) {
        let Links {
            disciplined: _,
            locals: _,
            forks: _,
            last: _,
            shared: _,
        } = self;
    }
}

impl<'a> Model for Links<'a> {
    ghost Value = { List Event };

    ghost view = { λ l. l.disciplined.now.events.now };

    ghost invariant = { λ l. HasLinks l.disciplined.now.events.now l.locals.items l.forks.items
        l.last.items l.shared.items };
}

impl<'a> Links<'a> {
    /// The local time of event `e`: how many events of that thread stand at `e` or before
    /// it, so 1 for the thread's first event.
    pub fn local(&self, e: u32) -> u32
        requires { e < length self.now }
        ensures time { (t : ℕ) → thread_at self.now e ≡ Some t
            → result ≡ local_time self.now t e }
        ensures number { IsLocal self.now e result }
    {
        self.locals[e as usize]
    }

    /// The predecessor of event `e`: the event before `e` in its thread or, where `e` is the first
    /// of its thread, the fork of that thread. `None` exactly where `e` has neither. That a fork
    /// precedes the first event of its thread is this project's own rule. It is searched for: a step for
    /// each event between the two, none where `e` is the first of its thread.
    pub fn pred(&self, e: u32) -> Option<u32>
        requires { e < length self.now }
        ensures { Exactly (λ p. IsPred self.now p e) result }
    {
        let thread = self.disciplined.events.thread(e);
        let fork = self.forked_by(thread);
        if self.local(e) == 1 {
            return fork;
        }
        latest_of_thread(self.disciplined.events, thread, e).or(fork)
    }

    /// The fork of thread `t`. `None` exactly where no event forks it, as for every number that
    /// names no thread.
    pub fn forked_by(&self, t: u32) -> Option<u32>
        ensures { Exactly (ForksThread self.now t) result }
    {
        match self.forks.get(t as usize) {
            Some(fork) => *fork,
            None => None,
        }
    }

    /// The last event of thread `t`. `None` exactly where it has no event, as for every number that
    /// names no thread. By the discipline nothing of a thread follows a join of it, so at a join this
    /// is also the thread's last event so far.
    pub fn last_of(&self, t: u32) -> Option<u32>
        ensures { Latest (OfThread self.now t) (length self.now) result }
    {
        match self.last.get(t as usize) {
            Some(last) => *last,
            None => None,
        }
    }

    /// Whether variable `x` is shared: whether events of more than one thread access it. False for every
    /// number that names no variable.
    pub fn is_shared(&self, x: u32) -> bool
        ensures { IsTrue result ↔ IsShared self.now x }
    {
        match self.shared.get(x as usize) {
            Some(flag) => *flag,
            None => false,
        }
    }

    /// The last write of event `e`: where `e` reads a variable, the latest earlier write of that
    /// variable, by any thread. `None` exactly where there is none, as for every event that is no
    /// read. It is searched for: a step for each event between the two.
    pub fn last_write(&self, e: u32) -> Option<u32>
        requires { e < length self.now }
        ensures { Exactly (λ w. LastWrite self.now w e) result }
    {
        match self.disciplined.events.op(e) {
            Op::Read(variable) => latest_write(self.disciplined.events, variable, e),
            _ => None,
        }
    }
}

/// The links of a trace, by two forward passes, in four bytes an event and one a variable. `NoMemory`
/// where memory was refused.
pub fn links_of<'a>(alloc: Global, disciplined: &'a Disciplined<'a>) -> Result<Links<'a>, NoMemory>
    ensures { IfOk result (λ links. links ≡ disciplined.now.events.now) }
{
    let mut found = LocalTimes::new(alloc, disciplined)?;
    let count = disciplined.events.len() as u32;
    for e in 0..count {
        found.take(disciplined, e)?;
    }
    let LocalTimes {
        locals,
        last,
        forks,
    } = found;
    Ok(Links {
        disciplined,
        locals,
        forks,
        last,
        shared: shared_variables(alloc, disciplined)?,
    })
}
