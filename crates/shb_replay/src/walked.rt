//! What stands at the indices of a list that were walked, and whether an event may stand at the next.

ghost use Rattle.std.specs.Prelude.{◌≡◌, ◌+◌, ◌<◌, ◌≤◌, ℕ, List, IfOk, IfSome, Some, length, slice_get, vec_len, false, replicate};
ghost use Rattle.shb_lines.specs.events.Schedule.{IsNext};
ghost use Rattle.shb_replay.specs.Reasons.{HasReason, IsUnbroken, StandsEarlier, number_of};
ghost use Rattle.shb_replay.specs.Walks.{AreFlags, AreRules, IsBlank, IsLeft, IsLowestIn, IsWalked, Tells, TellsLack};
ghost use Rattle.shb_lines.specs.Lowest.{IsLowest};

use crate::broken::Why;
use crate::rules::Rules;
use shb_io::NoMemory;
use shb_lines::Op;
use shb_links::{Linked, empty_table};
use std::alloc::Global;

/// What stands at the indices of a list that were walked.
#[derive(Drop)]
pub(crate) struct Walked {
    /// Whether an event stands there.
    pub(crate) stands: Vec<bool>,
    /// Whether a join of a thread stands there.
    pub(crate) joined: Vec<bool>,
    /// The latest write of each variable there.
    pub(crate) writes: Vec<Option<u32>>,
}

/// As many flags that are false.
fn unset_flags(alloc: Global, size: usize) -> Result<Vec<bool>, NoMemory>
    ensures { IfOk result (λ flags. flags.items ≡ replicate size false) }
{
    Ok(vec![in alloc; false; size]?)
}

impl Walked {
    /// Before the first index: nothing stands.
    pub(crate) fn new(alloc: Global, linked: &Linked<'_>) -> Result<Walked, NoMemory>
        ensures { IfOk result (IsBlank linked.now.events.now linked.now.sizes) }
    {
        Ok(Walked {
            stands: unset_flags(alloc, linked.events.len())?,
            joined: unset_flags(alloc, linked.sizes.threads as usize)?,
            writes: empty_table(alloc, linked.sizes.variables)?,
        })
    }

    /// Whether there is such an event and it doesn't stand.
    fn lacks(&self, event: Option<u32>) -> bool
        requires { IfSome event (λ e. e < vec_len self.now.stands) }
        ensures { (s : List ℕ) (p n : ℕ) → AreFlags (StandsEarlier s p) n self.now.stands.items
            → TellsLack s p event result }
    {
        match event {
            Some(e) => !self.stands[e as usize],
            None => false,
        }
    }

    /// The reason of thread order that the event at an index has, if it has one: its predecessor
    /// doesn't stand.
    fn order_reason(&self, rules: &Rules<'_>, list: &[u32], at: usize) -> Option<Why>
        requires at { at < length list.now }
        requires in_trace { (e : ℕ) → slice_get list.now at ≡ Some e
            → e < length rules.now.linked.events.now }
        requires rules { AreRules rules.now }
        requires walked { IsWalked rules.now.linked.events.now rules.now.linked.sizes list.now at self.now }
        ensures { (e : ℕ) → slice_get list.now at ≡ Some e
            → IsLowestIn 3 4 (HasReason rules.now.linked.events.now list.now at e) result }
    {
        let e = list[at];
        let Some(p) = rules.pred(e) else {
            return None;
        };
        if self.stands[p as usize] {
            return None;
        }
        if rules.linked.events.thread(p) == rules.linked.events.thread(e) {
            Some(Why::ThreadOrder)
        } else {
            Some(Why::ForkMissing)
        }
    }

    /// The reason that the event at an index has by its operation, if it has one.
    fn operation_reason(&self, rules: &Rules<'_>, list: &[u32], at: usize) -> Option<Why>
        requires at { at < length list.now }
        requires in_trace { (e : ℕ) → slice_get list.now at ≡ Some e
            → e < length rules.now.linked.events.now }
        requires rules { AreRules rules.now }
        requires walked { IsWalked rules.now.linked.events.now rules.now.linked.sizes list.now at self.now }
        requires unbroken { IsUnbroken rules.now.linked.events.now list.now at }
        ensures { (e : ℕ) → slice_get list.now at ≡ Some e
            → IsLowestIn 5 8 (HasReason rules.now.linked.events.now list.now at e) result }
    {
        let e = list[at];
        match rules.linked.events.op(e) {
            Op::Join(thread) => {
                let lacks = self.lacks(rules.linked.links.last_of(thread));
                lacks.then_some(Why::JoinEarly)
            }
            Op::Fork(thread) => self.joined[thread as usize].then_some(Why::JoinEarly),
            Op::Acquire(_) => self.lacks(rules.origin(e)).then_some(Why::LockOrder),
            Op::Read(variable) => {
                if self.writes[variable as usize] == rules.origin(e) {
                    None
                } else {
                    Some(Why::LastWrite)
                }
            }
            _ => None,
        }
    }

    /// The reason of lowest number that the event at an index has, if it has one.
    pub(crate) fn reason(&self, rules: &Rules<'_>, list: &[u32], at: usize) -> Option<Why>
        requires at { at < length list.now }
        requires rules { AreRules rules.now }
        requires walked { IsWalked rules.now.linked.events.now rules.now.linked.sizes list.now at self.now }
        requires unbroken { IsUnbroken rules.now.linked.events.now list.now at }
        ensures { (e : ℕ) → slice_get list.now at ≡ Some e
            → IsLowest number_of (HasReason rules.now.linked.events.now list.now at e) result }
    {
        let e = list[at] as usize;
        if e >= rules.linked.events.len() {
            return Some(Why::NoSuchEvent);
        }
        if self.stands[e] {
            return Some(Why::Repeated);
        }
        match self.order_reason(rules, list, at) {
            Some(why) => Some(why),
            None => self.operation_reason(rules, list, at),
        }
    }

    /// Takes note of the event at an index, which has no reason.
    pub(crate) fn note(&mut self, linked: &Linked<'_>, list: &[u32], at: usize)
        requires at { at < length list.now }
        requires in_trace { (e : ℕ) → slice_get list.now at ≡ Some e
            → e < length linked.now.events.now }
        requires walked { IsWalked linked.now.events.now linked.now.sizes list.now at self.old }
        ensures { IsWalked linked.now.events.now linked.now.sizes list.now (at + 1) self.new }
    {
        let e = list[at];
        self.stands[e as usize] = true;
        match linked.events.op(e) {
            Op::Join(thread) => self.joined[thread as usize] = true,
            Op::Write(variable) => self.writes[variable as usize] = Some(e),
            _ => {}
        }
    }

    /// Forgets the event at an index.
    fn forget(&mut self, linked: &Linked<'_>, list: &[u32], at: usize, end: usize)
        requires at { at < length list.now }
        requires in_trace { (e : ℕ) → slice_get list.now at ≡ Some e
            → e < length linked.now.events.now }
        requires left { IsLeft linked.now.events.now linked.now.sizes list.now at end self.old }
        ensures { IsLeft linked.now.events.now linked.now.sizes list.now (at + 1) end self.new }
    {
        let e = list[at];
        self.stands[e as usize] = false;
        match linked.events.op(e) {
            Op::Join(thread) => self.joined[thread as usize] = false,
            Op::Write(variable) => self.writes[variable as usize] = None,
            _ => {}
        }
    }

    /// Forgets the events at the first indices of a list, which are all that it knows.
    pub(crate) fn clear(&mut self, linked: &Linked<'_>, list: &[u32], end: usize)
        requires end { end ≤ length list.now }
        requires walked { IsWalked linked.now.events.now linked.now.sizes list.now end self.old }
        requires unbroken { IsUnbroken linked.now.events.now list.now end }
        ensures { IsBlank linked.now.events.now linked.now.sizes self.new }
    {
        for at in 0..end {
            self.forget(linked, list, at, end);
        }
    }

    /// Whether an event is next after the list that was walked.
    pub(crate) fn is_next(&self, rules: &Rules<'_>, list: &[u32], e: u32) -> bool
        requires in_trace { e < length rules.now.linked.events.now }
        requires rules { AreRules rules.now }
        requires walked { IsWalked rules.now.linked.events.now rules.now.linked.sizes list.now (length list.now)
            self.now }
        requires unbroken { IsUnbroken rules.now.linked.events.now list.now (length list.now) }
        ensures { Tells result (IsNext rules.now.linked.events.now list.now e) }
    {
        if self.stands[e as usize] {
            return false;
        }
        !self.lacks(rules.pred(e))
    }
}
