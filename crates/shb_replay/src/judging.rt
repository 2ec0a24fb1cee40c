//! The judgement of lists.

ghost use Rattle.std.specs.Prelude.{◌≡◌, ◌<◌, ◌↔◌, ℕ, List, IfOk, IfSome, None, length};
ghost use Rattle.shb_lines.specs.declared.event.Event.{Event};
ghost use Rattle.shb_lines.specs.events.Schedule.{IsSchedule};
ghost use Rattle.shb_replay.specs.Reasons.{IsBroken};
ghost use Rattle.shb_replay.specs.Walks.{AreRules, IsAnswer, IsBlank, IsWalked, walked_to};

use crate::broken::{Broken, Why};
use crate::rules::Rules;
use crate::walked::Walked;
use shb_discipline::Disciplined;
use shb_io::NoMemory;
use shb_lines::Pair;
use shb_links::{Linked, Links};
use std::alloc::Global;
use std::marker::Model;

/// Walks over a list from its first index up to the first with a reason, and answers where and why it
/// is no schedule of the pair.
fn walk(walked: &mut Walked, rules: &Rules<'_>, list: &[u32], pair: Pair) -> Option<Broken>
    requires first { pair.first < length rules.now.linked.events.now }
    requires second { pair.second < length rules.now.linked.events.now }
    requires rules { AreRules rules.now }
    requires blank { IsBlank rules.now.linked.events.now rules.now.linked.sizes walked.old }
    ensures answer { IsAnswer rules.now.linked.events.now list.now pair.first pair.second result }
    ensures walked { IsWalked rules.now.linked.events.now rules.now.linked.sizes list.now
        (walked_to list.now result) walked.new }
{
    for at in 0..list.len() {
        if let Some(why) = walked.reason(rules, list, at) {
            return Some(Broken { at, why });
        }
        walked.note(&rules.linked, list, at);
    }
    let at = list.len();
    let why = Why::NotNext;
    if !walked.is_next(rules, list, pair.first) {
        return Some(Broken { at, why });
    }
    if !walked.is_next(rules, list, pair.second) {
        return Some(Broken { at, why });
    }
    None
}

/// How many indices of a list were walked for this answer.
fn walked_length(list: &[u32], answer: Option<Broken>) -> usize
    ensures { result ≡ walked_to list.now answer }
{
    match answer {
        Some(broken) => broken.at,
        None => list.len(),
    }
}

/// Judges lists of one trace. What it looks up in the trace is made once; a list costs a pass over
/// itself, twice, and takes no memory. Contracts see it as the list of the trace's events.
pub struct Judge<'a> {
    rules: Rules<'a>,
    walked: Walked,
}

// By hand: a derived one stands in each function that drops a judge, with a step for each vector.
impl<'a> Drop for Judge<'a> {
    fn drop(self) {
        let Judge {
            rules: _,
            walked: _,
        } = self;
    }
}

impl<'a> Model for Judge<'a> {
    ghost Value = { List Event };

    ghost view = { λ j. j.rules.linked.events.now };

    ghost invariant = { λ j. AreRules j.rules
        × IsBlank j.rules.linked.events.now j.rules.linked.sizes j.walked };
}

impl<'a> Judge<'a> {
    /// A judge of lists of this trace, by two passes over it. `NoMemory` where memory was refused.
    pub fn new(alloc: Global, linked: Linked<'a>) -> Result<Judge<'a>, NoMemory>
        ensures { IfOk result (λ judge. judge ≡ linked.entry.events.now) }
    {
        let rules = Rules::new(alloc, linked)?;
        let walked = Walked::new(alloc, &rules.linked)?;
        Ok(Judge { rules, walked })
    }

    /// As [`replay`], of this judge's trace.
    pub fn replay(&mut self, list: &[u32], pair: Pair) -> Option<Broken>
        requires first { pair.first < length self.old }
        requires second { pair.second < length self.old }
        ensures kept { self.new ≡ self.old }
        ensures schedule { result ≡ None ↔ IsSchedule self.old list.now pair.first pair.second }
        ensures broken { IfSome result (λ b. IsBroken self.old list.now pair.first pair.second
            b.at b.why) }
    {
        let answer = walk(&mut self.walked, &self.rules, list, pair);
        let end = walked_length(list, answer);
        self.walked.clear(&self.rules.linked, list, end);
        answer
    }
}

/// Whether a list of events is a schedule of a pair: a correct reordering of the trace that keeps
/// happens-before and after which both events of the pair are next. They need not conflict.
///
/// `None` exactly where it is one. Else the first index with a reason, and the lowest reason there
/// (see [`Why`]). `NoMemory` where memory was refused.
///
/// Two passes over the list and two over the trace; memory for the events, threads and names of the
/// trace. Whoever has many lists of one trace makes a [`Judge`].
pub fn replay(
    alloc: Global,
    disciplined: &Disciplined<'_>,
    links: &Links<'_>,
    list: &[u32],
    pair: Pair,
) -> Result<Option<Broken>, NoMemory>
    requires linked { links.now ≡ disciplined.now.events.now }
    requires first { pair.first < length disciplined.now.events.now }
    requires second { pair.second < length disciplined.now.events.now }
    ensures schedule { IfOk result (λ answer. answer ≡ None
        ↔ IsSchedule disciplined.now.events.now list.now pair.first pair.second) }
    ensures broken { IfOk result (λ answer. IfSome answer (λ b. IsBroken disciplined.now.events.now
        list.now pair.first pair.second b.at b.why)) }
{
    let mut judge = Judge::new(alloc, Linked::new(&*disciplined, &*links))?;
    Ok(judge.replay(list, pair))
}
