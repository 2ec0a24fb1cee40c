//! A trace that is known to meet the discipline.
ghost use Rattle.std.specs.Prelude.{◌≡◌, ◌≤◌, length};
ghost use Rattle.shb_lines.specs.events.Discipline.{IsDisciplined};
ghost use Rattle.shb_lines.specs.events.Sizes.{IsNumberedByAccess, IsWithin};
ghost use Rattle.shb_lines.proofs.events.Propositions.{IsDisciplined-prop, IsNumberedByAccess-prop, IsWithin-prop};
ghost use Rattle.shb_lines.specs.text.Limits.{most_events};
ghost use Rattle.shb_lines.specs.text.TraceData.{sizes_of};

use shb_lines::{Events, Sizes, Trace};

/// A trace that meets the discipline of locks, forks and joins, and what else is known of it: it
/// has few events, its sizes are exactly the counts of its threads, locks and variables, its numbers
/// are below them, and its variables are numbered in the order of their first accesses. Only
/// [`check`](crate::check) tests this; the type keeps it, so that nobody above asks again. It borrows
/// the trace, and can be copied.
///
/// The discipline, for each event after those before it: its thread was not joined; a lock is
/// acquired only while no other thread holds it (its holder may acquire it again) and released only
/// by its holder; a thread is forked by another, once, before its first event and before any join of
/// it; no thread joins itself. Locks that are held at the end, threads without a fork, and a second
/// join of a thread are in order. The rules are this project's own.
#[derive(Clone, Copy)]
pub struct Disciplined<'a> {
    /// The trace.
    pub trace: &'a Trace,
    /// Its events, in the order of the text.
    pub events: &'a Events,
    /// How many threads, locks and variables it names, exactly.
    pub sizes: Sizes,
    pub ghost of_trace: { events.now ≡ trace.now.events },
    pub ghost of_sizes: { sizes ≡ sizes_of trace.now },
    pub ghost few: { length events.now ≤ most_events },
    pub ghost within: { IsWithin events.now sizes } by { IsWithin-prop events.now sizes },
    pub ghost numbered: { IsNumberedByAccess events.now } by { IsNumberedByAccess-prop events.now },
    pub ghost meets: { IsDisciplined events.now } by { IsDisciplined-prop events.now },
}

impl<'a> Disciplined<'a> {
    /// The trace that meets the discipline.
    pub fn trace(&self) -> &'a Trace
        ensures { result.now ≡ self.now.trace.now }
    {
        self.trace
    }
}
