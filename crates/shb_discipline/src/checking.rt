//! The check of the discipline, by one pass over the events.
ghost use Rattle.std.specs.Prelude.{◌≡◌, ◌≤◌, IfErr, IfOk, OnOk, length};
ghost use Rattle.shb_lines.specs.events.Discipline.{IsDisciplined};
ghost use Rattle.shb_lines.specs.text.Limits.{most_events};
ghost use Rattle.shb_discipline.specs.Faults.{IsFirstIfAny, IsRefusal};

use crate::disciplined::Disciplined;
use crate::state::State;
use shb_io::NoMemory;
use shb_lines::{Events, Fault, LineFault, Trace};
use std::alloc::Global;

/// Why a trace is not known to meet the discipline.
#[derive(Clone, Copy, Debug, PartialEq, Eq)]
pub enum CheckError {
    /// It does not: an event may not come after those before it. The line of the first such event,
    /// counted from 1, and its fault of lowest number.
    Undisciplined { line: u32, fault: Fault },
    /// There is no memory for the check. Nothing is said of the trace.
    Memory(NoMemory),
}

impl From<NoMemory> for CheckError {
    ghost use Rattle.shb_discipline.specs.declared.checking.CheckError.TheVariants.{Memory};

    ghost from_gives = { λ refused e. e ≡ Memory refused };

    fn from(refused: NoMemory) -> CheckError {
        CheckError::Memory(refused)
    }
}

/// The first event that may not come after those before it: its line and its fault of lowest
/// number.
fn first_fault(alloc: Global, events: &Events) -> Result<Option<LineFault>, NoMemory>
    requires few { length events.now ≤ most_events }
    ensures { IfOk result (IsFirstIfAny events.now) }
{
    let mut state = State::new(alloc);
    for e in 0..events.len() as u32 {
        let thread = events.thread(e);
        let op = events.op(e);
        if let Some(fault) = state.fault(thread, op) {
            let line = events.event(e).line;
            return Ok(Some(LineFault { line, fault }));
        }
        state.note(thread, op)?;
    }
    Ok(None)
}

/// Checks that a trace meets the discipline of locks, forks and joins, whose rules stand at
/// [`Disciplined`].
///
/// A trace that meets it comes back as a [`Disciplined`], which borrows it. The trace stays as it
/// is in each case. One pass over the events; memory for the locks and threads alone.
///
/// # Errors
///
/// [`CheckError::Undisciplined`] exactly where some event breaks a rule, with the line of the first
/// one and its fault of lowest number. [`CheckError::Memory`] where no memory is left.
pub fn check<'a>(alloc: Global, trace: &'a Trace) -> Result<Disciplined<'a>, CheckError>
    ensures trace { IfOk result (λ d. d.trace.now ≡ trace.now) }
    ensures disciplined { OnOk result (IsDisciplined trace.now.events) }
    ensures refused { IfErr result (IsRefusal trace.now.events) }
{
    let events = trace.events();
    let sizes = trace.sizes();
    match first_fault(alloc, events)? {
        None => Ok(Disciplined {
            trace,
            events,
            sizes,
        }),
        Some(LineFault { line, fault }) => Err(CheckError::Undisciplined { line, fault }),
    }
}
