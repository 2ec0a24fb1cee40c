//! What is made of a trace before the schedules of its races.
ghost use Rattle.std.specs.Prelude.{◌≡◌, IfOk};

use shb_format::NumberTexts;
use shb_io::NoMemory;
use shb_links::Linked;
use shb_stamps::{Order, Ordered};
use shb_witness::{ThreadEvents, thread_events};
use std::alloc::Global;

/// What the schedules of a trace are made and written from.
#[derive(Drop)]
pub(crate) struct Prepared<'a> {
    /// The texts of numbers that runs of schedules are copied from.
    pub(crate) numbers: NumberTexts,
    /// The events of each thread.
    pub(crate) threads: ThreadEvents<'a>,
}

/// The texts of numbers for so many schedules of a trace. Of one schedule the numbers are as quickly
/// written one by one.
fn numbers_for<O: Order>(
    alloc: Global,
    ordered: &Ordered<'_, O>,
    schedules: usize,
) -> Result<NumberTexts, NoMemory> {
    if schedules < 2 {
        return NumberTexts::of_first(alloc, 0);
    }
    NumberTexts::of_first(alloc, ordered.disciplined.events.len() as u32)
}

/// What so many schedules of a trace, or more, are made and written from.
pub(crate) fn prepared_for<'a, O: Order>(
    alloc: Global,
    ordered: &Ordered<'a, O>,
    schedules: usize,
) -> Result<Prepared<'a>, NoMemory>
    ensures { IfOk result (λ prepared. prepared.threads ≡ ordered.now.disciplined.now.events.now) }
{
    let numbers = numbers_for(alloc, ordered, schedules)?;
    let linked = Linked::new(ordered.disciplined, ordered.links);
    let threads = thread_events(alloc, linked)?;
    Ok(Prepared { numbers, threads })
}
