//! How workers make the blocks of a report.
use shb_fan::Workers;

/// How workers make the blocks of a report.
#[derive(Drop)]
pub struct BlockPlan<'p, 'w, P, W> {
    /// How many workers make schedules, or the texts of blocks. The report is the same for every number of them.
    pub workers: Workers,
    /// Whether blocks have schedules.
    pub schedules: bool,
    /// What a worker passes before it makes the pairs of a piece of the races, or the text of its blocks.
    pub pair: &'p P,
    /// What a worker passes before it makes a schedule.
    pub witness: &'w W,
}
