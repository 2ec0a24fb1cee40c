//! A law of the work on schedules, as the contract of a function that does nothing. That the printed
//! schedule of a race is a schedule, and the only printed one, are laws of `shb_pairs`.

ghost use Rattle.std.specs.Prelude.{◌≡◌, ℕ, ◌<◌, List, Some, slice_get};
ghost use Rattle.shb_lines.specs.declared.event.Event.{Event};
ghost use Rattle.shb_lines.specs.declared.event.Pair.{Pair};
ghost use Rattle.shb_lines.specs.events.Discipline.{IsDisciplined};
ghost use Rattle.shb_lines.specs.events.Race.{Race};
ghost use Rattle.shb_lines.specs.events.Schedule.{IsPrintedSchedule, IsSchedule};
ghost use Rattle.shb_witness.specs.Schedules.{schedule_at};

/// Piece k of the work on races is the printed schedule of race k, and a schedule of it.
pub fn pieces_are_schedules()
    ensures printed { (trace : List Event) (races : List Pair) (k : ℕ) (p : Pair)
        → slice_get races k ≡ Some p
        → IsPrintedSchedule trace (schedule_at trace races k) p.first p.second }
    ensures schedule { (trace : List Event) (races : List Pair) (k : ℕ) (p : Pair)
        → IsDisciplined trace → slice_get races k ≡ Some p → Race trace p.first p.second
        → IsSchedule trace (schedule_at trace races k) p.first p.second }
{}
