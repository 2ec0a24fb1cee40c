//! The laws of races, schedules and the race list, over the definitions alone. Each function does
//! nothing: its contract is the law.

ghost use Rattle.std.specs.Prelude.{◌≡◌, ◌<◌, ℕ, List, length};
ghost use Rattle.shb_fan.specs.Values.{values_of};
ghost use Rattle.shb_lines.specs.declared.event.Event.{Event};
ghost use Rattle.shb_lines.specs.events.Discipline.{IsDisciplined};
ghost use Rattle.shb_lines.specs.events.Order.{BelowPred};
ghost use Rattle.shb_lines.specs.events.Race.{Conflict, IsRaceList, Race};
ghost use Rattle.shb_lines.specs.events.Schedule.{IsPrintedSchedule, IsSchedule};
ghost use Rattle.shb_lines.specs.events.Sizes.{IsNumberedByAccess};
ghost use Rattle.shb_stamps.specs.Open.{OpenTrace};
ghost use Rattle.shb_stamps.specs.Settling.{AreOpen};
ghost use Rattle.shb_pairs.specs.Races.{AreRacesOfPiece, joined, piece_at, pieces_in, races_at};

/// The values of all pieces, joined, are the race list, where a variable that isn't open has no race.
pub fn pieces_give_race_list()
    ensures { (a : OpenTrace) → IsNumberedByAccess a.trace → AreOpen a.trace a.flags
        → IsRaceList a.trace (joined (values_of (races_at a) (length (pieces_in a)))) }
{}

/// The value of a piece is its own races: a pair is in it exactly where it is a race whose later access
/// is among the accesses of the piece; each once, by the later access, then by the earlier one.
pub fn piece_gives_its_races()
    ensures { (a : OpenTrace) (k : ℕ) → k < length (pieces_in a) → AreRacesOfPiece a (piece_at (pieces_in a) k) (races_at a k) }
{}

/// The printed schedule of a race is a schedule of it.
pub fn printed_schedule_is_schedule()
    ensures { (trace : List Event) (s : List ℕ) (i j : ℕ) → IsDisciplined trace → Race trace i j
        → IsPrintedSchedule trace s i j → IsSchedule trace s i j }
{}

/// A conflicting pair that has a schedule is a race.
pub fn schedule_makes_a_race()
    ensures { (trace : List Event) (s : List ℕ) (i j : ℕ) → Conflict trace i j → i < j → IsSchedule trace s i j → Race trace i j }
{}

/// A conflicting pair that is no race has no schedule at all.
pub fn no_schedule_without_race()
    ensures { (trace : List Event) (s : List ℕ) (i j : ℕ) → Conflict trace i j → i < j → ¬ Race trace i j → ¬ IsSchedule trace s i j }
{}

/// A conflicting pair that is no race is ordered: its earlier event is SHB-below the predecessor of
/// the later one.
pub fn conflict_without_race_is_ordered()
    ensures { (trace : List Event) (i j : ℕ) → Conflict trace i j → i < j → ¬ Race trace i j → BelowPred trace i j }
{}

/// A race has a schedule.
pub fn race_has_schedule()
    ensures { (trace : List Event) (i j : ℕ) → IsDisciplined trace → Race trace i j → (s : List ℕ) × IsSchedule trace s i j }
{}

/// A pair has one printed schedule.
pub fn printed_schedule_is_unique()
    ensures { (trace : List Event) (s other : List ℕ) (i j : ℕ) → IsPrintedSchedule trace s i j
        → IsPrintedSchedule trace other i j → s ≡ other }
{}
