//! Laws of the reasons, as contracts of functions that do nothing.

ghost use Rattle.std.specs.Prelude.{◌≡◌, ◌↔◌, ℕ, List, length};
ghost use Rattle.shb_lines.specs.declared.event.Event.{Event};
ghost use Rattle.shb_lines.specs.events.Discipline.{IsDisciplined};
ghost use Rattle.shb_lines.specs.events.Schedule.{IsCorrectReordering, KeepsHb};
ghost use Rattle.shb_replay.specs.Reasons.{IsBroken, IsUnbroken};
ghost use Rattle.shb_replay.specs.declared.broken.Why.{Why};

/// No index of a list has a reason exactly where the list is a correct reordering of the trace that
/// keeps happens-before.
pub fn unbroken_lists_are_reorderings()
    ensures { (trace : List Event) (s : List ℕ) → IsDisciplined trace
        → IsUnbroken trace s (length s) ↔ (IsCorrectReordering trace s × KeepsHb trace s) }
{}

/// A list has at most one index and reason at which it is no schedule of a pair.
pub fn answer_is_one()
    ensures { (trace : List Event) (s : List ℕ) (i j p q : ℕ) (why other : Why)
        → IsBroken trace s i j p why → IsBroken trace s i j q other
        → (p ≡ q) × (why ≡ other) }
{}
