//! The laws of the events that an order is asked about, and of rows that are kept while a trace grows. The
//! functions do nothing: their contracts are the laws.

ghost use Rattle.std.specs.Prelude.{◌≡◌, ◌↔◌, ◌++◌, ◌∷◌, [], ℕ, List, Contains, length, true};
ghost use Rattle.shb_lines.specs.declared.event.Event.{Event};
ghost use Rattle.shb_stamps.specs.Listed.{is_listed};
ghost use Rattle.shb_stamps.specs.Stamps.{IsKnown, IsRowFor};

/// An order of listed events can be asked about exactly the events in the list.
pub fn events_in_the_list_are_listed()
    ensures { (events : List ℕ) (e : ℕ) → (is_listed events e ≡ true) ↔ Contains events e }
{}

/// A row of what a thread knows is one still when an event comes after those before.
pub fn row_of_a_longer_trace()
    ensures { (past : List Event) (e : Event) (rows : List (List ℕ)) (t row : ℕ)
        → IsRowFor past rows t (IsKnown past t (length past)) row
        → IsRowFor (past ++ e ∷ []) rows t (IsKnown (past ++ e ∷ []) t (length past)) row }
{}
