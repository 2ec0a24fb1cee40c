//! The laws of nearest races, over the definitions alone. Each function does nothing: its contract is the law.

ghost use Rattle.std.specs.Prelude.{◌≡◌, ◌≢◌, ◌⊎◌, ℕ, Contains, List};
ghost use Rattle.shb_lines.specs.declared.event.Event.{Event};
ghost use Rattle.shb_lines.specs.events.Race.{Race};
ghost use Rattle.shb_nearest.specs.Nearest.{AreNearest};

/// A trace with locations has at most one list of nearest races.
pub fn nearest_races_are_unique<L>()
    ensures { (events : List Event) (location : ℕ → L) (races others : List (ℕ × ℕ)) → AreNearest events location races → AreNearest events location others → races ≡ others }
{}

/// Each listed pair is a race, and no two are at one place. Each race has a listed one at its place, where locations can
/// be told apart.
pub fn each_place_is_listed_once<L>()
    ensures races { (events : List Event) (location : ℕ → L) (races : List (ℕ × ℕ)) → AreNearest events location races → (i j : ℕ) → Contains races (i, j) → Race events i j }
    ensures once { (events : List Event) (location : ℕ → L) (races : List (ℕ × ℕ)) → AreNearest events location races
        → (i j k l : ℕ) → Contains races (i, j) → Contains races (k, l) → location i ≡ location k → location j ≡ location l → (i ≡ k) × (j ≡ l) }
    ensures listed { (events : List Event) (location : ℕ → L) (races : List (ℕ × ℕ)) → ((a b : L) → (a ≡ b) ⊎ (a ≢ b)) → AreNearest events location races
        → (k l : ℕ) → Race events k l → (i : ℕ) × (j : ℕ) × Contains races (i, j) × (location i ≡ location k) × (location j ≡ location l) }
{}
