//! The laws of scans, over the definitions alone. Each function does nothing: its contract is the law.
ghost use Rattle.std.specs.Prelude.{◌≡◌, ℕ, Bool, Contains, List};
ghost use Rattle.shb_lines.specs.events.Race.{Race};
ghost use Rattle.shb_lines.specs.text.TraceData.{TraceData};
ghost use Rattle.shb_scan.specs.Outcomes.{AreAtOnePlace, HasScan, IsScan};

/// A text has at most one scan of each form: its lines have one trace, and a trace has one list of nearest races.
pub fn scan_of_text_is_unique()
    ensures { (by_variable : Bool) (text bytes others : List ℕ) → HasScan by_variable text (λ scan. bytes ≡ scan) → HasScan by_variable text (λ scan. others ≡ scan) → bytes ≡ others }
{}

/// Each pair that a scan lists is a race of the trace. Each race of the trace has the place of one that is listed, and no
/// two that are listed have one place. In a scan by variable a place is two locations and a variable.
pub fn scan_lists_each_place_once()
    ensures races { (by_variable : Bool) (trace : TraceData) (races : List (ℕ × ℕ)) → IsScan by_variable trace races → (i j : ℕ) → Contains races (i, j) → Race trace.events i j }
    ensures listed { (by_variable : Bool) (trace : TraceData) (races : List (ℕ × ℕ)) → IsScan by_variable trace races → (k l : ℕ) → Race trace.events k l
        → (i : ℕ) × (j : ℕ) × Contains races (i, j) × AreAtOnePlace by_variable trace i j k l }
    ensures once { (by_variable : Bool) (trace : TraceData) (races : List (ℕ × ℕ)) → IsScan by_variable trace races → (i j k l : ℕ) → Contains races (i, j) → Contains races (k, l)
        → AreAtOnePlace by_variable trace i j k l → (i ≡ k) × (j ≡ l) }
{}
