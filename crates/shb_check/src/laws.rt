//! The laws of traces and of verdicts on texts, over the definitions alone. Each function does nothing:
//! its contract is the law.
ghost use Rattle.std.specs.Prelude.{◌≡◌, ◌↔◌, ℕ, List};
ghost use Rattle.shb_lines.specs.text.TraceData.{IsTraceOf, TraceData};
ghost use Rattle.shb_judging.specs.declared.verdict.Verdict.{Verdict};
ghost use Rattle.shb_judging.specs.declared.verdict.Verdict.TheVariants.{Good};
ghost use Rattle.shb_check.specs.Checks.{IsGoodFor, IsVerdictOf};

/// Some lines have at most one trace, with its names, their numbers and its lines.
pub fn trace_of_lines_is_unique()
    ensures { (lines : List (List ℕ)) (trace other : TraceData) → IsTraceOf lines trace → IsTraceOf lines other → trace ≡ other }
{}

/// The texts of a trace and of a report have at most one verdict.
pub fn verdict_of_texts_is_one()
    ensures { (text report : List ℕ) (verdict other : Verdict) → IsVerdictOf text report verdict
        → IsVerdictOf text report other → verdict ≡ other }
{}

/// The verdict of two texts is `Good`, with so many races, exactly where the second is a report that is
/// good for the trace of the first and has so many races.
pub fn good_texts_are_called_good()
    ensures { (text report : List ℕ) (verdict : Verdict) (races : ℕ) → IsVerdictOf text report verdict
        → (verdict ≡ Good races) ↔ IsGoodFor text report races }
{}
