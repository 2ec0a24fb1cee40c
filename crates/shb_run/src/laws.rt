//! The laws of what runs write, over the definitions alone. Each function does nothing: its contract
//! is the law.
ghost use Rattle.std.specs.Prelude.{◌≡◌, ◌≤◌, ℕ, Bool, List, Option, length, true};
ghost use Rattle.shb_lines.specs.text.Limits.{most_bytes};
ghost use Rattle.shb_format.specs.Report.{IsReportOnText};
ghost use Rattle.shb_format.specs.Value.{IsReportValue, ReportValue, report_text};
ghost use Rattle.shb_judging.specs.Verdicts.{IsVerdict};
ghost use Rattle.shb_judging.specs.declared.verdict.Verdict.{Verdict};
ghost use Rattle.shb_judging.specs.declared.verdict.Verdict.TheVariants.{Good};
ghost use Rattle.shb_check.specs.Checks.{IsVerdictOf};
ghost use Rattle.shb_run.specs.Outcomes.{IsReported, ListedBy};
ghost use Rattle.shb_run.specs.declared.settings.Choice.{Choice};
ghost use Rattle.shb_run.specs.declared.settings.Summary.{Summary};

pub use shb_check::laws::{
    good_texts_are_called_good, trace_of_lines_is_unique, verdict_of_texts_is_one,
};

/// A text has at most one report of all races in each form, and one of its nearest races: its lines have one
/// trace, and a trace has one report of each.
pub fn report_of_text_is_unique()
    ensures { (choice : Choice) (with_schedules : Bool) (text bytes others : List ℕ)
        → IsReportOnText (ListedBy choice) with_schedules text bytes → IsReportOnText (ListedBy choice) with_schedules text others
        → bytes ≡ others }
{}

/// A check of what a run wrote with schedules, of all races or of the nearest ones, says that it is good. `value`: the bytes are the text of a
/// report in the grammar, whose verdict against the trace is `Good` with the number of races of the
/// summary. `checked`: so no other verdict is that of these two texts, where the report isn't longer than
/// the 1,073,741,824 bytes that a check reads; a longer one has a bad line there.
pub fn own_report_is_good()
    ensures value { (choice : Choice) (text : List ℕ) (summary : Summary) (old new : Option (List ℕ))
        (reported : IsReported choice true text summary old new)
        → (value : ReportValue) × IsReportValue value × (reported.bytes ≡ report_text value)
        × IsVerdict reported.report.trace value (Good summary.races) }
    ensures checked { (choice : Choice) (text : List ℕ) (summary : Summary) (old new : Option (List ℕ))
        (reported : IsReported choice true text summary old new)
        → (verdict : Verdict) → length reported.bytes ≤ most_bytes → IsVerdictOf text reported.bytes verdict
        → verdict ≡ Good summary.races }
{}
