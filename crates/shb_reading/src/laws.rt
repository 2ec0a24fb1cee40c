//! The laws of the texts of reports, over the definitions alone. Each function does nothing: its contract
//! is the law.
ghost use Rattle.std.specs.Prelude.{◌≡◌, ℕ, List};
ghost use Rattle.shb_reading.specs.Reading.{IsBadLine, IsReportText};
ghost use Rattle.shb_format.specs.Value.{IsReportValue, ReportValue, report_text};

/// A text is the text of at most one report in the grammar. So what is read of the text of a report is
/// that report.
pub fn report_of_a_text_is_unique()
    ensures { (report other : ReportValue) → IsReportValue report → IsReportValue other
        → report_text report ≡ report_text other → report ≡ other }
{}

/// A text has at most one bad line, and none where it is a report within the limit.
pub fn bad_line_is_unique()
    ensures one { (limit : ℕ) (text : List ℕ) (m n : ℕ) → IsBadLine limit text m → IsBadLine limit text n → m ≡ n }
    ensures no_report { (limit : ℕ) (text : List ℕ) (n : ℕ) (report : ReportValue) → IsReportText limit text report
        → IsBadLine limit text n → ⊥ }
{}
