//! The laws of verdicts, over the definitions alone. Each function does nothing: its contract is the law.
ghost use Rattle.std.specs.Prelude.{◌≡◌, ◌↔◌, ◌-◌, ℕ, List, length, true};
ghost use Rattle.std.specs.List.{AllByRecursion};
ghost use Rattle.shb_judging.specs.Verdicts.{IsGoodReport, IsVerdict};
ghost use Rattle.shb_judging.specs.declared.verdict.Verdict.{Verdict};
ghost use Rattle.shb_judging.specs.declared.verdict.Verdict.TheVariants.{Good};
ghost use Rattle.shb_lines.specs.events.Discipline.{IsDisciplined};
ghost use Rattle.shb_lines.specs.events.Race.{Race};
ghost use Rattle.shb_lines.specs.text.TraceData.{TraceData};
ghost use Rattle.shb_format.specs.Report.{AllRaces, IsReportOn};
ghost use Rattle.shb_format.specs.Value.{IsReportValue, IsShown, ReportValue, report_text};
ghost use Rattle.shb_format.specs.Writing.{IsShowable};

/// The report of a disciplined trace that the writer's parts are, with schedules, is the text of a report
/// in the grammar, and its verdict is `Good` with the number of its races. Asked of the trace: its
/// numbers have 64 bits, and each event has a line, of few bytes and no line feed. Every trace that was
/// read is so.
pub fn written_report_is_good()
    ensures { (trace : TraceData) (bytes : List ℕ) → IsDisciplined trace.events → IsShowable trace
        → (report : IsReportOn AllRaces true trace bytes) → IsShown (length report.races)
        → (value : ReportValue) × IsReportValue value × (bytes ≡ report_text value) × IsVerdict trace value (Good (length report.races)) }
{}

/// What is said of a report is `Good`, with the number of its races, exactly where it is good for the
/// trace: its counts are those of the trace; each block is about two events that conflict, the earlier
/// one first, has their lines and a schedule of the two; and its places, where it has any, are those of
/// the listed pairs.
pub fn good_reports_are_called_good()
    ensures { (trace : TraceData) (report : ReportValue) (verdict : Verdict) → IsDisciplined trace.events → IsVerdict trace report verdict
        → (verdict ≡ Good (length report.blocks)) ↔ IsGoodReport trace report }
{}

/// Each listed pair of a good report is a race. Its block has the numbers of the two events, which count
/// from 1.
pub fn good_reports_list_races()
    ensures { (trace : TraceData) (report : ReportValue) → IsGoodReport trace report
        → AllByRecursion (λ block. Race trace.events (block.first - 1) (block.second - 1)) report.blocks }
{}

/// A report has at most one verdict.
pub fn verdict_is_one()
    ensures { (trace : TraceData) (report : ReportValue) (verdict other : Verdict) → IsDisciplined trace.events
        → IsVerdict trace report verdict → IsVerdict trace report other → verdict ≡ other }
{}
