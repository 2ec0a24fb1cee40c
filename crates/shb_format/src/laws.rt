//! The laws of reports, over the definitions alone. Each function does nothing: its contract is the
//! law.
ghost use Rattle.std.specs.Prelude.{◌≡◌, ℕ, All, Bool, List, map, true};
ghost use Rattle.shb_lines.specs.events.Discipline.{IsDisciplined};
ghost use Rattle.shb_lines.specs.events.Race.{IsRaceList};
ghost use Rattle.shb_lines.specs.text.TraceData.{TraceData};
ghost use Rattle.shb_format.specs.Report.{AllRaces, HasSchedule, IsReportOn, ShownRace};
ghost use Rattle.shb_format.specs.Writing.{written_report};
ghost use Rattle.shb_format.specs.Value.{report_text};

/// A trace has at most one report in each form.
pub fn report_is_unique()
    ensures { (with_schedules : Bool) (trace : TraceData) (bytes others : List ℕ)
        → IsReportOn AllRaces with_schedules trace bytes → IsReportOn AllRaces with_schedules trace others → bytes ≡ others }
{}

/// A disciplined trace with a race list has a report in each form.
pub fn report_exists()
    ensures { (with_schedules : Bool) (trace : TraceData) (races : List (ℕ × ℕ))
        → IsDisciplined trace.events → IsRaceList trace.events races
        → (bytes : List ℕ) × IsReportOn AllRaces with_schedules trace bytes }
{}

/// The report of a trace that the writer's parts are, with schedules, is the text of a report as it is
/// read: of version 2, with the counts of the trace, the places of its race list and a block for each
/// of its races.
pub fn written_report_is_a_text()
    ensures { (trace : TraceData) (bytes : List ℕ) → IsReportOn AllRaces true trace bytes → (shown : List ShownRace)
        × IsRaceList trace.events (map (λ race. race.pair) shown) × All (HasSchedule true trace) shown
        × (bytes ≡ report_text (written_report trace shown)) }
{}
