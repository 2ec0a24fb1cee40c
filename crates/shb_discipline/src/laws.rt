//! The laws of the discipline and of the first fault of a text. Each function does nothing: its
//! contract is the law.
ghost use Rattle.std.specs.Prelude.{◌≡◌, ◌↔◌, ℕ, List, Option, None, Some};
ghost use Rattle.shb_lines.specs.declared.event.Event.{Event};
ghost use Rattle.shb_lines.specs.declared.fault.Fault.{Fault};
ghost use Rattle.shb_lines.specs.declared.limits.Limits.{Limits};
ghost use Rattle.shb_lines.specs.declared.fault.LineFault.{LineFault};
ghost use Rattle.shb_lines.specs.events.Discipline.{IsDisciplined, MayCome};
ghost use Rattle.shb_lines.specs.text.Text.{lines_of};
ghost use Rattle.shb_lines.specs.text.TraceData.{IsReadingOf, IsTraceOf, TraceData};
ghost use Rattle.shb_discipline.specs.Faults.{HasDisciplineFault, HasNoFault, IsFirstDisciplineFault, IsFirstFault};

/// An event may come after others exactly where it has no fault of the discipline after them.
pub fn event_without_fault_may_come()
    ensures { (past : List Event) (e : Event)
        → MayCome past e ↔ ((fault : Fault) → HasDisciplineFault past e fault → ⊥) }
{}

/// What [`parse`](shb_lines::parse) and [`check`](crate::check) answer gives the first fault of a
/// text: the fault of the discipline among the events before the stop where there is one, else the
/// stop. Where there is neither, no line of the text has a fault, and the trace is that of the whole
/// text.
pub fn first_fault_of_a_text()
    ensures undisciplined { (limits : Limits) (text : List ℕ) (trace : TraceData) (stop : Option LineFault) (line : ℕ) (fault : Fault)
        → IsReadingOf limits text trace stop → IsFirstDisciplineFault trace.events line fault
        → IsFirstFault limits text line fault }
    ensures stopped { (limits : Limits) (text : List ℕ) (trace : TraceData) (stop : LineFault)
        → IsReadingOf limits text trace (Some stop) → IsDisciplined trace.events
        → IsFirstFault limits text stop.line stop.fault }
    ensures accepted { (limits : Limits) (text : List ℕ) (trace : TraceData)
        → IsReadingOf limits text trace None → IsDisciplined trace.events
        → HasNoFault limits text × IsTraceOf (lines_of text) trace }
{}

/// A trace has at most one first fault of the discipline, and none where it is disciplined; a text
/// has at most one first fault.
pub fn first_fault_is_one()
    ensures of_trace { (trace : List Event) (line other : ℕ) (fault further : Fault)
        → IsFirstDisciplineFault trace line fault → IsFirstDisciplineFault trace other further
        → (line ≡ other) × (fault ≡ further) }
    ensures of_disciplined { (trace : List Event) (line : ℕ) (fault : Fault)
        → IsDisciplined trace → IsFirstDisciplineFault trace line fault → ⊥ }
    ensures of_text { (limits : Limits) (text : List ℕ) (line other : ℕ) (fault further : Fault)
        → IsFirstFault limits text line fault → IsFirstFault limits text other further
        → (line ≡ other) × (fault ≡ further) }
{}

/// The trace of a text that has no fault is disciplined.
pub fn faultless_text_is_disciplined()
    ensures { (limits : Limits) (text : List ℕ) (trace : TraceData)
        → HasNoFault limits text → IsTraceOf (lines_of text) trace → IsDisciplined trace.events }
{}
