//! Laws of the definitions that the contracts of lines cite.

ghost use Rattle.std.specs.Prelude.{◌≡◌, ℕ, List, Some};
ghost use Rattle.quiesce_core.specs.declared.event.Event.{Event};
ghost use Rattle.report_types.specs.declared.report.HistoryLine.{HistoryLine};
ghost use Rattle.report_types.specs.declared.report.Last.{Last};
ghost use Rattle.report_writing.specs.Reports.{ended, history_text, last_text};
ghost use Rattle.report_writing.specs.Writing.{written};
ghost use Rattle.report_lines.specs.Parts.{words};
ghost use Rattle.report_lines.specs.Readings.{event_in, last_in, line_in};
ghost use Rattle.report_lines.specs.ReportLines.{IsLast, IsLine, IsNodeEvent};

/// A line says something of a history, but for a graph that is shown, exactly where this is written so.
pub fn a_line_says_history_as_it_is_written()
    ensures says { (line : List ℕ) (says : HistoryLine) → line_in (words line) ≡ Some says
        → (ended line ≡ history_text says) × IsLine says }
    ensures written { (line : List ℕ) (says : HistoryLine) → IsLine says → ended line ≡ history_text says
        → line_in (words line) ≡ Some says }
{}

/// A line says an event of a node exactly where the event is written so.
pub fn a_line_says_an_event_as_it_is_written()
    ensures says { (line : List ℕ) (event : Event) → event_in (words line) ≡ Some event
        → (line ≡ written event) × IsNodeEvent event }
    ensures written { (event : Event) → IsNodeEvent event → event_in (words (written event)) ≡ Some event }
{}

/// A line says how a log ends exactly where this is written so.
pub fn a_line_says_the_end_of_a_log_as_it_is_written()
    ensures says { (line : List ℕ) (last : Last) → last_in (words line) ≡ Some last
        → (ended line ≡ last_text last) × IsLast last }
    ensures written { (line : List ℕ) (last : Last) → IsLast last → ended line ≡ last_text last
        → last_in (words line) ≡ Some last }
{}
