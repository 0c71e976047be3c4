//! Laws of the definitions that the contract of `parse_report` cites.

ghost use Rattle.std.specs.Prelude.{◌≡◌, ◌⊎◌, ◌<◌, ◌^◌, ℕ, List, Ok, Some, flat_map, length};
ghost use Rattle.report_writing.specs.Reports.{ended, report_text};
ghost use Rattle.report_types.specs.declared.report.Report.{Report};
ghost use Rattle.config_graph.specs.Graph.{Graph};
ghost use Rattle.config_graph.specs.GraphText.{graph_text};
ghost use Rattle.report_texts.specs.declared.error.ReportFault.{ReportFault};
ghost use Rattle.report_texts.specs.declared.error.ReportFault.TheVariants as faults;
ghost use Rattle.report_texts.specs.declared.graph_texts.GraphFault.{GraphFault};
ghost use Rattle.report_texts.specs.declared.graph_texts.GraphFault.TheVariants as graph_faults;
ghost use Rattle.report_texts.specs.declared.version.Version.{Version};
ghost use Rattle.report_texts.specs.declared.version.Version.TheVariants as versions;
ghost use Rattle.report_texts.specs.GraphFaults.{IsGraphFault};
ghost use Rattle.report_texts.specs.GraphTexts.{graph_in};
ghost use Rattle.report_texts.specs.ReportTexts.{CanBeShown, IsGraphText, IsReport, IsReportText};
ghost use Rattle.report_texts.specs.Stages.{IsReportFault, reading};
ghost use Rattle.report_texts.specs.TextLines.{lines};

use config_graph::a_first_on_a_cycle_or_none;

/// No text is that of two reports, in whatever version.
pub fn a_text_tells_its_report()
    ensures { (version other : Version) (text : List ℕ) (report same : Report) → IsReportText version text report
        → IsReportText other text same → (version ≡ other) × (report ≡ same) }
{}

/// The text that is written of a report is that of this report, and is read as it.
pub fn a_written_report_is_read()
    ensures text { (report : Report) → IsReport versions.Second report
        → IsReportText versions.Second (report_text report) report }
    ensures read { (report : Report) → IsReport versions.Second report
        → reading (report_text report) ≡ Ok (record { version = versions.Second; report = report }) }
{}

/// A text is that of a report, or has one fault, and never both.
pub fn one_report_or_one_fault()
    ensures always_one { (text : List ℕ) → ((version : Version) × (report : Report) × IsReportText version text report)
        ⊎ ((fault : ReportFault) × IsReportFault text fault) }
    ensures never_both { (version : Version) (text : List ℕ) (report : Report) (fault : ReportFault)
        → IsReportText version text report → IsReportFault text fault → ⊥ }
    ensures one_fault { (text : List ℕ) (fault other : ReportFault) → IsReportFault text fault
        → IsReportFault text other → fault ≡ other }
    ensures no_want_of_memory { (text : List ℕ) → IsReportFault text faults.NoMemory → ⊥ }
{}

/// Lines show a graph exactly where they are its text, it is sound, and the paths of its nodes are words.
pub fn lines_show_graphs_as_they_are_written()
    ensures shown { (shown : List (List ℕ)) (graph : Graph) → graph_in shown ≡ Some graph
        → IsGraphText (flat_map ended shown) graph }
    ensures written { (graph : Graph) → CanBeShown graph → graph_in (lines (graph_text graph)) ≡ Some graph }
{}

/// A text is that of one graph, or has one fault, and never both.
pub fn one_graph_or_one_fault()
    ensures always_one { (text : List ℕ) → length text < 2 ^ 31 → ((graph : Graph) × IsGraphText text graph)
        ⊎ ((fault : GraphFault) × IsGraphFault text fault) }
    ensures never_both { (text : List ℕ) (graph : Graph) (fault : GraphFault) → IsGraphText text graph
        → IsGraphFault text fault → ⊥ }
    ensures one_graph { (text : List ℕ) (graph other : Graph) → IsGraphText text graph → IsGraphText text other
        → graph ≡ other }
    ensures one_fault { (text : List ℕ) (fault other : GraphFault) → IsGraphFault text fault → IsGraphFault text other
        → fault ≡ other }
    ensures no_want_of_memory { (text : List ℕ) → IsGraphFault text graph_faults.NoMemory → ⊥ }
{
    a_first_on_a_cycle_or_none();
}
