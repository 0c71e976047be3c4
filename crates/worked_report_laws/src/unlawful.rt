//! Reports that aren't lawful, one for each part of what a report must be that doesn't follow from the others.

ghost use Rattle.std.specs.Prelude.{None, Some};
ghost use Rattle.change_spec.specs.Lawful.{Lawful, LawfulOnThreads};
ghost use Rattle.worked_report_laws.specs.Alone as alone;
ghost use Rattle.worked_report_laws.specs.Moved as moved;
ghost use Rattle.worked_report_laws.specs.Ran as ran;
ghost use Rattle.worked_report_laws.specs.RunOut as run_out;
ghost use Rattle.worked_report_laws.specs.Shown as shown;
ghost use Rattle.worked_report_laws.specs.WrongEnds as ends;
ghost use Rattle.worked_report_laws.specs.WrongLines as wrong_lines;
ghost use Rattle.worked_report_laws.specs.WrongLogs as logs;
ghost use Rattle.worked_report_laws.specs.WrongLooks as looks;
ghost use Rattle.worked_report_laws.specs.WrongRuns as runs;

/// None of these reports is lawful. Each is refuted by one part of what `Lawful` asks: that the history follows the
/// script, that it and the logs are parts of one list, that this list is a run, that the states are folds, that what is
/// said to be drained is so, that what is said to be open stood so, that the graph is the one shown, that the first node
/// that isn't done is named, the status; and, on threads, the numbers of runs and finishes.
pub fn wrong_reports_are_not_lawful()
    ensures lines { Lawful ran.script ends.unseen → ⊥ }
    ensures logs { Lawful wrong_lines.finishing_two logs.swapped → ⊥ }
    ensures run { Lawful ran.script logs.altered → ⊥ }
    ensures states { Lawful moved.script logs.forgetting → ⊥ }
    ensures drained { Lawful ran.script looks.early → ⊥ }
    ensures stood { Lawful ends.outdating looks.outdated → ⊥ }
    ensures shown { Lawful shown.script wrong_lines.shown_wrongly → ⊥ }
    ensures unfinished { Lawful alone.script (alone.report_of 5 None 0) → ⊥ }
    ensures status { Lawful alone.script (alone.report_of 5 (Some 0) 0) → ⊥ }
    ensures ended { LawfulOnThreads run_out.script runs.ended_idly → ⊥ }
    ensures rounds { LawfulOnThreads alone.script (alone.report_of 3 (Some 0) 8) → ⊥ }
{}
