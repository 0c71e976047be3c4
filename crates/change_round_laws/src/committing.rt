//! What a commit leaves.

ghost use Rattle.std.specs.Prelude.{◌≡◌, List, ◌∷◌, ◌++◌, filter, filter_map};
ghost use Rattle.base.specs.Each.{Each};
ghost use Rattle.change_spec.specs.Follows.{Follows};
ghost use Rattle.change_spec.specs.Lawful.{IsGraphDescribed, Merge};
ghost use Rattle.change_spec.specs.Members.{Member, event_of, events, of_history};
ghost use Rattle.change_spec.specs.Statements.{Statement};
ghost use Rattle.report_types.specs.declared.report.HistoryLine.{HistoryLine};
ghost use Rattle.report_types.specs.declared.report.HistoryLine.TheVariants.{Commit};
ghost use Rattle.report_types.specs.declared.report.Report.{Report};
ghost use Rattle.quiesce_core.specs.declared.event.Event.{Event};
ghost use Rattle.quiesce_core.specs.Doers.{is_of_change};
ghost use Rattle.quiesce_core.specs.Runs.{IsRun};
ghost use Rattle.change_round_laws.specs.Described.{IsLeftAt};
ghost use Rattle.change_round_laws.specs.SoundStatements.{AreSound};

use change_plan_laws::{commits_can_not_fail, commits_leave_the_new_graph, each_plan_may_commit};

/// What the change does in a run is a run by itself: no event of the change needs one of a node.
pub fn changes_are_a_run_by_themselves()
    ensures run { (es : List Event) → IsRun es → IsRun (filter is_of_change es) }
{}

/// At each commit the graph of the live nodes and their links is that of the description of the start or change that it
/// ends. This follows from the lines of the statements and from the events being a run: a report can't fail by it
/// alone.
pub fn commits_leave_the_described_graph()
    ensures by_lines { (statements : List Statement) (history : List HistoryLine) → AreSound statements
        → Follows statements history → IsRun (filter_map event_of history) → Each (IsLeftAt statements) history }
    ensures described { (statements : List Statement) (report : Report) (m : List Member) → AreSound statements
        → Follows statements report.history → Merge m report → IsRun (events m) → (before after : List Member)
        → m ≡ before ++ of_history Commit ∷ after → IsGraphDescribed statements before }
{
    each_plan_may_commit();
    commits_can_not_fail();
    commits_leave_the_new_graph();
}
