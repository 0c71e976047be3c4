//! What decides whether a report can be one of this machine.

ghost use Rattle.std.specs.Prelude.{◌≡◌, ◌↔◌, ℕ, true, false, List, Some, None, fold};
ghost use Rattle.base.specs.Each.{Each};
ghost use Rattle.component_trait.specs.States.{NodeState};
ghost use Rattle.quiesce_core.specs.declared.state.Slot.{Slot};
ghost use Rattle.quiesce_core.specs.Runs.{IsRun};
ghost use Rattle.quiesce_core.specs.State.{slot};
ghost use Rattle.report_types.specs.declared.report.Report.{Report};
ghost use Rattle.change_spec.specs.Consistent.{Consistent};
ghost use Rattle.change_spec.specs.Follows.{Follows};
ghost use Rattle.change_spec.specs.Lawful.{IsGraphAt, Merge, unfinished_of};
ghost use Rattle.change_spec.specs.Members.{Member, events};
ghost use Rattle.change_spec.specs.Opening.{fold_of_node};
ghost use Rattle.change_spec.specs.Scene.{config_after};
ghost use Rattle.change_spec.specs.Statements.{Statement};
ghost use Rattle.change_round_laws.specs.SoundStatements.{AreSound};
ghost use Rattle.merge_laws.specs.Alone.{AreRightAlone, IsShown, fold_told, unfinished_told};
ghost use Rattle.merge_laws.specs.Guarded.{can_go, go, left, left_of, may_go};

use change_round_laws::commits_leave_the_described_graph;
use change_spec::nothing_is_open_at_the_end;

/// What a list says of folds, of nodes that aren't done and of shows is what its history and its logs say alone; and
/// where they show what stands, so does the list.
pub fn lists_say_what_logs_say()
    ensures folds { (report : Report) (m : List Member) → Merge m report → IsRun (events m) → (n : ℕ)
        → fold_of_node (events m) n ≡ fold_told report n }
    ensures unfinished { (statements : List Statement) (report : Report) (m : List Member) → Merge m report
        → IsRun (events m) → unfinished_of statements (events m) ≡ unfinished_told statements report }
    ensures shows { (statements : List Statement) (report : Report) (m : List Member) → Merge m report
        → Each (IsGraphAt statements) m → Each IsShown report.history }
    ensures graphs { (statements : List Statement) (report : Report) (m : List Member) → AreSound statements
        → Follows statements report.history → Merge m report → IsRun (events m) → Each IsShown report.history
        → Each (IsGraphAt statements) m }
{
    commits_leave_the_described_graph();
}

/// The log of a removed node ends outside a service; and so does that of a node from which another was made.
pub fn removed_nodes_serve_nothing()
    ensures removed { (report : Report) (m : List Member) → Merge m report → IsRun (events m)
        → (n : ℕ) (s : Slot) (z : NodeState) → slot (config_after report.history) n ≡ Some s → s.live ≡ false
        → fold_told report n ≡ Some z → z.service ≡ None }
    ensures moved { (report : Report) (m : List Member) → Merge m report → IsRun (events m)
        → (n k : ℕ) (s : Slot) (z : NodeState) → slot (config_after report.history) n ≡ Some s → s.from ≡ Some k
        → fold_told report k ≡ Some z → z.service ≡ None }
{}

/// A report of a sound script can be one of this machine exactly where three tests pass: its history follows the
/// script, history and logs are right alone, and a way that can go on no more ends with nothing left.
pub fn consistent_reports_are_decided()
    ensures follows { (statements : List Statement) (report : Report) → Consistent statements report
        → Follows statements report.history }
    ensures alone { (statements : List Statement) (report : Report) → Consistent statements report
        → AreRightAlone statements report }
    ensures decides { (statements : List Statement) (report : Report) (cs : List ℕ) → AreSound statements
        → Follows statements report.history → AreRightAlone statements report → can_go (left_of report) cs ≡ true
        → ((c : ℕ) → may_go (fold go (left_of report) cs) c ≡ false)
        → Consistent statements report ↔ (left (fold go (left_of report) cs) ≡ 0) }
{
    nothing_is_open_at_the_end();
    commits_leave_the_described_graph();
}
