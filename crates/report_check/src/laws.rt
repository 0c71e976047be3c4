//! What being right by itself decides of a report.

ghost use Rattle.std.specs.Prelude.{◌≡◌, ◌↔◌, ℕ, true, false, List, fold};
ghost use Rattle.change_spec.specs.Consistent.{Consistent};
ghost use Rattle.change_spec.specs.Follows.{Follows};
ghost use Rattle.change_spec.specs.Statements.{Statement};
ghost use Rattle.change_round_laws.specs.SoundStatements.{AreSound};
ghost use Rattle.merge_laws.specs.Guarded.{can_go, go, left, left_of, may_go};
ghost use Rattle.report_check.specs.RightAlone.{IsRightAlone};
ghost use Rattle.report_types.specs.declared.report.Report.{Report};

use change_round_laws::commits_leave_the_described_graph;
use change_spec::a_configuration_has_one_graph;
use merge_laws::{
    consistent_reports_are_decided, histories_tell_their_closes, removed_nodes_serve_nothing,
    ways_are_merges,
};

/// A report that can be one of this machine, for a script of sound statements, is right by itself. One that is, and
/// whose history follows the script, can be one exactly where a way that can go on no more ends with nothing left.
pub fn consistent_reports_are_decided_so()
    ensures alone { (statements : List Statement) (report : Report) → AreSound statements
        → Consistent statements report → IsRightAlone statements report }
    ensures decides { (statements : List Statement) (report : Report) (cs : List ℕ) → AreSound statements
        → Follows statements report.history → IsRightAlone statements report → can_go (left_of report) cs ≡ true
        → ((c : ℕ) → may_go (fold go (left_of report) cs) c ≡ false)
        → Consistent statements report ↔ (left (fold go (left_of report) cs) ≡ 0) }
{
    consistent_reports_are_decided();
    removed_nodes_serve_nothing();
    commits_leave_the_described_graph();
    a_configuration_has_one_graph();
    ways_are_merges();
    histories_tell_their_closes();
}
