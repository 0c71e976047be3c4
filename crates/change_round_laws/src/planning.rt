//! Plans of sound scripts.

ghost use Rattle.std.specs.Prelude.{◌≡◌, true, List, length};
ghost use Rattle.change_spec.specs.Planning.{can_be_planned};
ghost use Rattle.change_spec.specs.Serial.{Serial};
ghost use Rattle.change_spec.specs.Statements.{Statement};
ghost use Rattle.change_plan.specs.Moves.{MayMoveAll};
ghost use Rattle.change_plan.specs.declared.plan_data.Move.{Move};
ghost use Rattle.report_types.specs.declared.report.Report.{Report};
ghost use Rattle.config_graph.specs.Graph.{Graph};
ghost use Rattle.change_round_laws.specs.Existing.{HavePlans, StopsEnd};
ghost use Rattle.change_round_laws.specs.SoundStatements.{AreSound, IsSoundGraph};

use change_plan_laws::{commits_can_not_fail, commits_leave_the_new_graph, each_plan_may_commit};
use quiesce_laws::rest_falls_by_steps;

/// From a sound graph, where the moves may be made, there is a plan, and it is found by tests. So each change of a
/// sound script has one.
pub fn sound_scripts_have_plans()
    ensures found { (old new : Graph) (moves : List Move) → IsSoundGraph old → MayMoveAll old new moves (length moves)
        → can_be_planned old new moves ≡ true }
    ensures plans { (statements : List Statement) → AreSound statements → HavePlans statements }
{}

/// A report of rounds exists for the statements of a sound script, where each stop comes to an end in rounds.
pub fn a_sound_script_has_a_report_where_stops_end()
    ensures exists { StopsEnd → (statements : List Statement) → AreSound statements
        → (report : Report) × Serial statements report }
{
    each_plan_may_commit();
    commits_can_not_fail();
    commits_leave_the_new_graph();
    rest_falls_by_steps();
}
