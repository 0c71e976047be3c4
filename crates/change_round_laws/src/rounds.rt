//! What the report of the rounds is.

ghost use Rattle.std.specs.Prelude.{ℕ, List, IsTrue};
ghost use Rattle.change_spec.specs.Follows.{Follows};
ghost use Rattle.change_spec.specs.Lawful.{LawfulInRounds};
ghost use Rattle.change_spec.specs.Serial.{Serial, run_ends};
ghost use Rattle.change_spec.specs.Statements.{Statement};
ghost use Rattle.report_types.specs.declared.report.Report.{Report};
ghost use Rattle.change_round_laws.specs.SoundStatements.{AreSound};
ghost use Rattle.node_turn_laws.specs.Reached.{IsReached};
ghost use Rattle.node_turn_laws.specs.World.{World};

use change_plan_laws::{commits_can_not_fail, commits_leave_the_new_graph, each_plan_may_commit};
use change_spec::{
    a_moved_state_is_the_last_one, changes_find_nodes_quiescent, nothing_is_open_at_the_end,
};
use quiesce_laws::rest_falls_by_steps;

/// The report of the rounds of a sound script follows the script, and is lawful in rounds. The one list that is said to
/// be there is the order in which the rounds made the events.
pub fn reports_of_rounds_are_lawful()
    ensures follows { (statements : List Statement) (report : Report) → AreSound statements
        → Serial statements report → Follows statements report.history }
    ensures lawful { (statements : List Statement) (report : Report) → AreSound statements
        → (serial : Serial statements report) → LawfulInRounds statements report serial }
{
    each_plan_may_commit();
    commits_can_not_fail();
    commits_leave_the_new_graph();
    changes_find_nodes_quiescent();
    nothing_is_open_at_the_end();
    a_moved_state_is_the_last_one();
}

/// In every world that is reached a `run` comes to an end in rounds: so many transactions ended, or a round moved
/// nothing.
pub fn runs_come_to_an_end()
    ensures ends { (w : World) (k : ℕ) → IsReached w → (j : ℕ) × IsTrue (run_ends w k j) }
{
    rest_falls_by_steps();
}
