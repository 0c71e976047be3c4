//! Waits end.

ghost use Rattle.std.specs.Prelude.{◌≡◌, ℕ, ◌≤◌, false, List, [], ◌++◌, map, All};
ghost use Rattle.std.specs.List.{list_any};
ghost use Rattle.base.specs.Each.{Each};
ghost use Rattle.change_spec.specs.Members.{is_pending};
ghost use Rattle.change_spec.specs.Serial.{IsPlayed, Played, Serial, lines_played, world_after};
ghost use Rattle.change_spec.specs.Statements.{Statement};
ghost use Rattle.report_types.specs.declared.report.Report.{Report};
ghost use Rattle.node_turn_laws.specs.Posted.{ArePosted};
ghost use Rattle.quiesce_core.specs.Rest.{rest};
ghost use Rattle.change_round_laws.specs.SoundStatements.{AreSound};
ghost use Rattle.node_turn_laws.specs.Reached.{IsReached};
ghost use Rattle.node_turn_laws.specs.Round.{after_rounds};
ghost use Rattle.node_turn_laws.specs.World.{World};
ghost use Rattle.change_round_laws.specs.Roots.{NamesRoots, roots_in};
ghost use Rattle.change_round_laws.specs.Waits.{DrainsInTime, IsAllIdle, MayWait};

use change_plan_laws::{commits_can_not_fail, commits_leave_the_new_graph, each_plan_may_commit};
use node_turn_laws::{hints_are_posted_in_rounds, rounds_move_what_is_open};
use quiesce_laws::{nothing_is_left_where_none_is_open, rest_bounds_all, rest_falls_by_steps};

/// From a world that is reached, in which no hint waits for a node whose inbox is empty, no transaction is open any
/// more after at most as many rounds as are events left of what is open, where no node begins one meanwhile: each of
/// these rounds moves, and each move is one of those events.
pub fn rounds_drain_what_is_left()
    ensures drained { (w : World) → IsReached w → ArePosted w
        → (j : ℕ) × (j ≤ rest w.machine) × IsAllIdle (after_rounds false w j).machine }
{
    rounds_move_what_is_open();
    hints_are_posted_in_rounds();
    rest_falls_by_steps();
    nothing_is_left_where_none_is_open();
}

/// In the report of the rounds of a sound script, a change that may wait for at least as many rounds as are events left
/// when its ports are closed finds them all drained, and is committed. So one that is given up could wait for fewer.
pub fn changes_drain_within_what_is_left()
    ensures each { (statements : List Statement) (report : Report) → AreSound statements
        → (serial : Serial statements report) → Each DrainsInTime serial.parts }
{
    rounds_drain_what_is_left();
    hints_are_posted_in_rounds();
    each_plan_may_commit();
    commits_can_not_fail();
    commits_leave_the_new_graph();
}

/// Changes that follow one another in the rounds of a sound script, with nothing between: where each may wait for at least
/// as many rounds as are events left where the first begins, none is given up. What a change does begins nothing, and
/// while it waits no node does.
pub fn changes_in_a_row_drain_together()
    ensures none_given_up { (k : ℕ) (before ps : List Played)
        → AreSound (map (λ (p : Played). p.statement) (before ++ ps)) → Each IsPlayed (before ++ ps)
        → list_any is_pending (lines_played before) ≡ false → rest (world_after before).machine ≤ k
        → All (MayWait k) ps → list_any is_pending (lines_played ps) ≡ false }
{
    rounds_drain_what_is_left();
    rest_falls_by_steps();
    rest_bounds_all();
    each_plan_may_commit();
    commits_can_not_fail();
    commits_leave_the_new_graph();
}

/// In the report of the rounds of a sound script the `open` lines are those of changes that are given up, and each such
/// change names the ports that its last look left, with the roots that stand there.
pub fn open_lines_name_what_the_last_look_saw()
    ensures each { (statements : List Statement) (report : Report) → AreSound statements
        → (serial : Serial statements report) → Each NamesRoots serial.parts }
    ensures stop { (statements : List Statement) (report : Report) (serial : Serial statements report)
        → roots_in serial.stop ≡ [] }
{
    each_plan_may_commit();
    commits_can_not_fail();
    commits_leave_the_new_graph();
}
