//! How one session with a system outside is followed by the next: that one begins with a system which is numbered anew.

ghost use Rattle.std.specs.Prelude.{◌≡◌, ◌≤◌, ℕ, Bool, false, List, ◌++◌, filter, length, map};
ghost use Rattle.std.specs.List.{list_any};
ghost use Rattle.change_plan.specs.declared.plan_data.Move.{Move};
ghost use Rattle.change_plan.specs.declared.plan_data.Plan.{Plan};
ghost use Rattle.change_plan_laws.specs.Commit.{commit_events};
ghost use Rattle.change_plan_laws.specs.Committing.{MayCommit};
ghost use Rattle.config_graph.specs.Graph.{Graph, ports};
ghost use Rattle.config_graph.specs.declared.TheConstants.{MAX_NODES, MAX_PORTS};
ghost use Rattle.quiesce_core.specs.declared.event.Event.{Event};
ghost use Rattle.quiesce_core.specs.Doers.{is_of_change};
ghost use Rattle.quiesce_core.specs.Live.{IsGraphOf};
ghost use Rattle.quiesce_core.specs.Runs.{state_after};
ghost use Rattle.quiesce_core.specs.Start.{started};
ghost use Rattle.quiesce_laws.specs.Steps.{is_shaping};
ghost use Rattle.crowd_laws.specs.Crowds.{World};
ghost use Rattle.crowd_laws.specs.Acts.{Act, events_told, MayGoOn, world_after};
ghost use Rattle.crowd_laws.specs.Beginning.{IsStart, untold};
ghost use Rattle.crowd_laws.specs.Renaming.{AreTakenOver, renumbered};

use change_plan_laws::commits_leave_the_new_graph;

/// Behind a commit the next session may begin with the new graph, and behind a change that was given up with the old one:
/// by the numbers that the same ports have there, all that is open stands. It may, whatever roots, calls, ends and lines
/// came in between.
pub fn sessions_follow_one_another()
    ensures committed { (w : World) (acts more_ : List Act) (old new : Graph) (moves : List Move) (plan : Plan) (es : List Event)
        (shut : ℕ → Bool) → IsStart w → MayGoOn w acts → MayGoOn (world_after w acts) more_
        → (world_after w acts).machine ≡ state_after es → MayCommit old new moves plan es
        → filter is_of_change (events_told (world_after w acts) more_) ≡ commit_events old new plan (state_after es).config
        → length new.nodes ≤ MAX_NODES → length (ports new.nodes) ≤ MAX_PORTS
        → (over : AreTakenOver (world_after (world_after w acts) more_).machine.config new (world_after (world_after w acts) more_).crowd.opened)
        × IsStart (record { crowd = untold (map (renumbered over.port) (world_after (world_after w acts) more_).crowd.opened) shut; machine = started new }) }
    ensures given_up { (w : World) (acts : List Act) (old : Graph) (shut : ℕ → Bool) → IsStart w → MayGoOn w acts
        → IsGraphOf w.machine.config old → list_any is_shaping (events_told w acts) ≡ false
        → length old.nodes ≤ MAX_NODES → length (ports old.nodes) ≤ MAX_PORTS
        → (over : AreTakenOver (world_after w acts).machine.config old (world_after w acts).crowd.opened)
        × IsStart (record { crowd = untold (map (renumbered over.port) (world_after w acts).crowd.opened) shut; machine = started old }) }
{
    commits_leave_the_new_graph();
}
