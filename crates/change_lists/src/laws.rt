//! Laws of what a layout tells.

ghost use Rattle.std.specs.Prelude.{◌≡◌, List, Some, length, map};
ghost use Rattle.std.specs.List.{range_with_len};
ghost use Rattle.change_lists.specs.Layouts.{IsLayoutOf, live_at};
ghost use Rattle.change_lists.specs.Lists.{closed_by, commit_by, places_after, ports_after};
ghost use Rattle.change_lists.specs.declared.layout.Layout.{Layout};
ghost use Rattle.change_plan.specs.Plans.{IsPlanOf};
ghost use Rattle.change_plan.specs.declared.plan_data.Move.{Move};
ghost use Rattle.change_plan.specs.declared.plan_data.Plan.{Plan};
ghost use Rattle.quiesce_laws.specs.Steps.{change_all, live_ports};
ghost use Rattle.config_graph.specs.Graph.{Graph, IsGraph, ports};
ghost use Rattle.change_plan_laws.specs.Commit.{commit_events, ports_to_close};
ghost use Rattle.quiesce_core.specs.Live.{IsGraphOf};
ghost use Rattle.quiesce_core.specs.Start.{started};
ghost use Rattle.quiesce_core.specs.State.{Configuration};

/// What a plan closes and commits in a configuration is what its lists say by the layout that tells the configuration,
/// whether gates are closed or open; and the layout that they say is that of the configuration behind the commit.
pub fn layouts_tell_commits()
    ensures closed { (old new : Graph) (moves : List Move) (plan : Plan) (c : Configuration) (l : Layout) → IsGraph old
        → IsGraph new → IsPlanOf old new moves plan → IsGraphOf c old → IsLayoutOf l c old
        → ports_to_close old plan c ≡ closed_by l.places.items l.ports.items plan.freeze }
    ensures events { (old new : Graph) (moves : List Move) (plan : Plan) (c : Configuration) (l : Layout) → IsGraph old
        → IsGraph new → IsPlanOf old new moves plan → IsGraphOf c old → IsLayoutOf l c old
        → commit_events old new plan c ≡ commit_by old new plan l.places.items l.ports.items }
    ensures layout { (old new : Graph) (moves : List Move) (plan : Plan) (c : Configuration) (l next : Layout)
        → IsGraph old → IsGraph new → IsPlanOf old new moves plan → IsGraphOf c old → IsLayoutOf l c old
        → next.places.items ≡ places_after old new plan l.places.items
        → next.ports.items ≡ ports_after new plan l.places.items l.ports.items
        → IsLayoutOf next (change_all c (commit_events old new plan c)) new }
    // The layout of a system that was started, and the ports of live nodes.
    ensures started { (graph : Graph) (l : Layout) → IsGraph graph
        → l.places.items ≡ map Some (range_with_len 0 (length graph.nodes)) → l.ports.items ≡ ports graph.nodes
        → IsLayoutOf l (started graph).config graph }
    ensures live { (graph : Graph) (c : Configuration) (l : Layout) → IsGraphOf c graph → IsLayoutOf l c graph
        → live_at l.places.items l.ports.items ≡ live_ports c }
{}
