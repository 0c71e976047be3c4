//! What may be asked of a reader.

ghost use Rattle.std.specs.Prelude.{◌≡◌, ◌↔◌, ◌∷◌, ◌++◌, List, false, length, map, true, Some};
ghost use Rattle.std.specs.List.{list_all, range_with_len};
ghost use Rattle.std.specs.List.Sorted.{IsStrictlyIncreasing};
ghost use Rattle.config_graph.specs.Graph.{Graph, ports};
ghost use Rattle.change_spec.specs.Asked.{Above, CanChange, CanStart, after_change, after_start, statement_of};
ghost use Rattle.change_spec.specs.Follows.{IsRight, start_lines};
ghost use Rattle.change_spec.specs.declared.steps.Replacement.{Replacement};
ghost use Rattle.change_spec.specs.declared.steps.Start.{Start};
ghost use Rattle.change_spec.specs.declared.steps.Step.TheVariants as to_do;
ghost use Rattle.change_lists.specs.Lists.{closed_by, commit_by, places_after, ports_after};
ghost use Rattle.change_lists.specs.declared.layout.Layout.{Layout};
ghost use Rattle.merge_laws.specs.Reading.{IsChangeSo};
ghost use Rattle.report_types.specs.declared.report.HistoryLine.{HistoryLine as Line};
ghost use Rattle.change_plan.specs.declared.plan_data.Plan.{Plan};
ghost use Rattle.change_plan_laws.specs.Commit.{commit_events, ports_to_close};
ghost use Rattle.quiesce_laws.specs.Steps.{live_ports};
ghost use Rattle.quiesce_core.specs.State.{Configuration};
ghost use Rattle.quiesce_laws.specs.Starts.{start_of};
ghost use Rattle.report_follows.specs.Readers.{IsBehind, IsEndedSo};
ghost use Rattle.report_follows.specs.Testing.{is_tellable};

use change_lists::layouts_tell_commits;
use change_plan_laws::{commits_can_not_fail, commits_leave_the_new_graph, each_plan_may_commit};
use merge_laws::changes_are_read_so;
use quiesce_laws::started_systems_are_reached;

/// What is expected of a start, of a change and of the stop meets the conditions of reading them: each event has a line
/// and closes nothing, and the ports rise.
pub fn what_is_expected_may_be_read()
    ensures start { (g : Graph) → list_all is_tellable (start_of g) ≡ true }
    ensures commit { (old new : Graph) (plan : Plan) (c : Configuration)
        → list_all is_tellable (commit_events old new plan c) ≡ true }
    ensures closed { (old : Graph) (plan : Plan) (c : Configuration) → IsStrictlyIncreasing (ports_to_close old plan c) }
    ensures stop { (c : Configuration) → IsStrictlyIncreasing (live_ports c) }
{}

/// What a reader holds stands behind what it read. The lines of a change are right exactly where they are so by what the
/// layout tells, which may be read; behind a commit the graph is the one that the change names, with the layout that was
/// listed, and behind a change that was given up both are as they were.
pub(crate) fn what_is_read_stands()
    ensures start { (s : Start) (l : Layout) → CanStart s
        → l.places.items ≡ map Some (range_with_len 0 (length s.graph.nodes)) → l.ports.items ≡ ports s.graph.nodes
        → IsBehind (after_start s) (start_lines s.name s.args s.graph) s.graph l false }
    ensures right { (above : Above) (before : List Line) (g : Graph) (l : Layout) (c : Replacement)
        → CanChange above c → IsBehind above before g l false → (lines : List Line)
        → IsRight before (statement_of (to_do.Change c)) lines ↔ IsChangeSo c.name c.args c.within
        (closed_by l.places.items l.ports.items c.plan.freeze)
        (commit_by g c.graph c.plan l.places.items l.ports.items) lines }
    ensures rise { (above : Above) (before : List Line) (g : Graph) (l : Layout) (c : Replacement)
        → CanChange above c → IsBehind above before g l false
        → IsStrictlyIncreasing (closed_by l.places.items l.ports.items c.plan.freeze) }
    ensures tellable { (above : Above) (before : List Line) (g : Graph) (l : Layout) (c : Replacement)
        → CanChange above c → IsBehind above before g l false
        → list_all is_tellable (commit_by g c.graph c.plan l.places.items l.ports.items) ≡ true }
    ensures committed { (above : Above) (before : List Line) (g : Graph) (l next : Layout) (c : Replacement)
        (can : CanChange above c) → IsBehind above before g l false
        → next.places.items ≡ places_after g c.graph c.plan l.places.items
        → next.ports.items ≡ ports_after c.graph c.plan l.places.items l.ports.items → (lines : List Line)
        → IsEndedSo false c.name c.args c.within (closed_by l.places.items l.ports.items c.plan.freeze)
        (commit_by g c.graph c.plan l.places.items l.ports.items) lines
        → IsBehind (after_change above c can) (before ++ lines) c.graph next false }
    ensures given_up { (above : Above) (before : List Line) (g : Graph) (l : Layout) (c : Replacement)
        (can : CanChange above c) → IsBehind above before g l false → (lines : List Line)
        → IsEndedSo true c.name c.args c.within (closed_by l.places.items l.ports.items c.plan.freeze)
        (commit_by g c.graph c.plan l.places.items l.ports.items) lines
        → IsBehind (after_change above c can) (before ++ lines) g l true }
{
    each_plan_may_commit();
    commits_can_not_fail();
    commits_leave_the_new_graph();
    layouts_tell_commits();
    changes_are_read_so();
    started_systems_are_reached();
}
