//! A start in the form of commits: all of a graph is made, linked and opened.

ghost use Rattle.std.specs.Prelude.{◌≡◌, ◌≤◌, ◌∷◌, ◌++◌, List, None, filter, length};
ghost use Rattle.config_graph.specs.Graph.{Graph, ports};
ghost use Rattle.config_graph.specs.Sound.{Sound};
ghost use Rattle.config_graph.specs.declared.TheConstants.{MAX_NODES, MAX_PORTS};
ghost use Rattle.quiesce_core.specs.declared.event.Event.{Event};
ghost use Rattle.quiesce_core.specs.Doers.{is_of_change};
ghost use Rattle.quiesce_core.specs.Live.{IsGraphOf};
ghost use Rattle.quiesce_core.specs.Rules.{denial};
ghost use Rattle.quiesce_core.specs.Runs.{IsRun, state_after};
ghost use Rattle.quiesce_laws.specs.Starts.{start_of};

/// Where nothing was made, each event of a sound graph's start is allowed after those before it, whatever nodes do
/// that are open already; and after the last of them the graph is the one that is started.
pub fn starts_can_not_fail()
    ensures allowed { (g : Graph) (more_ left : List Event) (e : Event) → Sound g → length g.nodes ≤ MAX_NODES
        → length (ports g.nodes) ≤ MAX_PORTS → IsRun more_
        → filter is_of_change more_ ++ e ∷ left ≡ start_of g → denial (state_after more_) e ≡ None }
    ensures graph { (g : Graph) (more_ : List Event) → Sound g → length g.nodes ≤ MAX_NODES
        → length (ports g.nodes) ≤ MAX_PORTS
        → filter is_of_change more_ ≡ start_of g → IsGraphOf (state_after more_).config g }
{}
