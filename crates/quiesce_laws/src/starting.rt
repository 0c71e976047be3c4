//! A system that was started as a graph says is reached by a run, so the laws of runs speak of it too.

ghost use Rattle.std.specs.Prelude.{◌≡◌, ◌↔◌, ◌≤◌, length, List, ◌++◌};
ghost use Rattle.config_graph.specs.Graph.{Graph, ports};
ghost use Rattle.config_graph.specs.Sound.{Sound};
ghost use Rattle.config_graph.specs.declared.TheConstants.{MAX_NODES, MAX_PORTS};
ghost use Rattle.quiesce_core.specs.declared.event.Event.{Event};
ghost use Rattle.quiesce_core.specs.Runs.{IsRun, Steps, state_after};
ghost use Rattle.quiesce_core.specs.Start.{started};
ghost use Rattle.quiesce_laws.specs.Starts.{start_of, state_from};

/// The state of a system that was started as a sound graph says, with at most as many nodes and ports as there is room
/// for, is that of a run: its nodes are made, its ports linked and then opened.
pub fn started_systems_are_reached()
    ensures { (g : Graph) → Sound g → length g.nodes ≤ MAX_NODES → length (ports g.nodes) ≤ MAX_PORTS
        → IsRun (start_of g) × (state_after (start_of g) ≡ started g) }
{}

/// What happens from there on goes on with this run, exactly where each event is a step from the state before it. So
/// each law of runs applies to what happens in a started system.
pub fn started_systems_go_on_as_runs()
    ensures runs { (g : Graph) (more_ : List Event) → Sound g → length g.nodes ≤ MAX_NODES
        → length (ports g.nodes) ≤ MAX_PORTS
        → IsRun (start_of g ++ more_) ↔ Steps (started g) more_ (state_from g more_) }
    ensures states { (g : Graph) (more_ : List Event) → Sound g → length g.nodes ≤ MAX_NODES
        → length (ports g.nodes) ≤ MAX_PORTS → state_after (start_of g ++ more_) ≡ state_from g more_ }
{}
