//! Laws of the seats at the core's gate.

ghost use Rattle.std.specs.Prelude.{◌≡◌, ℕ, Option, true, false};
ghost use Rattle.config_graph.specs.declared.node.Node.{Node};
ghost use Rattle.node_gate.specs.Core.{FitsCore};
ghost use Rattle.quiesce_core.specs.Knowledge.{nothing_known};
ghost use Rattle.quiesce_core.specs.Runs.{Step, is_doer};
ghost use Rattle.quiesce_core.specs.State.{State, is_live};
ghost use Rattle.quiesce_core.specs.Traffic.{IsConsistent};
ghost use Rattle.quiesce_core.specs.WellFormed.{IsWellFormed};
ghost use Rattle.quiesce_core.specs.declared.event.Event.{Event};
ghost use Rattle.quiesce_core.specs.declared.event.Event.TheVariants.{Make};
ghost use Rattle.quiesce_core.specs.declared.known.Known.{Known};

/// A law: a seat with the knowledge of no events fits the node that was just made, and a seat that fits goes on
/// fitting through all that its node doesn't do, a change's events among it, as long as the node is live.
pub fn seats_of_live_nodes_fit()
    ensures new { (s t : State) (n : ℕ) (node : Node) (from : Option ℕ) → IsWellFormed s → Step s (Make n node from) t
        → FitsCore t n nothing_known }
    ensures others { (s t : State) (e : Event) (n : ℕ) (w : Known) → IsWellFormed s → IsConsistent s → Step s e t
        → is_doer s n e ≡ false → is_live t.config n ≡ true → FitsCore s n w → FitsCore t n w }
{}
