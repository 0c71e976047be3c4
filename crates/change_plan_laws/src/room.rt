//! Room in plans and in the machine.

ghost use Rattle.std.specs.Prelude.{◌≡◌, ◌↔◌, ℕ, length, IsTrue};
ghost use Rattle.change_plan.specs.Room.{HasRoom};
ghost use Rattle.config_graph.specs.Graph.{requires_of};
ghost use Rattle.config_graph.specs.declared.node.Node.{Node};
ghost use Rattle.quiesce_core.specs.Rules.{has_room};
ghost use Rattle.quiesce_core.specs.State.{Configuration};
ghost use Rattle.change_plan_laws.specs.Committing.{made_in};

/// The machine has room for a node in the next slot exactly where a plan has room for one node with its ports.
pub fn room_is_that_of_the_machine()
    ensures { (c : Configuration) (n : ℕ) (node : Node)
        → IsTrue (has_room c n node) ↔ ((n ≡ length c.slots) × HasRoom (made_in c) 1 (requires_of node)) }
{}
