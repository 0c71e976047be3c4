//! Memory for nodes to be made.

ghost use Rattle.std.specs.Prelude.{◌≡◌, ◌≤◌, ◌<◌, ◌+◌, ℕ, true, length, map, slice_get, OnOk, Some};
ghost use Rattle.component_trait.specs.States.{NodeState};
ghost use Rattle.config_graph.specs.declared.TheConstants.{MAX_NODES};
ghost use Rattle.state_handover.specs.declared.any_node.AnyNode.{AnyNode as PureNode};
ghost use Rattle.node_turn_laws.specs.World.{World};
ghost use Rattle.step_board.specs.Rooms.{has_past_room};
ghost use Rattle.step_board.specs.Seen.{seen};
ghost use Rattle.step_board.specs.Table.{Shows, machine, sources, spare};

use crate::held::Held;
use crate::table::NodeTable;
use config_graph::NoMemory;

/// Makes room in the past of a node for the node itself.
fn reserve_past(held: &mut Held) -> Result<(), NoMemory>
    ensures seen { (states : PureNode → NodeState) → seen states held.new ≡ seen states held.old }
    ensures room { OnOk result (has_past_room held.new ≡ true) }
    ensures kept { has_past_room held.old ≡ true → has_past_room held.new ≡ true }
{
    match held {
        Held::Node(node) => node.past.try_reserve(1),
        Held::Handed(_) => Ok(()),
    }
}

/// Makes room in the past of each node.
fn reserve_pasts(nodes: &mut [Held]) -> Result<(), NoMemory>
    ensures seen { (states : PureNode → NodeState) → map (seen states) nodes.new ≡ map (seen states) nodes.old }
    ensures room { OnOk result ((k : ℕ) (h : _) → slice_get nodes.new k ≡ Some h → has_past_room h ≡ true) }
    ensures kept { (k : ℕ) (h h' : _) → slice_get nodes.old k ≡ Some h → has_past_room h ≡ true
        → slice_get nodes.new k ≡ Some h' → has_past_room h' ≡ true }
{
    for slot in 0..nodes.len() {
        reserve_past(&mut nodes[slot])?;
    }
    Ok(())
}

impl NodeTable {
    /// Takes the memory for so many nodes more, each of which may take over the state of one that was made so far.
    /// After want of memory all is as it was, and some of the memory may stay taken.
    pub fn reserve(&mut self, nodes: u32) -> Result<(), NoMemory>
        requires few { (w : World) × Shows self.old w × (length w.machine.config.slots + nodes ≤ MAX_NODES) }
        ensures nodes { OnOk result (nodes ≤ spare self.new) }
        ensures sources { OnOk result (length (machine self.old).config.slots ≤ sources self.new) }
        ensures kept_nodes { spare self.old ≤ spare self.new }
        ensures kept_sources { sources self.old ≤ sources self.new }
        ensures shows { (w : World) → Shows self.old w → Shows self.new w }
    {
        self.gate.core.reserve(nodes)?;
        self.nodes.try_reserve(nodes as usize)?;
        self.line_ends.try_reserve(nodes as usize)?;
        reserve_pasts(&mut self.nodes)?;
        self.sources = self.nodes.len() as u32;
        if self.spare < nodes {
            self.spare = nodes;
        }
        Ok(())
    }
}
