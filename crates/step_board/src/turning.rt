//! Turns of a table's nodes.

ghost use Rattle.std.specs.Prelude.{◌≡◌, true, OnErr, OnOk};
ghost use Rattle.node_host.specs.Turning.{event_of};
ghost use Rattle.quiesce_core.specs.State.{is_live};
ghost use Rattle.node_turn_laws.specs.Turn.{turn};
ghost use Rattle.node_turn_laws.specs.World.{World};
ghost use Rattle.step_board.specs.Table.{KeepsRoom, Shows, machine};

use crate::held::Held;
use crate::table::NodeTable;
use config_graph::NoMemory;
use node_host::Turn;

impl NodeTable {
    /// Gives a live node its turn, in which it may begin a transaction or not. After want of memory all is as it was.
    pub fn turn(&mut self, slot: u32, begins: bool) -> Result<Turn, NoMemory>
        requires live { is_live (machine self.old).config slot ≡ true }
        requires some { ∥ ((w : World) × Shows self.old w) ∥₁ }
        ensures shows { OnOk result ((w : World) → Shows self.old w → Shows self.new (turn w slot begins).world) }
        ensures event { OnOk result ((w : World) → Shows self.old w → event_of result ≡ (turn w slot begins).event) }
        ensures memory { OnErr result ((w : World) → Shows self.old w → Shows self.new w) }
        ensures room { KeepsRoom self.old self.new }
    {
        match &mut self.nodes[slot as usize] {
            Held::Node(node) => node.turn(&mut self.gate, &mut self.hints, begins),
            Held::Handed(_) => unreachable!(),
        }
    }
}
