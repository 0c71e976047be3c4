//! How nodes come to be in the tables, and the memory for them.

ghost use Rattle.std.specs.Prelude.{◌≡◌, ℕ, ◌+◌, ◌<◌, ◌≤◌, ◌++◌, length, replicate, OnOk, vec_capacity};
ghost use Rattle.config_graph.specs.Kinds.{row};
ghost use Rattle.config_graph.specs.declared.TheConstants.{MAX_NODES, MAX_PORTS};
ghost use Rattle.quiesce_core.specs.State.{fresh_exchange};
ghost use Rattle.quiesce_core.specs.Effect as effect;
ghost use Rattle.quiesce_core.specs.Tables.{HasRoomToMake, KeepsRoom};
ghost use Rattle.quiesce_core.specs.WellFormed.{IsWellFormed};
ghost use Rattle.quiesce_core.specs.Tables.{state_of};
ghost use Rattle.quiesce_core.specs.declared.event.Event.TheVariants as event;

use crate::state::Exchange;
use crate::tables::{FRESH_EXCHANGE, Tables};
use config_graph::{NoMemory, Node};

/// No kind requires more services than this.
const MOST_REQUIRES: usize = 2;

/// Adds the exchanges of a new node. They have their room.
fn push_exchanges(exchanges: &mut Vec<Exchange>, requires_: u32)
    requires { length exchanges.old.items + requires_ ≤ vec_capacity exchanges.old }
    ensures items { exchanges.new.items ≡ exchanges.old.items ++ replicate requires_ fresh_exchange }
    ensures room { vec_capacity exchanges.old ≤ vec_capacity exchanges.new }
{
    for _ in 0..requires_ {
        let _ = exchanges.push(FRESH_EXCHANGE);
    }
}

impl Tables {
    /// Makes room for so many nodes.
    pub fn reserve(&mut self, nodes: usize) -> Result<(), NoMemory>
        requires { nodes ≤ MAX_NODES }
        ensures state { state_of self.new ≡ state_of self.old }
        ensures ok { OnOk result (HasRoomToMake self.new nodes) }
        ensures kept { KeepsRoom self.old self.new }
    {
        self.links.slots.reserve(nodes)?;
        self.services.reserve(nodes)?;
        self.links.gates.reserve(MOST_REQUIRES * nodes)?;
        self.exchanges.reserve(MOST_REQUIRES * nodes)?;
        Ok(())
    }

    /// The node is in the next slot, and its ports follow those made before. There is room for it.
    pub fn add(&mut self, node: Node, from: Option<u32>)
        requires well_formed { IsWellFormed (state_of self.old) }
        requires room { (spare : ℕ) × (0 < spare) × HasRoomToMake self.old spare }
        requires few { length self.old.links.slots.items < MAX_NODES }
        requires ports { length self.old.links.gates.items + length (row node.kind).requires_ ≤ MAX_PORTS }
        ensures state { state_of self.new ≡ effect.effect (state_of self.old)
            (event.Make (length self.old.links.slots.items) node from) }
        ensures room { (spare : ℕ) → HasRoomToMake self.old (spare + 1) → HasRoomToMake self.new spare }
    {
        let requires_ = node.kind.requires_();
        self.links.add(node, from);
        let _ = self.services.push(None);
        push_exchanges(&mut self.exchanges, requires_);
    }
}
