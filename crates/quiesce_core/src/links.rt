//! The nodes made and the gates of their ports, in tables: what the change decides.

ghost use Rattle.std.specs.Prelude.{◌≡◌, ◌+◌, ◌<◌, ◌≤◌, ◌++◌, length, option_map, true, vec_capacity, IfOk};
ghost use Rattle.config_graph.specs.Kinds.{row};
ghost use Rattle.config_graph.specs.declared.TheConstants.{MAX_NODES, MAX_PORTS};
ghost use Rattle.quiesce_core.specs.Effect as effect;
ghost use Rattle.quiesce_core.specs.Links.{HasRoomForAll, KeepsCapacity, config_in};
ghost use Rattle.quiesce_core.specs.State as state;

use crate::state::{Gate, Slot};
use config_graph::{Kind, MAX_NODES, MAX_PORTS, NoMemory, Node, Target};
use std::alloc::Global;

/// What a port that was never made looks like.
const FRESH_GATE: Gate = Gate {
    owner: 0,
    require: 0,
    closed: true,
    target: None,
};

/// Of each slot the node made there, of each port made its gate.
#[derive(Drop)]
pub struct Links {
    pub slots: Vec<Slot>,
    pub gates: Vec<Gate>,
}

/// Adds the gates of a new node. They have their room.
fn push_gates(gates: &mut Vec<Gate>, owner: u32, requires_: u32)
    requires { length gates.old.items + requires_ ≤ vec_capacity gates.old }
    ensures items { gates.new.items ≡ gates.old.items ++ effect.new_gates owner requires_ }
    ensures room { vec_capacity gates.old ≤ vec_capacity gates.new }
{
    for require in 0..requires_ {
        let gate = Gate {
            owner,
            require,
            ..FRESH_GATE
        };
        let _ = gates.push(gate);
    }
}

impl Links {
    /// Nothing is made. It takes no memory.
    pub fn new(alloc: Global) -> Links
        ensures { config_in result ≡ state.empty.config }
    {
        Links {
            slots: Vec::new(alloc),
            gates: Vec::new(alloc),
        }
    }

    /// Nothing is made, and there is room for all that can be made.
    pub fn with_room(alloc: Global) -> Result<Links, NoMemory>
        ensures config { IfOk result (λ t. config_in t ≡ state.empty.config) }
        ensures room { IfOk result HasRoomForAll }
    {
        let slots = Vec::with_capacity(alloc, MAX_NODES as usize)?;
        let gates = Vec::with_capacity(alloc, MAX_PORTS as usize)?;
        Ok(Links { slots, gates })
    }

    pub fn slot(&self, node: u32) -> Option<&Slot>
        ensures { option_map (λ m. m.now) result ≡ state.slot (config_in self.now) node }
    {
        self.slots.get(node as usize)
    }

    pub fn is_live(&self, node: u32) -> bool
        ensures { result ≡ state.is_live (config_in self.now) node }
    {
        match self.slots.get(node as usize) {
            Some(slot) => slot.live,
            None => false,
        }
    }

    pub fn kind(&self, node: u32) -> Option<Kind>
        ensures { result ≡ option_map (λ m. m.node.kind) (state.slot (config_in self.now) node) }
    {
        self.slots.get(node as usize).map(|slot| slot.node.kind)
    }

    pub fn gate(&self, port: u32) -> Gate
        ensures { result ≡ state.gate (config_in self.now) port }
    {
        self.gates.get(port as usize).copied().unwrap_or(FRESH_GATE)
    }

    /// The node is in the next slot, and its ports follow those made before. There is room for it.
    pub fn add(&mut self, node: Node, from: Option<u32>)
        requires nodes { length self.old.slots.items < MAX_NODES }
        requires ports { length self.old.gates.items + length (row node.kind).requires_ ≤ MAX_PORTS }
        requires slots { length self.old.slots.items < vec_capacity self.old.slots }
        requires gates { length self.old.gates.items + length (row node.kind).requires_ ≤ vec_capacity self.old.gates }
        ensures config { config_in self.new ≡ effect.with_node (config_in self.old) node from }
        ensures room { KeepsCapacity self.old self.new }
    {
        let owner = self.slots.len() as u32;
        let requires_ = node.kind.requires_();
        let slot = Slot {
            node,
            first_port: self.gates.len() as u32,
            from,
            live: true,
        };
        let _ = self.slots.push(slot);
        push_gates(&mut self.gates, owner, requires_);
    }

    pub fn set_closed(&mut self, port: u32, closed: bool)
        requires { port < length self.old.gates.items }
        ensures config { config_in self.new ≡ effect.with_closed (config_in self.old) port closed }
        ensures room { KeepsCapacity self.old self.new }
    {
        let gate = Gate {
            closed,
            ..self.gate(port)
        };
        self.gates[port as usize] = gate;
    }

    pub fn set_target(&mut self, port: u32, target: Option<Target>)
        requires { port < length self.old.gates.items }
        ensures config { config_in self.new ≡ effect.with_target (config_in self.old) port target }
        ensures room { KeepsCapacity self.old self.new }
    {
        let gate = Gate {
            target,
            ..self.gate(port)
        };
        self.gates[port as usize] = gate;
    }

    pub fn remove(&mut self, node: u32)
        requires { state.is_live (config_in self.old) node ≡ true }
        ensures config { config_in self.new ≡ effect.with_removed (config_in self.old) node }
        ensures room { KeepsCapacity self.old self.new }
    {
        self.slots[node as usize].live = false;
    }
}
