//! How a table is made, and nodes in it.

ghost use Rattle.std.specs.Prelude.{◌≡◌, ◌+◌, ◌<◌, ◌≤◌, ◌++◌, ◌∷◌, [], None, Some, true, IfOk, length, slice_get, slice_set};
ghost use Rattle.quiesce_core.specs.declared.event.Event.TheVariants as event;
ghost use Rattle.node_turn_laws.specs.World.{nowhere};
ghost use Rattle.step_board.specs.Rooms.{has_past_room};
ghost use Rattle.step_board.specs.Seen.{is_node, first_slot};
ghost use Rattle.step_board.specs.Table.{MayShowMade, ShowsMade, TableHasRoom, Shows, sources, spare};
ghost use Rattle.step_board.specs.declared.held.Held.TheVariants as held;

use crate::handed::Handed;
use crate::held::Held;
use crate::making::{host_first, host_from};
use crate::table::NodeTable;
use config_graph::{NoMemory, Node};
use node_gate::{CoreGate, CoreSeat};
use node_host::HostNode;
use port_queue::PlainHints;
use quiesce_core::Core;
use state_handover::AnyNode;
use std::alloc::Global;
use std::mem;

/// The slot of the first node of a node's line.
fn first_of_line(node: &HostNode<AnyNode, CoreSeat>) -> u32
    ensures { result ≡ first_slot (held.Node node.now) }
{
    match node.past.first() {
        Some(first) => first.slot,
        None => node.slot,
    }
}

impl NodeTable {
    /// Nothing is made.
    pub fn new(alloc: Global) -> Result<NodeTable, NoMemory>
        ensures shows { IfOk result (λ t. Shows t nowhere) }
    {
        let hints = PlainHints::new(alloc)?;
        Ok(NodeTable {
            alloc,
            gate: CoreGate::new(Core::empty(alloc)),
            hints,
            nodes: Vec::new(alloc),
            line_ends: Vec::new(alloc),
            spare: 0,
            sources: 0,
        })
    }

    /// Puts a node in the next slot, at the end of its line.
    fn add(&mut self, line: u32, host: HostNode<AnyNode, CoreSeat>)
        requires spare { 0 < self.old.spare }
        requires line { line ≤ length self.old.line_ends.items }
        ensures nodes { self.new.nodes.items ≡ self.old.nodes.items ++ held.Node host ∷ [] }
        ensures ends { self.new.line_ends.items ≡ slice_set (self.old.line_ends.items ++ host.slot ∷ [])
            line host.slot }
        ensures others { (self.new.gate ≡ self.old.gate) × (self.new.hints ≡ self.old.hints)
            × (self.new.sources ≡ self.old.sources) }
        ensures spare { self.new.spare + 1 ≡ self.old.spare }
    {
        self.line_ends.push_reserved(host.slot);
        self.line_ends[line as usize] = host.slot;
        self.nodes.push_reserved(Held::Node(host));
        self.spare -= 1;
    }

    /// Takes the node out of a slot, whose log lies behind that of its heir from now on.
    fn take_out(&mut self, slot: u32) -> HostNode<AnyNode, CoreSeat>
        requires node { is_node (slice_get self.old.nodes.items slot) ≡ true }
        requires source { slot < self.old.sources }
        ensures was { slice_get self.old.nodes.items slot ≡ Some (held.Node result) }
        ensures nodes { self.new.nodes.items ≡ slice_set self.old.nodes.items slot (held.Handed
            (record { line = first_slot (held.Node result); place = length result.past.items })) }
        ensures others { (self.new.gate ≡ self.old.gate) × (self.new.hints ≡ self.old.hints)
            × (self.new.line_ends ≡ self.old.line_ends) × (self.new.sources ≡ self.old.sources)
            × (self.new.spare ≡ self.old.spare) }
        ensures room { has_past_room (held.Node result) ≡ true }
    {
        let (line, place) = match &self.nodes[slot as usize] {
            Held::Node(node) => (first_of_line(node), node.past.len()),
            Held::Handed(_) => unreachable!(),
        };
        let handed = Held::Handed(Handed { line, place });
        match mem::replace(&mut self.nodes[slot as usize], handed) {
            Held::Node(node) => node,
            Held::Handed(_) => unreachable!(),
        }
    }

    /// Makes the first node of a line.
    fn make_first(&mut self, node: Node)
        requires allowed { MayShowMade self.old node None }
        requires room { 0 < spare self.old }
        ensures shows { ShowsMade self.old self.new node None }
        ensures room { (spare self.new + 1 ≡ spare self.old) × (sources self.new ≡ sources self.old) }
    {
        let made = self.gate.core.made();
        let host = host_first(self.alloc, made.nodes, made.ports, node.kind, node.arg);
        self.gate.core.make(node, None);
        self.add(made.nodes, host);
    }

    /// Makes a node that takes over the state of the one in a slot.
    fn make_from(&mut self, node: Node, source: u32)
        requires allowed { MayShowMade self.old node (Some source) }
        requires room { (0 < spare self.old) × (source < sources self.old) }
        ensures shows { ShowsMade self.old self.new node (Some source) }
        ensures room { (spare self.new + 1 ≡ spare self.old) × (sources self.new ≡ sources self.old) }
    {
        let made = self.gate.core.made();
        let old = self.take_out(source);
        let line = first_of_line(&old);
        let host = host_from(self.alloc, old, made.nodes, made.ports, node.arg);
        self.gate.core.make(node, Some(source));
        self.add(line, host);
    }

    /// Makes a node in the next slot, which takes over the state of the one in slot `from` where there is one. It
    /// takes no memory.
    pub fn make(&mut self, node: Node, from: Option<u32>)
        requires allowed { MayShowMade self.old node from }
        requires room { TableHasRoom self.old from }
        ensures shows { ShowsMade self.old self.new node from }
        ensures room { (spare self.new + 1 ≡ spare self.old) × (sources self.new ≡ sources self.old) }
    {
        match from {
            Some(source) => self.make_from(node, source),
            None => self.make_first(node),
        }
    }
}
