//! Guests are made: the first of a line, and one that takes over from another.

ghost use Rattle.std.specs.Prelude.{◌≡◌, ◌<◌, ◌++◌, ◌∷◌, [], None, Some, length, map, vec_capacity};
ghost use Rattle.std.specs.Option.{option_map_or};
ghost use Rattle.component_trait.specs.States.{argument};
ghost use Rattle.config_graph.specs.declared.node.Node.{Node as NodeFields};
ghost use Rattle.node_gate.specs.Seats.{IsWithinLimits};
ghost use Rattle.state_handover.specs.Making.{FitsKind};
ghost use Rattle.txn_gate.specs.Calls.{made_node};
ghost use Rattle.txn_gate.specs.Seats.{node_in, table_of_node};

use crate::guest::Guest;
use component_trait::Component;
use config_graph::Kind;
use node_host::{HostNode, Past};
use state_handover::{AnyNode, import, make};
use std::alloc::Global;
use txn_gate::NodeSeat;

impl Guest {
    /// The node whose seat was just given out: it has done nothing, and is the first of its line.
    pub fn first(
        alloc: Global,
        slot: u32,
        first_port: u32,
        kind: Kind,
        arg: Option<u32>,
        seat: NodeSeat,
    ) -> Guest
        requires fits { FitsKind kind arg }
        requires limits { IsWithinLimits (record { slot = slot; kind = kind; first = first_port }) }
        requires seat { (node : NodeFields) × (node_in seat ≡ made_node slot first_port node None)
            × (node.kind ≡ kind) × (node.arg ≡ arg) }
        ensures place { (result.node.slot ≡ slot) × (result.node.first_port ≡ first_port) }
        ensures seat { result.node.seat ≡ seat }
        ensures log { result.node.log.items ≡ [] }
        ensures past { result.node.past.items ≡ [] }
    {
        let inner = make(alloc, kind, arg);
        Guest {
            node: HostNode::host(alloc, slot, first_port, inner, seat, Vec::new(alloc)),
        }
    }

    /// The node whose seat was just given out, which takes over the state and the line of another of its kind, with an
    /// argument of its own. Its past lies in this list, which is empty and has room for that of the other and for one
    /// more.
    pub fn handed(
        alloc: Global,
        old: Guest,
        list: Vec<Past<NodeSeat>>,
        slot: u32,
        first_port: u32,
        arg: Option<u32>,
        seat: NodeSeat,
    ) -> Guest
        requires rests { (⟦<AnyNode as Component>⟧.state old.node.inner).service ≡ None }
        requires old_arg { option_map_or (λ a. a) (argument (⟦<AnyNode as Component>⟧.state old.node.inner))
            0 ≡ (⟦<AnyNode as Component>⟧.state old.node.inner).arg }
        requires fits { FitsKind (⟦<AnyNode as Component>⟧.state old.node.inner).kind arg }
        requires limits { IsWithinLimits
            (record { slot = slot; kind = (⟦<AnyNode as Component>⟧.state old.node.inner).kind; first = first_port }) }
        requires empty { list.items ≡ [] }
        requires room { length old.node.past.items < vec_capacity list }
        requires seat { (node : NodeFields) × (node_in seat ≡ made_node slot first_port node (Some old.node.slot))
            × (node.kind ≡ (⟦<AnyNode as Component>⟧.state old.node.inner).kind) × (node.arg ≡ arg) }
        ensures place { (result.node.slot ≡ slot) × (result.node.first_port ≡ first_port) }
        ensures seat { result.node.seat ≡ seat }
        ensures log { result.node.log.items ≡ [] }
        ensures past { map (λ p. table_of_node p.seat) result.node.past.items
            ≡ map (λ p. table_of_node p.seat) old.node.past.items ++ table_of_node old.node.seat ∷ [] }
    {
        let old_slot = old.node.slot;
        let old_first = old.node.first_port;
        let old_arg = old.node.inner.arg().unwrap_or(0);
        let Guest { node } = old;
        let (inner, theirs, log, before) = node.into_parts();
        let mut past = joined(list, before);
        past.push_reserved(Past {
            slot: old_slot,
            first_port: old_first,
            arg: old_arg,
            seat: theirs,
            log,
        });
        Guest {
            node: HostNode::host(alloc, slot, first_port, import(inner, arg), seat, past),
        }
    }
}

/// These, in a list that was empty and has room for one more.
fn joined(list: Vec<Past<NodeSeat>>, past: Vec<Past<NodeSeat>>) -> Vec<Past<NodeSeat>>
    requires empty { list.items ≡ [] }
    requires room { length past.items < vec_capacity list }
    ensures items { result.items ≡ past.items }
    ensures room { length result.items < vec_capacity result }
{
    let mut list = list;
    let mut past = past;
    let _ = list.append(&mut past);
    list
}
