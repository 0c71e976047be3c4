//! The seat of a node at the gates.

ghost use Rattle.std.specs.Prelude.{◌≡◌, ◌%◌, ◌^◌, ◌<◌, ◌≤◌, ◌+◌, length, slice_index_or, true, Some, None};
ghost use Rattle.config_graph.specs.Kinds.{row};
ghost use Rattle.config_graph.specs.declared.TheConstants.{MAX_NODES, MAX_PORTS};
ghost use Rattle.quiesce_core.specs.Knowledge as knowledge;
ghost use Rattle.node_gate.specs.Seats.{serial_served, value_seen};
ghost use Rattle.txn_spec.specs.Steps.{IsNode, value_served};
ghost use Rattle.txn_spec.specs.Views.{node_of};
ghost use Rattle.txn_gate.specs.Calls.{is_served_within};
ghost use Rattle.txn_gate.specs.Told.{loads_of};

use crate::steps::AnySeat;
use config_graph::VALUE_LIMIT;
use node_gate::GateSeat;
use quiesce_core::{Known, PortKnown};

/// A node's seat: its steps at the gates are its node's events. Contracts see all that it knows of its node
/// (`node_in`): slot, kind, argument, first port, source, what the node knows of itself, and its events in order.
#[derive(Drop)]
pub struct NodeSeat {
    pub slot: u32,
    pub first_port: u32,
    pub known: Known,
    pub seat: AnySeat,
    pub ghost is_node: { IsNode seat.me },
    pub ghost slot_is: { (node_of seat.me.0).slot ≡ slot },
    pub ghost first_is: { (node_of seat.me.0).made.first_port ≡ first_port },
    pub ghost known_is: { (node_of seat.me.0).known ≡ known },
    pub ghost slot_within: { slot < MAX_NODES },
    pub ghost served_within: { is_served_within known ≡ true },
    pub ghost ports_within: { first_port + length (row (node_of seat.me.0).made.kind).requires_ ≤ MAX_PORTS },
}

impl NodeSeat {
    pub fn slot(&self) -> u32
        ensures { result ≡ (node_of self.now.seat.me.0).slot }
    {
        self.slot
    }

    pub fn first_port(&self) -> u32
        ensures { result ≡ (node_of self.now.seat.me.0).made.first_port }
    {
        self.first_port
    }

    /// The serial of the transaction that the node services, 0 where it services none.
    pub(crate) fn serial_served(&self) -> u32
        ensures { result ≡ serial_served self.now.known }
    {
        match self.known.service {
            Some(served) => served.serial,
            None => 0,
        }
    }

    /// The value of the last message there, 0 where it services none. A value has 24 bits: the rule of the gates says
    /// so of each that a seat knows, and the remainder tells it here.
    pub(crate) fn value_served(&self) -> u32
        ensures value { result ≡ value_served self.now.known % 2 ^ 24 }
        ensures small { result < 2 ^ 24 }
    {
        match self.known.service {
            Some(served) => served.value % VALUE_LIMIT,
            None => 0,
        }
    }
}

impl GateSeat for NodeSeat {
    ghost slot_of = { λ s. s.slot };

    ghost known = { λ s. s.known };

    ghost tells = { λ s. Some (node_of s.seat.me.0).log };

    ghost loads = { λ s. Some (loads_of (node_of s.seat.me.0).loads) };

    fn slot(&self) -> u32 {
        self.slot
    }
}

/// What is known of the port of this requirement.
pub(crate) fn port_known(known: Known, require: u32) -> PortKnown
    requires { require < 2 }
    ensures { result ≡ slice_index_or known.ports require knowledge.port_at_start }
{
    known.ports[require as usize]
}

/// The value that was seen at a port, 0 where none was.
pub(crate) fn seen_or_0(port: PortKnown) -> u32
    ensures { result ≡ value_seen port }
{
    match port.seen {
        Some(value) => value,
        None => 0,
    }
}
