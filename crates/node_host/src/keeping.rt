//! What is kept of an event that a node did, and what a gate says of the node at a seat.

ghost use Rattle.std.specs.Prelude.{◌≡◌, ◌++◌, ◌∷◌, [], ◌<◌, ◌^◌, length, vec_capacity};
ghost use Rattle.quiesce_core.specs.NodeEvents.{as_event};
ghost use Rattle.node_gate.specs.Noting.{CanCount};
ghost use Rattle.node_gate.specs.Seats.{IsWithinLimits};
ghost use Rattle.quiesce_core.specs.Knowledge.{known_next};

use node_gate::{PortGate, note};
use quiesce_core::{Deed, Known, NodeEvent};

/// Puts an event at the end of a log that has room for it, and into what is known. It is answered too.
#[inline(always)]
pub(crate) fn keep(
    log: &mut Vec<NodeEvent>,
    known: &mut Known,
    first_port: u32,
    done: Deed,
) -> NodeEvent
    requires room { length log.old.items < vec_capacity log.old }
    requires small { first_port < 2 ^ 31 }
    requires count { CanCount known.old.service (as_event done) }
    ensures event { result ≡ as_event done }
    ensures logged { log.new.items ≡ log.old.items ++ result ∷ [] }
    ensures known { known.new ≡ known_next first_port known.old result }
{
    let event = NodeEvent::of(done);
    note(known, first_port, &event.event());
    log.push_reserved(event);
    event
}

/// A seat that fits is one of a slot and of ports as one run has them.
#[tactic(auto, using(crate::proofs::Growing::limits_of, crate::proofs::Growing::slot_of))]
pub fn seats_have_places<G: PortGate>(gate: &G, seat: &G::Seat)
    requires fits { G.fits gate.now seat.now }
    ensures limits { IsWithinLimits (G.node gate.now seat.now) }
    ensures slot { (G.node gate.now seat.now).slot ≡ G.Seat.slot_of seat.now }
{}
