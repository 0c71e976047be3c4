//! A node's turn at the gates.

ghost use Rattle.std.specs.Prelude.{◌≡◌};
ghost use Rattle.live_hall.specs.Turned.{HintsTold, IsSeatedAt, Turned};
ghost use Rattle.txn_gate.specs.Seats.{node_in};

use component_trait::Component;
use config_graph::NoMemory;
use node_host::{HostNode, Turn};
use port_queue::Hints;
use std::marker::Brand;
use txn_gate::{Gates, Makes, NodeSeat, TableGate};

/// A node's turn at the gates. It is `turn` there and nothing else: at most one event, by the fold of the node's
/// state, and where a move wasn't made, the words that the seat loaded in this turn and the counts of the hints show
/// why.
pub fn turn_at_gates<C: Component + Drop, H: Hints>(
    node: &mut HostNode<C, NodeSeat>,
    gates: &Gates,
    hints: &mut H,
    begins: bool,
) -> Result<Turn, NoMemory>
    requires seated { IsSeatedAt gates.now node.old }
    ensures turned { Turned begins result node.old node.new }
    ensures hints { HintsTold H.Hints result node.old node.new hints.old hints.new }
{
    turn_as::<Brand, C, H>(node, gates, hints, begins)
}

/// The same, where `M` names what the node's seat says of its slot's word.
fn turn_as<M: Makes, C: Component + Drop, H: Hints>(
    node: &mut HostNode<C, NodeSeat>,
    gates: &Gates,
    hints: &mut H,
    begins: bool,
) -> Result<Turn, NoMemory>
    requires made { (node_in node.old.seat).made ≡ M.made }
    requires seated { IsSeatedAt gates.now node.old }
    ensures turned { Turned begins result node.old node.new }
    ensures hints { HintsTold H.Hints result node.old node.new hints.old hints.new }
{
    let mut gate = TableGate::<M>::new(gates);
    node.turn(&mut gate, hints, begins)
}
