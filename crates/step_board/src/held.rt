//! What a table keeps of a slot.

use crate::handed::Handed;
use node_gate::CoreSeat;
use node_host::HostNode;
use state_handover::AnyNode;

/// What is kept of a node that was made.
#[derive(Drop)]
pub enum Held {
    /// The node, which is live, or was removed and is kept.
    Node(HostNode<AnyNode, CoreSeat>),
    Handed(Handed),
}
