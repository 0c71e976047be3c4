//! Room for what is made, by the limits of one run.

ghost use Rattle.std.specs.Prelude.{◌≡◌, ◌<◌, ◌^◌, All, Err, IfErr, IsOk, OnOk, length, sum_by};
ghost use Rattle.config_graph.specs.Graph.{requires_at};
ghost use Rattle.change_plan.specs.Room.{HasRoom, HasRoomFor, LacksRoomFor, RoomFault};
ghost use Rattle.change_plan.specs.declared.error.PlanError.{PlanError};

use crate::PlanError;
use config_graph::{Graph, MAX_NODES, MAX_PORTS, Made};

/// Tests whether all nodes and ports of a graph can be made after those that were made. A refusal is `NodesFull`, or
/// else `PortsFull`, and says how many were made and how many the graph has.
pub fn require_room(graph: &Graph, made: Made) -> Result<(), PlanError>
    ensures accepted { OnOk result (HasRoomFor made graph.now) }
    ensures accepts { HasRoomFor made graph.now → IsOk result }
    ensures refused { IfErr result (LacksRoomFor made graph.now) }
    ensures refuses { (e : PlanError) → LacksRoomFor made graph.now e → result ≡ Err e }
{
    require_room_for(graph.node_count(), graph.port_count(), made)
}

/// Tests whether these nodes of a graph can be created after those that were made.
pub(crate) fn require_room_to_create(
    new: &Graph,
    create: &[u32],
    made: Made,
) -> Result<(), PlanError>
    requires within { All (λ i. i < length new.now.nodes) create.now }
    requires few_nodes { length create.now < 2 ^ 32 }
    requires few_ports { sum_by (requires_at new.now.nodes) create.now < 2 ^ 32 }
    ensures room { OnOk result (HasRoom made (length create.now) (sum_by (requires_at new.now.nodes) create.now)) }
    ensures refused { IfErr result
        (RoomFault made (length create.now) (sum_by (requires_at new.now.nodes) create.now)) }
{
    let nodes = create.len() as u32;
    require_room_for(nodes, count_ports(new, create), made)
}

/// Tests whether so many nodes and ports can be made after those that were made.
fn require_room_for(nodes: u32, ports: u32, made: Made) -> Result<(), PlanError>
    ensures room { OnOk result (HasRoom made nodes ports) }
    ensures refused { IfErr result (RoomFault made nodes ports) }
{
    if u64::from(made.nodes) + u64::from(nodes) > u64::from(MAX_NODES) {
        return Err(PlanError::NodesFull {
            made: made.nodes,
            wanted: nodes,
        });
    }
    if u64::from(made.ports) + u64::from(ports) > u64::from(MAX_PORTS) {
        return Err(PlanError::PortsFull {
            made: made.ports,
            wanted: ports,
        });
    }
    Ok(())
}

/// How many ports these nodes have.
fn count_ports(graph: &Graph, nodes: &[u32]) -> u32
    requires within { All (λ i. i < length graph.now.nodes) nodes.now }
    requires few { sum_by (requires_at graph.now.nodes) nodes.now < 2 ^ 32 }
    ensures { result ≡ sum_by (requires_at graph.now.nodes) nodes.now }
{
    let mut ports = 0;
    for node in nodes {
        ports += graph.node(*node).kind.requires_();
    }
    ports
}
