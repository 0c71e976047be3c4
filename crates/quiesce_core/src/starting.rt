//! The tables of a system as it starts.

ghost use Rattle.std.specs.Prelude.{◌≡◌, ◌≤◌, length, map, IfOk};
ghost use Rattle.std.specs.List.{enumerate_from};
ghost use Rattle.config_graph.specs.Graph.{ports};
ghost use Rattle.config_graph.specs.declared.TheConstants.{MAX_PORTS};
ghost use Rattle.quiesce_core.specs.Start as start;
ghost use Rattle.quiesce_core.specs.Tables.{state_of};

use crate::links::Links;
use crate::state::{Gate, Slot};
use crate::tables::{FRESH_EXCHANGE, Tables};
use config_graph::{Graph, NoMemory, Node};
use std::alloc::Global;

fn list_slots(alloc: Global, nodes: &[Node]) -> Result<Vec<Slot>, NoMemory>
    requires { length (ports nodes.now) ≤ MAX_PORTS }
    ensures { IfOk result (λ v. v.items ≡ map (start.slot_of nodes.now) (enumerate_from 0 nodes.now)) }
{
    let mut slots = Vec::with_capacity(alloc, nodes.len())?;
    let mut first_port = 0u32;
    for node in nodes {
        let requires_ = node.kind.requires_();
        let slot = Slot {
            node: node.try_clone()?,
            first_port,
            from: None,
            live: true,
        };
        slots.push(slot)?;
        first_port += requires_;
    }
    Ok(slots)
}

fn list_gates(alloc: Global, graph: &Graph) -> Result<Vec<Gate>, NoMemory>
    ensures { IfOk result (λ v. v.items ≡ map (start.gate_of graph.now) (ports graph.now.nodes)) }
{
    let mut gates = Vec::with_capacity(alloc, graph.port_count() as usize)?;
    for number in 0..graph.port_count() {
        let port = graph.port(number);
        let gate = Gate {
            owner: port.node,
            require: port.require,
            closed: false,
            target: graph.target(port.node, port.require),
        };
        gates.push(gate)?;
    }
    Ok(gates)
}

impl Tables {
    /// The tables of a system that was started as the graph says.
    pub fn of(alloc: Global, graph: &Graph) -> Result<Tables, NoMemory>
        requires { length (ports graph.now.nodes) ≤ MAX_PORTS }
        ensures { IfOk result (λ t. state_of t ≡ start.started graph.now) }
    {
        let slots = list_slots(alloc, graph.nodes())?;
        let services = vec![in alloc; None; graph.nodes().len()]?;
        let gates = list_gates(alloc, graph)?;
        let exchanges = vec![in alloc; FRESH_EXCHANGE; graph.port_count() as usize]?;
        Ok(Tables {
            links: Links { slots, gates },
            services,
            exchanges,
        })
    }
}
