//! The nodes that have to be passive for a change, directly or through dependent transactions.

ghost use Rattle.std.specs.Prelude.{◌≡◌, ◌<◌, ◌⊎◌, ◌↔◌, ℕ, length, All, Contains, IfOk, OnOk};
ghost use Rattle.std.specs.List.Sorted.{IsStrictlyIncreasing};
ghost use Rattle.config_graph.specs.Graph.{IsGraph, incoming_ports, ports, provides_at, requires_at};
ghost use Rattle.config_graph.specs.Enlarged.{Enlarged};
ghost use Rattle.passive_set.specs.DirectSet.{Direct};
ghost use Rattle.config_graph.specs.Marks.{IsMarked};
ghost use Rattle.passive_set.specs.Ports.{Adds};
ghost use Rattle.passive_set.specs.Feeding.{Closure, FeedsMarked, FeedsNode, FeedsPort, Owns};

use crate::marks::{list_marked, mark_nodes};
use crate::port_set::PortSet;
use config_graph::{Graph, NoMemory, Port};
use std::alloc::Global;

/// These nodes and each node that is linked to one of them, in rising order.
pub fn direct(alloc: Global, graph: &Graph, nodes: &[u32]) -> Result<Vec<u32>, NoMemory>
    requires { All (λ n. n < length graph.now.nodes) nodes.now }
    ensures members { IfOk result
        (λ set. (i : ℕ) → Contains set.items i ↔ Direct graph.now (Contains nodes.now) i) }
    ensures rising { IfOk result (λ set. IsStrictlyIncreasing set.items) }
    ensures within { IfOk result (λ set. All (λ i. i < length graph.now.nodes) set.items) }
{
    let marks = mark_nodes(alloc, graph.node_count(), nodes)?;
    let ports = list_linked(alloc, graph, &marks)?;
    let marks = with_owners(graph, &ports, marks);
    list_marked(alloc, &marks)
}

/// These nodes and the owner of each port that reaches one of them, in rising order.
///
/// Time grows with the number of nodes and ports: each port is looked at once.
pub fn enlarged(alloc: Global, graph: &Graph, nodes: &[u32]) -> Result<Vec<u32>, NoMemory>
    requires { All (λ n. n < length graph.now.nodes) nodes.now }
    ensures members { IfOk result
        (λ set. (i : ℕ) → Contains set.items i ↔ Enlarged graph.now (Contains nodes.now) i) }
    ensures rising { IfOk result (λ set. IsStrictlyIncreasing set.items) }
    ensures within { IfOk result (λ set. All (λ i. i < length graph.now.nodes) set.items) }
{
    let marks = mark_nodes(alloc, graph.node_count(), nodes)?;
    let mut ports = list_linked(alloc, graph, &marks)?;
    add_dependent(graph, &mut ports)?;
    let marks = with_owners(graph, &ports, marks);
    list_marked(alloc, &marks)
}

/// The ports that are linked to a marked node.
fn list_linked(alloc: Global, graph: &Graph, marks: &[bool]) -> Result<PortSet, NoMemory>
    requires graph { IsGraph graph.now }
    requires marks { length marks.now ≡ length graph.now.nodes }
    ensures room { IfOk result (λ set. set.room ≡ length (ports graph.now.nodes)) }
    ensures linked { IfOk result
        (λ set. (p : ℕ) → Contains set.ports p ↔ FeedsMarked graph.now marks.now (length marks.now) p) }
{
    let mut set = PortSet::new(alloc, graph.port_count())?;
    for (node, is_marked) in marks.iter().enumerate() {
        if *is_marked {
            add_linked(graph, node as u32, &mut set)?;
        }
    }
    Ok(set)
}

/// Adds the ports that are linked to a node.
fn add_linked(graph: &Graph, node: u32, set: &mut PortSet) -> Result<(), NoMemory>
    requires graph { IsGraph graph.now }
    requires node { node < length graph.now.nodes }
    requires room { set.old.room ≡ length (ports graph.now.nodes) }
    ensures room { OnOk result (set.new.room ≡ set.old.room) }
    ensures added { OnOk result
        (Adds set.old.ports set.new.ports (FeedsNode graph.now node (provides_at graph.now.nodes node))) }
{
    for provide in 0..graph.node(node).kind.provides() {
        add_incoming(graph, node, provide, set)?;
    }
    Ok(())
}

/// Adds the ports that are linked to a provision.
fn add_incoming(graph: &Graph, node: u32, provide: u32, set: &mut PortSet) -> Result<(), NoMemory>
    requires graph { IsGraph graph.now }
    requires provision { provide < provides_at graph.now.nodes node }
    requires room { set.old.room ≡ length (ports graph.now.nodes) }
    ensures room { OnOk result (set.new.room ≡ set.old.room) }
    ensures added { OnOk result
        (Adds set.old.ports set.new.ports (Contains (incoming_ports graph.now node provide))) }
{
    for port in graph.incoming(node, provide) {
        set.add(*port)?;
    }
    Ok(())
}

/// Adds the ports whose transactions may lead to one of a port here: again and again, those that are linked to a
/// provision that depends on a port of the set, until there are no more.
fn add_dependent(graph: &Graph, set: &mut PortSet) -> Result<(), NoMemory>
    requires graph { IsGraph graph.now }
    requires room { set.old.room ≡ length (ports graph.now.nodes) }
    ensures room { OnOk result (set.new.room ≡ set.old.room) }
    ensures closure { OnOk result
        ((p : ℕ) → Contains set.new.ports p ↔ Closure graph.now set.old.ports p) }
{
    let mut next = 0;
    while let Some(port) = set.get(next) {
        add_feeding(graph, graph.port(port), set)?;
        next += 1;
    }
    Ok(())
}

/// Adds the ports that are linked to a provision that depends on this port.
fn add_feeding(graph: &Graph, port: Port, set: &mut PortSet) -> Result<(), NoMemory>
    requires graph { IsGraph graph.now }
    requires port { port.require < requires_at graph.now.nodes port.node }
    requires room { set.old.room ≡ length (ports graph.now.nodes) }
    ensures room { OnOk result (set.new.room ≡ set.old.room) }
    ensures added { OnOk result
        (Adds set.old.ports set.new.ports
        (FeedsPort graph.now port.node port.require (provides_at graph.now.nodes port.node))) }
{
    let kind = graph.node(port.node).kind;
    for provide in 0..kind.provides() {
        if kind.depends(provide, port.require) {
            add_incoming(graph, port.node, provide, set)?;
        }
    }
    Ok(())
}

/// These marks, with those of the nodes that own a port of the set.
fn with_owners(graph: &Graph, set: &PortSet, mut marks: Vec<bool>) -> Vec<bool>
    requires room { set.now.room ≡ length (ports graph.now.nodes) }
    requires marks { length marks.items ≡ length graph.now.nodes }
    ensures length { length result.items ≡ length graph.now.nodes }
    ensures marked { (i : ℕ) → IsMarked result.items i ↔ (IsMarked marks.items i ⊎ Owns graph.now set.now.ports i) }
{
    for port in set.ports() {
        marks[graph.port(*port).node as usize] = true;
    }
    marks
}
