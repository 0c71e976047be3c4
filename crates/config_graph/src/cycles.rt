//! Cycles of depended-on links.

ghost use Rattle.std.specs.Prelude.{◌≡◌, ◌+◌, ◌<◌, ◌≤◌, ◌↔◌, ℕ, ◌⊎◌, length, All, Contains, IfNone, IfOk, IfSome};
ghost use Rattle.std.specs.Prelude.{IsTrue, OnOk, Some, slice_get, false, not, option_map, option_to_list, replicate};
ghost use Rattle.std.specs.Prelude.{vec_len};
ghost use Rattle.std.specs.List.{list_any, range_with_len};
ghost use Rattle.std.specs.Option.{ForSome};
ghost use Rattle.config_graph.specs.Cycles.{FirstOnCycle, HasCycle, LeadsToUnmarked, OnCycle, leads_by, graph_wiring};
ghost use Rattle.config_graph.specs.Marks.{IsMarked};
ghost use Rattle.config_graph.specs.declared.node.Port.{Port};
ghost use Rattle.config_graph.specs.Wiring.{CallPath, HasNoCycle, MayCall};
ghost use Rattle.config_graph.specs.Graph.{Graph, ports as ports_of, requires_at};
ghost use Rattle.config_graph.specs.declared.node.Target.{Target};
ghost use Rattle.config_graph.specs.Search.{see_all, seen_of, successors};

use crate::{Graph, NoMemory, Target};
use std::alloc::Global;

/// The first node that is on a cycle, or `None` where no node is on one.
///
/// Where there is no cycle, time grows with the number of nodes and links alone. Where there is one, each node before
/// the first on a cycle from which a way leads to a cycle costs a search of its own; `has_cycle` says at once that there
/// is one.
pub fn first_on_cycle(alloc: Global, graph: &Graph) -> Result<Option<u32>, NoMemory>
    ensures found { IfOk result (λ node. IfSome node (FirstOnCycle graph.now)) }
    ensures absent { IfOk result (λ node. IfNone node (HasNoCycle (graph_wiring graph.now))) }
{
    let acyclic = list_acyclic(alloc, graph)?;
    for node in 0..graph.node_count() {
        if is_on_cycle(alloc, graph, &acyclic, node)? {
            return Ok(Some(node));
        }
    }
    Ok(None)
}

/// Whether a node is on a cycle. Time grows with the number of nodes and links alone.
pub fn has_cycle(alloc: Global, graph: &Graph) -> Result<bool, NoMemory>
    ensures { IfOk result (λ has. IsTrue has ↔ HasCycle graph.now) }
{
    let acyclic = list_acyclic(alloc, graph)?;
    Ok(has_unset(&acyclic))
}

/// Whether some bit isn't set.
fn has_unset(bits: &[bool]) -> bool
    ensures { result ≡ list_any not bits.now }
{
    bits.iter().any(|bit| !*bit)
}

/// The nodes that lead only to nodes of this list, as a bit for each node, taken in until there are no more. None of
/// them is on a cycle, and each other node leads to another that isn't of them, so that a walk among those comes back.
fn list_acyclic(alloc: Global, graph: &Graph) -> Result<Vec<bool>, NoMemory>
    ensures length { IfOk result (λ acyclic. vec_len acyclic ≡ length graph.now.nodes) }
    ensures acyclic { IfOk result (λ acyclic. (i : ℕ) → IsMarked acyclic.items i → ¬ OnCycle graph.now i) }
    ensures closed { IfOk result (λ acyclic. (i : ℕ) → i < length graph.now.nodes
        → IsMarked acyclic.items i ⊎ LeadsToUnmarked graph.now acyclic.items i) }
    ensures cycle { IfOk result (λ acyclic. (i : ℕ) → i < length graph.now.nodes → ¬ IsMarked acyclic.items i
        → HasCycle graph.now) }
{
    let count = graph.node_count();
    let mut acyclic = no_bits(alloc, count)?;
    let mut waiting = all_nodes(alloc, count)?;
    while let Some(node) = waiting.pop() {
        if !acyclic[node as usize] && leads_only_to(graph, &acyclic, node) {
            acyclic[node as usize] = true;
            push_predecessors(&mut waiting, graph, node)?;
        }
    }
    Ok(acyclic)
}

/// A bit for each node, none of them set.
fn no_bits(alloc: Global, count: u32) -> Result<Vec<bool>, NoMemory>
    ensures { IfOk result (λ bits. bits.items ≡ replicate count false) }
{
    vec![in alloc; false; count as usize]
}

/// The nodes below a count.
fn all_nodes(alloc: Global, count: u32) -> Result<Vec<u32>, NoMemory>
    ensures { IfOk result (λ nodes. nodes.items ≡ range_with_len 0 count) }
{
    let mut nodes = Vec::with_capacity(alloc, count as usize)?;
    for node in 0..count {
        nodes.push(node)?;
    }
    Ok(nodes)
}

/// Whether the node leads only to nodes whose bits are set.
fn leads_only_to(graph: &Graph, bits: &[bool], node: u32) -> bool
    requires bits { length bits.now ≡ length graph.now.nodes }
    requires node { node < length graph.now.nodes }
    ensures marked { IsTrue result → (j : ℕ) → MayCall (graph_wiring graph.now) node j → IsMarked bits.now j }
    ensures unmarked { ¬ IsTrue result → LeadsToUnmarked graph.now bits.now node }
{
    for require in 0..graph.node(node).kind.requires_() {
        if !is_set(bits, successor(graph, node, require)) {
            return false;
        }
    }
    true
}

/// Whether the bit of the node is set, if there is a node.
fn is_set(bits: &[bool], node: Option<u32>) -> bool
    requires { ForSome node (λ i. i < length bits.now) }
    ensures { IsTrue result ↔ IfSome node (IsMarked bits.now) }
{
    match node {
        Some(node) => bits[node as usize],
        None => true,
    }
}

/// Adds the nodes that may lead to this one: the owners of the ports that are linked to it.
fn push_predecessors(waiting: &mut Vec<u32>, graph: &Graph, node: u32) -> Result<(), NoMemory>
    requires { node < length graph.now.nodes }
    ensures nodes { OnOk result (All (λ i. i < length graph.now.nodes) waiting.old.items
        → All (λ i. i < length graph.now.nodes) waiting.new.items) }
    ensures count { OnOk result (vec_len waiting.new ≤ vec_len waiting.old + length graph.now.links) }
    ensures kept { OnOk result ((i : ℕ) → Contains waiting.old.items i → Contains waiting.new.items i) }
    ensures callers { OnOk result ((i : ℕ) → MayCall (graph_wiring graph.now) i node → Contains waiting.new.items i) }
{
    let nodes = graph.nodes();
    for provide in 0..nodes[node as usize].kind.provides() {
        push_owners(waiting, graph, graph.incoming(node, provide))?;
    }
    Ok(())
}

/// Adds the owners of these ports.
fn push_owners(waiting: &mut Vec<u32>, graph: &Graph, ports: &[u32]) -> Result<(), NoMemory>
    requires { All (λ port. port < length (ports_of graph.now.nodes)) ports.now }
    ensures nodes { OnOk result (All (λ i. i < length graph.now.nodes) waiting.old.items
        → All (λ i. i < length graph.now.nodes) waiting.new.items) }
    ensures count { OnOk result (vec_len waiting.new ≡ vec_len waiting.old + length ports.now) }
    ensures kept { OnOk result ((i : ℕ) → Contains waiting.old.items i → Contains waiting.new.items i) }
    ensures owners { OnOk result ((port : ℕ) (owner : Port) → Contains ports.now port
        → slice_get (ports_of graph.now.nodes) port ≡ Some owner → Contains waiting.new.items owner.node) }
{
    for port in ports {
        waiting.push(graph.port(*port).node)?;
    }
    Ok(())
}

/// Whether a way leads from the node back to it, which none does from one of the acyclic nodes.
fn is_on_cycle(alloc: Global, graph: &Graph, acyclic: &[bool], node: u32) -> Result<bool, NoMemory>
    requires node { node < length graph.now.nodes }
    requires length { length acyclic.now ≡ length graph.now.nodes }
    requires acyclic { (i : ℕ) → IsMarked acyclic.now i → ¬ OnCycle graph.now i }
    ensures { IfOk result (λ found. IsTrue found ↔ OnCycle graph.now node) }
{
    if acyclic[node as usize] {
        return Ok(false);
    }
    let seen = list_reached(alloc, graph, node)?;
    Ok(seen[node as usize])
}

/// The nodes to which ways lead from a node, as a bit for each node.
fn list_reached(alloc: Global, graph: &Graph, start: u32) -> Result<Vec<bool>, NoMemory>
    requires { start < length graph.now.nodes }
    ensures length { IfOk result (λ bits. vec_len bits ≡ length graph.now.nodes) }
    ensures reached { IfOk result (λ bits. (j : ℕ)
        → IsMarked bits.items j ↔ CallPath (graph_wiring graph.now) start j) }
{
    let mut bits = no_bits(alloc, graph.node_count())?;
    let mut reached = Vec::new(alloc);
    see_successors(graph, start, &mut bits, &mut reached)?;
    let mut next = 0;
    while next < reached.len() {
        see_successors(graph, reached[next], &mut bits, &mut reached)?;
        next += 1;
    }
    Ok(bits)
}

/// Sees each node to which this one leads.
fn see_successors(
    graph: &Graph,
    node: u32,
    bits: &mut Vec<bool>,
    reached: &mut Vec<u32>,
) -> Result<(), NoMemory>
    requires bits { vec_len bits.old ≡ length graph.now.nodes }
    requires node { node < length graph.now.nodes }
    ensures { OnOk result (seen_of bits.new.items reached.new.items
        ≡ see_all (successors graph.now node) (seen_of bits.old.items reached.old.items)) }
{
    for require in 0..graph.node(node).kind.requires_() {
        see_next(successor(graph, node, require), bits, reached)?;
    }
    Ok(())
}

/// Sees a node, if there is one: where it was not seen, its bit is set and it goes last in the list.
fn see_next(next: Option<u32>, bits: &mut Vec<bool>, reached: &mut Vec<u32>) -> Result<(), NoMemory>
    requires { ForSome next (λ node. node < vec_len bits.old) }
    ensures { OnOk result (seen_of bits.new.items reached.new.items
        ≡ see_all (option_to_list next) (seen_of bits.old.items reached.old.items)) }
{
    let Some(node) = next else {
        return Ok(());
    };
    if !bits[node as usize] {
        bits[node as usize] = true;
        reached.push(node)?;
    }
    Ok(())
}

/// The node to which a port leads, where it is depended on and linked.
fn successor(graph: &Graph, node: u32, require: u32) -> Option<u32>
    requires { require < requires_at graph.now.nodes node }
    ensures node { result ≡ leads_by graph.now node require }
    ensures within { IfSome result (λ next. next < length graph.now.nodes) }
{
    if graph.node(node).kind.is_depended_on(require) {
        target_node(graph.target(node, require))
    } else {
        None
    }
}

/// The node of a target.
fn target_node(target: Option<Target>) -> Option<u32>
    ensures { result ≡ option_map (λ (t : Target). t.node) target }
{
    target.map(|target| target.node)
}
