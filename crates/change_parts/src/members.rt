//! The nodes of two graphs, each once, in the order of their paths. Each has its place in that list as a number.

ghost use Rattle.std.specs.Prelude.{◌≡◌, ◌<◌, ◌^◌, ℕ, IfNone, IfOk, IfSome, Some, Contains, length, slice_get};
ghost use Rattle.std.specs.List.Sorted.{IsPermutation, IsSortedBy};
ghost use Rattle.config_graph.specs.Graph.{IsGraph};
ghost use Rattle.config_graph.specs.declared.node.Node.{Node};
ghost use Rattle.change_plan.specs.Selects.{Selects};
ghost use Rattle.change_parts.specs.Members.{AreMembers, AreNumbers, IsIndex, IsOnce, MarksNodes, path_below};

use config_graph::{Graph, NoMemory, Node};
use std::alloc::{AllocError, Global};
use std::cmp::Ordering;

/// The nodes of two graphs, each once, in the order of their paths. It is told of each place of a graph which number
/// its node has, and of each number whether its node stands in a graph.
#[derive(Drop)]
pub(crate) struct Members {
    pub nodes: Vec<Node>,
    pub of_old: Vec<u32>,
    pub of_new: Vec<u32>,
    pub in_old: Vec<bool>,
    pub in_new: Vec<bool>,
}

/// How many nodes there may be, so that their ports have numbers too.
const MAX_MEMBERS: usize = 1_073_741_824;

impl Members {
    /// The nodes of both graphs.
    pub(crate) fn of(alloc: Global, old: &Graph, new: &Graph) -> Result<Members, NoMemory>
        ensures index { IfOk result (IsIndex old.now new.now) }
        ensures few { IfOk result (λ m. length m.nodes.items < 2 ^ 31) }
    {
        let nodes = list_nodes(alloc, old, new)?;
        if nodes.len() > MAX_MEMBERS {
            return Err(AllocError);
        }
        index_nodes(alloc, old, new, nodes)
    }
}

/// These nodes with the numbers of the nodes of two graphs.
fn index_nodes(
    alloc: Global,
    old: &Graph,
    new: &Graph,
    nodes: Vec<Node>,
) -> Result<Members, NoMemory>
    requires graphs { IsGraph old.now × IsGraph new.now }
    requires members { AreMembers old.now new.now nodes.items }
    requires few { length nodes.items < 2 ^ 31 }
    ensures index { IfOk result (IsIndex old.now new.now) }
    ensures few { IfOk result (λ m. length m.nodes.items < 2 ^ 31) }
{
    let of_old = number_nodes(alloc, old, &nodes)?;
    let of_new = number_nodes(alloc, new, &nodes)?;
    let in_old = mark_nodes(alloc, old, &nodes)?;
    let in_new = mark_nodes(alloc, new, &nodes)?;
    Ok(Members {
        nodes,
        of_old,
        of_new,
        in_old,
        in_new,
    })
}

/// At which place of a graph a node stands.
pub(crate) fn place_of(graph: &Graph, node: &Node) -> Option<u32>
    ensures graph { IsGraph graph.now }
    ensures found { IfSome result (λ i. slice_get graph.now.nodes i ≡ Some node.now) }
    ensures missing { IfNone result (¬ Contains graph.now.nodes node.now) }
{
    let nodes = graph.nodes();
    let index = graph.index_of(node.path.as_bytes())?;
    let is_same = nodes[index as usize] == *node;
    is_same.then_some(index)
}

/// The nodes of both graphs, in the order of their paths.
fn list_nodes(alloc: Global, old: &Graph, new: &Graph) -> Result<Vec<Node>, NoMemory>
    ensures members { IfOk result (λ v. AreMembers old.now new.now v.items) }
    ensures graphs { IfOk result (λ _. IsGraph old.now × IsGraph new.now) }
{
    let mut nodes = copy_nodes(alloc, old.nodes())?;
    let mut created = copy_missing(alloc, new.nodes(), old)?;
    nodes.append(&mut created)?;
    sort_nodes(&mut nodes);
    Ok(nodes)
}

/// Puts nodes in the order of their paths.
fn sort_nodes(nodes: &mut Vec<Node>)
    ensures permutation { IsPermutation nodes.old.items nodes.new.items }
    ensures sorted { IsSortedBy path_below nodes.new.items }
{
    nodes.sort_unstable_by(|node, other| -> Ordering {
        node.path.as_bytes().cmp(other.path.as_bytes())
    });
}

/// Copies of these nodes.
fn copy_nodes(alloc: Global, nodes: &[Node]) -> Result<Vec<Node>, NoMemory>
    ensures { IfOk result (λ v. v.items ≡ nodes.now) }
{
    let mut copies = Vec::with_capacity(alloc, nodes.len())?;
    for node in nodes {
        copies.push(node.try_clone()?)?;
    }
    Ok(copies)
}

/// Copies of those of these nodes that a graph hasn't.
fn copy_missing(alloc: Global, nodes: &[Node], graph: &Graph) -> Result<Vec<Node>, NoMemory>
    ensures { IfOk result (λ v. Selects (λ n. ¬ Contains graph.now.nodes n) nodes.now v.items) }
{
    let mut copies = Vec::new(alloc);
    for node in nodes {
        if place_of(graph, node).is_none() {
            copies.push(node.try_clone()?)?;
        }
    }
    Ok(copies)
}

/// Which number each node of a graph has.
fn number_nodes(alloc: Global, graph: &Graph, nodes: &[Node]) -> Result<Vec<u32>, NoMemory>
    requires all { (n : Node) → Contains graph.now.nodes n → Contains nodes.now n }
    requires once { IsOnce nodes.now }
    requires few { length nodes.now < 2 ^ 31 }
    ensures { IfOk result (λ v. AreNumbers graph.now.nodes nodes.now v.items) }
{
    let mut numbers = vec![in alloc; 0; graph.node_count() as usize]?;
    for number in 0..nodes.len() {
        if let Some(place) = place_of(graph, &nodes[number]) {
            numbers[place as usize] = number as u32;
        }
    }
    Ok(numbers)
}

/// Which nodes stand in a graph.
fn mark_nodes(alloc: Global, graph: &Graph, nodes: &[Node]) -> Result<Vec<bool>, NoMemory>
    ensures { IfOk result (λ v. MarksNodes graph.now nodes.now v.items) }
{
    let mut marks = Vec::with_capacity(alloc, nodes.len())?;
    for node in nodes {
        marks.push(place_of(graph, node).is_some())?;
    }
    Ok(marks)
}
