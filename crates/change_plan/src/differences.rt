//! What one graph has and another hasn't.

ghost use Rattle.std.specs.Prelude.{◌≡◌, ◌↔◌, Some, Contains, IfNone, IfOk, IfSome, IsTrue, map, slice_get};
ghost use Rattle.config_graph.specs.Graph.{IsGraph};
ghost use Rattle.change_plan.specs.Differences.{GoneLinks, GoneNodes, GonePorts, IsKeptLink, link_port};

use crate::OldPort;
use crate::touching::has_same_target;
use config_graph::{Graph, Link, NoMemory, Node, Port};
use std::alloc::Global;

/// The node of a graph that is the same as this one.
pub(crate) fn twin_of(graph: &Graph, node: &Node) -> Option<u32>
    ensures graph { IsGraph graph.now }
    ensures found { IfSome result (λ i. slice_get graph.now.nodes i ≡ Some node.now) }
    ensures missing { IfNone result (¬ Contains graph.now.nodes node.now) }
{
    let nodes = graph.nodes();
    let index = graph.index_of(node.path.as_bytes())?;
    let is_same = nodes[index as usize] == *node;
    is_same.then_some(index)
}

/// The nodes of a graph that another one hasn't, in order.
pub(crate) fn list_gone(alloc: Global, graph: &Graph, other: &Graph) -> Result<Vec<u32>, NoMemory>
    ensures gone { IfOk result (λ gone. GoneNodes graph.now other.now gone.items) }
    ensures graph { IsGraph graph.now }
{
    let mut gone = Vec::new(alloc);
    for (index, node) in graph.nodes().iter().enumerate() {
        if twin_of(other, node).is_none() {
            gone.push(index as u32)?;
        }
    }
    Ok(gone)
}

/// Whether a link of a graph is in another one.
fn is_kept(graph: &Graph, other: &Graph, link: &Link) -> bool
    requires { Contains graph.now.links link.now }
    ensures { IsTrue result ↔ IsKeptLink graph.now other.now link.now }
{
    let node = &graph.nodes()[link.from as usize];
    match twin_of(other, node) {
        None => false,
        Some(twin) => has_same_target(graph, other, link.from, twin, link.require),
    }
}

/// The links of a graph that another one hasn't, in order.
pub(crate) fn list_gone_links(
    alloc: Global,
    graph: &Graph,
    other: &Graph,
) -> Result<Vec<Link>, NoMemory>
    ensures { IfOk result (λ gone. GoneLinks graph.now other.now gone.items) }
{
    let mut gone = Vec::new(alloc);
    for link in graph.links() {
        if !is_kept(graph, other, link) {
            gone.push(*link)?;
        }
    }
    Ok(gone)
}

/// The ports at which the links of a graph begin that another one hasn't, in order.
pub(crate) fn list_gone_ports(
    alloc: Global,
    graph: &Graph,
    other: &Graph,
) -> Result<Vec<OldPort>, NoMemory>
    ensures { IfOk result (λ gone. GonePorts graph.now other.now gone.items) }
{
    let links = list_gone_links(alloc, graph, other)?;
    list_ports(alloc, &links)
}

/// The ports at which these links begin.
fn list_ports(alloc: Global, links: &[Link]) -> Result<Vec<OldPort>, NoMemory>
    ensures { IfOk result (λ ports. ports.items ≡ map link_port links.now) }
{
    links
        .iter()
        .map(|link| Port {
            node: link.from,
            require: link.require,
        })
        .collect(alloc)
}
