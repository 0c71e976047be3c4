//! Graphs, with the indexes that answer look-ups at once.

ghost use Rattle.std.specs.Prelude.{◌≡◌, ◌^◌, ◌<◌, ◌↔◌, ℕ, length, slice_get, Some, IfOk, IfSome, All, Contains};
ghost use Rattle.std.specs.Prelude.{IsTrue};
ghost use Rattle.std.specs.List.Sorted.{IsStrictlyIncreasing};
ghost use Rattle.config_graph.specs.declared.node.Link.{Link};
ghost use Rattle.config_graph.specs.Graph.{IsGraph, IsLinkWithin, OneLinkAPort, PathsRise, graph_of, incoming_ports};
ghost use Rattle.config_graph.specs.Graph.{index_of, port_number, ports, provides_at, requires_at, target_of};

use crate::numbering::Numbering;
use crate::{Link, NoMemory, Node, Port, Target, indexes};
use std::alloc::Global;
use std::marker::Model;

/// A graph. Contracts see its nodes, in the order of their paths, and its links, in the order of their ports.
///
/// All look-ups but `index_of` take constant time; `index_of` halves the list of nodes. None takes memory.
#[derive(Drop)]
pub struct Graph {
    nodes: Numbering,
    links: Vec<Link>,
    targets: Vec<Option<Target>>,
    incoming: Vec<Vec<u32>>,
}

impl Model for Graph {
    ghost use Rattle.config_graph.specs.Graph.{Graph};

    ghost Value = { Graph };

    ghost use Rattle.config_graph.specs.Indexes.{graph_in, IsIndexed};

    ghost view = { graph_in };

    ghost invariant = { IsIndexed };
}

impl Graph {
    /// The graph of these nodes and links. Time grows with their number. Where memory runs out, both lists are
    /// gone.
    pub fn build(alloc: Global, nodes: Vec<Node>, links: Vec<Link>) -> Result<Graph, NoMemory>
        requires paths_rise { PathsRise nodes.items }
        requires within { All (IsLinkWithin nodes.items) links.items }
        requires one_link_a_port { OneLinkAPort links.items }
        requires few_nodes { length nodes.items < 2 ^ 32 }
        requires few_ports { length (ports nodes.items) < 2 ^ 32 }
        ensures graph { IfOk result (λ g. g ≡ graph_of nodes.items links.items) }
        ensures same_links { IfOk result
            (λ g. (l : Link) → Contains g.links l ↔ Contains links.items l) }
    {
        let nodes = Numbering::of(alloc, nodes)?;
        let targets = indexes::list_targets(alloc, &nodes, &links)?;
        let links = indexes::list_links(alloc, nodes.ports(), &targets)?;
        let incoming = indexes::list_incoming(alloc, &nodes, &links)?;
        Ok(Graph {
            nodes,
            links,
            targets,
            incoming,
        })
    }

    /// How many nodes there are.
    pub fn node_count(&self) -> u32
        ensures count { result ≡ length self.now.nodes }
        ensures graph { IsGraph self.now }
    {
        self.nodes.nodes().len() as u32
    }

    /// How many ports the nodes have.
    pub fn port_count(&self) -> u32
        ensures { result ≡ length (ports self.now.nodes) }
    {
        self.nodes.ports().len() as u32
    }

    /// The node of this index.
    pub fn node(&self, index: u32) -> &Node
        requires { index < length self.now.nodes }
        ensures { slice_get self.now.nodes index ≡ Some result.now }
    {
        &self.nodes.nodes()[index as usize]
    }

    /// All nodes, in the order of their paths.
    pub fn nodes(&self) -> &[Node]
        ensures nodes { result.now ≡ self.now.nodes }
        ensures graph { IsGraph self.now }
    {
        self.nodes.nodes()
    }

    /// The port of this number.
    pub fn port(&self, number: u32) -> Port
        requires { number < length (ports self.now.nodes) }
        ensures port { slice_get (ports self.now.nodes) number ≡ Some result }
        ensures number { port_number self.now.nodes result.node result.require ≡ number }
        ensures within { result.require < requires_at self.now.nodes result.node }
    {
        self.nodes.ports()[number as usize]
    }

    /// All links, in the order of their ports.
    pub fn links(&self) -> &[Link]
        ensures { result.now ≡ self.now.links }
    {
        self.links.as_slice()
    }

    /// What a node's requirement is linked to, or `None` where it is unlinked.
    pub fn target(&self, index: u32, require: u32) -> Option<Target>
        requires { require < requires_at self.now.nodes index }
        ensures target { result ≡ target_of self.now.links index require }
        ensures within { IfSome result (λ t. t.provide < provides_at self.now.nodes t.node) }
    {
        let port = self.nodes.port_number(index, require) as usize;
        self.targets[port]
    }

    /// The index of the node with this path, or `None` where no node has it.
    pub fn index_of(&self, path: &[u8]) -> Option<u32>
        ensures { result ≡ index_of self.now.nodes path.now }
    {
        indexes::find_path(self.nodes(), path)
    }

    /// Another graph with the same nodes and links.
    pub fn try_clone(&self) -> Result<Graph, NoMemory>
        ensures { IfOk result (λ g. g ≡ self.now) }
    {
        let alloc = *self.links.allocator();
        let nodes = clone_nodes(alloc, self.nodes())?;
        let links = Vec::from_slice(alloc, self.links())?;
        Graph::build(alloc, nodes, links)
    }

    /// The numbers of the ports that are linked to a node's provision, in rising order.
    pub fn incoming(&self, node: u32, provide: u32) -> &[u32]
        requires { provide < provides_at self.now.nodes node }
        ensures ports { result.now ≡ incoming_ports self.now node provide }
        ensures rising { IsStrictlyIncreasing result.now }
        ensures within { All (λ port. port < length (ports self.now.nodes)) result.now }
        ensures linked { (i r : ℕ) → r < requires_at self.now.nodes i
            → (Contains result.now (port_number self.now.nodes i r)
            ↔ (target_of self.now.links i r ≡ Some (record { node = node; provide = provide }))) }
    {
        self.incoming[self.nodes.provision_number(node, provide) as usize].as_slice()
    }
}

/// Copies of these nodes.
fn clone_nodes(alloc: Global, nodes: &[Node]) -> Result<Vec<Node>, NoMemory>
    ensures { IfOk result (λ v. v.items ≡ nodes.now) }
{
    let mut copies = Vec::with_capacity(alloc, nodes.len())?;
    for node in nodes {
        copies.push(node.try_clone()?)?;
    }
    Ok(copies)
}

/// Whether two graphs have the same nodes and the same links. It takes no memory.
pub fn same(a: &Graph, b: &Graph) -> bool
    ensures { IsTrue result ↔ (a.now ≡ b.now) }
{
    a.nodes() == b.nodes() && a.links() == b.links()
}
