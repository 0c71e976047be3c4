//! Nodes with the numbers of their ports and provisions, each counted through all nodes in order.

ghost use Rattle.std.specs.Prelude.{◌≡◌, ◌+◌, ◌++◌, ◌^◌, ◌<◌, length, IfOk, OnOk};
ghost use Rattle.config_graph.specs.Graph.{port_number, ports, ports_of, provides_at, requires_at};
ghost use Rattle.config_graph.specs.Numbering.{provision_number, provisions, starts};

use crate::{NoMemory, Node, Port};
use std::alloc::Global;
use std::marker::Model;

/// The numbers of a node's first port and of its first provision.
#[derive(Clone, Copy)]
struct Start {
    port: u32,
    provision: u32,
}

/// A list of nodes. Contracts see the nodes alone, and not what is kept to number their ports and provisions.
#[derive(Drop)]
pub(crate) struct Numbering {
    nodes: Vec<Node>,
    /// One for each node, and last the totals.
    starts: Vec<Start>,
    ports: Vec<Port>,
}

impl Model for Numbering {
    ghost use Rattle.std.specs.Prelude.{List};
    ghost use Rattle.config_graph.specs.declared.node.Node.{Node};

    ghost Value = { List Node };

    ghost use Rattle.config_graph.specs.Numbering.{IsNumbered};

    ghost view = { λ a. a.nodes.items };

    ghost invariant = { λ a. IsNumbered a.nodes.items a.starts.items a.ports.items };
}

impl Numbering {
    pub(crate) fn of(alloc: Global, nodes: Vec<Node>) -> Result<Numbering, NoMemory>
        requires few_nodes { length nodes.items < 2 ^ 32 }
        requires few_ports { length (ports nodes.items) < 2 ^ 32 }
        ensures { IfOk result (λ n. n ≡ nodes.items) }
    {
        let ports = list_ports(alloc, &nodes)?;
        let starts = list_starts(alloc, &nodes)?;
        Ok(Numbering {
            nodes,
            starts,
            ports,
        })
    }

    pub(crate) fn nodes(&self) -> &[Node]
        ensures nodes { result.now ≡ self.now }
        ensures few { length self.now < 2 ^ 32 }
    {
        self.nodes.as_slice()
    }

    pub(crate) fn ports(&self) -> &[Port]
        ensures ports { result.now ≡ ports self.now }
        ensures few { length (ports self.now) < 2 ^ 32 }
    {
        self.ports.as_slice()
    }

    /// The number of a node's port.
    pub(crate) fn port_number(&self, node: u32, require: u32) -> u32
        requires { require < requires_at self.now node }
        ensures number { result ≡ port_number self.now node require }
        ensures within { result < length (ports self.now) }
    {
        self.starts[node as usize].port + require
    }

    /// The number of a node's provision.
    pub(crate) fn provision_number(&self, node: u32, provide: u32) -> u32
        requires { provide < provides_at self.now node }
        ensures number { result ≡ provision_number self.now node provide }
        ensures within { result < length (provisions self.now) }
    {
        self.starts[node as usize].provision + provide
    }

    /// How many provisions the nodes have.
    pub(crate) fn provision_count(&self) -> u32
        ensures { result ≡ length (provisions self.now) }
    {
        self.starts[self.nodes.len()].provision
    }
}

/// All ports, in order.
fn list_ports(alloc: Global, nodes: &[Node]) -> Result<Vec<Port>, NoMemory>
    requires { length nodes.now < 2 ^ 32 }
    ensures { IfOk result (λ v. v.items ≡ ports nodes.now) }
{
    let mut ports = Vec::new(alloc);
    for (index, node) in nodes.iter().enumerate() {
        push_ports(&mut ports, index as u32, node.kind.requires_())?;
    }
    Ok(ports)
}

/// Adds the ports of one node.
fn push_ports(ports: &mut Vec<Port>, node: u32, requires_: u32) -> Result<(), NoMemory>
    ensures { OnOk result (ports.new.items ≡ ports.old.items ++ ports_of node requires_) }
{
    for require in 0..requires_ {
        ports.push(Port { node, require })?;
    }
    Ok(())
}

/// Where the ports and the provisions of each node start, and last the totals.
fn list_starts(alloc: Global, nodes: &[Node]) -> Result<Vec<Start>, NoMemory>
    requires few_nodes { length nodes.now < 2 ^ 32 }
    requires few_ports { length (ports nodes.now) < 2 ^ 32 }
    ensures { IfOk result (λ v. v.items ≡ starts nodes.now) }
{
    let mut starts = Vec::new(alloc);
    let mut port = 0;
    let mut provision = 0;
    for node in nodes {
        starts.push(Start { port, provision })?;
        port += node.kind.requires_();
        provision += node.kind.provides();
    }
    starts.push(Start { port, provision })?;
    Ok(starts)
}
