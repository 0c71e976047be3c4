//! The links of an elaboration: from each requirement of a node to the provision to which bindings lead.

ghost use Rattle.std.specs.Prelude.{◌+◌, ◌<◌, length, IfOk, OnOk};
ghost use Rattle.config_graph.specs.Graph.{requires_at};
ghost use Rattle.elaborator.specs.Instances.{Instance};
ghost use Rattle.elaborator.specs.Bindings.{Port};
ghost use Rattle.elaborator.specs.Numbering.{IsOf};
ghost use Rattle.elaborator.specs.Expansion.{expanded_of, IsNumbering};
ghost use Rattle.elaborator.specs.Ports.{IsPort};
ghost use Rattle.elaborator.specs.PortIndex.{IsIndexed};
ghost use Rattle.elaborator.specs.NodeOrder.{nodes_in, AreNodes};
ghost use Rattle.elaborator.specs.Links.{IsProvisionNamed, IsProvided, IsTargeted, AreFirstLinks, AreLinks};

use crate::chains::{PortId, Targets};
use crate::instance::Expansion;
use crate::nodes::Nodes;
use crate::ports::port_place;
use config_graph::{Kind, Link, Target};
use darwin_parser::Side;
use std::alloc::{AllocError, Global};

/// The links of all nodes.
pub fn links_of(
    alloc: Global,
    expansion: &Expansion,
    nodes: &Nodes,
    targets: &Targets,
) -> Result<Vec<Link>, AllocError>
    requires kept { IsNumbering expansion.now }
    requires nodes { AreNodes (expanded_of expansion.now) nodes.now }
    requires indexed { IsIndexed (expanded_of expansion.now) targets.now }
    ensures { (top : Instance) → IsOf (expanded_of expansion.now) top
        → IfOk result (λ links. AreLinks (expanded_of expansion.now).tree top
        (nodes_in (expanded_of expansion.now) nodes.now.instances.items) links.items) }
{
    let mut links = Vec::new(alloc);
    for from in 0..nodes.instances.len() {
        add_links(expansion, nodes, targets, from as u32, &mut links)?;
    }
    Ok(links)
}

/// Adds the links of a node.
fn add_links(
    expansion: &Expansion,
    nodes: &Nodes,
    targets: &Targets,
    from: u32,
    links: &mut Vec<Link>,
) -> Result<(), AllocError>
    requires within { from < length nodes.now.instances.items }
    requires kept { IsNumbering expansion.now }
    requires nodes { AreNodes (expanded_of expansion.now) nodes.now }
    requires indexed { IsIndexed (expanded_of expansion.now) targets.now }
    ensures { (top : Instance) → IsOf (expanded_of expansion.now) top
        → AreFirstLinks (expanded_of expansion.now).tree top
        (nodes_in (expanded_of expansion.now) nodes.now.instances.items) from 0 links.old.items
        → OnOk result (AreFirstLinks (expanded_of expansion.now).tree top
        (nodes_in (expanded_of expansion.now) nodes.now.instances.items) (from + 1) 0 links.new.items) }
{
    for require in 0..nodes.kinds[from as usize].requires_() {
        if let Some(target) = target_of(expansion, nodes, targets, from, require) {
            links.push(Link {
                from,
                require,
                to: target.node,
                provide: target.provide,
            })?;
        }
    }
    Ok(())
}

/// What a requirement of a node is linked to, where it is.
fn target_of(
    expansion: &Expansion,
    nodes: &Nodes,
    targets: &Targets,
    from: u32,
    require: u32,
) -> Option<Target>
    requires within { from < length nodes.now.instances.items }
    requires required { require < requires_at (nodes_in (expanded_of expansion.now) nodes.now.instances.items) from }
    requires kept { IsNumbering expansion.now }
    requires nodes { AreNodes (expanded_of expansion.now) nodes.now }
    requires indexed { IsIndexed (expanded_of expansion.now) targets.now }
    ensures { (top : Instance) → IsOf (expanded_of expansion.now) top
        → IsTargeted (expanded_of expansion.now).tree top
        (nodes_in (expanded_of expansion.now) nodes.now.instances.items) from require result }
{
    let instance = nodes.instances[from as usize];
    let name = nodes.kinds[from as usize].require_name(require);
    let ports = expansion.instance(instance).component.ports.as_slice();
    let port = port_place(ports, name.as_bytes())?;
    let decl = &ports[port];
    match decl.side {
        Side::Provide => None,
        Side::Require => {
            let start = PortId {
                instance,
                port,
                index: None,
            };
            provision_at(expansion, nodes, targets.follow(start))
        }
    }
}

/// The provision of a node that a port is, where it is one.
fn provision_at(expansion: &Expansion, nodes: &Nodes, id: PortId) -> Option<Target>
    requires port { (x : Port) × IsPort (expanded_of expansion.now) id x }
    requires kept { IsNumbering expansion.now }
    requires nodes { AreNodes (expanded_of expansion.now) nodes.now }
    ensures { IsProvided (expanded_of expansion.now) (nodes_in (expanded_of expansion.now) nodes.now.instances.items)
        id result }
{
    let node = nodes.places[id.instance as usize]?;
    if id.index.is_some() {
        return None;
    }
    let port = &expansion.instance(id.instance).component.ports[id.port];
    match port.side {
        Side::Require => None,
        Side::Provide => {
            let kind = nodes.kinds[node as usize];
            let provide = provision_named(kind, port.name.as_bytes())?;
            Some(Target { node, provide })
        }
    }
}

/// The number of the kind's provision of this name.
fn provision_named(kind: Kind, name: &[u8]) -> Option<u32>
    ensures { IsProvisionNamed kind name.now result }
{
    for provide in 0..kind.provides() {
        if kind.provide_name(provide).as_bytes() == name {
            return Some(provide);
        }
    }
    None
}
