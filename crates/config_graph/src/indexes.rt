//! The indexes that answer a graph's look-ups, each made in one pass over its links or nodes.

ghost use Rattle.std.specs.Prelude.{◌≡◌, ◌<◌, ◌^◌, [], length, map, replicate, IfOk, All};
ghost use Rattle.std.specs.Ordering.{nat_cmp};
ghost use Rattle.std.specs.Cmp.Lexicographic.{slice_cmp};
ghost use Rattle.config_graph.specs.Graph.{IsLinkWithin, OneLinkAPort, PathsRise, index_of};
ghost use Rattle.config_graph.specs.Indexes.{incoming, links_in, no_target, targets};

use crate::numbering::Numbering;
use crate::{Link, NoMemory, Node, Port, Target};
use std::alloc::Global;
use std::cmp::Ordering;

/// What each port is linked to, by the port's number.
pub(crate) fn list_targets(
    alloc: Global,
    nodes: &Numbering,
    links: &[Link],
) -> Result<Vec<Option<Target>>, NoMemory>
    requires within { All (IsLinkWithin nodes.now) links.now }
    requires one_link_a_port { OneLinkAPort links.now }
    ensures { IfOk result (λ v. v.items ≡ targets nodes.now links.now) }
{
    let mut targets = list_unlinked(alloc, nodes.ports())?;
    for link in links {
        let port = nodes.port_number(link.from, link.require);
        targets[port as usize] = Some(Target {
            node: link.to,
            provide: link.provide,
        });
    }
    Ok(targets)
}

/// No target for each port.
fn list_unlinked(alloc: Global, ports: &[Port]) -> Result<Vec<Option<Target>>, NoMemory>
    ensures { IfOk result (λ v. v.items ≡ map no_target ports.now) }
{
    ports.iter().map(|_| None).collect(alloc)
}

/// The links that the ports' targets make, in the order of the ports.
pub(crate) fn list_links(
    alloc: Global,
    ports: &[Port],
    targets: &[Option<Target>],
) -> Result<Vec<Link>, NoMemory>
    ensures { IfOk result (λ v. v.items ≡ links_in ports.now targets.now) }
{
    ports
        .iter()
        .zip(targets.iter())
        .filter_map(|(port, target)| {
            target.map(|target| Link {
                from: port.node,
                require: port.require,
                to: target.node,
                provide: target.provide,
            })
        })
        .collect(alloc)
}

/// The numbers of the ports that are linked to each provision, by the provision's number.
pub(crate) fn list_incoming(
    alloc: Global,
    nodes: &Numbering,
    links: &[Link],
) -> Result<Vec<Vec<u32>>, NoMemory>
    requires { All (IsLinkWithin nodes.now) links.now }
    ensures { IfOk result (λ v. map (λ ports. ports.items) v.items
        ≡ incoming (record { nodes = nodes.now; links = links.now })) }
{
    let mut incoming = list_empty(alloc, nodes.provision_count())?;
    for link in links {
        let port = nodes.port_number(link.from, link.require);
        let provision = nodes.provision_number(link.to, link.provide);
        incoming[provision as usize].push(port)?;
    }
    Ok(incoming)
}

/// So many empty lists.
fn list_empty(alloc: Global, count: u32) -> Result<Vec<Vec<u32>>, NoMemory>
    ensures { IfOk result (λ v. map (λ ports. ports.items) v.items ≡ replicate count []) }
{
    let mut lists = Vec::new(alloc);
    for _ in 0..count {
        lists.push(Vec::new(alloc))?;
    }
    Ok(lists)
}

/// The index of the node with this path. It is found by halving, since paths rise.
pub(crate) fn find_path(nodes: &[Node], path: &[u8]) -> Option<u32>
    requires rise { PathsRise nodes.now }
    requires few { length nodes.now < 2 ^ 32 }
    ensures { result ≡ index_of nodes.now path.now }
{
    let found = nodes.binary_search_by(
        |node: &Node| -> Ordering
            ensures { result ≡ slice_cmp nat_cmp node.now.path path.entry.now }
        { node.path.as_bytes().cmp(path) },
    );
    match found {
        Ok(index) => Some(index as u32),
        Err(_) => None,
    }
}
