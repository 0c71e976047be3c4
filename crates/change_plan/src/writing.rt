//! The text of a plan.

ghost use Rattle.std.specs.Prelude.{◌≡◌, ◌<◌, ◌++◌, All, IfOk, OnOk, length, flat_map};
ghost use Rattle.config_graph.specs.Graph.{IsLinkWithin, provides_at, requires_at};
ghost use Rattle.change_plan.specs.PlanWithin.{IsPlanWithin};
ghost use Rattle.change_plan.specs.PlanText.{create_line, link_line, step_line, plan_text, port_text, provision_text, unlink_line};

use crate::{OldPort, Plan};
use config_graph::{Graph, Link, NoMemory, kind_text};
use std::alloc::Global;

/// The text of a plan: a line for each node that is frozen, each port that is unlinked, each node that is removed,
/// each that is created, and each link.
pub fn plan_text(alloc: Global, old: &Graph, new: &Graph, plan: &Plan) -> Result<Vec<u8>, NoMemory>
    requires { IsPlanWithin old.now new.now plan.now }
    ensures { IfOk result (λ text. text.items ≡ plan_text old.now new.now plan.now) }
{
    let mut text = Vec::new(alloc);
    write_nodes(&mut text, b"freeze ", old, plan.freeze.items())?;
    write_unlinks(&mut text, old, plan.unlink.items())?;
    write_nodes(&mut text, b"remove ", old, plan.remove.items())?;
    write_creates(alloc, &mut text, new, plan.create.items())?;
    write_links(&mut text, new, plan.link.items())?;
    Ok(text)
}

/// Lines of a word and a node's path.
fn write_nodes(
    text: &mut Vec<u8>,
    word: &[u8],
    graph: &Graph,
    nodes: &[u32],
) -> Result<(), NoMemory>
    requires { All (λ i. i < length graph.now.nodes) nodes.now }
    ensures { OnOk result (text.new.items ≡ text.old.items ++ flat_map (step_line word.now graph.now) nodes.now) }
{
    for node in nodes {
        write_node(text, word, graph, *node)?;
    }
    Ok(())
}

fn write_node(text: &mut Vec<u8>, word: &[u8], graph: &Graph, node: u32) -> Result<(), NoMemory>
    requires { node < length graph.now.nodes }
    ensures { OnOk result (text.new.items ≡ text.old.items ++ step_line word.now graph.now node) }
{
    text.extend_from_slice(word)?;
    text.extend_from_slice(graph.node(node).path.as_bytes())?;
    text.extend_from_slice(b"\n")
}

/// A line for each port that is unlinked.
fn write_unlinks(text: &mut Vec<u8>, graph: &Graph, ports: &[OldPort]) -> Result<(), NoMemory>
    requires { All (λ p. p.require < requires_at graph.now.nodes p.node) ports.now }
    ensures { OnOk result (text.new.items ≡ text.old.items ++ flat_map (unlink_line graph.now) ports.now) }
{
    for port in ports {
        write_unlink(text, graph, *port)?;
    }
    Ok(())
}

fn write_unlink(text: &mut Vec<u8>, graph: &Graph, port: OldPort) -> Result<(), NoMemory>
    requires { port.require < requires_at graph.now.nodes port.node }
    ensures { OnOk result (text.new.items ≡ text.old.items ++ unlink_line graph.now port) }
{
    text.extend_from_slice(b"unlink ")?;
    write_port(text, graph, port.node, port.require)?;
    text.extend_from_slice(b"\n")
}

/// A line for each node that is created.
fn write_creates(
    alloc: Global,
    text: &mut Vec<u8>,
    graph: &Graph,
    nodes: &[u32],
) -> Result<(), NoMemory>
    requires { All (λ i. i < length graph.now.nodes) nodes.now }
    ensures { OnOk result (text.new.items ≡ text.old.items ++ flat_map (create_line graph.now) nodes.now) }
{
    for node in nodes {
        write_create(alloc, text, graph, *node)?;
    }
    Ok(())
}

fn write_create(alloc: Global, text: &mut Vec<u8>, graph: &Graph, node: u32) -> Result<(), NoMemory>
    requires { node < length graph.now.nodes }
    ensures { OnOk result (text.new.items ≡ text.old.items ++ create_line graph.now node) }
{
    let node = graph.node(node);
    text.extend_from_slice(b"create ")?;
    text.extend_from_slice(node.path.as_bytes())?;
    text.extend_from_slice(b" ")?;
    text.extend_from_slice(&kind_text(alloc, node.kind, node.arg)?)?;
    text.extend_from_slice(b"\n")
}

/// A line for each link.
fn write_links(text: &mut Vec<u8>, graph: &Graph, links: &[Link]) -> Result<(), NoMemory>
    requires { All (IsLinkWithin graph.now.nodes) links.now }
    ensures { OnOk result (text.new.items ≡ text.old.items ++ flat_map (link_line graph.now) links.now) }
{
    for link in links {
        write_link(text, graph, *link)?;
    }
    Ok(())
}

fn write_link(text: &mut Vec<u8>, graph: &Graph, link: Link) -> Result<(), NoMemory>
    requires { IsLinkWithin graph.now.nodes link }
    ensures { OnOk result (text.new.items ≡ text.old.items ++ link_line graph.now link) }
{
    text.extend_from_slice(b"link ")?;
    write_port(text, graph, link.from, link.require)?;
    text.extend_from_slice(b" ")?;
    write_provision(text, graph, link.to, link.provide)?;
    text.extend_from_slice(b"\n")
}

/// `PATH.REQUIRE`
fn write_port(text: &mut Vec<u8>, graph: &Graph, node: u32, require: u32) -> Result<(), NoMemory>
    requires { require < requires_at graph.now.nodes node }
    ensures { OnOk result (text.new.items ≡ text.old.items ++ port_text graph.now node require) }
{
    let node = graph.node(node);
    text.extend_from_slice(node.path.as_bytes())?;
    text.extend_from_slice(b".")?;
    text.extend_from_slice(node.kind.require_name(require).as_bytes())
}

/// `PATH.PROVIDE`
fn write_provision(
    text: &mut Vec<u8>,
    graph: &Graph,
    node: u32,
    provide: u32,
) -> Result<(), NoMemory>
    requires { provide < provides_at graph.now.nodes node }
    ensures { OnOk result (text.new.items ≡ text.old.items ++ provision_text graph.now node provide) }
{
    let node = graph.node(node);
    text.extend_from_slice(node.path.as_bytes())?;
    text.extend_from_slice(b".")?;
    text.extend_from_slice(node.kind.provide_name(provide).as_bytes())
}
