//! The text of a graph.

ghost use Rattle.std.specs.Prelude.{◌≡◌, ◌++◌, ◌<◌, slice_get, IfOk, OnOk};
ghost use Rattle.std.specs.Option.{ForSome};
ghost use Rattle.config_graph.specs.Graph.{Graph, provides_at, requires_of};
ghost use Rattle.config_graph.specs.GraphText.{graph_text, kind_text, node_line, port_line, port_lines, target_text};

use crate::{Graph, Kind, NoMemory, Node, Target};
use itoa::Buffer;
use std::alloc::Global;

/// The text of a graph: a line for each node, and below it one for each of its ports.
pub fn graph_text(alloc: Global, graph: &Graph) -> Result<Vec<u8>, NoMemory>
    ensures { IfOk result (λ text. text.items ≡ graph_text graph.now) }
{
    let mut text = Vec::new(alloc);
    for (index, node) in graph.nodes().iter().enumerate() {
        write_node(&mut text, node)?;
        write_ports(&mut text, graph, index as u32, node)?;
    }
    Ok(text)
}

/// A kind with its argument, as `map(10)` or `sink()`.
pub fn kind_text(alloc: Global, kind: Kind, arg: Option<u32>) -> Result<Vec<u8>, NoMemory>
    ensures { IfOk result (λ text. text.items ≡ kind_text kind arg) }
{
    let mut text = Vec::new(alloc);
    push_kind(&mut text, kind, arg)?;
    Ok(text)
}

/// Adds a kind with its argument.
fn push_kind(text: &mut Vec<u8>, kind: Kind, arg: Option<u32>) -> Result<(), NoMemory>
    ensures { OnOk result (text.new.items ≡ text.old.items ++ kind_text kind arg) }
{
    text.extend_from_slice(kind.name().as_bytes())?;
    text.extend_from_slice(b"(")?;
    if let Some(arg) = arg {
        let mut digits = Buffer::new();
        text.extend_from_slice(digits.format(arg).as_bytes())?;
    }
    text.extend_from_slice(b")")
}

/// `node PATH KIND(ARG)`
fn write_node(text: &mut Vec<u8>, node: &Node) -> Result<(), NoMemory>
    ensures { OnOk result (text.new.items ≡ text.old.items ++ node_line node.now) }
{
    text.extend_from_slice(b"node ")?;
    text.extend_from_slice(node.path.as_bytes())?;
    text.extend_from_slice(b" ")?;
    push_kind(text, node.kind, node.arg)?;
    text.extend_from_slice(b"\n")
}

/// A line for each port of a node.
fn write_ports(text: &mut Vec<u8>, graph: &Graph, index: u32, node: &Node) -> Result<(), NoMemory>
    requires { slice_get graph.now.nodes index ≡ Some node.now }
    ensures { OnOk result (text.new.items ≡ text.old.items
        ++ port_lines graph.now index node.now (requires_of node.now)) }
{
    for require in 0..node.kind.requires_() {
        write_port(text, graph, index, node, require)?;
    }
    Ok(())
}

/// `port PATH.REQUIRE PATH.PROVIDE`, or `port PATH.REQUIRE -`
fn write_port(
    text: &mut Vec<u8>,
    graph: &Graph,
    index: u32,
    node: &Node,
    require: u32,
) -> Result<(), NoMemory>
    requires node { slice_get graph.now.nodes index ≡ Some node.now }
    requires require { require < requires_of node.now }
    ensures { OnOk result (text.new.items ≡ text.old.items ++ port_line graph.now index node.now require) }
{
    text.extend_from_slice(b"port ")?;
    text.extend_from_slice(node.path.as_bytes())?;
    text.extend_from_slice(b".")?;
    text.extend_from_slice(node.kind.require_name(require).as_bytes())?;
    text.extend_from_slice(b" ")?;
    write_target(text, graph, graph.target(index, require))?;
    text.extend_from_slice(b"\n")
}

/// `PATH.PROVIDE`, or `-`
fn write_target(text: &mut Vec<u8>, graph: &Graph, target: Option<Target>) -> Result<(), NoMemory>
    requires { ForSome target (λ t. t.provide < provides_at graph.now.nodes t.node) }
    ensures { OnOk result (text.new.items ≡ text.old.items ++ target_text graph.now.nodes target) }
{
    let Some(Target { node, provide }) = target else {
        return text.extend_from_slice(b"-");
    };
    let node = graph.node(node);
    text.extend_from_slice(node.path.as_bytes())?;
    text.extend_from_slice(b".")?;
    text.extend_from_slice(node.kind.provide_name(provide).as_bytes())
}
