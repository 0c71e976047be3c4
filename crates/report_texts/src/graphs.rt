//! The graph behind a `show` line.

ghost use Rattle.std.specs.Prelude.{◌≡◌, ◌<◌, ◌≤◌, ◌^◌, ◌++◌, ◌&&◌, [], All, IfOk, OnOk, is_some, bytes_eq, flat_map, length, true};
ghost use Rattle.std.specs.List.{list_all};
ghost use Rattle.report_writing.specs.Reports.{ended};
ghost use Rattle.config_graph.specs.Graph.{IsLinkWithin, ports as ports_of};
ghost use Rattle.config_graph.specs.GraphText.{graph_text as drawn_text};
ghost use Rattle.config_graph.specs.Kinds.{row};
ghost use Rattle.report_texts.specs.GraphTexts.{behind_dot, behind_graph, comes_before, drawn, graph_in, graph_lines, fits_kind, has_form, has_no_cycle, is_sound_node, is_one_piece, is_path_byte, link_from, links_by, nodes_in, path_of, paths_rise, target_named, targets_in};
ghost use Rattle.report_texts.specs.TextLines.{lines, tail};

use crate::rest::first_line;
use config_graph::{
    Graph, Kind, Link, NoMemory, Node, Port, Target, VALUE_LIMIT, graph_text, has_cycle,
};
use report_lines::{is_graph_line, node_line, target_word};
use std::alloc::Global;

/// The lines of a graph at the front of a text, and what stands behind them.
pub fn split_graph(text: &[u8]) -> (&[u8], &[u8])
    ensures shown { lines result.0.now ≡ graph_lines (lines text.now) }
    ensures whole { tail result.0.now ≡ [] }
    ensures behind { lines result.1.now ≡ behind_graph (lines text.now) }
    ensures within { length result.0.now ≤ length text.now }
{
    let mut left = text;
    'lines: while let Some((line, behind)) = first_line(left) {
        if !is_graph_line(line) {
            return (&text[..text.len() - left.len()], left);
        }
        left = behind;
    }
    (&text[..text.len() - left.len()], left)
}

/// Whether each line has a form of those of a graph's text.
pub fn have_forms(alloc: Global, text: &[u8]) -> Result<bool, NoMemory>
    ensures { IfOk result (λ all. all ≡ list_all has_form (lines text.now)) }
{
    let mut left = text;
    'lines: while let Some((line, behind)) = first_line(left) {
        if !has_form(alloc, line)? {
            return Ok(false);
        }
        left = behind;
    }
    Ok(true)
}

fn has_form(alloc: Global, line: &[u8]) -> Result<bool, NoMemory>
    ensures { IfOk result (λ has. has ≡ has_form line.now) }
{
    Ok(node_line(alloc, line)?.is_some() || target_word(line).is_some())
}

/// The graph that lines show, or `None` where they are the text of no sound graph. No line feed is missing.
pub fn read_graph(alloc: Global, text: &[u8]) -> Result<Option<Graph>, NoMemory>
    requires whole { tail text.now ≡ [] }
    requires few { length text.now < 2 ^ 31 }
    ensures { IfOk result (λ graph. graph ≡ graph_in (lines text.now)) }
{
    let nodes = read_nodes(alloc, text)?;
    if !(paths_rise(nodes.as_slice()) && are_sound(nodes.as_slice())) {
        return Ok(None);
    }
    let graph = draw(alloc, nodes, text)?;
    if is_shown(alloc, &graph, text)? {
        Ok(Some(graph))
    } else {
        Ok(None)
    }
}

/// Whether a text is that of a graph, and no node is on a cycle.
fn is_shown(alloc: Global, graph: &Graph, text: &[u8]) -> Result<bool, NoMemory>
    requires whole { tail text.now ≡ [] }
    requires within { All (IsLinkWithin graph.now.nodes) graph.now.links }
    ensures { IfOk result
        (λ is. is ≡ (bytes_eq (drawn_text graph.now) (flat_map ended (lines text.now)) && has_no_cycle graph.now)) }
{
    if is_text_of(alloc, graph, text)? {
        has_no_cycle(alloc, graph)
    } else {
        Ok(false)
    }
}

fn is_text_of(alloc: Global, graph: &Graph, text: &[u8]) -> Result<bool, NoMemory>
    requires { tail text.now ≡ [] }
    ensures { IfOk result (λ is. is ≡ bytes_eq (drawn_text graph.now) (flat_map ended (lines text.now))) }
{
    Ok(graph_text(alloc, graph)?.as_slice() == text)
}

fn has_no_cycle(alloc: Global, graph: &Graph) -> Result<bool, NoMemory>
    requires { All (IsLinkWithin graph.now.nodes) graph.now.links }
    ensures { IfOk result (λ is. is ≡ has_no_cycle graph.now) }
{
    Ok(!has_cycle(alloc, graph)?)
}

/// The graph of these nodes, with the links that the text says. Links are read against the graph without links, which
/// takes the nodes over, so that they are read once more for the graph itself.
pub(crate) fn draw(alloc: Global, nodes: Vec<Node>, text: &[u8]) -> Result<Graph, NoMemory>
    requires few { length text.now < 2 ^ 31 }
    requires nodes { nodes.items ≡ nodes_in (lines text.now) }
    requires rise { paths_rise nodes.items ≡ true }
    ensures { IfOk result (λ graph. graph ≡ drawn (lines text.now)) }
{
    let bare = Graph::build(alloc, nodes, Vec::new(alloc))?;
    let nodes = read_nodes(alloc, text)?;
    let links = read_links(alloc, &bare, text)?;
    Graph::build(alloc, nodes, links)
}

/// The nodes of lines.
pub(crate) fn read_nodes(alloc: Global, text: &[u8]) -> Result<Vec<Node>, NoMemory>
    ensures { IfOk result (λ nodes. nodes.items ≡ nodes_in (lines text.now)) }
{
    let mut nodes = Vec::new(alloc);
    let mut left = text;
    'lines: while let Some((line, behind)) = first_line(left) {
        if let Some(node) = node_line(alloc, line)? {
            nodes.push(node)?;
        }
        left = behind;
    }
    Ok(nodes)
}

/// The links that the lines of ports say, port by port, to nodes of the graph.
fn read_links(alloc: Global, graph: &Graph, text: &[u8]) -> Result<Vec<Link>, NoMemory>
    ensures links { IfOk result (λ links. links.items
        ≡ links_by graph.now.nodes (ports_of graph.now.nodes) (targets_in (lines text.now))) }
{
    let mut links = Vec::new(alloc);
    let mut number = 0;
    let mut left = text;
    'lines: while let Some((line, behind)) = first_line(left) {
        if let Some(word) = target_word(line) {
            if number >= graph.port_count() {
                return Ok(links);
            }
            push_link(&mut links, graph.port(number), target_named(graph, word))?;
            number += 1;
        }
        left = behind;
    }
    Ok(links)
}

fn push_link(links: &mut Vec<Link>, port: Port, target: Option<Target>) -> Result<(), NoMemory>
    ensures { OnOk result (links.new.items ≡ links.old.items ++ link_from port target) }
{
    if let Some(target) = target {
        links.push(Link {
            from: port.node,
            require: port.require,
            to: target.node,
            provide: target.provide,
        })?;
    }
    Ok(())
}

/// What a word for a target names. No kind provides two services, so that the name behind the last dot needn't be read:
/// it is compared with the graph's text.
fn target_named(graph: &Graph, word: &[u8]) -> Option<Target>
    ensures { result ≡ target_named graph.now.nodes word.now }
{
    let node = graph.index_of(path_of(word))?;
    if graph.node(node).kind.provides() > 0 {
        Some(Target { node, provide: 0 })
    } else {
        None
    }
}

/// What stands before the last dot.
fn path_of(word: &[u8]) -> &[u8]
    ensures { result.now ≡ path_of word.now }
{
    &word[..word.len().saturating_sub(behind_dot(word) + 1)]
}

/// How many bytes stand behind the last dot.
fn behind_dot(word: &[u8]) -> usize
    ensures len { result ≡ behind_dot word.now }
    ensures within { result ≤ length word.now }
{
    word.iter().rev().take_while(|byte| **byte != b'.').count()
}

/// Whether paths rise strictly, byte by byte.
fn paths_rise(nodes: &[Node]) -> bool
    ensures { result ≡ paths_rise nodes.now }
{
    let mut rest = nodes;
    'nodes: while rest.len() > 1 {
        if !comes_before(&rest[0], &rest[1]) {
            return false;
        }
        rest = &rest[1..];
    }
    true
}

pub(crate) fn comes_before(node: &Node, next: &Node) -> bool
    ensures { result ≡ comes_before node.now next.now }
{
    node.path.as_bytes().cmp(next.path.as_bytes()).is_lt()
}

fn are_sound(nodes: &[Node]) -> bool
    ensures { result ≡ list_all is_sound_node nodes.now }
{
    nodes.iter().all(|node| is_sound_node(node))
}

/// Whether a node's path is one word, and it has an argument exactly where its kind has one.
pub(crate) fn is_sound_node(node: &Node) -> bool
    ensures { result ≡ is_sound_node node.now }
{
    is_one_piece(node.path.as_bytes()) && fits_kind(node.kind, node.arg)
}

fn is_one_piece(text: &[u8]) -> bool
    ensures { result ≡ is_one_piece text.now }
{
    !text.is_empty() && has_word_bytes(text)
}

fn has_word_bytes(text: &[u8]) -> bool
    ensures { result ≡ list_all is_path_byte text.now }
{
    text.iter().all(|byte| is_path_byte(*byte))
}

fn is_path_byte(byte: u8) -> bool
    ensures { result ≡ is_path_byte byte }
{
    byte != b' ' && byte != b'\n'
}

fn fits_kind(kind: Kind, arg: Option<u32>) -> bool
    ensures { result ≡ fits_kind (is_some (row kind).arg) arg }
{
    match arg {
        Some(arg) => kind.has_arg() && arg < VALUE_LIMIT,
        None => !kind.has_arg(),
    }
}
