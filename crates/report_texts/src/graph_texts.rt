//! Graphs, from their texts.

ghost use Rattle.std.specs.Prelude.{◌≡◌, ◌⊎◌, ◌+◌, ◌<◌, ◌^◌, [], ◌∷◌, false, true, length, bytes_eq, List, ℕ, None, Some, IfErr, IfOk, OnOk, MatchOption};
ghost use Rattle.std.specs.Option.{option_map_or};
ghost use Rattle.config_graph.specs.Cycles.{graph_wiring};
ghost use Rattle.config_graph.specs.Wiring.{HasNoCycle};
ghost use Rattle.config_graph.specs.GraphText.{graph_text as drawn_text};
ghost use Rattle.report_texts.specs.GraphFaults.{IsFirstCycle, IsGraphFault, first_bad, first_unlike, last_after, line_at_fault, line_fits, node_fits, open_end};
ghost use Rattle.report_texts.specs.GraphTexts.{comes_before, drawn};
ghost use Rattle.report_texts.specs.ReportTexts.{IsGraphText};
ghost use Rattle.report_texts.specs.TextLines.{lines, tail};

use crate::graphs::{comes_before, draw, is_sound_node, read_nodes};
use crate::rest::{first_line, has_no_line};
use config_graph::{Graph, NoMemory, Node, Text, first_on_cycle, graph_text};
use report_lines::{node_line, target_word};
use std::alloc::{AllocError, AllocFailed, Global};

/// Why a text is that of no graph.
#[derive(Drop)]
pub enum GraphFault {
    /// The first line that can't stand where it does, by its number from 1: it has no form of a graph's line, its node has
    /// an argument that its kind hasn't or lacks one, its path doesn't come after the one before it, or the graph that
    /// the lines draw has another line there. Bytes behind the last line feed are a fault of the line that they would be.
    BadLine(u32),
    /// The first node that is on a cycle of dependent services, by its path.
    DependsCycle(Text),
    NoMemory,
}

impl From<AllocError> for GraphFault {
    ghost use Rattle.std.specs.Prelude.{◌≡◌};
    ghost use Rattle.report_texts.specs.declared.graph_texts.GraphFault.TheVariants.{NoMemory};

    ghost from_gives = { λ _ e. e ≡ NoMemory };

    fn from(_error: AllocError) -> GraphFault {
        GraphFault::NoMemory
    }
}

impl<T: Drop> From<AllocFailed<T>> for GraphFault {
    ghost use Rattle.std.specs.Prelude.{◌≡◌};
    ghost use Rattle.report_texts.specs.declared.graph_texts.GraphFault.TheVariants.{NoMemory};

    ghost from_gives = { λ _ e. e ≡ NoMemory };

    fn from(_failed: AllocFailed<T>) -> GraphFault {
        GraphFault::NoMemory
    }
}

/// The graph whose text this is, as a line `show` of a report has it behind it, or what is at fault. The empty text is
/// that of the graph without nodes.
pub fn parse_graph(alloc: Global, text: &[u8]) -> Result<Graph, GraphFault>
    requires few { length text.now < 2 ^ 31 }
    ensures graph { IfOk result (IsGraphText text.now) }
    ensures fault { IfErr result (λ e. (e ≡ GraphFault.NoMemory) ⊎ IsGraphFault text.now e) }
{
    check_lines(alloc, text)?;
    let nodes = read_nodes(alloc, text)?;
    let graph = draw(alloc, nodes, text)?;
    check_text(alloc, &graph, text)?;
    check_cycles(alloc, &graph)?;
    Ok(graph)
}

/// That each line of a text fits, and none is left without its line feed.
fn check_lines(alloc: Global, text: &[u8]) -> Result<(), GraphFault>
    requires few { length text.now < 2 ^ 31 }
    ensures fit { OnOk result (first_bad 1 None (lines text.now) ≡ None) }
    ensures whole { OnOk result (tail text.now ≡ []) }
    ensures fault { IfErr result (λ e. (e ≡ GraphFault.NoMemory) ⊎ IsGraphFault text.now e) }
{
    if let Some(number) = first_bad(alloc, text)? {
        return Err(GraphFault::BadLine(number));
    }
    match open_end(text) {
        Some(number) => Err(GraphFault::BadLine(number)),
        None => Ok(()),
    }
}

/// The number of the first line that doesn't fit.
fn first_bad(alloc: Global, text: &[u8]) -> Result<Option<u32>, NoMemory>
    requires few { length text.now < 2 ^ 31 }
    ensures { IfOk result (λ found. found ≡ first_bad 1 None (lines text.now)) }
{
    let mut last = None;
    let mut number = 1;
    let mut left = text;
    'lines: while let Some((line, behind)) = first_line(left) {
        if !advance(alloc, &mut last, line)? {
            return Ok(Some(number));
        }
        number += 1;
        left = behind;
    }
    Ok(None)
}

/// Whether a line fits behind the last node, which is then the one of this line.
fn advance(alloc: Global, last: &mut Option<Node>, line: &[u8]) -> Result<bool, NoMemory>
    ensures fits { IfOk result (λ fits. fits ≡ line_fits last.old line.now) }
    ensures last { OnOk result (last.new ≡ last_after last.old line.now) }
{
    match node_line(alloc, line)? {
        Some(node) => {
            let fits = node_fits(last, &node);
            *last = Some(node);
            Ok(fits)
        }
        None => Ok(target_word(line).is_some()),
    }
}

fn node_fits(last: &Option<Node>, node: &Node) -> bool
    ensures { result ≡ node_fits last.now node.now }
{
    is_sound_node(node) && comes_after(last, node)
}

fn comes_after(last: &Option<Node>, node: &Node) -> bool
    ensures { result ≡ option_map_or (λ last. comes_before last node.now) last.now true }
{
    match last {
        Some(last) => comes_before(last, node),
        None => true,
    }
}

/// The number that the line without its line feed would have, where there is one at the end.
fn open_end(text: &[u8]) -> Option<u32>
    requires few { length text.now < 2 ^ 31 }
    ensures { result ≡ open_end (length (lines text.now) + 1) (tail text.now) }
{
    let mut number = 1;
    let mut left = text;
    'lines: while let Some((_, behind)) = first_line(left) {
        number += 1;
        left = behind;
    }
    if left.is_empty() { None } else { Some(number) }
}

/// That the text is that of a graph.
fn check_text(alloc: Global, graph: &Graph, text: &[u8]) -> Result<(), GraphFault>
    requires few { length text.now < 2 ^ 31 }
    requires fit { first_bad 1 None (lines text.now) ≡ None }
    requires whole { tail text.now ≡ [] }
    requires drawn { graph.now ≡ drawn (lines text.now) }
    ensures alike { OnOk result (line_at_fault text.now ≡ None) }
    ensures fault { IfErr result (λ e. (e ≡ GraphFault.NoMemory) ⊎ IsGraphFault text.now e) }
{
    let wanted = graph_text(alloc, graph)?;
    match first_unlike(text, wanted.as_slice()) {
        Some(number) => Err(GraphFault::BadLine(number)),
        None => Ok(()),
    }
}

/// The number of the first line in which two texts differ.
fn first_unlike(text: &[u8], other: &[u8]) -> Option<u32>
    requires few { length text.now < 2 ^ 31 }
    ensures { result ≡ first_unlike 1 (lines text.now) (lines other.now) }
{
    let mut number = 1;
    let mut left = text;
    let mut right = other;
    'lines: while let Some((line, behind)) = first_line(left) {
        let Some(after) = after_line(right, line) else {
            return Some(number);
        };
        number += 1;
        left = behind;
        right = after;
    }
    if has_no_line(right) {
        None
    } else {
        Some(number)
    }
}

/// What stands behind the first line of a text, where that is this line.
fn after_line<'a>(text: &'a [u8], line: &[u8]) -> Option<&'a [u8]>
    ensures { MatchOption result
        ((first : List ℕ) (more : List (List ℕ)) → lines text.now ≡ first ∷ more → bytes_eq line.now first ≡ false)
        (λ after. lines text.now ≡ line.now ∷ lines after.now) }
{
    let (first, after) = first_line(text)?;
    if first == line { Some(after) } else { None }
}

/// That no node of a graph is on a cycle.
fn check_cycles(alloc: Global, graph: &Graph) -> Result<(), GraphFault>
    ensures none { OnOk result (HasNoCycle (graph_wiring graph.now)) }
    ensures fault { IfErr result (λ e. (e ≡ GraphFault.NoMemory) ⊎ IsFirstCycle graph.now e) }
{
    match first_on_cycle(alloc, graph)? {
        Some(node) => Err(GraphFault::DependsCycle(graph.node(node).path.try_clone()?)),
        None => Ok(()),
    }
}
