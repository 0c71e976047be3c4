//! How much room the text of a report takes, so that its memory is taken once.
//!
//! Room is an estimate by the lengths of names, paths and numbers: each line of a log is taken to be as long as its
//! last. Nothing rests on it but how often memory is taken.

ghost use Rattle.std.specs.Prelude.{◌≤◌};

use config_graph::{Graph, Node};
use quiesce_core::{Deed, NodeEvent};
use report_types::{HistoryLine, Last, NodeLog, Report};

/// The most bytes of a line, names, paths and arguments left out.
const BARE_LINE: usize = 64;

/// The most bytes of an argument, with what parts it from the one before.
const ARGUMENT: usize = 12;

/// The same of a number of a state.
const NUMBER: usize = 21;

/// About how many bytes the text of a report takes.
pub fn text_room(report: &Report) -> usize {
    let mut room = 3 * BARE_LINE;
    for line in report.history.items() {
        room = line_room(line).saturating_add(room);
        // the line above the log of a node has its path once more
        room = path_room(line).saturating_add(room);
    }
    for log in report.logs.items() {
        room = log_room(log).saturating_add(room);
    }
    room
}

fn line_room(line: &HistoryLine) -> usize {
    match line {
        HistoryLine::Start { name, args } | HistoryLine::Change { name, args } => {
            system_room(name.as_bytes(), args.items())
        }
        HistoryLine::Show { graph } => graph_room(graph).saturating_add(BARE_LINE),
        line => path_room(line).saturating_add(BARE_LINE),
    }
}

fn system_room(name: &[u8], args: &[i32]) -> usize {
    name.len()
        .saturating_add(args.len().saturating_mul(ARGUMENT))
        .saturating_add(BARE_LINE)
}

/// The path of the node that a line makes.
fn path_room(line: &HistoryLine) -> usize {
    match line {
        HistoryLine::Make { node, .. } => path_len(node),
        _ => 0,
    }
}

fn path_len(node: &Node) -> usize {
    node.path.as_bytes().len()
}

/// A node's path stands in its own line and in that of each of its ports, of which there are two at most; and in the
/// line of each port that is linked to it.
fn graph_room(graph: &Graph) -> usize {
    let nodes = graph.nodes();
    let mut room = 0usize;
    for node in nodes {
        room = path_len(node)
            .saturating_mul(3)
            .saturating_add(3 * BARE_LINE)
            .saturating_add(room);
    }
    for link in graph.links() {
        if let Some(node) = nodes.get(link.to as usize) {
            room = path_len(node).saturating_add(room);
        }
    }
    room
}

fn log_room(log: &NodeLog) -> usize {
    let mut room = events_room(log.events.items()).saturating_add(2 * BARE_LINE);
    if let Last::State(numbers) = &log.last {
        room = numbers
            .items()
            .len()
            .saturating_mul(NUMBER)
            .saturating_add(room);
    }
    room
}

/// Serials grow, so that hardly a line of a log is longer than the last.
fn events_room(events: &[NodeEvent]) -> usize {
    match events.last() {
        Some(event) => event_room(*event).saturating_mul(events.len()),
        None => 0,
    }
}

fn event_room(event: NodeEvent) -> usize {
    match event.deed() {
        Deed::Begin(message)
        | Deed::Call(message)
        | Deed::Take(message)
        | Deed::Give(message)
        | Deed::End(message)
        | Deed::More(message)
        | Deed::Ask(message)
        | Deed::Hear(message) => three_room(message.port, message.serial, message.value),
        Deed::Miss { .. } => BARE_LINE,
    }
}

/// A verb of at most five bytes, three numbers, and what parts them.
fn three_room(first: u32, second: u32, third: u32) -> usize {
    9 + digits(first) + digits(second) + digits(third)
}

/// The most digits of a number of this size.
fn digits(number: u32) -> usize
    ensures { result ≤ 10 }
{
    match number {
        0..=9 => 1,
        10..=99 => 2,
        100..=999 => 3,
        1_000..=9_999 => 4,
        10_000..=99_999 => 5,
        100_000..=999_999 => 6,
        _ => 10,
    }
}
