//! The start of a system on a board.

ghost use Rattle.std.specs.Prelude.{◌≡◌, ◌≤◌, ◌∷◌, ◌++◌, [], length, map, Some, IfOk, OnOk};
ghost use Rattle.std.specs.List.{range_with_len};
ghost use Rattle.config_graph.specs.Graph.{IsGraph, ports};
ghost use Rattle.config_graph.specs.Sound.{Sound};
ghost use Rattle.config_graph.specs.declared.TheConstants.{MAX_NODES, MAX_PORTS};
ghost use Rattle.change_spec.specs.Members.{lines_of_events};
ghost use Rattle.report_types.specs.declared.report.HistoryLine.TheVariants as to;
ghost use Rattle.change_engine.specs.Growing.{telling};
ghost use Rattle.change_engine.specs.Beginning.{StartsSystem};

use crate::carrying::do_and_tell;
use crate::laws::starts_may_be_done;
use crate::telling::push_lines;
use change_board::Board;
use change_lists::{Layout, list_start};
use config_graph::{Graph, List, NoMemory, Text};
use quiesce_core::Event;
use report_types::HistoryLine;
use std::alloc::Global;

/// What a start leaves beside the board.
#[derive(Drop)]
pub(crate) struct Begun {
    pub history: Vec<HistoryLine>,
    pub layout: Layout,
}

/// The lines of a start with these events.
fn list_lines(
    alloc: Global,
    name: Text,
    args: Vec<i32>,
    events: &[Event],
) -> Result<Vec<HistoryLine>, NoMemory>
    ensures { IfOk result (λ lines. lines.items
        ≡ (to.Start name args.items ∷ []) ++ lines_of_events events.now ++ to.Commit ∷ []) }
{
    let mut lines = Vec::new(alloc);
    lines.push(HistoryLine::Start {
        name,
        args: List::of(args),
    })?;
    push_lines(&mut lines, events)?;
    lines.push(HistoryLine::Commit)?;
    Ok(lines)
}

/// Makes, links and opens all of a graph on a board on which nothing was made.
pub(crate) fn begin<B: Board>(
    alloc: Global,
    board: &mut B,
    name: Text,
    args: Vec<i32>,
    graph: &Graph,
) -> Result<Begun, NoMemory>
    requires sound { Sound graph.now }
    requires few_nodes { length graph.now.nodes ≤ MAX_NODES }
    requires few_ports { length (ports graph.now.nodes) ≤ MAX_PORTS }
    requires nothing_made { B.stands_for board.old [] }
    ensures begins { IfOk result
        (λ x. StartsSystem B.Board board.old (telling board.new x.history.items) name args.items graph.now) }
    ensures is_graph { OnOk result (IsGraph graph.now) }
    ensures places { IfOk result (λ x. x.layout.places.items ≡ map Some (range_with_len 0 (length graph.now.nodes))) }
    ensures ports { IfOk result (λ x. x.layout.ports.items ≡ ports graph.now.nodes) }
{
    starts_may_be_done();
    let layout = Layout::of(alloc, graph)?;
    let events = list_start(alloc, graph)?;
    let mut lines = list_lines(alloc, name, args, &events)?;
    let mut history = Vec::with_capacity(alloc, lines.len())?;
    board.reserve(graph.node_count())?;
    do_and_tell(board, &mut history, events, &mut lines);
    Ok(Begun { history, layout })
}
