//! The stop of a system, and its report.

ghost use Rattle.std.specs.Prelude.{◌≡◌, ◌<◌, ◌^◌, ◌-◌, length, List, IfOk};
ghost use Rattle.std.specs.List.{list_any};
ghost use Rattle.change_spec.specs.Endings as endings;
ghost use Rattle.change_spec.specs.Members as members;
ghost use Rattle.txn_records.specs.declared.entry.Entry.{Entry};
ghost use Rattle.change_engine.specs.Ending.{is_finish_line, unfinished_after};
ghost use Rattle.change_lists.specs.Layouts.{live_at};
ghost use Rattle.change_engine.specs.Growing.{telling};
ghost use Rattle.change_engine.specs.Stopping.{AreAllLive, Stops};

use crate::stopping;
use change_board::{Board, Collected};
use change_lists::Layout;
use config_graph::{List, NoMemory};
use report_types::{HistoryLine, Report};

/// Stops the nodes, and takes all logs in.
pub(crate) fn take_logs<B: Board>(
    board: &mut B,
    history: &mut Vec<HistoryLine>,
    layout: &Layout,
) -> Result<Collected, NoMemory>
    requires few { length layout.now.ports.items < 2 ^ 32 }
    requires all { (r : List Entry) × B.stands_for board.old r
        × AreAllLive r (live_at layout.now.places.items layout.now.ports.items) }
    ensures ok { IfOk result
        (λ x. Stops B.Board (telling board.old history.old.items) (telling board.new history.new.items)
        (live_at layout.now.places.items layout.now.ports.items) (2 ^ 64 - 1) x) }
{
    let alloc = *history.allocator();
    let ports = layout.live_ports(alloc)?;
    stopping::stop(alloc, board, history, &ports)
}

fn is_finish(line: &HistoryLine) -> bool
    ensures { result ≡ is_finish_line line.now }
{
    matches!(line, HistoryLine::Finish { .. })
}

fn is_pending(line: &HistoryLine) -> bool
    ensures { result ≡ members.is_pending line.now }
{
    matches!(line, HistoryLine::Pending { .. })
}

fn has_finish(history: &[HistoryLine]) -> bool
    ensures { result ≡ list_any is_finish_line history.now }
{
    history.iter().any(|line| is_finish(line))
}

fn has_pending(history: &[HistoryLine]) -> bool
    ensures { result ≡ list_any members.is_pending history.now }
{
    history.iter().any(|line| is_pending(line))
}

/// 7 where a change was given up, else 8 where a node is named that isn't done, else 0.
fn status_of(history: &[HistoryLine], unfinished: Option<u32>) -> u8
    ensures { result ≡ endings.status_of history.now unfinished }
{
    if has_pending(history) {
        7
    } else if unfinished.is_some() {
        8
    } else {
        0
    }
}

/// The node that isn't done, where the history has a finish.
fn unfinished_of(history: &[HistoryLine], undone: Option<u32>) -> Option<u32>
    ensures { result ≡ unfinished_after history.now undone }
{
    if has_finish(history) { undone } else { None }
}

/// The report of a system that was stopped.
pub(crate) fn report_of(history: Vec<HistoryLine>, given: Collected) -> Report
    ensures history { result.history ≡ history.items }
    ensures logs { result.logs ≡ given.logs }
    ensures unfinished { result.unfinished ≡ unfinished_after history.items given.undone }
    ensures status { result.status ≡ endings.status_of result.history result.unfinished }
{
    let unfinished = unfinished_of(&history, given.undone);
    let status = status_of(&history, unfinished);
    Report {
        history: List::of(history),
        logs: given.logs,
        unfinished,
        status,
    }
}
