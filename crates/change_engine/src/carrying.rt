//! Events of a change that are done on a board and told in the history.

ghost use Rattle.std.specs.Prelude.{◌≡◌, ◌+◌, ◌≤◌, ◌++◌, List, vec_capacity, vec_len};
ghost use Rattle.txn_records.specs.declared.entry.Entry.{Entry};
ghost use Rattle.change_board.specs.Steps.{HasRoomForAll, MayDoAll};
ghost use Rattle.change_engine.specs.Carrying.{CarriesOut};
ghost use Rattle.change_spec.specs.Members.{lines_of_events};
ghost use Rattle.change_engine.specs.Growing.{telling};
ghost use Rattle.report_types.specs.declared.report.HistoryLine.{HistoryLine};

use change_board::{Board, do_steps};
use quiesce_core::Event;
use report_types::HistoryLine;

/// Does these events, in order, and appends lines to the history: the events' own lines, between others that are said
/// before and behind them. It can't fail, and takes no memory.
pub(crate) fn do_and_tell<B: Board>(
    board: &mut B,
    history: &mut Vec<HistoryLine>,
    events: Vec<Event>,
    lines: &mut Vec<HistoryLine>,
)
    requires may { (r : List Entry) × B.stands_for board.old r × MayDoAll r events.items }
    requires room { HasRoomForAll (B.room board.old) events.items }
    requires place { vec_len history.old + vec_len lines.old ≤ vec_capacity history.old }
    ensures { (head tail : List HistoryLine) → lines.old.items ≡ head ++ lines_of_events events.items ++ tail
        → CarriesOut B.Board (telling board.old history.old.items) (telling board.new history.new.items)
        head events.items tail }
{
    do_steps(board, events);
    // There is place for them, so that it can't fail.
    let _ = history.append(lines);
}
