//! Stopping a system.

ghost use Rattle.std.specs.Prelude.{◌≡◌, ◌⊎◌, ◌+◌, ◌*◌, ◌-◌, ◌^◌, ◌<◌, [], length, List, IfOk, OnErr};
ghost use Rattle.txn_records.specs.declared.entry.Entry.{Entry};
ghost use Rattle.change_engine.specs.Breaking.{BrokeInStop};
ghost use Rattle.change_engine.specs.Growing.{Grew, telling};
ghost use Rattle.change_engine.specs.Stopping.{AreAllLive, Stops};

use crate::passivating::{Waiting, passivate, put};
use change_board::{Board, Collected};
use config_graph::NoMemory;
use report_types::HistoryLine;
use std::alloc::{AllocError, Global};

/// How many lines a stop tells: its own, and for each port two.
fn line_count(ports: &[u32]) -> usize
    ensures { result < 2 ^ 64 - 1 → result ≡ 2 * length ports.now + 1 }
{
    ports.len().saturating_mul(2).saturating_add(1)
}

/// Closes the ports of all live nodes, makes rounds until each was found drained, and takes all logs in. Where
/// 2^64 - 1 rounds leave a root, that is answered as want of memory.
pub fn stop<B: Board>(
    alloc: Global,
    board: &mut B,
    history: &mut Vec<HistoryLine>,
    ports: &[u32],
) -> Result<Collected, NoMemory>
    requires all { (r : List Entry) × B.stands_for board.old r × AreAllLive r ports.now }
    ensures ok { IfOk result
        (λ x. Stops B.Board (telling board.old history.old.items) (telling board.new history.new.items)
        ports.now (2 ^ 64 - 1) x) }
    ensures closes_alone { OnErr result (Grew B.Board (telling board.old history.old.items)
        (telling board.new history.new.items) []
        ⊎ BrokeInStop B.Board (telling board.old history.old.items)
        (telling board.new history.new.items) ports.now
        (2 ^ 64 - 1)) }
{
    let mut waiting = Waiting::with_capacity(alloc, ports.len())?;
    history.reserve(line_count(ports))?;
    put(history, HistoryLine::Stop);
    passivate(board, history, ports, &mut waiting, u64::MAX)?;
    if waiting.left.is_empty() {
        return board.collect();
    }
    Err(AllocError)
}
