//! Running a system until so many transactions have ended.

ghost use Rattle.std.specs.Prelude.{◌≡◌, ◌≤◌, length, List, IfOk, OnErr, OnOk};
ghost use Rattle.txn_records.specs.Entries.{config_of};
ghost use Rattle.txn_records.specs.declared.entry.Entry.{Entry};
ghost use Rattle.change_engine.specs.Breaking.{BrokeInRun};
ghost use Rattle.change_engine.specs.Running as running;
ghost use Rattle.change_engine.specs.Running.{Counts, ScansUntil};

use change_board::{Board, Scan};
use config_graph::NoMemory;
use quiesce_word::Word;
use std::alloc::AllocError;
use txn_records::Look;

/// How many transactions a look shows as ended.
fn ended_by(look: Look) -> u32
    ensures { result ≡ running.ended_by look }
{
    let (serial, idle) = match look {
        Look::Drained { serial, idle } => (serial, idle),
        Look::Busy { word } => {
            let fields = Word::of(word);
            (fields.serial, fields.phase.is_idle())
        }
    };
    if idle {
        serial
    } else {
        serial.saturating_sub(1)
    }
}

/// Whether a run ends with this scan: where nodes take turns in scans alone it moved nothing, and elsewhere it saw all
/// at rest.
fn ends_run(alone: bool, scan: Scan) -> bool
    ensures { result ≡ running.ends_run alone scan }
{
    if alone { !scan.moved } else { scan.done }
}

/// Looks at each of the first so many ports, and counts the transactions that they show as ended.
pub(crate) fn count_ended<B: Board>(board: &mut B, ports: u32) -> u64
    requires made { (r : List Entry) × B.stands_for board.old r × (ports ≤ length (config_of r).gates) }
    ensures counts { Counts B.Board board.old board.new ports result }
    ensures room { B.room board.new ≡ B.room board.old }
{
    let mut ended = 0u64;
    for port in 0..ports {
        ended += u64::from(ended_by(board.look(port)));
    }
    ended
}

/// Scans until the ports show `k` transactions as ended more than are given, or a scan is the last. Where 2^64 - 1
/// scans don't come to that, it is answered as want of memory.
pub(crate) fn scan_until<B: Board>(board: &mut B, shown: u64, k: u32) -> Result<u64, NoMemory>
    ensures ok { IfOk result (λ ended. ScansUntil B.Board board.old board.new shown k ended) }
    ensures room { OnOk result (B.room board.new ≡ B.room board.old) }
    ensures err { OnErr result (BrokeInRun B.Board board.old board.new) }
{
    let alone = board.is_alone();
    let mut ended = 0u64;
    for _scan in 0..u64::MAX {
        if u64::from(k) <= ended {
            return Ok(ended);
        }
        let seen = board.scan(true)?;
        ended = seen.ended.saturating_sub(shown);
        if ends_run(alone, seen) {
            return Ok(ended);
        }
    }
    Err(AllocError)
}
