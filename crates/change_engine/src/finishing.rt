//! Running a system until its nodes are done.

ghost use Rattle.std.specs.Prelude.{◌≡◌, ◌≤◌, IfOk, OnErr, OnOk};
ghost use Rattle.change_engine.specs.Breaking.{BrokeInRun};
ghost use Rattle.change_engine.specs.Finishing as finishing;
ghost use Rattle.change_engine.specs.Growing.{telling};
ghost use Rattle.change_engine.specs.Finishing.{Finished, Scans};

use change_board::{Board, Scan};
use config_graph::NoMemory;
use report_types::HistoryLine;

/// One for a scan that is a round, none for one that moved nothing and saw all at rest.
fn count_of(scan: Scan) -> u32
    ensures value { result ≡ finishing.count_of scan }
    ensures few { result ≤ 1 }
{
    if !scan.moved && scan.done { 0 } else { 1 }
}

/// Whether a finish ends with this scan: all was seen at rest, or nothing moved where nodes take turns in scans alone.
fn ends_finish(alone: bool, scan: Scan) -> bool
    ensures { result ≡ finishing.ends_finish alone scan }
{
    scan.done || alone && !scan.moved
}

/// Scans at most so often, and gives how many of the scans were rounds.
fn make_scans<B: Board>(board: &mut B, n: u32) -> Result<u32, NoMemory>
    ensures ok { IfOk result (λ rounds. Scans B.Board board.old board.new n rounds) }
    ensures room { OnOk result (B.room board.new ≡ B.room board.old) }
    ensures err { OnErr result (BrokeInRun B.Board board.old board.new) }
{
    let alone = board.is_alone();
    let mut rounds = 0;
    for _made in 0..n {
        let seen = board.scan(true)?;
        rounds += count_of(seen);
        if ends_finish(alone, seen) {
            return Ok(rounds);
        }
    }
    Ok(rounds)
}

/// Scans until all was seen at rest, at most so often, and until a scan moved nothing where nodes take turns in scans
/// alone. Tells how many rounds that were.
pub fn finish<B: Board>(
    board: &mut B,
    history: &mut Vec<HistoryLine>,
    n: u32,
) -> Result<u32, NoMemory>
    ensures ok { IfOk result
        (λ rounds. Finished B.Board (telling board.old history.old.items)
        (telling board.new history.new.items) n rounds) }
    ensures room { OnOk result (B.room board.new ≡ B.room board.old) }
    ensures err { OnErr result (BrokeInRun B.Board board.old board.new) }
    ensures untold { OnErr result (history.new.items ≡ history.old.items) }
{
    let rounds = make_scans(board, n)?;
    history.push(HistoryLine::Finish { n, rounds })?;
    Ok(rounds)
}
