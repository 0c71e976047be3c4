//! Waiting for the ports that a change closed to drain.

ghost use Rattle.std.specs.Prelude.{◌≡◌, ◌≤◌, ◌<◌, ◌+◌, ◌*◌, ◌++◌, [], List, map, length, IfErr, OnErr, OnOk, vec_capacity, vec_len};
ghost use Rattle.txn_records.specs.Entries.{config_of};
ghost use Rattle.txn_records.specs.declared.entry.Entry.{Entry};
ghost use Rattle.change_engine.specs.Breaking.{BrokeInRound};
ghost use Rattle.change_engine.specs.Draining.{Waits, WhereNoMemory, WherePending, left_lines, root_line};
ghost use Rattle.change_engine.specs.Growing.{telling};
ghost use Rattle.change_engine.specs.Passivating.{AreLivePorts, HasPlaceFor};

use crate::passivating::{LeftRoot, Waiting, passivate, put};
use change_board::Board;
use config_graph::{List as Items, NoMemory};
use report_types::HistoryLine;
use std::alloc::AllocError;

/// Why a change can't be committed.
#[derive(Drop)]
pub enum PassError {
    /// After so many rounds these roots were left.
    Pending { rounds: u32, left: Items<LeftRoot> },
    /// Memory ran out.
    NoMemory,
}

impl From<AllocError> for PassError {
    ghost use Rattle.std.specs.Prelude.{◌≡◌};
    ghost use Rattle.change_engine.specs.declared.draining.PassError.TheVariants.{NoMemory};

    ghost from_gives = { λ _ e. e ≡ NoMemory };

    fn from(_error: AllocError) -> PassError {
        PassError::NoMemory
    }
}

/// Tells each root that is left.
fn push_roots(history: &mut Vec<HistoryLine>, left: &[LeftRoot])
    requires place { vec_len history.old + length left.now ≤ vec_capacity history.old }
    ensures lines { history.new.items ≡ history.old.items ++ map root_line left.now }
    ensures len { vec_len history.new ≡ vec_len history.old + length left.now }
    ensures capacity { vec_capacity history.old ≤ vec_capacity history.new }
{
    for root in left {
        put(
            history,
            HistoryLine::Root {
                port: root.port,
                serial: root.serial,
            },
        );
    }
}

/// Tells how many rounds were made, and which roots they left, if they left some.
fn push_pending(history: &mut Vec<HistoryLine>, rounds: u32, left: &[LeftRoot])
    requires place { vec_len history.old + length left.now + 1 ≤ vec_capacity history.old }
    ensures lines { history.new.items ≡ history.old.items ++ left_lines rounds left.now }
    ensures len { vec_len history.new ≤ vec_len history.old + length left.now + 1 }
    ensures capacity { vec_capacity history.old ≤ vec_capacity history.new }
{
    if left.is_empty() {
        return;
    }
    put(history, HistoryLine::Pending { rounds });
    push_roots(history, left);
}

/// Closes these ports, and makes rounds until each was found drained, at most so many. Keeps the roots that are left
/// then, and tells them. Only a scan takes memory.
pub(crate) fn drain<B: Board>(
    board: &mut B,
    history: &mut Vec<HistoryLine>,
    ports: &[u32],
    waiting: &mut Waiting,
    rounds: u32,
) -> Result<(), NoMemory>
    requires live { (r : List Entry) × B.stands_for board.old r × AreLivePorts (config_of r) ports.now }
    requires line_place { vec_len history.old + 2 * length ports.now + 1 ≤ vec_capacity history.old }
    requires place { HasPlaceFor waiting.old (length ports.now) }
    ensures ok { OnOk result (Waits B.Board (telling board.old history.old.items)
        (telling board.new history.new.items) ports.now
        rounds waiting.new.left.items) }
    ensures room { OnOk result (B.room board.new ≡ B.room board.old) }
    ensures len { OnOk result (vec_len history.new ≤ vec_len history.old + 2 * length ports.now + 1) }
    ensures capacity { vec_capacity history.old ≤ vec_capacity history.new }
    ensures err { OnErr result (BrokeInRound B.Board (telling board.old history.old.items)
        (telling board.new history.new.items) ports.now rounds) }
{
    passivate(board, history, ports, waiting, u64::from(rounds))?;
    push_pending(history, rounds, &waiting.left);
    Ok(())
}

/// Pending where roots are left.
pub(crate) fn answer(rounds: u32, left: Vec<LeftRoot>) -> Result<(), PassError>
    ensures ok { OnOk result (left.items ≡ []) }
    ensures pending { IfErr result
        (WherePending (λ k roots. (k ≡ rounds) × (roots ≡ left.items) × (0 < length left.items))) }
    ensures no_memory { IfErr result (WhereNoMemory ⊥) }
{
    if left.is_empty() {
        return Ok(());
    }
    Err(PassError::Pending {
        rounds,
        left: Items::of(left),
    })
}
