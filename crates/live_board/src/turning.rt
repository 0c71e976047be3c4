//! The turns that a scan gives.

ghost use Rattle.std.specs.Prelude.{◌≡◌, ◌≤◌, ◌<◌, IfOk};
ghost use Rattle.config_graph.specs.declared.TheConstants.{MAX_NODES};
ghost use Rattle.live_board.specs.Turning.{GaveTurn, GaveTurns, ways};
ghost use Rattle.live_board.specs.Turning as turning;
ghost use Rattle.txn_gate.specs.Seats.{record_of};
ghost use Rattle.txn_records.specs.Entries.{config_of};

use crate::stile::Turnstile;
use config_graph::NoMemory;
use live_hall::{Door, Named};
use live_hands::Hand;
use node_host::Turn;
use std::sync::Wait;
use txn_gate::{ChangeSeat, Gates};

fn has_moved(turn: &Turn) -> bool
    ensures { result ≡ turning.has_moved turn.now }
{
    matches!(turn, Turn::Moved(_))
}

/// Gives the node of a slot a turn, where it lies in the hall. Tells whether it moved. After want of memory the node lies
/// there again.
fn give_turn<J: Named, R: Wait, T: Turnstile>(
    gates: &Gates,
    door: &mut Door<J, R>,
    hand: &mut Hand<R>,
    stile: &T,
    slot: u32,
    begins: bool,
) -> Result<bool, NoMemory>
    requires named { J.gates ≡ gates.now.words.shared.table_id }
    requires slot { slot < MAX_NODES }
    ensures { IfOk result (GaveTurn J.gates begins slot (ways door.old hand.old) (ways door.new hand.new)) }
{
    let Some(mut guest) = door.take(slot) else {
        return Ok(false);
    };
    stile.before(0, slot);
    let turn = guest.turn(gates, hand, begins);
    door.put(guest);
    Ok(has_moved(&turn?))
}

/// Gives each live node that lies in the hall a turn, in the order of slots. Tells whether one moved.
pub fn give_turns<J: Named, R: Wait, T: Turnstile>(
    gates: &Gates,
    seat: &ChangeSeat,
    door: &mut Door<J, R>,
    hand: &mut Hand<R>,
    stile: &T,
    slots: u32,
    begins: bool,
) -> Result<bool, NoMemory>
    requires named { J.gates ≡ gates.now.words.shared.table_id }
    requires few { slots ≤ MAX_NODES }
    ensures { IfOk result (GaveTurns J.gates (config_of (record_of seat.now)) begins (ways door.old hand.old) slots
        (ways door.new hand.new)) }
{
    let mut moved = false;
    for slot in 0..slots {
        if seat.is_live(slot) {
            let more = give_turn(gates, door, hand, stile, slot, begins)?;
            moved = moved | more;
        }
    }
    Ok(moved)
}
