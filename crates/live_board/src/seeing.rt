//! What a scan sees of nodes.

ghost use Rattle.std.specs.Prelude.{◌≡◌, ◌≤◌, ◌<◌, List, [], ◌∷◌, ◌++◌, map, length};
ghost use Rattle.change_board.specs.Sights.{Sight};
ghost use Rattle.component_trait.specs.Moves as moves;
ghost use Rattle.config_graph.specs.declared.TheConstants.{MAX_NODES};
ghost use Rattle.live_board.specs.Lengths.{AreLengths, noted};
ghost use Rattle.live_board.specs.Seeing.{SawNodes, SeatGoesOn, SeesNode, sights_of};
ghost use Rattle.live_board.specs.Turning.{LookedAt};
ghost use Rattle.live_hall.specs.Houses.{IsAt, tables_of};
ghost use Rattle.txn_gate.specs.Seats.{IsChangeSeatOf, record_of};
ghost use Rattle.txn_records.specs.Entries.{config_of};
ghost use Rattle.txn_records.specs.Records.{IsRecord};

use crate::{
    done_nodes_are_seen_as_done, lines_share_no_node, live_nodes_end_their_lines,
    seats_tell_of_their_line,
};
use component_trait::Component;
use live_hall::{BoxedGuest, Door, Guest, Named};
use node_host::Past;
use state_handover::AnyNode;
use std::sync::Wait;
use txn_gate::{ChangeSeat, Gates, NodeSeat};

/// Notes how long a node's log is, where nothing was noted of it before.
fn note(lengths: &mut Vec<Option<usize>>, slot: u32, count: usize)
    ensures { lengths.new.items ≡ noted lengths.old.items slot count }
{
    let at = slot as usize;
    if at < lengths.len() && lengths[at].is_none() {
        lengths[at] = Some(count);
    }
}

/// Notes how long the logs of these are.
fn note_past(lengths: &mut Vec<Option<usize>>, past: &Vec<Past<NodeSeat>>)
    ensures lengths { (before : List Sight) → AreLengths before lengths.old.items
        → AreLengths (before ++ map (λ p. record { slot = p.slot; events = p.log.items }) past.now.items) lengths.new.items }
    ensures count { length lengths.new.items ≡ length lengths.old.items }
{
    for at in 0..past.len() {
        let node = &past[at];
        note(lengths, node.slot, node.log.len());
    }
}

/// Notes how long the logs of a node's line are.
fn note_line(lengths: &mut Vec<Option<usize>>, guest: &Guest)
    ensures lengths { (before : List Sight) → AreLengths before lengths.old.items
        → AreLengths (before ++ sights_of guest.now) lengths.new.items }
    ensures count { length lengths.new.items ≡ length lengths.old.items }
{
    note_past(lengths, &guest.node.past);
    note(lengths, guest.node.slot, guest.node.log.len());
}

/// Looks at a node, and sights it with its line where it is done.
fn see_guest(
    gates: &Gates,
    seat: &mut ChangeSeat,
    lengths: &mut Vec<Option<usize>>,
    guest: &mut BoxedGuest,
) -> bool
    requires here { IsChangeSeatOf seat.old gates.now }
    requires at { IsAt gates.now.words.shared.table_id guest.old }
    requires known { IsRecord (record_of seat.old) }
    ensures seat { SeatGoesOn seat.old seat.new }
    ensures tables { tables_of guest.new ≡ tables_of guest.old }
    ensures slot { guest.new.node.slot ≡ guest.old.node.slot }
    ensures count { length lengths.new.items ≡ length lengths.old.items }
    ensures seen { SeesNode (config_of (record_of seat.old)) (record_of seat.old) (record_of seat.new) lengths.old.items
        lengths.new.items guest.old.node.slot result }
    ensures done { result ≡ moves.is_done (⟦<AnyNode as Component>⟧.state guest.old.node.inner) }
{
    let shown = guest.guest();
    let done = shown.node.done();
    if done {
        seats_tell_of_their_line();
        done_nodes_are_seen_as_done();
        note_line(lengths, shown);
        guest.sight(gates, seat);
    }
    done
}

/// Looks at the node of a slot, where it lies in the hall. Tells whether it does and is done.
fn see_node<J: Named, R: Wait>(
    gates: &Gates,
    seat: &mut ChangeSeat,
    door: &mut Door<J, R>,
    lengths: &mut Vec<Option<usize>>,
    slot: u32,
) -> bool
    requires here { IsChangeSeatOf seat.old gates.now }
    requires named { J.gates ≡ gates.now.words.shared.table_id }
    requires slot { slot < MAX_NODES }
    requires known { IsRecord (record_of seat.old) }
    ensures seat { SeatGoesOn seat.old seat.new }
    ensures count { length lengths.new.items ≡ length lengths.old.items }
    ensures seen { SeesNode (config_of (record_of seat.old)) (record_of seat.old) (record_of seat.new) lengths.old.items
        lengths.new.items slot result }
    ensures looked { LookedAt ⟦<AnyNode as Component>⟧.state J.gates slot door.old door.new result }
{
    let Some(mut guest) = door.take(slot) else {
        return false;
    };
    let done = see_guest(gates, seat, lengths, &mut guest);
    door.put(guest);
    done
}

/// Looks at each live node that lies in the hall. Tells whether all were seen and are done.
pub fn see_nodes<J: Named, R: Wait>(
    gates: &Gates,
    seat: &mut ChangeSeat,
    door: &mut Door<J, R>,
    lengths: &mut Vec<Option<usize>>,
    slots: u32,
) -> bool
    requires here { IsChangeSeatOf seat.old gates.now }
    requires named { J.gates ≡ gates.now.words.shared.table_id }
    requires few { slots ≤ MAX_NODES }
    requires known { IsRecord (record_of seat.old) }
    requires fresh { AreLengths [] lengths.old.items }
    ensures seat { SeatGoesOn seat.old seat.new }
    ensures count { length lengths.new.items ≡ length lengths.old.items }
    ensures seen { SawNodes ⟦<AnyNode as Component>⟧.state J.gates (config_of (record_of seat.old))
        (record_of seat.old) (record_of seat.new) lengths.new.items door.old door.new slots result }
{
    lines_share_no_node();
    live_nodes_end_their_lines();
    let mut done = true;
    for slot in 0..slots {
        if seat.is_live(slot) {
            let seen = see_node(gates, seat, door, lengths, slot);
            done = done & seen;
        }
    }
    done
}
