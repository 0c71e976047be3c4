//! The end: the seats of all nodes are taken in, and their logs are given.

ghost use Rattle.std.specs.Prelude.{◌≡◌, ℕ, ◌∷◌, [], true, not, find, map, IfOk, OnErr, length, slice_index_or};
ghost use Rattle.std.specs.List.{AllByRecursion};
ghost use Rattle.change_board.specs.Scans.{live_nodes};
ghost use Rattle.config_graph.specs.declared.TheConstants.{MAX_NODES};
ghost use Rattle.live_board.specs.Collecting.{AreTold, Gathers, LiesAt, TookIn, all_views, with_events};
ghost use Rattle.live_board.specs.Heirs.{AreHeirs};
ghost use Rattle.live_board.specs.Keeping.{AreKept};
ghost use Rattle.live_hall.specs.Houses.{IsAt};
ghost use Rattle.live_hall.specs.Sighting.{views_of};
ghost use Rattle.txn_gate.specs.Seats.{IsChangeSeatOf, IsSeatOf, change_in, collected_in, node_in, record_of, table_of_change, table_of_node};
ghost use Rattle.txn_records.specs.Entries.{config_of};
ghost use Rattle.txn_records.specs.Records.{AreAllNoted, IsRecord};

use crate::ends::{Ends, take_ends};
use crate::{lines_have_folds, seats_tell_of_their_line};
use change_board::Collected;
use component_trait::Component;
use config_graph::{List, NoMemory};
use live_hall::{BoxedGuest, Door, Guest, Named};
use node_host::Past;
use quiesce_core::NodeEvent;
use report_types::NodeLog;
use state_handover::AnyNode;
use std::alloc::Global;
use std::sync::Wait;
use txn_gate::{ChangeSeat, Gates, NodeSeat};

/// Puts what a node did into its place.
fn put_log(logs: &mut Vec<NodeLog>, slot: u32, log: Vec<NodeEvent>)
    ensures { logs.new.items ≡ with_events logs.old.items slot log.items }
{
    let at = slot as usize;
    if at < logs.len() {
        logs[at].events = List::of(log);
    }
}

/// Takes a seat in, and puts its node's log into its place.
fn take_node_in(
    gates: &Gates,
    seat: &mut ChangeSeat,
    theirs: NodeSeat,
    log: Vec<NodeEvent>,
    logs: &mut Vec<NodeLog>,
)
    requires here { IsChangeSeatOf seat.old gates.now }
    requires theirs { IsSeatOf theirs gates.now }
    requires drained { AreAllNoted (record_of seat.old) }
    requires told { log.items ≡ (node_in theirs).log }
    ensures { TookIn (node_in theirs ∷ []) seat.old seat.new logs.old.items logs.new.items }
{
    let slot = theirs.slot();
    gates.collect(seat, theirs);
    put_log(logs, slot, log);
}

/// Takes the seats of these in, in order.
fn take_past_in(
    gates: &Gates,
    seat: &mut ChangeSeat,
    past: Vec<Past<NodeSeat>>,
    logs: &mut Vec<NodeLog>,
)
    requires here { IsChangeSeatOf seat.old gates.now }
    requires at { AllByRecursion (λ t. t ≡ gates.now.words.shared.table_id) (map (λ p. table_of_node p.seat) past.items) }
    requires drained { AreAllNoted (record_of seat.old) }
    ensures { TookIn (map (λ p. node_in p.seat) past.items) seat.old seat.new logs.old.items logs.new.items }
{
    for node in past {
        take_node_in(gates, seat, node.seat, node.log, logs);
    }
}

/// Takes the seats of a node and its line in.
fn take_line_in(gates: &Gates, seat: &mut ChangeSeat, guest: BoxedGuest, logs: &mut Vec<NodeLog>)
    requires here { IsChangeSeatOf seat.old gates.now }
    requires at { IsAt gates.now.words.shared.table_id guest }
    requires drained { AreAllNoted (record_of seat.old) }
    ensures { TookIn (views_of guest) seat.old seat.new logs.old.items logs.new.items }
{
    let Guest { node } = guest.into_guest();
    let (_, theirs, log, past) = node.into_parts();
    take_past_in(gates, seat, past, logs);
    take_node_in(gates, seat, theirs, log, logs);
}

/// Takes the seats of these nodes and their lines in.
fn take_lines_in<J: Named>(
    gates: &Gates,
    seat: &mut ChangeSeat,
    guests: Vec<BoxedGuest>,
    logs: &mut Vec<NodeLog>,
)
    requires here { IsChangeSeatOf seat.old gates.now }
    requires named { J.gates ≡ gates.now.words.shared.table_id }
    requires at { AllByRecursion (LiesAt J.gates) guests.items }
    requires drained { AreAllNoted (record_of seat.old) }
    ensures { TookIn (all_views guests.items) seat.old seat.new logs.old.items logs.new.items }
{
    for guest in guests {
        take_line_in(gates, seat, guest, logs);
    }
}

/// The first slot whose node is live and isn't done.
fn first_undone(seat: &ChangeSeat, dones: &Vec<bool>) -> Option<u32>
    requires { length dones.now.items ≡ length (config_of (record_of seat.now)).slots }
    ensures { result ≡ find (λ n. not (slice_index_or dones.now.items n true))
        (live_nodes (config_of (record_of seat.now))) }
{
    for slot in 0..seat.made().nodes {
        if seat.is_live(slot) && !dones[slot as usize] {
            return Some(slot);
        }
    }
    None
}

/// Takes all seats in, once it is known how each log ends.
fn gather<J: Named>(
    gates: &Gates,
    seat: &mut ChangeSeat,
    guests: Vec<BoxedGuest>,
    ends: Ends,
    heirs: &Vec<Option<u32>>,
) -> Collected
    requires here { IsChangeSeatOf seat.old gates.now }
    requires named { J.gates ≡ gates.now.words.shared.table_id }
    requires at { AllByRecursion (LiesAt J.gates) guests.items }
    requires drained { AreAllNoted (record_of seat.old) }
    requires known { IsRecord (record_of seat.old) }
    requires heirs { AreHeirs (config_of (record_of seat.old)) heirs.now.items }
    requires told { AreTold ⟦<AnyNode as Component>⟧.state heirs.now.items
        (length (config_of (record_of seat.old)).slots) guests.items ends.logs.items ends.dones.items }
    ensures here { table_of_change seat.new ≡ table_of_change seat.old }
    ensures change { change_in seat.new ≡ change_in seat.old }
    ensures spare { seat.new.spare ≡ seat.old.spare }
    ensures gathers { Gathers (config_of (record_of seat.old)) (collected_in seat.new) result }
{
    let Ends { logs, dones } = ends;
    let mut logs = logs;
    lines_have_folds();
    seats_tell_of_their_line();
    take_lines_in::<J>(gates, seat, guests, &mut logs);
    gates.learn(seat);
    let undone = first_undone(seat, &dones);
    Collected {
        logs: List::of(logs),
        undone,
    }
}

/// Puts these nodes back into the hall.
fn put_back<J: Named, R: Wait>(door: &mut Door<J, R>, guests: Vec<BoxedGuest>)
    requires { AllByRecursion (LiesAt J.gates) guests.items }
{
    for guest in guests {
        door.put(guest);
    }
}

/// Takes all nodes in, those of lines among them, and gives their logs. After want of memory none was taken in, and each
/// node whose state no other took over lies in the hall.
pub fn collect<J: Named, R: Wait>(
    rt: &R,
    alloc: Global,
    gates: &Gates,
    seat: &mut ChangeSeat,
    door: &mut Door<J, R>,
    kept: &mut Vec<Option<BoxedGuest>>,
    heirs: &Vec<Option<u32>>,
) -> Result<Collected, NoMemory>
    requires here { IsChangeSeatOf seat.old gates.now }
    requires named { J.gates ≡ gates.now.words.shared.table_id }
    requires kept { AreKept J.gates kept.old.items }
    requires drained { AreAllNoted (record_of seat.old) }
    requires known { IsRecord (record_of seat.old) }
    requires heirs { AreHeirs (config_of (record_of seat.old)) heirs.now.items }
    ensures here { table_of_change seat.new ≡ table_of_change seat.old }
    ensures kept { AreKept J.gates kept.new.items }
    ensures change { change_in seat.new ≡ change_in seat.old }
    ensures spare { seat.new.spare ≡ seat.old.spare }
    ensures ok { IfOk result (Gathers (config_of (record_of seat.old)) (collected_in seat.new)) }
    ensures err { OnErr result (collected_in seat.new ≡ collected_in seat.old) }
{
    let made = seat.made().nodes;
    let mut guests = Vec::with_capacity(alloc, made as usize)?;
    match take_ends(rt, alloc, door, kept, heirs, made, &mut guests) {
        Ok(ends) => Ok(gather::<J>(gates, seat, guests, ends, heirs)),
        Err(err) => {
            put_back(door, guests);
            Err(err)
        }
    }
}
