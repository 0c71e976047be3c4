//! Nodes are made at the gates.

ghost use Rattle.std.specs.Prelude.{◌≡◌, ℕ, ◌<◌, ◌≤◌, MatchOption, None, Option, Some, length, true};
ghost use Rattle.live_board.specs.Behind.{IsShallow};
ghost use Rattle.live_board.specs.Keeping.{AreKept, HaveRoom, is_stored, stored, without};
ghost use Rattle.live_board.specs.Making.{Made};
ghost use Rattle.live_hall.specs.Houses.{FitsCell};
ghost use Rattle.quiesce_core.specs.Legal.{CanMake};
ghost use Rattle.txn_gate.specs.Seats.{IsChangeSeatOf, record_of};
ghost use Rattle.txn_records.specs.Entries.{config_of};

use crate::blank::Blank;
use crate::keeping::{take_back, take_blank};
use crate::seats_tell_of_their_line;
use config_graph::Node;
use live_hall::{Berth, BoxedGuest, Door, Guest, Named};
use std::alloc::Global;
use std::sync::Wait;
use txn_gate::{ChangeSeat, Gates};

/// Makes the first node of a line.
fn make_first(
    alloc: Global,
    gates: &Gates,
    seat: &mut ChangeSeat,
    node: &Node,
    berth: Berth,
) -> BoxedGuest
    requires here { IsChangeSeatOf seat.old gates.now }
    requires spare { 0 < seat.old.spare }
    requires may { CanMake (config_of (record_of seat.old)) (length (config_of (record_of seat.old)).slots) node.now None }
    ensures made { Made gates.now seat.old seat.new node.now None result }
{
    let made = seat.made();
    let theirs = gates.make_node(seat, node, None);
    let guest = Guest::first(alloc, made.nodes, made.ports, node.kind, node.arg, theirs);
    berth.take_in(guest)
}

/// Makes a node that takes over the state and the line of another, which is sighted.
fn make_next(
    alloc: Global,
    gates: &Gates,
    seat: &mut ChangeSeat,
    node: &Node,
    from: u32,
    old: BoxedGuest,
    blank: Blank,
) -> BoxedGuest
    requires here { IsChangeSeatOf seat.old gates.now }
    requires spare { 0 < seat.old.spare }
    requires may { CanMake (config_of (record_of seat.old)) (length (config_of (record_of seat.old)).slots) node.now (Some from) }
    requires fits { FitsCell gates.now.words.shared.table_id from old }
    requires room { (sources : ℕ) × IsShallow (config_of (record_of seat.old)) sources blank.room × (from < sources)
        × (sources ≤ length (config_of (record_of seat.old)).slots) }
    ensures made { Made gates.now seat.old seat.new node.now (Some from) result }
{
    let made = seat.made();
    let theirs = gates.make_node(seat, node, Some(from));
    let Blank { berth, list, .. } = blank;
    let mut old = old;
    seats_tell_of_their_line();
    old.sight(gates, seat);
    let old = old.into_guest();
    let guest = Guest::handed(alloc, old, list, made.nodes, made.ports, node.arg, theirs);
    berth.take_in(guest)
}

/// Makes a node in the next slot, which takes over the state and the line of the one in slot `from` where there is one.
pub fn make_guest<J: Named, R: Wait>(
    rt: &R,
    alloc: Global,
    gates: &Gates,
    seat: &mut ChangeSeat,
    door: &mut Door<J, R>,
    kept: &mut Vec<Option<BoxedGuest>>,
    blanks: &mut Vec<Blank>,
    node: &Node,
    from: Option<u32>,
) -> BoxedGuest
    requires here { IsChangeSeatOf seat.old gates.now }
    requires named { J.gates ≡ gates.now.words.shared.table_id }
    requires spare { 0 < seat.old.spare }
    requires may { CanMake (config_of (record_of seat.old)) (length (config_of (record_of seat.old)).slots) node.now from }
    requires kept { AreKept J.gates kept.old.items }
    requires room { (sources lines : ℕ) × HaveRoom blanks.old.items seat.old.spare lines
        × IsShallow (config_of (record_of seat.old)) sources lines × ((k : ℕ) → from ≡ Some k → k < sources)
        × (sources ≤ length (config_of (record_of seat.old)).slots) }
    ensures kept { AreKept J.gates kept.new.items }
    ensures stored { stored kept.new.items ≡ without (stored kept.old.items) from }
    ensures door { MatchOption from (door.new ≡ door.old)
        (λ k. is_stored (stored kept.old.items) k ≡ true → door.new ≡ door.old) }
    ensures room { (lines : ℕ) → HaveRoom blanks.old.items seat.old.spare lines
        → HaveRoom blanks.new.items seat.new.spare lines }
    ensures made { Made gates.now seat.old seat.new node.now from result }
{
    let blank = take_blank(blanks);
    match from {
        None => make_first(alloc, gates, seat, node, blank.berth),
        Some(slot) => {
            let old = take_back(rt, kept, door, slot);
            make_next(alloc, gates, seat, node, slot, old, blank)
        }
    }
}
