//! A guest's turns and sights.

ghost use Rattle.std.specs.Prelude.{◌≡◌, map};
ghost use Rattle.std.specs.List.{AllByRecursion};
ghost use Rattle.txn_records.specs.Records.{IsRecord};
ghost use Rattle.live_hall.specs.Turned.{HintsTold, Turned};
ghost use Rattle.live_hall.specs.Houses.{IsAt, tables_of};
ghost use Rattle.live_hall.specs.Sighting.{LineStays, SeatSighted, past_seen, views_of};
ghost use Rattle.txn_gate.specs.Seats.{IsChangeSeatOf, IsSeatOf, node_in, record_of, table_of_node};

use crate::guest::Guest;
use crate::turn_at_gates;
use config_graph::NoMemory;
use node_host::{Past, Turn};
use port_queue::Hints;
use txn_gate::{ChangeSeat, Gates, NodeSeat};

impl Guest {
    /// A turn of the node at the gates, by `turn_at_gates`. Its line is as it was.
    pub(crate) fn turn<H: Hints>(
        &mut self,
        gates: &Gates,
        hints: &mut H,
        begins: bool,
    ) -> Result<Turn, NoMemory>
        requires here { IsSeatOf self.old.node.seat gates.now }
        ensures turned { Turned begins result self.old.node self.new.node }
        ensures hints { HintsTold H.Hints result self.old.node self.new.node hints.old hints.new }
        ensures tables { tables_of self.new ≡ tables_of self.old }
    {
        turn_at_gates(&mut self.node, gates, hints, begins)
    }

    /// A sight of each node of the line, the earliest first. The line, its seats and its logs are as they were.
    pub(crate) fn sight(&mut self, gates: &Gates, seat: &mut ChangeSeat)
        requires here { IsChangeSeatOf seat.old gates.now }
        requires at { IsAt gates.now.words.shared.table_id self.old }
        ensures sighted { SeatSighted (views_of self.old) seat.old seat.new }
        ensures run { IsRecord (record_of seat.new) }
        ensures same { LineStays self.old self.new }
    {
        sight_past(gates, seat, &mut self.node.past);
        gates.sight_in(seat, &mut self.node.seat);
    }
}

/// A sight of each of these, in order.
fn sight_past(gates: &Gates, seat: &mut ChangeSeat, past: &mut Vec<Past<NodeSeat>>)
    requires here { IsChangeSeatOf seat.old gates.now }
    requires at { AllByRecursion (λ t. t ≡ gates.now.words.shared.table_id) (map (λ p. table_of_node p.seat) past.old.items) }
    ensures sighted { SeatSighted (map (λ p. node_in p.seat) past.old.items) seat.old seat.new }
    ensures past { map (λ p. past_seen p.slot p.first_port p.arg p.log.items p.seat) past.new.items
        ≡ map (λ p. past_seen p.slot p.first_port p.arg p.log.items p.seat) past.old.items }
{
    for at in 0..past.len() {
        gates.sight_in(seat, &mut past[at].seat);
    }
}
