//! The calls by which the change takes nodes' seats in: for a sight, or for good.

ghost use Rattle.std.specs.Prelude.{◌≡◌, ◌⊎◌, ℕ, ◌<◌, false, IsTrue, length};
ghost use Rattle.txn_records.specs.Entries.{config_of};
ghost use Rattle.txn_records.specs.Records.{AreAllNoted, IsRecord};
ghost use Rattle.txn_records.specs.declared.entry.Entry.TheVariants.{Looked, Sighted};
ghost use Rattle.quiesce_core.specs.State.{is_live};
ghost use Rattle.txn_spec.specs.Merging.{IsOfRecord, MergeIntoRun};
ghost use Rattle.txn_spec.specs.Views.{is_among};
ghost use Rattle.txn_gate.specs.Acts.{NodeStays, SeatDid, SeatTook};
ghost use Rattle.txn_gate.specs.Seats.{IsChangeSeatOf, IsSeatOf, collected_in, node_in, record_of};

use crate::change_seat::ChangeSeat;
use crate::gates::Gates;
use crate::node_seat::NodeSeat;
use crate::seat_steps;

impl Gates {
    /// Notes in the record the node and all that it did so far; its seat is as it was. At the first step, which takes
    /// the seat in, the change and the node meet.
    pub fn sight_in(&self, seat: &mut ChangeSeat, node: &mut NodeSeat)
        requires here { IsChangeSeatOf seat.old self.now }
        requires node_here { IsSeatOf node.old self.now }
        ensures did { SeatDid seat.old seat.new (Sighted (node_in node.old).slot (node_in node.old).log) }
        ensures node { NodeStays node.old node.new }
        ensures learned { IsOfRecord (record_of seat.old) (node_in node.old) }
        ensures run { IsRecord (record_of seat.new) }
    {
        let theirs = seat_steps::leave(&self.words, &mut node.seat);
        seat_steps::sight(&self.words, &mut seat.seat, theirs);
        seat_steps::meet(&self.words, &mut seat.seat);
        node.seat = seat_steps::give_out(&self.words, &mut seat.seat);
    }

    /// Takes the seat of a node in for good that was removed, or once every live port is noted as drained.
    pub fn collect(&self, seat: &mut ChangeSeat, node: NodeSeat)
        requires here { IsChangeSeatOf seat.old self.now }
        requires node_here { IsSeatOf node self.now }
        requires may { (is_live (config_of (record_of seat.old)) (node_in node).slot
            ≡ false) ⊎ AreAllNoted (record_of seat.old) }
        ensures took { SeatTook (node_in node) seat.old seat.new }
        ensures learned { IsOfRecord (record_of seat.old) (node_in node) }
    {
        let NodeSeat { seat: theirs, .. } = node;
        seat_steps::take_in(&self.words, &mut seat.seat, theirs);
        seat_steps::meet(&self.words, &mut seat.seat);
    }

    /// Looks once more, at port 0, whether it was made or not: by then the seats of all nodes that were made have
    /// been collected, and so their logs and the record are one run.
    pub fn finish(&self, seat: &mut ChangeSeat)
        requires here { IsChangeSeatOf seat.old self.now }
        requires collected { (n : ℕ) → n < length (config_of (record_of seat.old)).slots
            → IsTrue (is_among (collected_in seat.old) n) }
        ensures did { (word : ℕ) × SeatDid seat.old seat.new (Looked 0 word) }
        ensures merged { MergeIntoRun (record_of seat.new) (collected_in seat.new) }
    {
        let word = seat_steps::merge(&self.words, &mut seat.seat, 0);
        seat.tables.look(0, word);
    }
}
