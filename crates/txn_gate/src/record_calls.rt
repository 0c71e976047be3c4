//! The calls by which the change learns of its record, and marks its scans there.

ghost use Rattle.txn_records.specs.Records.{IsRecord};
ghost use Rattle.txn_records.specs.declared.entry.Entry.TheVariants.{Scanned};
ghost use Rattle.txn_spec.specs.Traces.{HaveOwnSlots};
ghost use Rattle.txn_gate.specs.Acts.{SeatDid, SeatStays};
ghost use Rattle.txn_gate.specs.Seats.{IsChangeSeatOf, collected_in, record_of};

use crate::change_seat::ChangeSeat;
use crate::gates::Gates;
use crate::{change_steps, seat_steps};
use std::marker::Brand;

impl Gates {
    /// The change learns that its record is that of a run, and that no two nodes whose seats it collected are of one
    /// slot.
    pub fn learn(&self, seat: &mut ChangeSeat)
        requires here { IsChangeSeatOf seat.old self.now }
        ensures same { SeatStays seat.old seat.new }
        ensures run { IsRecord (record_of seat.new) }
        ensures apart { HaveOwnSlots (collected_in seat.new) }
    {
        seat_steps::learn(&self.words, &mut seat.seat);
    }

    /// The change marks a scan in its record: whether turns might begin in it, and whether one moved.
    pub fn mark(&self, seat: &mut ChangeSeat, begins: bool, moved: bool)
        requires here { IsChangeSeatOf seat.old self.now }
        ensures did { SeatDid seat.old seat.new (Scanned begins moved) }
        ensures run { IsRecord (record_of seat.new) }
    {
        change_steps::mark::<Brand>(&self.words, &mut seat.seat, begins, moved);
    }
}
