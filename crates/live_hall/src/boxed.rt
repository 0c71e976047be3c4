//! Guests in memory of their own, so that a cell takes and gives one word.

ghost use Rattle.std.specs.Prelude.{◌≡◌, is_some, true};
ghost use Rattle.txn_gate.specs.Seats.{IsChangeSeatOf, IsSeatOf, record_of};
ghost use Rattle.txn_records.specs.Records.{IsRecord};
ghost use Rattle.live_hall.specs.Turned.{HintsTold, Turned};

use crate::guest::Guest;
use config_graph::NoMemory;
use node_host::Turn;
use port_queue::Hints;
use std::alloc::Global;
use std::marker::Model;
use txn_gate::{ChangeSeat, Gates};

/// Memory for one guest.
#[derive(Drop)]
pub struct Berth {
    place: Box<Option<Guest>>,
}

impl Berth {
    /// Memory in which no guest lies.
    pub fn new(alloc: Global) -> Result<Berth, NoMemory> {
        let place = Box::new(alloc, None)?;
        Ok(Berth { place })
    }

    /// The guest, in this memory.
    pub fn take_in(self, guest: Guest) -> BoxedGuest
        ensures { result ≡ guest }
    {
        let Berth { mut place } = self;
        *place = Some(guest);
        BoxedGuest { place }
    }
}

/// A guest in memory of its own. Contracts see the guest.
#[derive(Drop)]
pub struct BoxedGuest {
    place: Box<Option<Guest>>,
    ghost is_there: { is_some place.value ≡ true },
}

impl Model for BoxedGuest {
    ghost use Rattle.live_hall.specs.Boxed.{what_is};
    ghost use Rattle.live_hall.specs.contracts.guest.Guest.{the_row};
    ghost use Rattle.live_hall.specs.declared.guest.Guest.{Guest};

    ghost Value = { Guest };

    ghost coded = { the_row.coded };

    ghost view = { λ b. what_is b.place.value b.is_there };
}

impl BoxedGuest {
    ghost use Rattle.live_hall.specs.Houses.{IsAt, tables_of};
    ghost use Rattle.live_hall.specs.Sighting.{LineStays, SeatSighted, views_of};

    /// The guest, as it lies there.
    pub fn guest(&self) -> &Guest
        ensures { result.now ≡ self.now }
    {
        match &*self.place {
            Some(guest) => guest,
            None => unreachable!(),
        }
    }

    /// The guest, whose memory is given back.
    pub fn into_guest(self) -> Guest
        ensures { result ≡ self }
    {
        match Box::into_inner(self.place) {
            Some(guest) => guest,
            None => unreachable!(),
        }
    }

    /// A turn of the node at the gates, by `turn_at_gates`. Its line is as it was.
    pub fn turn<H: Hints>(
        &mut self,
        gates: &Gates,
        hints: &mut H,
        begins: bool,
    ) -> Result<Turn, NoMemory>
        requires here { IsSeatOf self.old.node.seat gates.now }
        ensures turned { Turned begins result self.old.node self.new.node }
        ensures hints { HintsTold H.Hints result self.old.node self.new.node hints.old hints.new }
        ensures tables { tables_of self.new ≡ tables_of self.old }
    {
        match &mut *self.place {
            Some(guest) => guest.turn(gates, hints, begins),
            None => unreachable!(),
        }
    }

    /// A sight of each node of the line, the earliest first. The line, its seats and its logs are as they were.
    pub fn sight(&mut self, gates: &Gates, seat: &mut ChangeSeat)
        requires here { IsChangeSeatOf seat.old gates.now }
        requires at { IsAt gates.now.words.shared.table_id self.old }
        ensures sighted { SeatSighted (views_of self.old) seat.old seat.new }
        ensures run { IsRecord (record_of seat.new) }
        ensures same { LineStays self.old self.new }
    {
        match &mut *self.place {
            Some(guest) => guest.sight(gates, seat),
            None => unreachable!(),
        }
    }
}
