//! The gates as one worker's gate, at which nodes take their turns.

ghost use Rattle.std.specs.Prelude.{◌≡◌, None};
ghost use Rattle.txn_spec.specs.Views.{node_at};
ghost use Rattle.txn_gate.specs.Places.{within_limits};
ghost use Rattle.txn_gate.specs.Seats.{IsSeatOf, node_in};

use crate::gates::Gates;
use crate::node_seat::NodeSeat;
use node_gate::{BeginAnswer, CallAnswer, HearAnswer, PortGate, SeeAnswer, TakeAnswer};
use std::marker::{Brand, PhantomData};

/// Names what a slot's word says of its node.
pub trait Makes {
    ghost use Rattle.quiesce_word.specs.declared.slot_word.SlotWord.{SlotWord};

    ghost made: { SlotWord };
}

/// A call that passes `Brand` picks what it names; this one is never meant.
impl Makes for Brand {
    ghost use Rattle.txn_spec.specs.Views.{unknown};

    ghost made = { unknown.made };
}

/// The gates as one worker's gate. A seat fits where it is of these gates, and of a node that was made as `M` says;
/// what each call says is what the gates' own says. It tells no state: others act meanwhile.
#[derive(Drop)]
pub struct TableGate<'g, M> {
    pub gates: &'g Gates,
    of: PhantomData<M>,
}

impl<'g, M: Makes> TableGate<'g, M> {
    pub fn new(gates: &'g Gates) -> TableGate<'g, M>
        ensures { result.gates.now ≡ gates.now }
    {
        TableGate {
            gates,
            of: PhantomData,
        }
    }
}

impl<'g, M: Makes> PortGate for TableGate<'g, M> {
    type Seat = NodeSeat;

    ghost fits = { λ g s. IsSeatOf s g.gates.now × ((node_in s).made ≡ M.made) };

    ghost node = { λ g s. node_at (node_in s) };

    ghost state = { λ g. None };

    ghost spare = { λ g. 0 };

    fn begin(&mut self, seat: &mut NodeSeat, port: u32, value: u32) -> BeginAnswer {
        self.gates.begin(seat, port, value)
    }

    fn call(&mut self, seat: &mut NodeSeat, port: u32, value: u32) -> CallAnswer {
        self.gates.call(seat, port, value)
    }

    fn take(&mut self, seat: &mut NodeSeat, port: u32) -> TakeAnswer {
        self.gates.take(seat, port)
    }

    fn give(&mut self, seat: &mut NodeSeat, port: u32, value: u32) {
        self.gates.give(seat, port, value);
    }

    fn see(&mut self, seat: &mut NodeSeat, port: u32) -> SeeAnswer {
        self.gates.see(seat, port)
    }

    fn end(&mut self, seat: &mut NodeSeat, port: u32) {
        self.gates.end(seat, port);
    }

    fn more(&mut self, seat: &mut NodeSeat, port: u32, value: u32) {
        self.gates.more(seat, port, value);
    }

    fn ask(&mut self, seat: &mut NodeSeat, port: u32, value: u32) {
        self.gates.ask(seat, port, value);
    }

    fn hear(&mut self, seat: &mut NodeSeat, port: u32) -> HearAnswer {
        self.gates.hear(seat, port)
    }

    ghost within = { λ gate seat fits. within_limits (node_in seat) seat.slot seat.first_port seat.slot_is
        seat.first_is seat.slot_within seat.ports_within };
}
