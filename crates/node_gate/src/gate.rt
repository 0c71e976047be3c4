//! The trait of gates, and that of their seats.

ghost use Rattle.std.specs.Prelude.{◌≡◌, ◌≢◌, ℕ, List, Option};
ghost use Rattle.node_gate.specs.Answers.{BeginSays, CallSays, HearSays, SeeSays, TakeSays};
ghost use Rattle.node_gate.specs.Loads.{Loads, LoadsAt, LoadsHear, LoadsNothing, LoadsTake, TellsLoads, begin_shows, call_shows, hear_shows, see_shows, take_shows};
ghost use Rattle.node_gate.specs.Moves as moves;
ghost use Rattle.node_gate.specs.Moves.{Does};
ghost use Rattle.node_gate.specs.Seats.{IsWithinLimits, MayAsk, MayBegin, MayCallAt, MayEnd, MayGive, MayHear, MaySee, MaySendMore, MayTake, NodeAt};
ghost use Rattle.quiesce_core.specs.State.{State};
ghost use Rattle.quiesce_core.specs.declared.event.Event.{Event};
ghost use Rattle.quiesce_core.specs.declared.known.Known.{Known};

use crate::answers::{BeginAnswer, CallAnswer, HearAnswer, SeeAnswer, TakeAnswer};

/// A node's seat at gates: what the node has done there.
pub trait GateSeat {
    /// The slot of its node.
    ghost slot_of: { Self → ℕ };

    /// What its node knows of itself.
    ghost known: { Self → Known };

    /// The events of its node, where the seat tells them.
    ghost tells: { Self → Option (List Event) };

    /// The words that it loaded, where the seat tells them.
    ghost loads: { Self → Option Loads };

    fn slot(&self) -> u32
        ensures { result ≡ slot_of self.now };
}

/// A gate, at which nodes do their events. A seat that fits is one of a node of this gate, of the kind and with the
/// first port that `node` says; after each call it still fits, and so does each seat of another slot that fitted
/// before. No call takes memory, or uses up what there is.
pub trait PortGate {
    type Seat: GateSeat;

    ghost fits: { Self → Self.Seat → Type 0 };

    /// The node whose seat it is.
    ghost node: { Self → Self.Seat → NodeAt };

    /// The state of the change machine, where the gate tells it.
    ghost state: { Self → Option State };

    /// For how many nodes more it has memory.
    ghost spare: { Self → ℕ };

    /// Begins a transaction of the node's own at an idle port.
    fn begin(&mut self, seat: &mut Self::Seat, port: u32, value: u32) -> BeginAnswer
        requires fits { fits self.old seat.old }
        requires may { MayBegin (node self.old seat.old) (Self.Seat.known seat.old) port value }
        ensures fits { fits self.new seat.new }
        ensures node { node self.new seat.new ≡ node self.old seat.old }
        ensures spare { spare self.new ≡ spare self.old }
        ensures others { (other : Self.Seat) → Self.Seat.slot_of other ≢ Self.Seat.slot_of seat.old
            → fits self.old other → fits self.new other × (node self.new other ≡ node self.old other) }
        ensures does { Does (node self.old seat.old) (moves.events_of_begin port value result)
            (Self.Seat.known seat.old) (Self.Seat.known seat.new) (Self.Seat.tells seat.old)
            (Self.Seat.tells seat.new) (state self.old) (state self.new) }
        ensures says { BeginSays (state self.old) port result }
        ensures loads { TellsLoads (LoadsAt port (begin_shows result)) (Self.Seat.loads seat.old)
            (Self.Seat.loads seat.new) };

    /// Makes a call of the service that the node is in, whether the gate is closed or not.
    fn call(&mut self, seat: &mut Self::Seat, port: u32, value: u32) -> CallAnswer
        requires fits { fits self.old seat.old }
        requires may { MayCallAt (node self.old seat.old) (Self.Seat.known seat.old) port value }
        ensures fits { fits self.new seat.new }
        ensures node { node self.new seat.new ≡ node self.old seat.old }
        ensures spare { spare self.new ≡ spare self.old }
        ensures others { (other : Self.Seat) → Self.Seat.slot_of other ≢ Self.Seat.slot_of seat.old
            → fits self.old other → fits self.new other × (node self.new other ≡ node self.old other) }
        ensures does { Does (node self.old seat.old) (moves.events_of_call port value result)
            (Self.Seat.known seat.old) (Self.Seat.known seat.new) (Self.Seat.tells seat.old)
            (Self.Seat.tells seat.new) (state self.old) (state self.new) }
        ensures says { CallSays (state self.old) port result }
        ensures loads { TellsLoads (LoadsAt port (call_shows result)) (Self.Seat.loads seat.old)
            (Self.Seat.loads seat.new) };

    /// Takes a request up that is asked of the node at another's port.
    fn take(&mut self, seat: &mut Self::Seat, port: u32) -> TakeAnswer
        requires fits { fits self.old seat.old }
        requires may { MayTake (Self.Seat.known seat.old) port }
        ensures fits { fits self.new seat.new }
        ensures node { node self.new seat.new ≡ node self.old seat.old }
        ensures spare { spare self.new ≡ spare self.old }
        ensures others { (other : Self.Seat) → Self.Seat.slot_of other ≢ Self.Seat.slot_of seat.old
            → fits self.old other → fits self.new other × (node self.new other ≡ node self.old other) }
        ensures does { Does (node self.old seat.old) (moves.events_of_take port result) (Self.Seat.known seat.old)
            (Self.Seat.known seat.new) (Self.Seat.tells seat.old) (Self.Seat.tells seat.new) (state self.old)
            (state self.new) }
        ensures says { TakeSays (state self.old) (node self.old seat.old) port result }
        ensures loads { TellsLoads (LoadsTake port (take_shows (node self.old seat.old).slot result))
            (Self.Seat.loads seat.old) (Self.Seat.loads seat.new) };

    /// Answers the request that the node services.
    fn give(&mut self, seat: &mut Self::Seat, port: u32, value: u32)
        requires fits { fits self.old seat.old }
        requires may { MayGive (Self.Seat.known seat.old) port value }
        ensures fits { fits self.new seat.new }
        ensures node { node self.new seat.new ≡ node self.old seat.old }
        ensures spare { spare self.new ≡ spare self.old }
        ensures others { (other : Self.Seat) → Self.Seat.slot_of other ≢ Self.Seat.slot_of seat.old
            → fits self.old other → fits self.new other × (node self.new other ≡ node self.old other) }
        ensures does { Does (node self.old seat.old) (moves.events_of_give port value (Self.Seat.known seat.old))
            (Self.Seat.known seat.old) (Self.Seat.known seat.new) (Self.Seat.tells seat.old)
            (Self.Seat.tells seat.new) (state self.old) (state self.new) }
        ensures loads { TellsLoads LoadsNothing (Self.Seat.loads seat.old) (Self.Seat.loads seat.new) };

    /// Looks for a reply at a port of the node's own that isn't idle. It is no event.
    fn see(&mut self, seat: &mut Self::Seat, port: u32) -> SeeAnswer
        requires fits { fits self.old seat.old }
        requires may { MaySee (node self.old seat.old) (Self.Seat.known seat.old) port }
        ensures fits { fits self.new seat.new }
        ensures node { node self.new seat.new ≡ node self.old seat.old }
        ensures spare { spare self.new ≡ spare self.old }
        ensures others { (other : Self.Seat) → Self.Seat.slot_of other ≢ Self.Seat.slot_of seat.old
            → fits self.old other → fits self.new other × (node self.new other ≡ node self.old other) }
        ensures known { Self.Seat.known seat.new ≡ moves.with_seen (node self.old seat.old) port result
            (Self.Seat.known seat.old) }
        ensures events { Self.Seat.tells seat.new ≡ Self.Seat.tells seat.old }
        ensures state { state self.new ≡ state self.old }
        ensures says { SeeSays (state self.old) port result }
        ensures loads { TellsLoads (LoadsAt port (see_shows result)) (Self.Seat.loads seat.old)
            (Self.Seat.loads seat.new) };

    /// Ends a transaction whose answer was seen.
    fn end(&mut self, seat: &mut Self::Seat, port: u32)
        requires fits { fits self.old seat.old }
        requires may { MayEnd (node self.old seat.old) (Self.Seat.known seat.old) port }
        ensures fits { fits self.new seat.new }
        ensures node { node self.new seat.new ≡ node self.old seat.old }
        ensures spare { spare self.new ≡ spare self.old }
        ensures others { (other : Self.Seat) → Self.Seat.slot_of other ≢ Self.Seat.slot_of seat.old
            → fits self.old other → fits self.new other × (node self.new other ≡ node self.old other) }
        ensures does { Does (node self.old seat.old) (moves.events_of_end (node self.old seat.old)
            port (Self.Seat.known seat.old)) (Self.Seat.known seat.old) (Self.Seat.known seat.new)
            (Self.Seat.tells seat.old) (Self.Seat.tells seat.new) (state self.old) (state self.new) }
        ensures loads { TellsLoads LoadsNothing (Self.Seat.loads seat.old) (Self.Seat.loads seat.new) };

    /// Sends an intermediate reply for the request that the node services.
    fn more(&mut self, seat: &mut Self::Seat, port: u32, value: u32)
        requires fits { fits self.old seat.old }
        requires may { MaySendMore (node self.old seat.old) (Self.Seat.known seat.old) port value }
        ensures fits { fits self.new seat.new }
        ensures node { node self.new seat.new ≡ node self.old seat.old }
        ensures spare { spare self.new ≡ spare self.old }
        ensures others { (other : Self.Seat) → Self.Seat.slot_of other ≢ Self.Seat.slot_of seat.old
            → fits self.old other → fits self.new other × (node self.new other ≡ node self.old other) }
        ensures does { Does (node self.old seat.old) (moves.events_of_more port value (Self.Seat.known seat.old))
            (Self.Seat.known seat.old) (Self.Seat.known seat.new) (Self.Seat.tells seat.old)
            (Self.Seat.tells seat.new) (state self.old) (state self.new) }
        ensures loads { TellsLoads LoadsNothing (Self.Seat.loads seat.old) (Self.Seat.loads seat.new) };

    /// Replies to an intermediate reply that was seen.
    fn ask(&mut self, seat: &mut Self::Seat, port: u32, value: u32)
        requires fits { fits self.old seat.old }
        requires may { MayAsk (node self.old seat.old) (Self.Seat.known seat.old) port value }
        ensures fits { fits self.new seat.new }
        ensures node { node self.new seat.new ≡ node self.old seat.old }
        ensures spare { spare self.new ≡ spare self.old }
        ensures others { (other : Self.Seat) → Self.Seat.slot_of other ≢ Self.Seat.slot_of seat.old
            → fits self.old other → fits self.new other × (node self.new other ≡ node self.old other) }
        ensures does { Does (node self.old seat.old) (moves.events_of_ask (node self.old seat.old)
            port value (Self.Seat.known seat.old)) (Self.Seat.known seat.old) (Self.Seat.known seat.new)
            (Self.Seat.tells seat.old) (Self.Seat.tells seat.new) (state self.old) (state self.new) }
        ensures loads { TellsLoads LoadsNothing (Self.Seat.loads seat.old) (Self.Seat.loads seat.new) };

    /// Looks for the further message for which the node's service waits.
    fn hear(&mut self, seat: &mut Self::Seat, port: u32) -> HearAnswer
        requires fits { fits self.old seat.old }
        requires may { MayHear (Self.Seat.known seat.old) port }
        ensures fits { fits self.new seat.new }
        ensures node { node self.new seat.new ≡ node self.old seat.old }
        ensures spare { spare self.new ≡ spare self.old }
        ensures others { (other : Self.Seat) → Self.Seat.slot_of other ≢ Self.Seat.slot_of seat.old
            → fits self.old other → fits self.new other × (node self.new other ≡ node self.old other) }
        ensures does { Does (node self.old seat.old) (moves.events_of_hear port (Self.Seat.known seat.old) result)
            (Self.Seat.known seat.old) (Self.Seat.known seat.new) (Self.Seat.tells seat.old)
            (Self.Seat.tells seat.new) (state self.old) (state self.new) }
        ensures says { HearSays (state self.old) port result }
        ensures loads { TellsLoads (LoadsHear port (hear_shows result)) (Self.Seat.loads seat.old)
            (Self.Seat.loads seat.new) };

    /// A law: a seat that fits is one of a slot and of ports as one run has them.
    ghost within: { (gate : Self) (seat : Self.Seat) → fits gate seat → IsWithinLimits (node gate seat)
        × ((node gate seat).slot ≡ Self.Seat.slot_of seat) };
}
