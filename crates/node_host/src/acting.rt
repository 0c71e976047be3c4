//! The moves of a turn, in their order.

ghost use Rattle.std.specs.Prelude.{◌≡◌, ◌&&◌, true, false, is_none, None};
ghost use Rattle.node_host.specs.Acts.{Acts, CanAct, LoadsSo};
ghost use Rattle.node_host.specs.Moves.{CouldNotBegin, CouldNotServe, IsByInboxRule, Looks, SendsBy, TriedAll, begins_if, looks_for};
ghost use Rattle.node_host.specs.Trying.{LookedAt};
ghost use Rattle.quiesce_core.specs.State.{service};
ghost use Rattle.node_turn_laws.specs.Turn.{looks, move_of, or_else, serves, takes};
ghost use Rattle.node_host.specs.Tried.{Keeps, is_begin, is_passed};

use crate::node::HostNode;
use component_trait::Component;
use node_gate::{GateSeat, PortGate};
use port_queue::Hints;
use quiesce_core::NodeEvent;

impl<C: Component + Drop, S: GateSeat + Drop> HostNode<C, S> {
    /// Takes the next request up, or else begins what it wants.
    #[tactic(auto, using(crate::proofs::Asked::looked))]
    fn take_or_begin<G: PortGate<Seat = S>, H: Hints>(
        &mut self,
        gate: &mut G,
        hints: &mut H,
        allowed: bool,
    ) -> Option<NodeEvent>
        requires can { CanAct G.PortGate gate.old self.old }
        requires has_room { C.has_room self.old.inner }
        requires free { (C.state self.old.inner).service ≡ None }
        ensures acts { Acts G.PortGate gate.old gate.new self.old self.new result }
        ensures looks { Looks G.PortGate H.Hints true allowed gate.old self.old self.new hints.old hints.new result }
        ensures exact { IsByInboxRule G.PortGate H.Hints (λ s held. or_else (takes s self.old.slot held)
            (begins_if allowed s self.old.slot (C.state self.old.inner))) gate.old hints.old self.old result }
    {
        match self.take_next(gate, hints) {
            Some(event) => Some(event),
            None => self.begin_if(gate, hints, allowed),
        }
    }

    /// What it does where its service does nothing.
    fn look<G: PortGate<Seat = S>, H: Hints>(
        &mut self,
        gate: &mut G,
        hints: &mut H,
        allowed: bool,
    ) -> Option<NodeEvent>
        requires can { CanAct G.PortGate gate.old self.old }
        requires has_room { C.has_room self.old.inner }
        ensures acts { Acts G.PortGate gate.old gate.new self.old self.new result }
        ensures looks { Looks G.PortGate H.Hints (is_none self.old.known.service) allowed gate.old self.old self.new
            hints.old hints.new result }
        ensures exact { IsByInboxRule G.PortGate H.Hints (λ s held. looks_for allowed s self.old.slot
            (C.state self.old.inner) held) gate.old hints.old self.old result }
    {
        if self.known.service.is_some() {
            self.begin_if(gate, hints, allowed)
        } else {
            self.take_or_begin(gate, hints, allowed)
        }
    }

    /// Goes on with its service, or else looks for something to do.
    fn work<G: PortGate<Seat = S>, H: Hints>(
        &mut self,
        gate: &mut G,
        hints: &mut H,
        allowed: bool,
    ) -> Option<NodeEvent>
        requires can { CanAct G.PortGate gate.old self.old }
        requires has_room { C.has_room self.old.inner }
        ensures acts { Acts G.PortGate gate.old gate.new self.old self.new result }
        ensures looked { result ≡ None → (C.state self.old.inner).service ≡ None
            → LookedAt (H.counts hints.old self.old.slot) (H.counts hints.new self.old.slot) }
        ensures sent { SendsBy G.PortGate H.Hints
            (λ s. is_none (serves s self.old.slot (C.state self.old.inner)) && is_none (service s self.old.slot))
            gate.old self.old self.new hints.old hints.new result }
        ensures exact { IsByInboxRule G.PortGate H.Hints (λ s held. or_else
            (serves s self.old.slot (C.state self.old.inner))
            (looks_for allowed s self.old.slot (C.state self.old.inner) held)) gate.old hints.old self.old result }
        ensures passed { is_passed 1 result ≡ true }
        ensures loads { LoadsSo (Keeps 2 self.old.first_port self.old.known) self.old self.new }
        ensures held { is_passed 2 result ≡ true → CouldNotServe self.old.known.service self.old self.new }
        ensures tried { result ≡ None → allowed ≡ true → CouldNotBegin self.old self.new }
        ensures no_begin { allowed ≡ false → is_begin result ≡ false }
    {
        match self.serve(gate, hints) {
            Some(event) => Some(event),
            None => self.look(gate, hints, allowed),
        }
    }

    /// The first move that is possible, once its waiting hints are posted.
    pub(crate) fn act<G: PortGate<Seat = S>, H: Hints>(
        &mut self,
        gate: &mut G,
        hints: &mut H,
        allowed: bool,
    ) -> Option<NodeEvent>
        requires can { CanAct G.PortGate gate.old self.old }
        requires has_room { C.has_room self.old.inner }
        ensures acts { Acts G.PortGate gate.old gate.new self.old self.new result }
        ensures looked { result ≡ None → (C.state self.old.inner).service ≡ None
            → LookedAt (H.counts hints.old self.old.slot) (H.counts hints.new self.old.slot) }
        ensures sent { SendsBy G.PortGate H.Hints (λ s. looks s self.old.slot (C.state self.old.inner))
            gate.old self.old self.new hints.old hints.new result }
        ensures exact { IsByInboxRule G.PortGate H.Hints (λ s held. move_of s self.old.slot (C.state self.old.inner)
            held allowed) gate.old hints.old self.old result }
        ensures tried { TriedAll allowed self.old self.new result }
        ensures no_begin { allowed ≡ false → is_begin result ≡ false }
    {
        match self.end_or_ask(gate) {
            Some(event) => Some(event),
            None => self.work(gate, hints, allowed),
        }
    }
}
