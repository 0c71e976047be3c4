//! A node's last move: it begins what it wants.

ghost use Rattle.std.specs.Prelude.{◌≡◌, slice_index_or, Some, true};
ghost use Rattle.component_trait.specs.Bounds.{FitsRequest};
ghost use Rattle.component_trait.specs.Moves as moves;
ghost use Rattle.node_host.specs.Acts.{CanAct};
ghost use Rattle.node_host.specs.Moves.{Begins};
ghost use Rattle.quiesce_core.specs.Knowledge.{port_at_start};

use crate::ending::port_known;
use crate::keeping::{keep, seats_have_places};
use crate::node::HostNode;
use crate::posting::post;
use component_trait::{Ask, Component};
use node_gate::{BeginAnswer, GateSeat, PortGate};
use port_queue::Hints;
use quiesce_core::{Deed, Message, NodeEvent};

impl<C: Component + Drop, S: GateSeat + Drop> HostNode<C, S> {
    /// Begins this, which the component wants, at an idle port, where the gate lets it, and posts the hint.
    #[inline(never)]
    fn begin_idle<G: PortGate<Seat = S>, H: Hints>(
        &mut self,
        gate: &mut G,
        hints: &mut H,
        ask: Ask,
    ) -> Option<NodeEvent>
        requires wanted { moves.wants (C.state self.old.inner) ≡ Some ask }
        requires fits_ask { FitsRequest (C.state self.old.inner).kind ask }
        requires idle { (slice_index_or self.old.known.ports ask.require port_at_start).idle ≡ true }
        requires can { CanAct G.PortGate gate.old self.old }
        ensures { Begins G.PortGate H.Hints true gate.old gate.new self.old self.new hints.old hints.new result }
    {
        seats_have_places(gate, &self.seat);
        let port = self.first_port + ask.require;
        let value = ask.value;
        let BeginAnswer::Begun { serial, target } = gate.begin(&mut self.seat, port, value) else {
            return None;
        };
        let done = Deed::Begin(Message {
            port,
            serial,
            value,
        });
        let event = keep(&mut self.log, &mut self.known, self.first_port, done);
        post(
            &mut self.waiting,
            hints,
            self.first_port,
            ask.require,
            target,
        );
        Some(event)
    }

    /// Begins this, which the component wants, where that port is idle and the gate lets it, and posts the hint.
    #[inline(always)]
    fn begin<G: PortGate<Seat = S>, H: Hints>(
        &mut self,
        gate: &mut G,
        hints: &mut H,
        ask: Ask,
    ) -> Option<NodeEvent>
        requires wanted { moves.wants (C.state self.old.inner) ≡ Some ask }
        requires fits_ask { FitsRequest (C.state self.old.inner).kind ask }
        requires can { CanAct G.PortGate gate.old self.old }
        ensures { Begins G.PortGate H.Hints true gate.old gate.new self.old self.new hints.old hints.new result }
    {
        seats_have_places(gate, &self.seat);
        if !port_known(&self.known, ask.require).idle {
            return None;
        }
        self.begin_idle(gate, hints, ask)
    }

    /// Begins what the component wants, where that port is idle and the gate lets it, and posts the hint.
    #[inline(always)]
    #[tactic(auto, using(crate::proofs::Exactly::begins_nothing))]
    pub(crate) fn begin_wanted<G: PortGate<Seat = S>, H: Hints>(
        &mut self,
        gate: &mut G,
        hints: &mut H,
    ) -> Option<NodeEvent>
        requires can { CanAct G.PortGate gate.old self.old }
        ensures { Begins G.PortGate H.Hints true gate.old gate.new self.old self.new hints.old hints.new result }
    {
        match self.inner.wants() {
            None => None,
            Some(ask) => self.begin(gate, hints, ask),
        }
    }

    /// Begins what the component wants, where that is allowed.
    #[inline(always)]
    pub(crate) fn begin_if<G: PortGate<Seat = S>, H: Hints>(
        &mut self,
        gate: &mut G,
        hints: &mut H,
        allowed: bool,
    ) -> Option<NodeEvent>
        requires can { CanAct G.PortGate gate.old self.old }
        ensures { Begins G.PortGate H.Hints allowed gate.old gate.new self.old self.new hints.old hints.new result }
    {
        if allowed {
            self.begin_wanted(gate, hints)
        } else {
            None
        }
    }
}
