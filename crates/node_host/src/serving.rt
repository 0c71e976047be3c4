//! A node's second move: it goes on with its service.

ghost use Rattle.std.specs.Prelude.{◌≡◌, ◌+◌, ◌<◌, true, false, option_and_then, is_some, None, Some};
ghost use Rattle.config_graph.specs.Kinds.{depends_on};
ghost use Rattle.component_trait.specs.Bounds.{FitsRequest};
ghost use Rattle.component_trait.specs.Moves as moves;
ghost use Rattle.component_trait.specs.declared.next.Next.TheVariants as next;
ghost use Rattle.config_graph.specs.declared.TheConstants.{VALUE_LIMIT};
ghost use Rattle.node_host.specs.Acts.{Acts, CanAct, LoadsSo};
ghost use Rattle.node_host.specs.Awaiting.{awaits};
ghost use Rattle.node_host.specs.Moves.{GoesOnIn, HintsOf, IsByRule, IsMove, IsSilent, Serves};
ghost use Rattle.quiesce_core.specs.declared.event.Event.TheVariants as event;
ghost use Rattle.node_turn_laws.specs.Turn.{calls, does_next, hears};
ghost use Rattle.node_host.specs.Tried.{shows_in_more};
ghost use Rattle.node_gate.specs.Loads.{IsLed};

use crate::keeping::{keep, seats_have_places};
use crate::node::HostNode;
use crate::posting::post;
use component_trait::{Ask, Component, Next};
use node_gate::{CallAnswer, GateSeat, HearAnswer, PortGate};
use port_queue::Hints;
use quiesce_core::{Deed, Known, Message, NodeEvent, Served};

/// Whether a call is left to end.
fn awaits_call(known: &Known) -> bool
    ensures { result ≡ awaits known.now }
{
    let left = known.ports[0];
    let right = known.ports[1];
    !left.idle && left.consequent || !right.idle && right.consequent
}

impl<C: Component + Drop, S: GateSeat + Drop> HostNode<C, S> {
    /// Hears the further message for which the service waits, once it is there.
    fn hear<G: PortGate<Seat = S>>(&mut self, gate: &mut G, served: Served) -> Option<NodeEvent>
        requires served { self.old.known.service ≡ Some served }
        requires waits { served.heard ≡ false }
        requires can { CanAct G.PortGate gate.old self.old }
        ensures acts { Acts G.PortGate gate.old gate.new self.old self.new result }
        ensures silent { IsSilent self.old self.new result }
        ensures exact { IsByRule G.PortGate (λ s. hears s served.port) gate.old self.old result }
        ensures moved { IsMove 2 self.old self.new result }
        ensures unheard { result ≡ None
            → LoadsSo (λ a b. IsLed served.port shows_in_more a.steps b.steps b.hear) self.old self.new }
    {
        seats_have_places(gate, &self.seat);
        let port = served.port;
        let serial = served.serial;
        match gate.hear(&mut self.seat, port) {
            HearAnswer::NotYet { .. } => None,
            HearAnswer::Heard { value } => {
                self.inner.heard(value);
                let done = Deed::Hear(Message {
                    port,
                    serial,
                    value,
                });
                Some(keep(&mut self.log, &mut self.known, self.first_port, done))
            }
        }
    }

    /// Gives the answer of the service.
    fn give<G: PortGate<Seat = S>>(
        &mut self,
        gate: &mut G,
        served: Served,
        value: u32,
    ) -> Option<NodeEvent>
        requires serving { GoesOnIn served self.old }
        requires gives { moves.next (C.state self.old.inner) ≡ Some (next.Give value) }
        requires small { value < VALUE_LIMIT }
        requires can { CanAct G.PortGate gate.old self.old }
        ensures acts { Acts G.PortGate gate.old gate.new self.old self.new result }
        ensures silent { IsSilent self.old self.new result }
        ensures event { result ≡ Some (event.Give served.port served.serial value) }
        ensures exact { IsByRule G.PortGate (λ s. does_next s self.old.first_port served.port (next.Give value))
            gate.old self.old result }
        ensures moved { IsMove 2 self.old self.new result }
    {
        seats_have_places(gate, &self.seat);
        let port = served.port;
        let serial = served.serial;
        gate.give(&mut self.seat, port, value);
        self.inner.given();
        let done = Deed::Give(Message {
            port,
            serial,
            value,
        });
        Some(keep(&mut self.log, &mut self.known, self.first_port, done))
    }

    /// Sends the intermediate reply of the service.
    fn send_more<G: PortGate<Seat = S>>(
        &mut self,
        gate: &mut G,
        served: Served,
        value: u32,
    ) -> Option<NodeEvent>
        requires serving { GoesOnIn served self.old }
        requires sends { moves.next (C.state self.old.inner) ≡ Some (next.More value) }
        requires small { value < VALUE_LIMIT }
        requires can { CanAct G.PortGate gate.old self.old }
        ensures acts { Acts G.PortGate gate.old gate.new self.old self.new result }
        ensures silent { IsSilent self.old self.new result }
        ensures event { result ≡ Some (event.More served.port served.serial value) }
        ensures exact { IsByRule G.PortGate (λ s. does_next s self.old.first_port served.port (next.More value))
            gate.old self.old result }
        ensures moved { IsMove 2 self.old self.new result }
    {
        seats_have_places(gate, &self.seat);
        let port = served.port;
        let serial = served.serial;
        gate.more(&mut self.seat, port, value);
        self.inner.more_given();
        let done = Deed::More(Message {
            port,
            serial,
            value,
        });
        Some(keep(&mut self.log, &mut self.known, self.first_port, done))
    }

    /// Makes the call that the service asks for, and posts the hint; or misses it.
    fn call<G: PortGate<Seat = S>, H: Hints>(
        &mut self,
        gate: &mut G,
        hints: &mut H,
        served: Served,
        ask: Ask,
    ) -> Option<NodeEvent>
        requires serving { GoesOnIn served self.old }
        requires asks { moves.next (C.state self.old.inner) ≡ Some (next.Ask ask) }
        requires depends { depends_on (C.state self.old.inner).kind 0 ask.require ≡ true }
        requires fits_ask { FitsRequest (C.state self.old.inner).kind ask }
        requires can { CanAct G.PortGate gate.old self.old }
        ensures acts { Acts G.PortGate gate.old gate.new self.old self.new result }
        ensures hints { HintsOf G.PortGate H.Hints gate.old self.old self.new hints.old hints.new result }
        ensures exact { IsByRule G.PortGate (λ s. calls s (self.old.first_port + ask.require) ask.value)
            gate.old self.old result }
        ensures moved { IsMove 2 self.old self.new result }
        ensures some { is_some result ≡ true }
    {
        seats_have_places(gate, &self.seat);
        let port = self.first_port + ask.require;
        let value = ask.value;
        match gate.call(&mut self.seat, port, value) {
            CallAnswer::Missed { .. } => {
                self.inner.answered(ask.require, 0);
                let done = Deed::Miss { port };
                Some(keep(&mut self.log, &mut self.known, self.first_port, done))
            }
            CallAnswer::Called { serial, target } => {
                let done = Deed::Call(Message {
                    port,
                    serial,
                    value,
                });
                let event = keep(&mut self.log, &mut self.known, self.first_port, done);
                post(
                    &mut self.waiting,
                    hints,
                    self.first_port,
                    ask.require,
                    target,
                );
                Some(event)
            }
        }
    }

    /// Does what the service does next.
    fn go_on<G: PortGate<Seat = S>, H: Hints>(
        &mut self,
        gate: &mut G,
        hints: &mut H,
        served: Served,
    ) -> Option<NodeEvent>
        requires serving { GoesOnIn served self.old }
        requires can { CanAct G.PortGate gate.old self.old }
        ensures acts { Acts G.PortGate gate.old gate.new self.old self.new result }
        ensures hints { HintsOf G.PortGate H.Hints gate.old self.old self.new hints.old hints.new result }
        ensures exact { IsByRule G.PortGate (λ s. option_and_then (does_next s self.old.first_port served.port)
            (moves.next (C.state self.old.inner))) gate.old self.old result }
        ensures moved { IsMove 2 self.old self.new result }
        ensures some { is_some result ≡ true }
    {
        match self.inner.next() {
            Next::Give(value) => self.give(gate, served, value),
            Next::More(value) => self.send_more(gate, served, value),
            Next::Ask(ask) => self.call(gate, hints, served, ask),
        }
    }

    /// Hears or goes on in the service that it is in.
    fn serve_on<G: PortGate<Seat = S>, H: Hints>(
        &mut self,
        gate: &mut G,
        hints: &mut H,
        served: Served,
    ) -> Option<NodeEvent>
        requires served { self.old.known.service ≡ Some served }
        requires ended { awaits self.old.known ≡ false }
        requires can { CanAct G.PortGate gate.old self.old }
        ensures { Serves G.PortGate H.Hints (Some served) gate.old gate.new self.old self.new hints.old hints.new result }
    {
        if served.heard {
            self.go_on(gate, hints, served)
        } else {
            self.hear(gate, served)
        }
    }

    /// Goes on with the service that it is in, if no call of it is left to end.
    pub(crate) fn serve<G: PortGate<Seat = S>, H: Hints>(
        &mut self,
        gate: &mut G,
        hints: &mut H,
    ) -> Option<NodeEvent>
        requires can { CanAct G.PortGate gate.old self.old }
        ensures { Serves G.PortGate H.Hints self.old.known.service gate.old gate.new self.old self.new hints.old hints.new
            result }
    {
        if awaits_call(&self.known) {
            return None;
        }
        match self.known.service {
            None => None,
            Some(served) => self.serve_on(gate, hints, served),
        }
    }
}
