//! A node's first move: it ends, or replies in, a transaction at the lowest of its ports at which a reply stands.

ghost use Rattle.std.specs.Prelude.{◌≡◌, ℕ, ◌+◌, ◌<◌, true, false, length, slice_index_or, Some};
ghost use Rattle.config_graph.specs.Kinds.{row};
ghost use Rattle.component_trait.specs.Fold.{after_event};
ghost use Rattle.config_graph.specs.declared.TheConstants.{VALUE_LIMIT};
ghost use Rattle.node_host.specs.Acts.{Acts, CanAct};
ghost use Rattle.node_host.specs.Moves.{IsByRule, IsSilent, Replies, RepliesAt};
ghost use Rattle.node_host.specs.Told.{reply_at};
ghost use Rattle.quiesce_core.specs.Knowledge.{port_at_start};
ghost use Rattle.quiesce_core.specs.declared.event.Event.TheVariants as event;
ghost use Rattle.node_turn_laws.specs.Agreement.{expects};

use crate::keeping::{keep, seats_have_places};
use crate::node::HostNode;
use component_trait::Component;
use node_gate::{GateSeat, PortGate, SeeAnswer};
use quiesce_core::{Deed, Known, Message, NodeEvent, PortKnown};

/// What is known of the port of this requirement.
pub(crate) fn port_known(known: &Known, require: u32) -> PortKnown
    requires { require < 2 }
    ensures { result ≡ slice_index_or known.now.ports require port_at_start }
{
    known.ports[require as usize]
}

/// Hands an answer in: to the service that called, or as that of a transaction that the component wanted.
#[tactic(auto, using(crate::proofs::Asking::asked_is, crate::proofs::Asking::wanted_is, node_turn_laws::proofs::AgreementLaws::who_wants_asks_nothing))]
fn hand_in<C: Component>(inner: &mut C, first_port: u32, require: u32, known: PortKnown, value: u32)
    requires expected { expects known.consequent first_port (C.state inner.old) (first_port + require) ≡ true }
    requires small { value < VALUE_LIMIT }
    ensures folds { (serial : ℕ) → after_event first_port (C.state inner.old)
        (event.End (first_port + require) serial value) ≡ Some (C.state inner.new) }
    ensures room { C.has_room inner.old → C.has_room inner.new }
{
    if known.consequent {
        inner.answered(require, value);
    } else {
        inner.ended(require, value);
    }
}

impl<C: Component + Drop, S: GateSeat + Drop> HostNode<C, S> {
    /// Ends or replies at the port of one requirement that isn't idle, where a reply stands there.
    #[inline(never)]
    fn reply_at_busy<G: PortGate<Seat = S>>(
        &mut self,
        gate: &mut G,
        require: u32,
    ) -> Option<NodeEvent>
        requires can { CanAct G.PortGate gate.old self.old }
        requires require { require < length (row (C.state self.old.inner).kind).requires_ }
        requires busy { (slice_index_or self.old.known.ports require port_at_start).idle ≡ false }
        ensures acts { Acts G.PortGate gate.old gate.new self.old self.new result }
        ensures silent { IsSilent self.old self.new result }
        ensures exact { IsByRule G.PortGate (λ s. reply_at s (C.state self.old.inner) (self.old.first_port + require))
            gate.old self.old result }
        ensures replies { RepliesAt require self.old self.new result }
    {
        seats_have_places(gate, &self.seat);
        let known = port_known(&self.known, require);
        let first = self.first_port;
        let port = first + require;
        let serial = known.serial;
        match gate.see(&mut self.seat, port) {
            SeeAnswer::NotYet { .. } => None,
            SeeAnswer::Answer { value } => {
                gate.end(&mut self.seat, port);
                hand_in(&mut self.inner, first, require, known, value);
                let done = Deed::End(Message {
                    port,
                    serial,
                    value,
                });
                Some(keep(&mut self.log, &mut self.known, first, done))
            }
            SeeAnswer::More { .. } => {
                let value = self.inner.replies(require);
                gate.ask(&mut self.seat, port, value);
                let done = Deed::Ask(Message {
                    port,
                    serial,
                    value,
                });
                Some(keep(&mut self.log, &mut self.known, first, done))
            }
        }
    }

    /// Ends or replies at the port of one requirement, where a reply stands there.
    #[inline(always)]
    fn reply_at<G: PortGate<Seat = S>>(&mut self, gate: &mut G, require: u32) -> Option<NodeEvent>
        requires can { CanAct G.PortGate gate.old self.old }
        requires require { require < length (row (C.state self.old.inner).kind).requires_ }
        ensures acts { Acts G.PortGate gate.old gate.new self.old self.new result }
        ensures silent { IsSilent self.old self.new result }
        ensures exact { IsByRule G.PortGate (λ s. reply_at s (C.state self.old.inner) (self.old.first_port + require))
            gate.old self.old result }
        ensures replies { RepliesAt require self.old self.new result }
    {
        seats_have_places(gate, &self.seat);
        if port_known(&self.known, require).idle {
            return None;
        }
        self.reply_at_busy(gate, require)
    }

    /// Ends or replies at the lower of two ports at which a reply stands.
    #[tactic(auto, using(crate::proofs::ActLaws::acts_then))]
    fn reply_at_either<G: PortGate<Seat = S>>(&mut self, gate: &mut G) -> Option<NodeEvent>
        requires can { CanAct G.PortGate gate.old self.old }
        requires two { length (row (C.state self.old.inner).kind).requires_ ≡ 2 }
        ensures acts { Acts G.PortGate gate.old gate.new self.old self.new result }
        ensures silent { IsSilent self.old self.new result }
        ensures replies { Replies G.PortGate gate.old self.old self.new result }
    {
        match self.reply_at(gate, 0) {
            Some(event) => Some(event),
            None => self.reply_at(gate, 1),
        }
    }

    /// Ends or replies at the lowest of its ports at which a reply stands.
    pub(crate) fn end_or_ask<G: PortGate<Seat = S>>(&mut self, gate: &mut G) -> Option<NodeEvent>
        requires can { CanAct G.PortGate gate.old self.old }
        ensures acts { Acts G.PortGate gate.old gate.new self.old self.new result }
        ensures silent { IsSilent self.old self.new result }
        ensures replies { Replies G.PortGate gate.old self.old self.new result }
    {
        match self.inner.kind().requires_() {
            0 => None,
            1 => self.reply_at(gate, 0),
            _ => self.reply_at_either(gate),
        }
    }
}
