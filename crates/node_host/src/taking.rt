//! A node's third move: it takes up the request at the next hint.

ghost use Rattle.std.specs.Prelude.{◌≡◌, ℕ, ◌<◌, ◌∷◌, List, None};
ghost use Rattle.config_graph.specs.declared.TheConstants.{MAX_PORTS};
ghost use Rattle.node_host.specs.Acts.{Acts, CanAct, LoadsSo, hinted};
ghost use Rattle.node_host.specs.Moves.{IsByInboxRule, IsByRule, IsMove, IsSilent};
ghost use Rattle.node_host.specs.Posting.{IsLooked};
ghost use Rattle.node_turn_laws.specs.Turn.{takes};
ghost use Rattle.node_host.specs.Tried.{HasNoRequest, is_stale_for};
ghost use Rattle.node_gate.specs.Loads.{IsLed};

use crate::keeping::{keep, seats_have_places};
use crate::node::HostNode;
use component_trait::Component;
use node_gate::{GateSeat, PortGate, TakeAnswer};
use port_queue::Hints;
use quiesce_core::{Deed, Message, NodeEvent};

impl<C: Component + Drop, S: GateSeat + Drop> HostNode<C, S> {
    /// Takes the request up that waits at a port for this node, which is in no service.
    fn take_at<G: PortGate<Seat = S>>(&mut self, gate: &mut G, port: u32) -> Option<NodeEvent>
        requires port { port < MAX_PORTS }
        requires can { CanAct G.PortGate gate.old self.old }
        requires has_room { C.has_room self.old.inner }
        requires free { (C.state self.old.inner).service ≡ None }
        ensures acts { Acts G.PortGate gate.old gate.new self.old self.new result }
        ensures silent { IsSilent self.old self.new result }
        ensures exact { (later : List ℕ) → IsByRule G.PortGate (λ s. takes s self.old.slot (port ∷ later))
            gate.old self.old result }
        ensures moved { IsMove 3 self.old self.new result }
        ensures stale { result ≡ None
            → LoadsSo (λ a b. IsLed port (is_stale_for self.old.slot) a.steps b.steps b.take) self.old self.new }
    {
        seats_have_places(gate, &self.seat);
        match gate.take(&mut self.seat, port) {
            TakeAnswer::Stale { .. } => None,
            TakeAnswer::Taken {
                provide,
                serial,
                value,
            } => {
                self.inner.serve(provide, value);
                let done = Deed::Take(Message {
                    port,
                    serial,
                    value,
                });
                Some(keep(&mut self.log, &mut self.known, self.first_port, done))
            }
        }
    }

    /// Takes the next hint, and the request up that waits at its port for this node. Only a node that is in no
    /// service does so.
    pub(crate) fn take_next<G: PortGate<Seat = S>, H: Hints>(
        &mut self,
        gate: &mut G,
        hints: &mut H,
    ) -> Option<NodeEvent>
        requires can { CanAct G.PortGate gate.old self.old }
        requires has_room { C.has_room self.old.inner }
        requires free { (C.state self.old.inner).service ≡ None }
        ensures acts { Acts G.PortGate gate.old gate.new self.old self.new result }
        ensures looks { IsLooked self.old.slot (hinted H.Hints hints.old self.old) (hinted H.Hints hints.new self.new) }
        ensures silent { IsSilent self.old self.new result }
        ensures exact { IsByInboxRule G.PortGate H.Hints (λ s held. takes s self.old.slot held) gate.old hints.old
            self.old result }
        ensures moved { IsMove 3 self.old self.new result }
        ensures tried { result ≡ None → HasNoRequest self.old.slot (H.counts hints.old self.old.slot)
            (H.counts hints.new self.old.slot) (S.loads self.old.seat) (S.loads self.new.seat) }
    {
        seats_have_places(gate, &self.seat);
        match hints.next(self.slot) {
            None => None,
            Some(port) => self.take_at(gate, port),
        }
    }
}
