//! A node's turn.

ghost use Rattle.std.specs.Prelude.{◌≡◌, ℕ, ◌+◌, ◌<◌, false, List, length, vec_capacity, None, Some, OnOk, OnErr, Ok};
ghost use Rattle.node_host.specs.Acts.{Acts, TellsState, node_at};
ghost use Rattle.node_host.specs.Moved.{Moved};
ghost use Rattle.node_host.specs.Moves.{PostsAndSendsBy, TriedAll};
ghost use Rattle.node_host.specs.Turning.{event_of};
ghost use Rattle.node_host.specs.declared.turning.Turn.TheVariants as turn;
ghost use Rattle.node_host.specs.Trying.{IsAsked, own_box};
ghost use Rattle.quiesce_core.specs.State.{State};
ghost use Rattle.node_turn_laws.specs.Turn.{looks, move_of};
ghost use Rattle.node_host.specs.Tried.{is_begin};

use crate::node::HostNode;
use component_trait::Component;
use config_graph::NoMemory;
use node_gate::{GateSeat, PortGate};
use port_queue::Hints;
use quiesce_core::NodeEvent;

/// What a turn did.
#[derive(Drop)]
pub enum Turn {
    Moved(NodeEvent),
    /// No move was found possible in this turn.
    Still,
}

/// Takes the memory of one more event.
fn reserve(log: &mut Vec<NodeEvent>) -> Result<(), NoMemory>
    ensures items { log.new.items ≡ log.old.items }
    ensures room { OnOk result (length log.new.items < vec_capacity log.new) }
    ensures full { OnErr result (length log.old.items < vec_capacity log.old → ⊥) }
{
    log.try_reserve(1)
}

impl<C: Component + Drop, S: GateSeat + Drop> HostNode<C, S> {
    /// The node's next move at a gate: the first that is possible. It posts, by port, its hints that wait; then it
    /// ends, or replies in, a transaction at the lowest of its ports at which a reply stands, goes on with its service,
    /// takes the next request up, or begins what it wants, where that is allowed. It takes its memory first, for which
    /// it wants none where its log and its component have room.
    #[tactic(auto, using(crate::proofs::Asked::asked_since))]
    pub fn turn<G: PortGate<Seat = S>, H: Hints>(
        &mut self,
        gate: &mut G,
        hints: &mut H,
        begins: bool,
    ) -> Result<Turn, NoMemory>
        requires fits { G.fits gate.old self.old.seat }
        requires node { G.node gate.old self.old.seat ≡ node_at self.old }
        ensures acts { Acts G.PortGate gate.old gate.new self.old self.new (event_of result) }
        ensures memory { OnErr result ((self.new.waiting ≡ self.old.waiting) × (self.new.seat ≡ self.old.seat)
            × (gate.new ≡ gate.old) × (hints.new ≡ hints.old)) }
        ensures full { OnErr result (length self.old.log.items < vec_capacity self.old.log → C.has_room self.old.inner
            → ⊥) }
        ensures exact { (s : State) (held : List ℕ) → TellsState G.PortGate gate.old self.old s
            → H.tells hints.old self.old.slot ≡ Some held → OnOk result (event_of result ≡ move_of s self.old.slot
            (C.state self.old.inner) (own_box self.old.slot self.old.first_port self.old.waiting held) begins) }
        ensures hints { OnOk result (PostsAndSendsBy G.PortGate H.Hints
            (λ s. looks s self.old.slot (C.state self.old.inner)) gate.old self.old self.new hints.old hints.new
            (event_of result)) }
        ensures looked { result ≡ Ok turn.Still → (C.state self.old.inner).service ≡ None
            → IsAsked (H.counts hints.old self.old.slot) (H.counts hints.new self.old.slot) }
        ensures tried { OnOk result (TriedAll begins self.old self.new (event_of result)) }
        ensures no_begin { begins ≡ false → is_begin (event_of result) ≡ false }
    {
        reserve(&mut self.log)?;
        self.inner.room()?;
        self.post_waiting(hints);
        match self.act(gate, hints, begins) {
            Some(event) => Ok(Turn::Moved(event)),
            None => Ok(Turn::Still),
        }
    }
}
