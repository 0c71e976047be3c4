//! A node: its component, its seat and its log, and the nodes from which its state was handed on.

ghost use Rattle.std.specs.Prelude.{◌≡◌, ℕ, List, [], ◌∷◌, map, slice_get, None, Some};
ghost use Rattle.component_trait.specs.Moves as moves;
ghost use Rattle.node_host.specs.Hosted.{IsHosted, node_of};
ghost use Rattle.node_host.specs.HostedProps.{hosted_prop};
ghost use Rattle.node_host.specs.Lines.{line_state};
ghost use Rattle.node_gate.specs.Seats.{IsWithinLimits};
ghost use Rattle.quiesce_core.specs.Knowledge.{nothing_known};
ghost use Rattle.quiesce_core.specs.declared.event.Event.{Event};

use component_trait::Component;
use node_gate::{GateSeat, unknown};
use quiesce_core::{Known, NodeEvent};
use std::alloc::Global;

/// An earlier node, from which the state was handed on: its argument, its seat and all that it did.
#[derive(Drop)]
pub struct Past<S: GateSeat + Drop> {
    pub slot: u32,
    pub first_port: u32,
    /// 0 where its kind has none.
    pub arg: u32,
    pub seat: S,
    pub log: Vec<NodeEvent>,
    ghost told: { (es : List Event) → S.tells seat ≡ Some es → es ≡ log.items },
}

/// A node with its seat and its log. Its state is the fold of the log from its opening state, which the past decides.
#[derive(Drop)]
pub struct HostNode<C: Component + Drop, S: GateSeat + Drop> {
    pub slot: u32,
    pub first_port: u32,
    pub inner: C,
    pub seat: S,
    pub log: Vec<NodeEvent>,
    /// The earliest first.
    pub past: Vec<Past<S>>,
    /// What the seat knows.
    pub known: Known,
    /// For each requirement the node for which a hint waits, which found that node's inbox full.
    pub waiting: [Option<u32>; 2],
    ghost hosted: { IsHosted slot first_port (C.state inner) log.items
        (map (λ p. record { first = p.first_port; arg = p.arg; log = p.log.items }) past.items) known waiting (record
        { slot = S.slot_of seat; known = S.known seat; told = S.tells seat }) } by { hosted_prop _ _ _ _ _ _ _ _ },
    ghost past_slots: { (k : ℕ) (p : _) → slice_get past.items k ≡ Some p → S.slot_of p.seat ≡ p.slot },
}

impl<C: Component + Drop, S: GateSeat + Drop> HostNode<C, S> {
    /// The node in a slot, which has done nothing, with its component in no service. What it opens with is what the
    /// last of its past came to keep, or else what its kind and argument say.
    #[tactic(auto, using(crate::proofs::Growing::hosted_at_first))]
    pub fn host(
        alloc: Global,
        slot: u32,
        first_port: u32,
        inner: C,
        seat: S,
        past: Vec<Past<S>>,
    ) -> HostNode<C, S>
        requires seat { S.slot_of seat ≡ slot }
        requires limits { IsWithinLimits (node_of slot first_port (C.state inner)) }
        requires known { S.known seat ≡ nothing_known }
        requires tells { (es : List Event) → S.tells seat ≡ Some es → es ≡ [] }
        requires rests { (C.state inner).service ≡ None }
        requires opens { line_state (C.state inner).kind None
            (map (λ p. record { first = p.first_port; arg = p.arg; log = p.log.items }) past.items)
            (record { first = first_port; arg = (C.state inner).arg; log = [] }) ≡ Some (C.state inner) }
        requires past_slots { (k : ℕ) (p : _) → slice_get past.items k ≡ Some p → S.slot_of p.seat ≡ p.slot }
        ensures place { (result.slot ≡ slot) × (result.first_port ≡ first_port) }
        ensures inner { result.inner ≡ inner }
        ensures seat { result.seat ≡ seat }
        ensures log { result.log.items ≡ [] }
        ensures past { result.past ≡ past }
        ensures waiting { result.waiting ≡ None ∷ None ∷ [] }
    {
        HostNode {
            slot,
            first_port,
            inner,
            seat,
            log: Vec::new(alloc),
            past,
            known: unknown(),
            waiting: [None; 2],
        }
    }

    pub fn log(&self) -> &[NodeEvent]
        ensures { result.now ≡ self.now.log.items }
    {
        &self.log
    }

    pub fn inner(&self) -> &C
        ensures { result.now ≡ self.now.inner }
    {
        &self.inner
    }

    pub fn done(&self) -> bool
        ensures { result ≡ moves.is_done (C.state self.now.inner) }
    {
        self.inner.done()
    }

    /// The component, the seat, the log and the past.
    pub fn into_parts(self) -> (C, S, Vec<NodeEvent>, Vec<Past<S>>)
        ensures { result ≡ (self.inner, self.seat, self.log, self.past) }
    {
        (self.inner, self.seat, self.log, self.past)
    }
}
