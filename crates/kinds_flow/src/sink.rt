//! A sink keeps what it is given.

ghost use Rattle.std.specs.Prelude.{◌≡◌, ℕ, ◌<◌, IsSome, OnErr, OnOk, length, slice_get, None, Some};
ghost use Rattle.config_graph.specs.declared.kind.Kind.TheVariants as kind;
ghost use Rattle.component_trait.specs.Bounds.{FitsNext};
ghost use Rattle.component_trait.specs.Moves as moves;
ghost use Rattle.component_trait.specs.Serving.{WaitsForNoMore};
ghost use Rattle.component_trait.specs.States.{at_rest, nothing};
ghost use Rattle.config_graph.specs.declared.TheConstants.{VALUE_LIMIT};
ghost use Rattle.component_trait.specs.declared.next.Next.TheVariants as next;

use component_trait::{Next, Serving, reply};
use config_graph::NoMemory;
use std::alloc::Global;

/// A sink: the values that it was given, the first in front, and its service.
#[derive(Drop)]
pub struct Sink {
    items: Vec<u32>,
    service: Option<Serving>,
    ghost items_small: { (i a : ℕ) → slice_get items.items i ≡ Some a → a < VALUE_LIMIT },
    ghost goes_on: { WaitsForNoMore service },
}

impl Sink {
    ghost use Rattle.kinds_flow.specs.Nodes.{sink_capacity, sink_has_room, sink_state};

    /// A sink that was given nothing. It takes no memory yet.
    pub fn new(alloc: Global) -> Sink
        ensures { sink_state result ≡ at_rest kind.Sink 0 nothing }
    {
        Sink {
            items: Vec::new(alloc),
            service: None,
        }
    }

    /// Takes the memory of the next service. `NoMemory`, which comes only where it has no room, leaves it as it was.
    pub fn room(&mut self) -> Result<(), NoMemory>
        ensures state { sink_state self.new ≡ sink_state self.old }
        ensures ok { OnOk result (sink_has_room self.new) }
        ensures full { OnErr result (sink_has_room self.old → ⊥) }
        ensures room { sink_has_room self.old → sink_has_room self.new }
    {
        self.items.try_reserve(1)
    }

    /// Takes a value up.
    pub fn serve(&mut self, value: u32)
        requires rests { (sink_state self.old).service ≡ None }
        requires room { sink_has_room self.old }
        requires small { value < VALUE_LIMIT }
        ensures state { sink_state self.new ≡ moves.after_take (sink_state self.old) value }
        ensures capacity { sink_capacity self.new ≡ sink_capacity self.old }
    {
        self.items.push_reserved(value);
        self.service = Some(Serving::of(value, 1));
    }

    /// What its service does next.
    pub fn next(&self) -> Next
        requires goes_on { IsSome (moves.next (sink_state self.now)) }
        ensures next { moves.next (sink_state self.now) ≡ Some result }
        ensures fits { FitsNext kind.Sink result }
    {
        Next::Give(reply(&self.service))
    }

    /// Its service gave its answer.
    pub fn given(&mut self)
        requires gave { ((v : ℕ) × (moves.next (sink_state self.old) ≡ Some (next.Give v))) }
        ensures state { sink_state self.new ≡ moves.after_give (sink_state self.old) }
        ensures capacity { sink_capacity self.new ≡ sink_capacity self.old }
        ensures room { sink_has_room self.old → sink_has_room self.new }
    {
        self.service = None;
    }

    /// Whether it is in a service.
    pub fn in_service(&self) -> bool
        ensures { result ≡ moves.in_service (sink_state self.now) }
    {
        self.service.is_some()
    }

    /// How many values it has.
    pub fn state_len(&self) -> usize
        ensures { result ≡ length (moves.numbers (sink_state self.now)) }
    {
        self.items.len()
    }

    /// The number of its state at a place.
    pub fn state_word(&self, index: usize) -> u64
        requires { index < length (moves.numbers (sink_state self.now)) }
        ensures { slice_get (moves.numbers (sink_state self.now)) index ≡ Some result }
    {
        self.items[index] as u64
    }
}
