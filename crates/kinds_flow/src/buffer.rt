//! A buffer passes on, one after the other, what it was given.

ghost use Rattle.std.specs.Prelude.{◌≡◌, ℕ, ◌<◌, IfSome, IsSome, OnErr, OnOk, length, slice_get, None, Some};
ghost use Rattle.config_graph.specs.declared.kind.Kind.TheVariants as kind;
ghost use Rattle.component_trait.specs.Bounds.{FitsNext, FitsRequest};
ghost use Rattle.component_trait.specs.Moves as moves;
ghost use Rattle.component_trait.specs.Serving.{WaitsForNoMore};
ghost use Rattle.component_trait.specs.States.{at_rest, nothing};
ghost use Rattle.config_graph.specs.declared.TheConstants.{VALUE_LIMIT};
ghost use Rattle.component_trait.specs.declared.next.Next.TheVariants as next;

use component_trait::{Ask, Next, Serving, reply};
use config_graph::NoMemory;
use std::alloc::Global;
use std::collections::VecDeque;

/// A buffer: how many values it keeps at most at a time, those that it has, the first to be passed on in front, and its
/// service.
#[derive(Drop)]
pub struct Buffer {
    cap: u32,
    items: VecDeque<u32>,
    service: Option<Serving>,
    ghost cap_small: { cap < VALUE_LIMIT },
    ghost items_small: { (i a : ℕ) → slice_get items.items i ≡ Some a → a < VALUE_LIMIT },
    ghost goes_on: { WaitsForNoMore service },
}

impl Buffer {
    ghost use Rattle.kinds_flow.specs.Nodes.{buffer_capacity, buffer_has_room, buffer_state};

    /// An empty buffer, which keeps at most `cap` values at a time. It takes no memory yet.
    pub fn new(alloc: Global, cap: u32) -> Buffer
        requires { cap < VALUE_LIMIT }
        ensures { buffer_state result ≡ at_rest kind.Buffer cap nothing }
    {
        Buffer {
            cap,
            items: VecDeque::new(alloc),
            service: None,
        }
    }

    /// The same buffer with another number of values that it keeps at most. What it has stays, also where that is more.
    pub fn with_arg(self, cap: u32) -> Buffer
        requires { cap < VALUE_LIMIT }
        ensures state { buffer_state result ≡ record (buffer_state self) { arg = cap } }
        ensures capacity { buffer_capacity result ≡ buffer_capacity self }
        ensures room { buffer_has_room self → buffer_has_room result }
    {
        Buffer {
            cap,
            items: self.items,
            service: self.service,
        }
    }

    /// Its argument.
    pub fn arg(&self) -> u32
        ensures arg { result ≡ (buffer_state self.now).arg }
        ensures small { result < VALUE_LIMIT }
    {
        self.cap
    }

    /// The transaction that it would begin now, if it wants one.
    pub fn wants(&self) -> Option<Ask>
        ensures wants { result ≡ moves.wants (buffer_state self.now) }
        ensures fits { IfSome result (FitsRequest kind.Buffer) }
    {
        let value = *self.items.front()?;
        Some(Ask { require: 0, value })
    }

    /// A transaction of its own, which it wanted, ended with this answer.
    pub fn ended(&mut self, value: u32)
        requires wanted { IsSome (moves.wants (buffer_state self.old)) }
        requires small { value < VALUE_LIMIT }
        ensures state { buffer_state self.new ≡ moves.after_end (buffer_state self.old) value }
        ensures capacity { buffer_capacity self.new ≡ buffer_capacity self.old }
        ensures room { buffer_has_room self.old → buffer_has_room self.new }
    {
        if value != 0 {
            let _ = self.items.pop_front();
        }
    }

    /// Takes the memory of the next service. `NoMemory`, which comes only where it has no room, leaves it as it was.
    pub fn room(&mut self) -> Result<(), NoMemory>
        ensures state { buffer_state self.new ≡ buffer_state self.old }
        ensures ok { OnOk result (buffer_has_room self.new) }
        ensures full { OnErr result (buffer_has_room self.old → ⊥) }
        ensures room { buffer_has_room self.old → buffer_has_room self.new }
    {
        self.items.try_reserve(1)
    }

    /// Takes a value up.
    pub fn serve(&mut self, value: u32)
        requires rests { (buffer_state self.old).service ≡ None }
        requires room { buffer_has_room self.old }
        requires small { value < VALUE_LIMIT }
        ensures state { buffer_state self.new ≡ moves.after_take (buffer_state self.old) value }
        ensures capacity { buffer_capacity self.new ≡ buffer_capacity self.old }
    {
        let fits = self.items.len() < self.cap as usize;
        if fits {
            self.items.push_back_reserved(value);
        }
        self.service = Some(Serving::of(value, if fits { 1 } else { 0 }));
    }

    /// What its service does next.
    pub fn next(&self) -> Next
        requires goes_on { IsSome (moves.next (buffer_state self.now)) }
        ensures next { moves.next (buffer_state self.now) ≡ Some result }
        ensures fits { FitsNext kind.Buffer result }
    {
        Next::Give(reply(&self.service))
    }

    /// Its service gave its answer.
    pub fn given(&mut self)
        requires gave { ((v : ℕ) × (moves.next (buffer_state self.old) ≡ Some (next.Give v))) }
        ensures state { buffer_state self.new ≡ moves.after_give (buffer_state self.old) }
        ensures capacity { buffer_capacity self.new ≡ buffer_capacity self.old }
        ensures room { buffer_has_room self.old → buffer_has_room self.new }
    {
        self.service = None;
    }

    /// Whether it is in a service.
    pub fn in_service(&self) -> bool
        ensures { result ≡ moves.in_service (buffer_state self.now) }
    {
        self.service.is_some()
    }

    /// Whether it is done.
    pub fn done(&self) -> bool
        ensures { result ≡ moves.is_done (buffer_state self.now) }
    {
        self.items.is_empty()
    }

    /// How many values it has.
    pub fn state_len(&self) -> usize
        ensures { result ≡ length (moves.numbers (buffer_state self.now)) }
    {
        self.items.len()
    }

    /// The number of its state at a place.
    pub fn state_word(&self, index: usize) -> u64
        requires { index < length (moves.numbers (buffer_state self.now)) }
        ensures { slice_get (moves.numbers (buffer_state self.now)) index ≡ Some result }
    {
        self.items[index] as u64
    }
}
