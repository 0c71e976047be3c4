//! The calls of a component. Contracts see the state of the machine of its kind.

ghost use Rattle.std.specs.Prelude.{◌≡◌, ℕ, ◌<◌, true, length, slice_get, Some, None, IsSome, IfSome, OnErr, OnOk};
ghost use Rattle.config_graph.specs.Kinds.{row};
ghost use Rattle.component_trait.specs.States.{NodeState, argument};
ghost use Rattle.component_trait.specs.Moves as moves;
ghost use Rattle.component_trait.specs.Bounds.{FitsRequest, FitsNext, is_request_of};
ghost use Rattle.component_trait.specs.declared.next.Next.TheVariants as next;
ghost use Rattle.config_graph.specs.declared.TheConstants.{VALUE_LIMIT};

use crate::next::{Ask, Next};
use config_graph::{Kind, NoMemory};

/// What a node does with values. Each call follows the machine of the component's kind, and none but `room` takes
/// memory.
pub trait Component {
    /// The state of the machine of its kind.
    ghost state: { Self → NodeState };

    /// Whether the next service has its memory. Only a service uses that up.
    ghost has_room: { Self → Type 0 };

    /// Its kind.
    fn kind(&self) -> Kind
        ensures { result ≡ (state self.now).kind };

    /// Its argument, where its kind has one.
    fn arg(&self) -> Option<u32>
        ensures arg { result ≡ argument (state self.now) }
        ensures small { IfSome result (λ a. a < VALUE_LIMIT) };

    /// The transaction that it would begin now, if it wants one.
    fn wants(&self) -> Option<Ask>
        ensures wants { result ≡ moves.wants (state self.now) }
        ensures fits { IfSome result (FitsRequest (state self.now).kind) };

    /// A transaction of its own, which it wanted at this requirement, ended with this answer.
    fn ended(&mut self, require: u32, value: u32)
        requires wanted { is_request_of require (moves.wants (state self.old)) ≡ true }
        requires small { value < VALUE_LIMIT }
        ensures state { state self.new ≡ moves.after_end (state self.old) value }
        ensures room { has_room self.old → has_room self.new };

    /// Takes the memory of the next service. `NoMemory`, which comes only where it has no room, leaves it as it was.
    fn room(&mut self) -> Result<(), NoMemory>
        ensures state { state self.new ≡ state self.old }
        ensures ok { OnOk result (has_room self.new) }
        ensures full { OnErr result (has_room self.old → ⊥) }
        ensures room { has_room self.old → has_room self.new };

    /// Takes a value up, which was asked of this provision.
    fn serve(&mut self, provide: u32, value: u32)
        requires rests { (state self.old).service ≡ None }
        requires room { has_room self.old }
        requires provide { provide < length (row (state self.old).kind).provides }
        requires small { value < VALUE_LIMIT }
        ensures state { state self.new ≡ moves.after_take (state self.old) value };

    /// What its service does next.
    fn next(&self) -> Next
        requires goes_on { IsSome (moves.next (state self.now)) }
        ensures next { moves.next (state self.now) ≡ Some result }
        ensures fits { FitsNext (state self.now).kind result };

    /// The call that its service made ended with this answer. A call that was missed is answered with 0.
    fn answered(&mut self, require: u32, value: u32)
        requires asked { ((v : ℕ) × (moves.next (state self.old) ≡
            Some (next.Ask (record { require = require; value = v })))) }
        requires small { value < VALUE_LIMIT }
        ensures state { state self.new ≡ moves.after_answer (state self.old) value }
        ensures room { has_room self.old → has_room self.new };

    /// Its service gave its answer.
    fn given(&mut self)
        requires gave { ((v : ℕ) × (moves.next (state self.old) ≡ Some (next.Give v))) }
        ensures state { state self.new ≡ moves.after_give (state self.old) }
        ensures room { has_room self.old → has_room self.new };

    /// Its service sent its intermediate reply.
    fn more_given(&mut self)
        requires sent { ((v : ℕ) × (moves.next (state self.old) ≡ Some (next.More v))) }
        ensures state { state self.new ≡ moves.after_more (state self.old) }
        ensures room { has_room self.old → has_room self.new };

    /// Whether its service waits for a further message.
    fn waits(&self) -> bool
        ensures { result ≡ moves.waits (state self.now) };

    /// The further message came.
    fn heard(&mut self, value: u32)
        requires waits { moves.waits (state self.old) ≡ true }
        requires small { value < VALUE_LIMIT }
        ensures state { state self.new ≡ moves.after_answer (state self.old) value }
        ensures room { has_room self.old → has_room self.new };

    /// What it replies to an intermediate reply that it has at this requirement.
    fn replies(&self, require: u32) -> u32
        requires require { require < length (row (state self.now).kind).requires_ }
        ensures reply { result ≡ moves.replies (state self.now) }
        ensures small { result < VALUE_LIMIT };

    /// Whether it is in a service.
    fn in_service(&self) -> bool
        ensures { result ≡ moves.in_service (state self.now) };

    /// Whether it is done. A kind that has no work of its own always is.
    fn done(&self) -> bool
        ensures { result ≡ moves.is_done (state self.now) };

    /// How many numbers its state has.
    fn state_len(&self) -> usize
        ensures { result ≡ length (moves.numbers (state self.now)) };

    /// The number of its state at a place.
    fn state_word(&self, index: usize) -> u64
        requires { index < length (moves.numbers (state self.now)) }
        ensures { slice_get (moves.numbers (state self.now)) index ≡ Some result };
}
