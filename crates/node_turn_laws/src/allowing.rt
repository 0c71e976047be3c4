//! The event of a node's turn is allowed.

ghost use Rattle.std.specs.Prelude.{◌≡◌, ℕ, Bool, List, None, Some};
ghost use Rattle.component_trait.specs.States.{NodeState};
ghost use Rattle.quiesce_core.specs.Rules.{denial};
ghost use Rattle.quiesce_core.specs.State.{State};
ghost use Rattle.quiesce_core.specs.declared.event.Event.{Event};
ghost use Rattle.quiesce_core.specs.declared.state.Slot.{Slot};
ghost use Rattle.node_turn_laws.specs.Placed.{GoesOn, IsPlaced};
ghost use Rattle.node_turn_laws.specs.Turn.{move_of};

/// Where the state of a live node agrees with what its own events tell it, no rule denies the event of its turn,
/// whatever its inbox has; the event is its own, and its fold goes on with it.
pub fn moves_of_agreeing_nodes_are_allowed()
    ensures allowed { (s : State) (n : ℕ) (m : Slot) (t : NodeState) (es : List Event) (box : List ℕ) (begins : Bool)
        (e : Event)
        → IsPlaced s n m t es → move_of s n t box begins ≡ Some e → denial s e ≡ None }
    ensures goes_on { (s : State) (n : ℕ) (m : Slot) (t : NodeState) (es : List Event) (box : List ℕ) (begins : Bool)
        (e : Event)
        → IsPlaced s n m t es → move_of s n t box begins ≡ Some e → GoesOn s n m t es e }
{}
