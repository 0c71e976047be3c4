//! A node's state agrees with what its own events tell it of the machine.

ghost use Rattle.std.specs.Prelude.{◌≡◌, ℕ, Option, Some};
ghost use Rattle.component_trait.specs.Fold.{after_event};
ghost use Rattle.component_trait.specs.States.{NodeState};
ghost use Rattle.quiesce_core.specs.Knowledge.{OwnPort, served_next};
ghost use Rattle.quiesce_core.specs.declared.event.Event.{Event};
ghost use Rattle.quiesce_core.specs.declared.known.Served.{Served};
ghost use Rattle.node_turn_laws.specs.Agreement.{Agrees, HandsSmall, IsInTurn, IsSmall, ports_next};

/// A node's state agrees with what its own events tell it of its service and its ports, and stays in agreement with
/// each event that its fold takes and before which it saw to what a turn sees to. Its values stay below the limit
/// where those that it is handed are.
pub fn agreements_are_kept()
    ensures agrees { (first : ℕ) (t t' : NodeState) (u : Option Served) (ports : ℕ → OwnPort) (e : Event)
        → Agrees first t u ports
        → IsInTurn ports e → after_event first t e ≡ Some t' → Agrees first t' (served_next u e) (ports_next ports e) }
    ensures small { (first : ℕ) (t t' : NodeState) (e : Event) → IsSmall t → HandsSmall e
        → after_event first t e ≡ Some t'
        → IsSmall t' }
{}
