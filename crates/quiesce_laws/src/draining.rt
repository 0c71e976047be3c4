//! Why a change may look at one port after the other.

ghost use Rattle.std.specs.Prelude.{◌≡◌, ℕ, false, List, ◌++◌, IsTrue};
ghost use Rattle.std.specs.List.{list_any};
ghost use Rattle.quiesce_core.specs.declared.event.Event.{Event};
ghost use Rattle.quiesce_core.specs.Reach.{IsPortOf, wiring_of};
ghost use Rattle.config_graph.specs.Wiring.{Reach};
ghost use Rattle.quiesce_core.specs.Runs.{IsRun, state_after};
ghost use Rattle.quiesce_core.specs.Settled.{Settled};
ghost use Rattle.quiesce_core.specs.State.{gate, is_live};
ghost use Rattle.quiesce_laws.specs.Drained.{is_drained};
ghost use Rattle.quiesce_laws.specs.Events.{reopens};

/// A closed port stays closed until it is reopened.
pub fn closed_ports_stay_closed()
    ensures { (es more_ : List Event) (p : ℕ) → IsRun (es ++ more_) → list_any (reopens p) more_ ≡ false →
        IsTrue (gate (state_after es).config p).closed → IsTrue (gate (state_after (es ++ more_)).config p).closed }
{}

/// A port that is closed, and idle or in a consequent transaction, stays so until it is reopened.
pub fn drained_ports_stay_drained()
    ensures { (es more_ : List Event) (p : ℕ) → IsRun (es ++ more_) → list_any (reopens p) more_ ≡ false →
        IsTrue (is_drained (state_after es) p) → IsTrue (is_drained (state_after (es ++ more_)) p) }
{}

/// A live node is settled where each of its ports and each port that reaches it is closed, and idle or in a consequent
/// transaction: the owner of a consequent one would service another of these ports, and so on without end, since links
/// that a service may use form no cycle. So it is enough to have seen each of them without a root once since it was
/// closed.
pub fn nodes_with_drained_ports_are_settled()
    ensures { (es : List Event) (n : ℕ) → IsRun es → IsTrue (is_live (state_after es).config n) →
        ((p : ℕ) → IsPortOf (state_after es).config n p → IsTrue (is_drained (state_after es) p)) →
        ((p : ℕ) → Reach (wiring_of (state_after es).config) n p → IsTrue (is_drained (state_after es) p))
        → Settled (state_after es) n }
{}
