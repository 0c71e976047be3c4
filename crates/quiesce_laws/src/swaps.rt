//! What independence is for.

ghost use Rattle.std.specs.Prelude.{◌≡◌, ℕ, List, None, Some};
ghost use Rattle.quiesce_core.specs.declared.event.Event.{Event};
ghost use Rattle.quiesce_core.specs.Rules.{denial};
ghost use Rattle.quiesce_core.specs.Runs.{IsRun, doer, state_after};
ghost use Rattle.quiesce_laws.specs.Independence.{AreIndependent};
ghost use Rattle.quiesce_laws.specs.Swaps.{MayBeSwapped};

/// Two events that are independent after a run, and that no one node does, may be swapped behind it.
pub fn independent_events_may_be_swapped()
    ensures { (es : List Event) (e f : Event) → IsRun es → denial (state_after es) e ≡ None
        → denial (state_after es) f ≡ None → AreIndependent (state_after es) e f
        → ((n : ℕ) → doer (state_after es) e ≡ Some n → doer (state_after es) f ≡ Some n → ⊥) → MayBeSwapped es e f }
{}
