//! Events of different nodes.

ghost use Rattle.std.specs.Prelude.{◌≡◌, ℕ, List};
ghost use Rattle.quiesce_core.specs.declared.event.Event.{Event};
ghost use Rattle.quiesce_core.specs.Runs.{IsRun, state_after};
ghost use Rattle.quiesce_core.specs.State.{State};
ghost use Rattle.quiesce_core.specs.Traffic.{IsConsistent};
ghost use Rattle.quiesce_core.specs.WellFormed.{IsWellFormed};
ghost use Rattle.quiesce_laws.specs.Independence.{AreIndependent, MayBeDoneBy};
ghost use Rattle.quiesce_laws.specs.Swaps.{MayBeSwapped};

/// What two different nodes may do next is independent, in each state that is well formed and consistent. So after each
/// run it may be swapped.
pub fn nodes_are_independent()
    ensures in_states { (s : State) (m n : ℕ) (e f : Event) → IsWellFormed s → IsConsistent s
        → MayBeDoneBy s m e → MayBeDoneBy s n f → (m ≡ n → ⊥) → AreIndependent s e f }
    ensures in_runs { (es : List Event) (m n : ℕ) (e f : Event) → IsRun es
        → MayBeDoneBy (state_after es) m e → MayBeDoneBy (state_after es) n f → (m ≡ n → ⊥) → MayBeSwapped es e f }
{}
