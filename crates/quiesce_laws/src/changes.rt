//! Events of a change, and events of nodes.

ghost use Rattle.std.specs.Prelude.{◌≡◌, ℕ, false, List, None, Some};
ghost use Rattle.quiesce_core.specs.declared.event.Event.{Event};
ghost use Rattle.quiesce_core.specs.declared.event.Event.TheVariants.{Begin, Close};
ghost use Rattle.quiesce_core.specs.Effect.{effect};
ghost use Rattle.quiesce_core.specs.Rules.{denial};
ghost use Rattle.quiesce_core.specs.Runs.{IsRun, state_after};
ghost use Rattle.quiesce_core.specs.State.{State};
ghost use Rattle.quiesce_core.specs.Traffic.{IsConsistent};
ghost use Rattle.quiesce_core.specs.WellFormed.{IsWellFormed};
ghost use Rattle.quiesce_laws.specs.Independence.{AreIndependent, MayBeDoneBy, MayBeDoneByChange, clashes};
ghost use Rattle.quiesce_laws.specs.Swaps.{MayBeSwapped};

/// What a change may do next and what a node may do next is independent, but for a close and a begin at one port. So
/// after each run it may be swapped.
pub fn changes_are_independent_of_nodes()
    ensures in_states { (s : State) (n : ℕ) (x e : Event) → IsWellFormed s → IsConsistent s
        → MayBeDoneByChange s x → MayBeDoneBy s n e → clashes x e ≡ false → AreIndependent s x e }
    ensures in_runs { (es : List Event) (n : ℕ) (x e : Event) → IsRun es → MayBeDoneByChange (state_after es) x
        → MayBeDoneBy (state_after es) n e → clashes x e ≡ false → MayBeSwapped es x e }
{}

/// Those two are not: behind the close, rule 2 denies the begin. Behind the begin the port may be closed still.
pub fn closes_bar_begins()
    ensures barred { (s : State) (p k v : ℕ) → denial s (Close p) ≡ None
        → denial (effect s (Close p)) (Begin p k v) ≡ Some 2 }
    ensures free { (s : State) (p k v : ℕ) → denial s (Close p) ≡ None
        → denial (effect s (Begin p k v)) (Close p) ≡ None }
{}
