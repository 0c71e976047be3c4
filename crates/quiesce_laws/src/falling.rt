//! How what is left of the open transactions changes by each event.

ghost use Rattle.std.specs.Prelude.{◌≡◌, ℕ, ◌+◌, ◌<◌, ◌≤◌, true, false, List, [], ◌∷◌, ◌++◌, Some};
ghost use Rattle.config_graph.specs.declared.node.Target.{Target};
ghost use Rattle.quiesce_core.specs.declared.event.Event.{Event};
ghost use Rattle.quiesce_core.specs.State.{State, target};
ghost use Rattle.quiesce_core.specs.Rest.{full, rest};
ghost use Rattle.quiesce_core.specs.Runs.{IsRun, Step, state_after};
ghost use Rattle.quiesce_core.specs.Traffic.{IsConsistent};
ghost use Rattle.quiesce_core.specs.WellFormed.{IsWellFormed};
ghost use Rattle.quiesce_laws.specs.Advances.{is_advance, is_begin};

/// By the steps from a state that is well formed and consistent, as each state after a run is: what is left falls at
/// each event of an open transaction, and rises at none but a Begin: by all the events of one transaction with the
/// provision that is asked. It doesn't rise at a Link, since nothing open can lead to the owner of a port that is
/// linked, which is settled.
pub fn rest_falls_by_steps()
    ensures falls { (s t : State) (e : Event) → IsWellFormed s → IsConsistent s → Step s e t
        → is_advance e ≡ true → rest t < rest s }
    ensures stays { (s t : State) (e : Event) → IsWellFormed s → IsConsistent s → Step s e t
        → is_begin e ≡ false → rest t ≤ rest s }
    ensures rises { (s t : State) (p k v : ℕ) (to : Target) → IsWellFormed s → IsConsistent s
        → Step s (Event.Begin p k v) t
        → target s.config p ≡ Some to → rest t ≡ rest s + full s.config to.node to.provide }
{}

/// The same in every run.
pub fn rest_falls_in_runs()
    ensures falls { (es : List Event) (e : Event) → IsRun (es ++ e ∷ []) → is_advance e ≡ true
        → rest (state_after (es ++ e ∷ [])) < rest (state_after es) }
    ensures stays { (es : List Event) (e : Event) → IsRun (es ++ e ∷ []) → is_begin e ≡ false
        → rest (state_after (es ++ e ∷ [])) ≤ rest (state_after es) }
    ensures rises { (es : List Event) (p k v : ℕ) (to : Target) → IsRun (es ++ Event.Begin p k v ∷ [])
        → target (state_after es).config p ≡ Some to
        → rest (state_after (es ++ Event.Begin p k v ∷ []))
        ≡ rest (state_after es) + full (state_after es).config to.node to.provide }
{}
