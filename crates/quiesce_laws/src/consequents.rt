//! Consequents by the run and by the state.

ghost use Rattle.std.specs.Prelude.{◌≡◌, ℕ, true, List, ◌++◌, IsTrue};
ghost use Rattle.quiesce_core.specs.declared.event.Event.{Event};
ghost use Rattle.quiesce_core.specs.Runs.{HasRoot, IsRun, state_after};
ghost use Rattle.quiesce_laws.specs.Belongs.{Belongs, belongs, singleton, open_in};

/// A transaction that by the events of a run has some root belongs to that root by the state, while it is open. So each
/// of its events is counted where the root was open.
pub fn consequents_belong_to_their_roots()
    ensures found { (es : List Event) (p k q j : ℕ) → IsRun es → HasRoot es p k q j
        → open_in (state_after es) p k ≡ true
        → Belongs (singleton q j) (state_after es) p }
    ensures counted { (es more_ : List Event) (p k q j : ℕ) → IsRun (es ++ more_) → HasRoot (es ++ more_) p k q j
        → open_in (state_after (es ++ more_)) p k ≡ true → open_in (state_after es) q j ≡ true
        → IsTrue (belongs (open_in (state_after es)) (state_after (es ++ more_)) p) }
{}
