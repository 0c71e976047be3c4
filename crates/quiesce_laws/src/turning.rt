//! Gates that a change closes, or opens again.

ghost use Rattle.std.specs.Prelude.{◌≡◌, ◌∷◌, ◌++◌, ℕ, true, false, List, None, filter, map, Contains, IsTrue};
ghost use Rattle.quiesce_core.specs.declared.event.Event.{Event};
ghost use Rattle.quiesce_core.specs.declared.event.Event.TheVariants.{Close, Reopen};
ghost use Rattle.quiesce_core.specs.Doers.{is_of_change};
ghost use Rattle.quiesce_core.specs.Rules.{denial, is_live_port};
ghost use Rattle.quiesce_core.specs.Runs.{IsRun, state_after};
ghost use Rattle.quiesce_core.specs.State.{gate};

/// The gates of live nodes may be closed, or opened again, one after the other, whatever nodes do in between. So a
/// change may begin, and may be given up, and a stop may close all.
pub fn gates_may_be_turned()
    ensures closed { (es more_ left : List Event) (e : Event) (ports : List ℕ) → ((p : ℕ) → Contains ports p
        → IsTrue (is_live_port (state_after es).config p)) → IsRun (es ++ more_)
        → filter is_of_change more_ ++ e ∷ left ≡ map Close ports → denial (state_after (es ++ more_)) e ≡ None }
    ensures reopened { (es more_ left : List Event) (e : Event) (ports : List ℕ) → ((p : ℕ) → Contains ports p
        → IsTrue (is_live_port (state_after es).config p)) → IsRun (es ++ more_)
        → filter is_of_change more_ ++ e ∷ left ≡ map Reopen ports → denial (state_after (es ++ more_)) e ≡ None }
    ensures are_closed { (es more_ : List Event) (ports : List ℕ) → ((p : ℕ) → Contains ports p
        → IsTrue (is_live_port (state_after es).config p))
        → filter is_of_change more_ ≡ map Close ports → (p : ℕ) → Contains ports p
        → (gate (state_after (es ++ more_)).config p).closed ≡ true }
    ensures are_open { (es more_ : List Event) (ports : List ℕ) → ((p : ℕ) → Contains ports p
        → IsTrue (is_live_port (state_after es).config p))
        → filter is_of_change more_ ≡ map Reopen ports → (p : ℕ) → Contains ports p
        → (gate (state_after (es ++ more_)).config p).closed ≡ false }
{}
