//! What a change may do by the configuration alone, where some ports are known to be drained.

ghost use Rattle.std.specs.Prelude.{◌≡◌, ℕ, Bool, false, List, ◌∷◌, ◌++◌, filter, None, IsTrue};
ghost use Rattle.std.specs.List.{list_any};
ghost use Rattle.quiesce_core.specs.declared.event.Event.{Event};
ghost use Rattle.quiesce_core.specs.Doers.{is_of_change};
ghost use Rattle.quiesce_core.specs.Rules.{denial};
ghost use Rattle.quiesce_core.specs.Runs.{IsRun, state_after};
ghost use Rattle.quiesce_laws.specs.Drained.{is_drained};
ghost use Rattle.quiesce_laws.specs.Events.{reopens};
ghost use Rattle.quiesce_laws.specs.Steps.{MayStep, MayStepAll};

/// A step that a change may make by its configuration is allowed in each run with this configuration in which the
/// ports are drained.
pub fn steps_are_allowed()
    ensures { (drained : ℕ → Bool) (es : List Event) (e : Event) → IsRun es
        → ((p : ℕ) → IsTrue (drained p) → IsTrue (is_drained (state_after es) p))
        → MayStep drained (state_after es).config e → denial (state_after es) e ≡ None }
{}

/// Steps that a change may make one after the other are allowed in their order, whatever nodes do in between. So long
/// as none is a reopening, it is enough that the ports are drained when the first is made.
pub fn changes_can_not_fail()
    ensures { (drained : ℕ → Bool) (es more_ left : List Event) (e : Event) → IsRun (es ++ more_)
        → ((p : ℕ) → IsTrue (drained p) → IsTrue (is_drained (state_after es) p))
        → ((p : ℕ) → list_any (reopens p) (filter is_of_change more_) ≡ false)
        → MayStepAll drained (state_after es).config (filter is_of_change more_ ++ e ∷ left)
        → denial (state_after (es ++ more_)) e ≡ None }
{}
