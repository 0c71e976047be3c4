//! In every world that is reached, the event of a live node's turn is allowed.

ghost use Rattle.std.specs.Prelude.{◌≡◌, ℕ, Bool, IsTrue, None, Some, false, is_some};
ghost use Rattle.component_trait.specs.Fold.{fold_next};
ghost use Rattle.quiesce_core.specs.Doers.{is_of_change};
ghost use Rattle.quiesce_core.specs.Rules.{denial};
ghost use Rattle.quiesce_core.specs.Runs.{IsRun, doer, state_after};
ghost use Rattle.quiesce_core.specs.State.{is_live};
ghost use Rattle.quiesce_core.specs.declared.event.Event.{Event};
ghost use Rattle.node_turn_laws.specs.Reached.{IsReached};
ghost use Rattle.node_turn_laws.specs.Turn.{turn};
ghost use Rattle.node_turn_laws.specs.World.{World, first_port, state_of};

/// In every world that is reached, the event of a live node's turn is denied by no rule, is that node's own, and its
/// fold goes on with it. So the events of the world are a run, and the machine's state is that after them.
pub fn turns_are_allowed()
    ensures allowed { (w : World) (n : ℕ) (begins : Bool) (e : Event) → IsReached w
        → IsTrue (is_live w.machine.config n)
        → (turn w n begins).event ≡ Some e → denial w.machine e ≡ None }
    ensures own { (w : World) (n : ℕ) (begins : Bool) (e : Event) → IsReached w → IsTrue (is_live w.machine.config n)
        → (turn w n begins).event ≡ Some e → (is_of_change e ≡ false) × (doer w.machine e ≡ Some n) }
    ensures folds { (w : World) (n : ℕ) (begins : Bool) (e : Event) → IsReached w → IsTrue (is_live w.machine.config n)
        → (turn w n begins).event ≡ Some e → IsTrue (is_some (fold_next (first_port w.machine n) (state_of w n) e)) }
    ensures run { (w : World) → IsReached w → IsRun w.events }
    ensures machine { (w : World) → IsReached w → w.machine ≡ state_after w.events }
{}
