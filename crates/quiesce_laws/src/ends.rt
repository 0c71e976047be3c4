//! While a transaction is open, something is left of it, and some event of an open transaction is possible.

ghost use Rattle.std.specs.Prelude.{◌≡◌, ◌↔◌, ℕ, true, false, List, None};
ghost use Rattle.quiesce_core.specs.declared.event.Event.{Event};
ghost use Rattle.quiesce_core.specs.State.{State, exchange};
ghost use Rattle.quiesce_word.specs.Phases.{is_idle};
ghost use Rattle.quiesce_core.specs.Rest.{rest};
ghost use Rattle.quiesce_core.specs.Rules.{denial};
ghost use Rattle.quiesce_core.specs.Runs.{IsRun, state_after};
ghost use Rattle.quiesce_core.specs.Traffic.{IsConsistent};
ghost use Rattle.quiesce_core.specs.WellFormed.{IsWellFormed};
ghost use Rattle.quiesce_laws.specs.Advances.{is_advance};
ghost use Rattle.quiesce_laws.specs.Belongs.{Transactions, belongs};
ghost use Rattle.quiesce_laws.specs.Drain.{Possible, rest_of};

/// Where a transaction is open, in a state that is well formed and consistent, some event of an open transaction is
/// possible that is neither a call nor a miss nor an intermediate reply; where it is a reply, or a further message is
/// heard, each call of its service has ended. So it is after every run.
pub fn some_event_is_possible()
    ensures by_state { (s : State) → IsWellFormed s → IsConsistent s → (p : ℕ) → is_idle (exchange s p).phase ≡ false
        → Possible s }
    ensures in_runs { (es : List Event) → IsRun es → (p : ℕ) → is_idle (exchange (state_after es) p).phase ≡ false
        → Possible (state_after es) }
{}

/// So where no event of an open transaction is possible after a run, none is open.
pub fn none_is_open_where_none_can_advance()
    ensures { (es : List Event) → IsRun es
        → ((e : Event) → is_advance e ≡ true → denial (state_after es) e ≡ None → ⊥)
        → (p : ℕ) → is_idle (exchange (state_after es) p).phase ≡ true }
{}

/// Nothing is left exactly where none is open, and of some transactions and their consequents only where none of these
/// is.
pub fn nothing_is_left_where_none_is_open()
    ensures all { (s : State) → IsWellFormed s → IsConsistent s → (rest s ≡ 0) ↔ ((p : ℕ)
        → is_idle (exchange s p).phase ≡ true) }
    ensures part { (set : Transactions) (s : State) → IsWellFormed s → IsConsistent s → rest_of set s ≡ 0
        → (p : ℕ) → is_idle (exchange s p).phase ≡ false → belongs set s p ≡ false }
{}
