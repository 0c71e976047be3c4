//! Laws of replays.

ghost use Rattle.std.specs.Prelude.{◌≡◌, ◌⊎◌, ℕ, List};
ghost use Rattle.quiesce_core.specs.declared.event.Event.{Event};
ghost use Rattle.quiesce_core.specs.State.{State};
ghost use Rattle.quiesce_core.specs.Runs.{Steps};
ghost use Rattle.quiesce_replay.specs.Replay.{IsDenied};

/// From each state events are either steps one after the other, to one state, or one of them is denied, which is one
/// of them and by one rule; and never both.
pub fn denied_or_replayed()
    ensures always_one { (s : State) (events : List Event) → ((t : State) × Steps s events t)
        ⊎ ((number : ℕ) × (rule : ℕ) × IsDenied s events number rule) }
    ensures never_both { (s t : State) (events : List Event) (number rule : ℕ) → Steps s events t
        → ¬ IsDenied s events number rule }
    ensures one_end { (s t u : State) (events : List Event) → Steps s events t → Steps s events u → t ≡ u }
    ensures one_denial { (s : State) (events : List Event) (m n rule other : ℕ) → IsDenied s events m rule
        → IsDenied s events n other → (m ≡ n) × (rule ≡ other) }
{}
