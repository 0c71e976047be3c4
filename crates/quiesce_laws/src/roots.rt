//! Roots: each transaction has one, and what a look at a closed port tells of the time since it was closed.

ghost use Rattle.std.specs.Prelude.{◌≡◌, ℕ, false, List, ◌∷◌, ◌++◌, IsTrue};
ghost use Rattle.std.specs.List.{list_any};
ghost use Rattle.quiesce_core.specs.declared.event.Event.{Event};
ghost use Rattle.quiesce_core.specs.declared.event.Event.TheVariants.{Close};
ghost use Rattle.quiesce_core.specs.Runs.{Begun, HasRoot, IsRun, state_after};
ghost use Rattle.quiesce_laws.specs.Events.{reopens};
ghost use Rattle.quiesce_laws.specs.Roots.{IsRooted, has_root, is_open_root_after};

/// Where a port has an open root and was closed before and not reopened since, the port had this root, open, at every
/// place since it was closed, and when it was closed.
pub fn roots_at_closed_ports_are_old()
    ensures since { (before between after : List Event) (p k : ℕ) → IsRun (before ++ Close p ∷ between ++ after)
        → list_any (reopens p) (between ++ after) ≡ false →
        IsTrue (has_root (state_after (before ++ Close p ∷ between ++ after)) p k)
        → IsTrue (has_root (state_after (before ++ Close p ∷ between)) p k) }
    ensures when_closed { (before after : List Event) (p k : ℕ) → IsRun (before ++ Close p ∷ after)
        → list_any (reopens p) after ≡ false →
        IsTrue (has_root (state_after (before ++ Close p ∷ after)) p k) → IsTrue (has_root (state_after before) p k) }
{}

/// After every run a port has an open root of a serial exactly where the run begins that root and doesn't end it. So a
/// port's word tells it.
pub fn open_roots_are_seen()
    ensures { (es : List Event) (p k : ℕ) → IsRun es → is_open_root_after es p k ≡ has_root (state_after es) p k }
{}

/// Each transaction of a run has one root.
pub fn transactions_have_one_root()
    ensures some { (es : List Event) (p k : ℕ) → IsRun es → Begun es p k → IsRooted es p k }
    ensures one { (es : List Event) (p k q j r i : ℕ) → IsRun es → HasRoot es p k q j → HasRoot es p k r i
        → (q ≡ r) × (j ≡ i) }
{}
