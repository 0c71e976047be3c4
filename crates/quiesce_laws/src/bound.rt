//! What is open ends within what is left.

ghost use Rattle.std.specs.Prelude.{◌≡◌, ℕ, ◌+◌, ◌≤◌, true, false, List, [], ◌∷◌, ◌++◌, Some, count_by};
ghost use Rattle.std.specs.List.{list_any};
ghost use Rattle.quiesce_core.specs.declared.event.Event.{Event};
ghost use Rattle.config_graph.specs.declared.node.Target.{Target};
ghost use Rattle.quiesce_core.specs.State.{target};
ghost use Rattle.quiesce_core.specs.Rest.{full, rest};
ghost use Rattle.quiesce_core.specs.Runs.{IsRun, state_after};
ghost use Rattle.quiesce_laws.specs.Advances.{is_advance, is_begin};
ghost use Rattle.quiesce_laws.specs.Belongs.{open_in, singleton};
ghost use Rattle.quiesce_laws.specs.Drain.{count_of, rest_of};

/// From the state after a run on, every list of events with which the run goes on has at most as many events of the
/// transactions that are open there and of their consequents as are left there, whatever else begins or is changed.
pub fn rest_bounds_the_drain()
    ensures of_the_open { (es more_ : List Event) → IsRun (es ++ more_)
        → count_of (open_in (state_after es)) (state_after es) more_ ≤ rest (state_after es) }

    // What is left of them falls by as many at least, and where they are as many as were left, what was open has ended.
    ensures left_of_them { (es more_ : List Event) → IsRun (es ++ more_)
        → count_of (open_in (state_after es)) (state_after es) more_
        + rest_of (open_in (state_after es)) (state_after (es ++ more_)) ≤ rest (state_after es) }
    ensures ended { (es more_ : List Event) → IsRun (es ++ more_)
        → count_of (open_in (state_after es)) (state_after es) more_ ≡ rest (state_after es)
        → (p k : ℕ) → open_in (state_after es) p k ≡ true → open_in (state_after (es ++ more_)) p k ≡ false }
{}

/// Where nothing begins meanwhile, these are all the events of transactions.
pub fn rest_bounds_all()
    ensures all { (es more_ : List Event) → IsRun (es ++ more_) → list_any is_begin more_ ≡ false
        → count_by is_advance more_ ≤ rest (state_after es) }
    ensures left { (es more_ : List Event) → IsRun (es ++ more_) → list_any is_begin more_ ≡ false
        → count_by is_advance more_ + rest (state_after (es ++ more_)) ≤ rest (state_after es) }
{}

/// After its begin or call, a transaction has at most as many events, those of its consequents among them, as all of
/// one transaction with the provision to which its port leads.
pub fn full_bounds_each_transaction()
    ensures begun { (es more_ : List Event) (p k v : ℕ) (to : Target) → IsRun (es ++ Event.Begin p k v ∷ more_)
        → target (state_after es).config p ≡ Some to
        → count_of (singleton p k) (state_after (es ++ Event.Begin p k v ∷ [])) more_
        ≤ full (state_after es).config to.node to.provide }
    ensures called { (es more_ : List Event) (p k v : ℕ) (to : Target) → IsRun (es ++ Event.Call p k v ∷ more_)
        → target (state_after es).config p ≡ Some to
        → count_of (singleton p k) (state_after (es ++ Event.Call p k v ∷ [])) more_
        ≤ full (state_after es).config to.node to.provide }
{}
