//! The part of what is left that belongs to some transactions and their consequents, by the steps.

ghost use Rattle.std.specs.Prelude.{◌≡◌, ◌↔◌, ℕ, ◌<◌, ◌≤◌, ◌&&◌, ◌||◌, not, true, false, Some, None, IsTrue};
ghost use Rattle.quiesce_core.specs.declared.event.Event.{Event};
ghost use Rattle.quiesce_core.specs.State.{State, exchange};
ghost use Rattle.quiesce_word.specs.Phases.{is_idle};
ghost use Rattle.quiesce_core.specs.Rules.{denial};
ghost use Rattle.quiesce_laws.specs.Events.{is_of_initiator, is_of_target};
ghost use Rattle.quiesce_laws.specs.Advances.{advanced_port, is_advance, is_begin};
ghost use Rattle.quiesce_core.specs.Doers.{is_of_change};
ghost use Rattle.quiesce_core.specs.Rest.{rest};
ghost use Rattle.quiesce_core.specs.Runs.{Step};
ghost use Rattle.quiesce_core.specs.Traffic.{IsConsistent};
ghost use Rattle.quiesce_core.specs.WellFormed.{IsWellFormed};
ghost use Rattle.quiesce_laws.specs.Belongs.{Transactions, Belongs, belongs, is_event_of, singleton, open_in, starts_one};
ghost use Rattle.quiesce_laws.specs.Drain.{rest_of};

/// The test whether a port's transaction belongs to a set finds exactly the transactions of the set and their
/// consequents.
pub fn belongings_are_found()
    ensures { (set : Transactions) (s : State) → IsWellFormed s → IsConsistent s → (p : ℕ)
        → IsTrue (belongs set s p) ↔ Belongs set s p }
{}

/// All of what is left belongs to what is open and its consequents.
pub fn what_is_left_is_of_what_is_open()
    ensures { (s : State) → rest_of (open_in s) s ≡ rest s }
{}

/// The part of what is left that belongs to an open transaction and its consequents, by the steps from a state that is
/// well formed and consistent: it falls at each event of these, and rises at no event.
pub fn part_of_one_falls_by_steps()
    ensures falls { (s t : State) (e : Event) (p k : ℕ) → IsWellFormed s → IsConsistent s → Step s e t
        → open_in s p k ≡ true
        → is_event_of (singleton p k) s e ≡ true → rest_of (singleton p k) t < rest_of (singleton p k) s }
    ensures stays { (s t : State) (e : Event) (p k : ℕ) → IsWellFormed s → IsConsistent s → Step s e t
        → open_in s p k ≡ true
        → rest_of (singleton p k) t ≤ rest_of (singleton p k) s }
{}

/// The same of a set of transactions, as long as no further one of the set is started.
pub fn part_falls_by_steps()
    ensures falls { (set : Transactions) (s t : State) (e : Event) → IsWellFormed s → IsConsistent s → Step s e t
        → starts_one set e ≡ false
        → is_event_of set s e ≡ true → rest_of set t < rest_of set s }
    ensures stays { (set : Transactions) (s t : State) (e : Event) → IsWellFormed s → IsConsistent s → Step s e t
        → starts_one set e ≡ false
        → rest_of set t ≤ rest_of set s }
{}

/// An event that is allowed in a state that is consistent is one of a transaction exactly where it is one of what is
/// open there, and then the port whose transaction it advances isn't idle. Where it names a transaction, it is one of
/// that. So are all events but those of the change and those that begin a root.
pub fn advances_are_of_what_is_open()
    ensures port { (s : State) (e : Event) → IsConsistent s → denial s e ≡ None → is_advance e ≡ true
        → (q : ℕ) × (advanced_port s e ≡ Some q) × (is_idle (exchange s q).phase ≡ false) }
    ensures which { (e : Event) → is_advance e ≡ (not (is_of_change e) && not (is_begin e)) }
    ensures exactly { (s : State) (e : Event) → IsConsistent s → denial s e ≡ None
        → is_event_of (open_in s) s e ≡ is_advance e }
    ensures named { (s : State) (e : Event) (p k : ℕ) → denial s e ≡ None
        → (is_of_initiator p k e || is_of_target p k e) ≡ true → is_event_of (singleton p k) s e ≡ true }
{}
