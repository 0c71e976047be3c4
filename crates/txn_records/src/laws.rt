//! Laws of records: what they say of the runs that they are of, and what a change may do by them.

ghost use Rattle.std.specs.Prelude.{◌≡◌, ℕ, true, false, List, [], ◌∷◌, ◌++◌, None, IsTrue};
ghost use Rattle.quiesce_core.specs.declared.event.Event.{Event};
ghost use Rattle.quiesce_core.specs.Doers.{is_of_change};
ghost use Rattle.quiesce_core.specs.Rules.{denial};
ghost use Rattle.quiesce_laws.specs.Drained.{is_drained};
ghost use Rattle.txn_records.specs.Entries.{config_of, event_in};
ghost use Rattle.txn_records.specs.Notes.{is_noted};
ghost use Rattle.txn_records.specs.Records.{IsRecordOf, IsSo, May, Moment, by_node, entry, state_at};
ghost use Rattle.txn_records.specs.declared.entry.Entry.{Entry};
ghost use Rattle.txn_records.specs.declared.entry.Entry.TheVariants.{Did};

/// A record tells the configuration of its run, and each port that it notes is drained. So what a change may do by the
/// record no rule denies.
pub fn records_tell_what_is_allowed()
    ensures configuration { (r : List Entry) (m : List Moment) → IsRecordOf r m → config_of r ≡ (state_at m).config }
    ensures noted { (r : List Entry) (m : List Moment) (p : ℕ) → IsRecordOf r m → IsTrue (is_noted r p)
        → IsTrue (is_drained (state_at m) p) }
    ensures allowed { (r : List Entry) (m : List Moment) (e : Event) → IsRecordOf r m → May r e
        → denial (state_at m) e ≡ None }
{}

/// A record grows by an event of the change that no rule denies, and by what is seen; an event of a node leaves it.
pub fn records_grow()
    ensures done { (r : List Entry) (m : List Moment) (e : Event) → IsRecordOf r m → is_of_change e ≡ true
        → denial (state_at m) e ≡ None → IsRecordOf (r ++ Did e ∷ []) (m ++ entry (Did e) ∷ []) }
    ensures seen { (r : List Entry) (m : List Moment) (x : Entry) → IsRecordOf r m → event_in x ≡ None
        → IsSo m (entry x) → IsRecordOf (r ++ x ∷ []) (m ++ entry x ∷ []) }
    ensures by_nodes { (r : List Entry) (m : List Moment) (e : Event) → IsRecordOf r m → is_of_change e ≡ false
        → denial (state_at m) e ≡ None → IsRecordOf r (m ++ by_node e ∷ []) }
{}
