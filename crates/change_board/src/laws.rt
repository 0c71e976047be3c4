//! Laws of what a change may do on a board, of what is seen on it, and of the history that its record bears.

ghost use Rattle.std.specs.Prelude.{◌≡◌, ◌<◌, ℕ, Bool, List, Some, filter_map, length, IsTrue, Option};
ghost use Rattle.std.specs.List.{AllByRecursion};
ghost use Rattle.change_spec.specs.Members.{event_of};
ghost use Rattle.change_spec.specs.Opening.{fold_of_node};
ghost use Rattle.report_types.specs.declared.report.HistoryLine.{HistoryLine};
ghost use Rattle.quiesce_laws.specs.Steps.{MayStepAll};
ghost use Rattle.quiesce_core.specs.declared.event.Event.{Event};
ghost use Rattle.quiesce_core.specs.Runs.{done_by, state_after};
ghost use Rattle.change_board.specs.Bearing.{Bears, IsToldSo};
ghost use Rattle.txn_records.specs.Entries.{config_of, events_in};
ghost use Rattle.txn_records.specs.declared.entry.Entry.{Entry};
ghost use Rattle.txn_records.specs.Notes.{is_noted};
ghost use Rattle.change_board.specs.Sights.{fold_seen};
ghost use Rattle.change_board.specs.Steps.{MayDoAll, gates_come_last};
ghost use Rattle.change_board.specs.Transcripts.{Item, entries, lines};

/// Steps that a change may make one after the other by its configuration, where some ports are known to be drained, it
/// may do on a board which notes these, so long as gates are turned after all else.
pub fn steps_may_be_done()
    ensures { (noted : ℕ → Bool) (r : List Entry) (es : List Event) → IsTrue (gates_come_last es)
        → ((p : ℕ) → IsTrue (noted p) → IsTrue (is_noted r p)) → MayStepAll noted (config_of r) es → MayDoAll r es }
{}

/// Where all that was done was seen, what is seen of a node is what it has come to.
pub fn what_is_seen_is_what_was_done()
    ensures { (es : List Event) (seen : ℕ → Option (List Event)) (n : ℕ)
        → ((k : ℕ) → k < length (state_after es).config.slots → seen k ≡ Some (done_by k es))
        → fold_seen (state_after es).config seen n ≡ fold_of_node es n }
{}

/// A record that bears a history has the history's events, in order. So it is wherever no event is left out and what is
/// told is so, whatever was looked at.
pub fn borne_histories_have_the_events()
    ensures borne { (r : List Entry) (history : List HistoryLine) → Bears r history
        → events_in r ≡ filter_map event_of history }
    ensures told { (items : List Item) → AllByRecursion IsToldSo items
        → events_in (entries items) ≡ filter_map event_of (lines items) }
{}
