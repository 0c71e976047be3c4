//! Ways: members that come one after the other, as the rules and the guards let them.

ghost use Rattle.std.specs.Prelude.{◌≡◌, ℕ, true, false, List, fold};
ghost use Rattle.quiesce_core.specs.declared.event.Event.{Event};
ghost use Rattle.quiesce_core.specs.Runs.{IsRun};
ghost use Rattle.quiesce_core.specs.Traffic.{IsConsistent};
ghost use Rattle.quiesce_core.specs.WellFormed.{IsWellFormed};
ghost use Rattle.report_types.specs.declared.report.HistoryLine.{HistoryLine};
ghost use Rattle.change_spec.specs.Members.{Member, events, lines, without_roots};
ghost use Rattle.merge_laws.specs.Guarded.{Left, all_left, can_go, go, left, may_go};
ghost use Rattle.merge_laws.specs.Guided.{Guided};
ghost use Rattle.merge_laws.specs.Merges.{HasLogs, IsMergeWith};
ghost use Rattle.merge_laws.specs.Telling.{IsTold};
ghost use Rattle.merge_laws.specs.Ways.{members_of};

/// Some way goes on until no member may come: each step leaves one member less.
pub fn some_way_goes_on_no_more()
    ensures { (x : Left) → IsWellFormed x.state → IsConsistent x.state → (cs : List ℕ) × (can_go x cs ≡ true)
        × ((c : ℕ) → may_go (fold go x cs) c ≡ false) }
{}

/// Where one way leads to the end, with nothing left, each does that goes on as long as a member may come.
pub fn all_ways_end_where_one_does()
    ensures { (x : Left) (way cs : List ℕ) → IsWellFormed x.state → IsConsistent x.state
        → can_go x way ≡ true → left (fold go x way) ≡ 0
        → can_go x cs ≡ true → ((c : ℕ) → may_go (fold go x cs) c ≡ false) → left (fold go x cs) ≡ 0 }
{}

/// So does each where there is a merge that meets the guards.
pub fn guided_merges_are_found()
    ensures { (m : List Member) (history : List HistoryLine) (logs : List (List Event)) (cs : List ℕ)
        → Guided m history → IsRun (events m) → lines m ≡ without_roots history
        → HasLogs logs m → can_go (all_left history logs) cs ≡ true
        → ((c : ℕ) → may_go (fold go (all_left history logs) cs) c ≡ false)
        → left (fold go (all_left history logs) cs) ≡ 0 }
{}

/// And a way to the end is a merge with the history, in which each node does what its log has.
pub fn ways_are_merges()
    ensures merge { (history : List HistoryLine) (logs : List (List Event)) (cs : List ℕ)
        → can_go (all_left history logs) cs ≡ true → left (fold go (all_left history logs) cs) ≡ 0
        → IsTold history → IsMergeWith history (members_of (all_left history logs) cs) }
    ensures logs { (history : List HistoryLine) (logs : List (List Event)) (cs : List ℕ)
        → can_go (all_left history logs) cs ≡ true → left (fold go (all_left history logs) cs) ≡ 0
        → HasLogs logs (members_of (all_left history logs) cs) }
{}
