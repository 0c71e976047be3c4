//! Merges of a history with logs, and how one way decides whether there is one.

ghost use Rattle.std.specs.Prelude.{◌≡◌, ◌↔◌, ℕ, true, false, List, Some, fold, map};
ghost use Rattle.std.specs.List.{list_any};
ghost use Rattle.component_trait.specs.States.{NodeState};
ghost use Rattle.quiesce_core.specs.declared.event.Event.{Event};
ghost use Rattle.quiesce_core.specs.declared.state.Slot.{Slot};
ghost use Rattle.quiesce_core.specs.Runs.{IsRun, state_after};
ghost use Rattle.quiesce_core.specs.State.{slot};
ghost use Rattle.quiesce_laws.specs.Events.{is_root_of};
ghost use Rattle.change_spec.specs.Follows.{Follows};
ghost use Rattle.change_spec.specs.Lawful.{IsLawfulBy};
ghost use Rattle.change_spec.specs.Members.{Member};
ghost use Rattle.change_spec.specs.Opening.{fold_of_node};
ghost use Rattle.change_spec.specs.Statements.{Statement};
ghost use Rattle.report_types.specs.declared.report.HistoryLine.{HistoryLine};
ghost use Rattle.report_types.specs.declared.report.NodeLog.{NodeLog};
ghost use Rattle.report_types.specs.declared.report.Report.{Report};
ghost use Rattle.merge_laws.specs.Exchanged.{AreExchanged, IsMergeOf};
ghost use Rattle.merge_laws.specs.Guarded.{all_left, can_go, go, is_called_at, left, may_go};
ghost use Rattle.merge_laws.specs.Guided.{Guided};
ghost use Rattle.merge_laws.specs.Merges.{HasLogs, HasRootsApart, IsMergeWith};
ghost use Rattle.merge_laws.specs.Telling.{IsTold};

/// A merge meets the guards, where its history tells of each close and no root is one of a port at which services call.
pub fn merges_meet_the_guards()
    ensures { (history : List HistoryLine) (m : List Member) → IsMergeWith history m → IsTold history
        → HasRootsApart m → Guided m history }
{}

/// Where each node made has a fold, no root was begun at a port at which services call.
pub fn roots_are_of_ports_that_no_service_calls()
    ensures { (es : List Event) → IsRun es
        → ((n : ℕ) (m : Slot) → slot (state_after es).config n ≡ Some m → (z : NodeState) × (fold_of_node es n ≡ Some z))
        → (p k : ℕ) → list_any (is_root_of p k) es ≡ true → is_called_at (state_after es).config p ≡ false }
{}

/// So each way that can go on no more decides: nothing is left exactly where there is a merge with the history, in which
/// each node does what its log has, and no root is begun at a port at which services call.
pub fn going_decides_merges()
    ensures { (history : List HistoryLine) (logs : List (List Event)) (cs : List ℕ) → IsTold history
        → can_go (all_left history logs) cs ≡ true → ((c : ℕ) → may_go (fold go (all_left history logs) cs) c ≡ false)
        → (left (fold go (all_left history logs) cs) ≡ 0) ↔ ((m : List Member) × HasLogs logs m
        × IsMergeWith history m × HasRootsApart m) }
{}

/// Two merges of a history with logs differ by exchanges of neighbours, neither of which has to wait for the other: each
/// list between them is a merge too.
pub fn merges_are_one_up_to_exchanges()
    ensures merges { (history : List HistoryLine) (logs : List (List Event)) (m n : List Member) → IsTold history
        → IsMergeOf history logs m → HasRootsApart m → IsMergeOf history logs n → HasRootsApart n
        → AreExchanged history logs m n }
    ensures reports { (statements : List Statement) (report : Report) (m n : List Member)
        → Follows statements report.history → IsLawfulBy statements report m → IsLawfulBy statements report n
        → AreExchanged report.history (map (λ (l : NodeLog). l.events) report.logs) m n }
{}
