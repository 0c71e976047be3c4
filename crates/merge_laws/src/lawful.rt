//! Merges of lawful reports.

ghost use Rattle.std.specs.Prelude.{◌≡◌, ℕ, true, false, List, fold, map};
ghost use Rattle.change_spec.specs.Follows.{Follows};
ghost use Rattle.change_spec.specs.Lawful.{IsLawfulBy};
ghost use Rattle.change_spec.specs.Members.{Member};
ghost use Rattle.change_spec.specs.Statements.{Statement};
ghost use Rattle.report_types.specs.declared.report.NodeLog.{NodeLog};
ghost use Rattle.report_types.specs.declared.report.Report.{Report};
ghost use Rattle.merge_laws.specs.Guarded.{can_go, go, left, left_of, may_go};
ghost use Rattle.merge_laws.specs.Merges.{HasLogs, HasRootsApart, IsMergeWith};

/// The list of a lawful report is a merge with its history. Log by log each node does what its log has, and no root is
/// begun at a port at which services call.
pub fn lawful_lists_are_merges()
    ensures merge { (statements : List Statement) (report : Report) (m : List Member) → IsLawfulBy statements report m
        → IsMergeWith report.history m }
    ensures logs { (statements : List Statement) (report : Report) (m : List Member) → IsLawfulBy statements report m
        → HasLogs (map (λ (l : NodeLog). l.events) report.logs) m }
    ensures roots { (statements : List Statement) (report : Report) (m : List Member)
        → IsLawfulBy statements report m → HasRootsApart m }
{}

/// So from the history and the logs of a lawful report, each way that can go on no more ends with nothing left.
pub fn lawful_reports_are_found()
    ensures { (statements : List Statement) (report : Report) (m : List Member) (cs : List ℕ)
        → Follows statements report.history → IsLawfulBy statements report m
        → can_go (left_of report) cs ≡ true → ((c : ℕ) → may_go (fold go (left_of report) cs) c ≡ false)
        → left (fold go (left_of report) cs) ≡ 0 }
{}
