//! In which logs of a lawful report the events of a transaction stand.

ghost use Rattle.std.specs.Prelude.{◌≡◌, ℕ, true, List};
ghost use Rattle.std.specs.List.{list_any};
ghost use Rattle.change_spec.specs.Lawful.{IsLawfulBy};
ghost use Rattle.change_spec.specs.Members.{Member, events};
ghost use Rattle.change_spec.specs.Statements.{Statement};
ghost use Rattle.report_types.specs.declared.report.Report.{Report};
ghost use Rattle.quiesce_core.specs.Runs.{is_begin_of};
ghost use Rattle.change_round_laws.specs.Engaged.{IsInTwoLogs};

use quiesce_laws::two_logs_have_all;

/// Each transaction of a lawful report was begun and ended once by the nodes that it engaged: the log of the node that
/// began or called it has its begin or call, its further messages and its end, that of the node to which the port led
/// has its take, its replies and what it heard, and no other log has an event of it.
pub fn two_logs_have_each_transaction()
    ensures engaged { (statements : List Statement) (report : Report) (m : List Member)
        → IsLawfulBy statements report m
        → (p k : ℕ) → list_any (is_begin_of p k) (events m) ≡ true → IsInTwoLogs m report p k }
{
    two_logs_have_all();
}
