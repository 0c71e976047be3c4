//! What banks compute in each lawful report.

ghost use Rattle.std.specs.Prelude.{◌≡◌, ◌+◌, ◌++◌, ℕ, List};
ghost use Rattle.report_types.specs.declared.report.Report.{Report};
ghost use Rattle.change_spec.specs.Lawful.{Lawful};
ghost use Rattle.change_spec.specs.Members.{events};
ghost use Rattle.change_spec.specs.Statements.{Statement};
ghost use Rattle.change_round_laws.specs.SoundStatements.{AreSound};
ghost use Rattle.quiesce_core.specs.declared.event.Event.{Event};
ghost use Rattle.result_laws.specs.Banks.{AreBanks, IsBank};
ghost use Rattle.result_laws.specs.Carrying.{AmountsBalance};
ghost use Rattle.result_laws.specs.Sums.{live_sum, opened_sum, removed_sum};
ghost use Rattle.result_laws.specs.WorkedBanks.{bank, bank_beside_row, report, with_half_a_branch, with_teller_at_account};

use change_plan_laws::{commits_can_not_fail, commits_leave_the_new_graph, each_plan_may_commit};
use change_spec::{a_moved_state_is_the_last_one, nothing_is_open_at_the_end};

/// Where the accounts and branches of each description are a bank, whatever stands beside, what accounts were opened with
/// is what the live ones have at the end, and what those had that were removed and not moved.
pub fn sums_are_kept()
    ensures sum { (statements : List Statement) (report : Report) → AreSound statements → AreBanks statements
        → Lawful statements report → live_sum report + removed_sum report ≡ opened_sum report }
{
    each_plan_may_commit();
    commits_can_not_fail();
    commits_leave_the_new_graph();
    nothing_is_open_at_the_end();
    a_moved_state_is_the_last_one();
}

/// And not at the end alone: at each place of the run behind a report what accounts have, live or not, with what branches
/// carry from one to another, is what they were opened with by then.
pub fn sums_are_kept_at_each_place()
    ensures sum { (statements : List Statement) (report : Report) → AreSound statements → AreBanks statements
        → (l : Lawful statements report) → (before after : List Event) → events l.members ≡ before ++ after
        → AmountsBalance before }
{
    each_plan_may_commit();
    commits_can_not_fail();
    commits_leave_the_new_graph();
    nothing_is_open_at_the_end();
    a_moved_state_is_the_last_one();
}

/// The definitions on small systems: a bank, also with a row beside it. A graph in which a teller leads to an account is
/// none, nor is one whose branch has nowhere to put what it takes. And sums: a
/// report whose live accounts have 100, where 5 went with one that was removed, and where 105 was opened; so the last
/// state of one account can be no other number.
pub fn banks_are_told_from_others()
    ensures bank { IsBank bank }
    ensures beside { IsBank bank_beside_row }
    ensures teller { IsBank with_teller_at_account → ⊥ }
    ensures half { IsBank with_half_a_branch → ⊥ }
    ensures sums { (live_sum (report 97) ≡ 100) × (removed_sum (report 97) ≡ 5) × (opened_sum (report 97) ≡ 105) }
    ensures short { (b : ℕ) → live_sum (report b) + removed_sum (report b) ≡ opened_sum (report b) → b ≡ 97 }
{}
