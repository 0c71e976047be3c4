//! What rows, banks, flows and tables compute, in each report of a run of a script and in each that a check takes.

ghost use Rattle.std.specs.Prelude.{◌≡◌, ◌≢◌, ℕ, ◌+◌, List, ◌∷◌, ◌++◌, Option};
ghost use Rattle.change_spec.specs.Consistent.{Consistent};
ghost use Rattle.command_answers.specs.declared.status.Status.TheVariants.{Ok};
ghost use Rattle.cfg_io.specs.Shelf.{Files};
ghost use Rattle.config_graph.specs.declared.kind.Kind.TheVariants.{Sink, Source};
ghost use Rattle.quiesce_core.specs.declared.event.Event.TheVariants.{Begin, End};
ghost use Rattle.report_types.specs.declared.report.NodeLog.{NodeLog};
ghost use Rattle.report_types.specs.declared.report.Report.{Report};
ghost use Rattle.change_spec.specs.Members.{Member, by_node, state_at};
ghost use Rattle.command_answers.specs.declared.status.Status.{Status};
ghost use Rattle.command_spec.specs.Outcomes.{Judged, WasRunBy};
ghost use Rattle.command_spec.specs.Schedules.{Schedule};
ghost use Rattle.result_laws.specs.Items.{HasItems, IsLogOfLive, IsOfSource};
ghost use Rattle.result_laws.specs.Keeping.{AreRows};
ghost use Rattle.result_laws.specs.Banks.{AreBanks};
ghost use Rattle.result_laws.specs.Sums.{live_sum, opened_sum, removed_sum};
ghost use Rattle.result_laws.specs.Flows.{AreApart, held, one, sent};
ghost use Rattle.result_laws.specs.Holding.{AreTables, NoneSpent, forks_not_free};
ghost use Rattle.result_laws.specs.Schedules.{members_by};

use crate::{
    forks_are_held_once, items_are_kept, rows_have_their_items, sources_are_never_answered_0,
    sums_are_kept,
};
use command_spec::{a_script_has_a_report, checks_end_by_what_is_lawful};

/// Where the descriptions of a script that was run are rows, whatever stands beside, and its changes keep or move the source
/// and the sink, the last sink in the report of that run has the items that the last source counted. Each is what became of
/// its value in the row that stood when its transaction began, and no transaction of a source was answered 0. The report
/// has logs of a live source and of a live sink.
pub fn runs_of_rows_have_their_items()
    ensures items { (schedule : Schedule) (files : Option Files) (name : List ℕ) (own : Status)
        → (ran : WasRunBy schedule files name own)
        → AreRows ran.statements → (source sink : NodeLog)
        → IsLogOfLive (members_by schedule ran.statements ran.report ran.is_report) ran.report Source source
        → IsLogOfLive (members_by schedule ran.statements ran.report ran.is_report) ran.report Sink sink
        → HasItems (members_by schedule ran.statements ran.report ran.is_report) source sink }
    ensures ends { (schedule : Schedule) (files : Option Files) (name : List ℕ) (own : Status)
        → (ran : WasRunBy schedule files name own)
        → AreRows ran.statements → (source : NodeLog) × (sink : NodeLog)
        × IsLogOfLive (members_by schedule ran.statements ran.report ran.is_report) ran.report Source source
        × IsLogOfLive (members_by schedule ran.statements ran.report ran.is_report) ran.report Sink sink }
    ensures never_0 { (schedule : Schedule) (files : Option Files) (name : List ℕ) (own : Status)
        → (ran : WasRunBy schedule files name own)
        → AreRows ran.statements → (before between after : List Member) (port serial value answer : ℕ)
        → members_by schedule ran.statements ran.report ran.is_report
        ≡ before ++ by_node (Begin port serial value) ∷ (between ++ by_node (End port serial answer) ∷ after)
        → IsOfSource (state_at before).config port
        → answer ≢ 0 }
{
    a_script_has_a_report();
    rows_have_their_items();
    sources_are_never_answered_0();
}

/// Where the descriptions of a script that was run are banks, what the accounts were opened with is, in the report of that
/// run, what the live ones have at the end, and what those had that were removed and not moved.
pub fn runs_of_banks_keep_their_sums()
    ensures sum { (schedule : Schedule) (files : Option Files) (name : List ℕ) (own : Status)
        → (ran : WasRunBy schedule files name own)
        → AreBanks ran.statements
        → live_sum ran.report + removed_sum ran.report ≡ opened_sum ran.report }
{
    a_script_has_a_report();
    sums_are_kept();
}

/// Where the descriptions of a script that was run link sources, maps, buffers and sinks with one another alone, in whatever
/// wiring and whatever else there is, buffers and sinks hold at the end, live or removed, as many items as sources have sent.
/// And where places alone lead to forks, each fork is free at the end, unless some port came to its last serial.
pub fn runs_keep_items_and_forks()
    ensures items { (schedule : Schedule) (files : Option Files) (name : List ℕ) (own : Status)
        → (ran : WasRunBy schedule files name own)
        → AreApart ran.statements
        → held one ran.report ≡ sent one ran.report }
    ensures forks { (schedule : Schedule) (files : Option Files) (name : List ℕ) (own : Status)
        → (ran : WasRunBy schedule files name own)
        → AreTables ran.statements
        → NoneSpent (state_at (members_by schedule ran.statements ran.report ran.is_report))
        → forks_not_free ran.report ≡ 0 }
{
    forks_are_held_once();
    items_are_kept();
}

/// What holds of runs holds of each report that a check says is consistent, wherever it is from.
pub fn consistent_reports_keep_what_runs_keep()
    ensures items { (files : Option Files) (name file : List ℕ) (own : Status) (taken t : Option (List ℕ))
        → (j : Judged files name file own taken t) → own ≡ Ok → AreRows j.statements
        → (c : Consistent j.statements j.report) × ((source sink : NodeLog)
        → IsLogOfLive c.lawful.members j.report Source source → IsLogOfLive c.lawful.members j.report Sink sink
        → HasItems c.lawful.members source sink) }
    ensures sum { (files : Option Files) (name file : List ℕ) (own : Status) (taken t : Option (List ℕ))
        → (j : Judged files name file own taken t) → own ≡ Ok → AreBanks j.statements
        → live_sum j.report + removed_sum j.report ≡ opened_sum j.report }
    ensures flow { (files : Option Files) (name file : List ℕ) (own : Status) (taken t : Option (List ℕ))
        → (j : Judged files name file own taken t) → own ≡ Ok → AreApart j.statements
        → held one j.report ≡ sent one j.report }
    ensures forks { (files : Option Files) (name file : List ℕ) (own : Status) (taken t : Option (List ℕ))
        → (j : Judged files name file own taken t) → own ≡ Ok → AreTables j.statements
        → (c : Consistent j.statements j.report)
        × (NoneSpent (state_at c.lawful.members) → forks_not_free j.report ≡ 0) }
{
    a_script_has_a_report();
    checks_end_by_what_is_lawful();
    forks_are_held_once();
    items_are_kept();
    rows_have_their_items();
    sums_are_kept();
}
