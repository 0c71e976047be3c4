//! Whether a report can be one of this machine, by three tests.

ghost use Rattle.std.specs.Prelude.{◌↔◌, IfOk, IsTrue};
ghost use Rattle.change_spec.specs.Asked as asked;
ghost use Rattle.change_spec.specs.Asked.{CanDoAll, CanStart, statements_of};
ghost use Rattle.change_spec.specs.Consistent.{Consistent};

use crate::{consistent_reports_are_decided_so, is_right_alone, leads_to_the_end};
use change_round_laws::what_may_be_asked_has_sound_statements;
use change_spec::{Start, Step};
use config_graph::NoMemory;
use merge_laws::consistent_reports_are_decided;
use report_follows::follows_so;
use report_types::Report;
use std::alloc::Global;

/// Whether a report can be one of this machine for a start and the steps behind it: its history follows them, it is
/// right by itself, and its history and logs are parts of one run.
pub fn check_report(
    alloc: Global,
    start: &Start,
    steps: &[Step],
    report: &Report,
) -> Result<bool, NoMemory>
    requires start { CanStart start.now }
    requires steps { CanDoAll (asked.after_start start.now) steps.now }
    ensures { IfOk result (λ b. IsTrue b ↔ Consistent (statements_of start.now steps.now) report.now) }
{
    what_may_be_asked_has_sound_statements();
    consistent_reports_are_decided();
    consistent_reports_are_decided_so();
    let history = report.history.items();
    if !follows_so(alloc, start, steps, history)? {
        return Ok(false);
    }
    if !is_right_alone(alloc, start, steps, report)? {
        return Ok(false);
    }
    leads_to_the_end(alloc, history, report.logs.items())
}
