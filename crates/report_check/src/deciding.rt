//! Whether a report is right by itself.

ghost use Rattle.std.specs.Prelude.{◌≡◌, ◌↔◌, ◌<◌, ℕ, None, Some, IfOk, IsTrue, is_some, if◌then◌else◌};
ghost use Rattle.std.specs.List.{list_all, list_any};
ghost use Rattle.change_spec.specs.Asked.{statement_of, statements_of};
ghost use Rattle.change_spec.specs.Consistent as consistent;
ghost use Rattle.change_spec.specs.Endings as endings;
ghost use Rattle.change_spec.specs.Members as members;
ghost use Rattle.change_spec.specs.Statements as statements;
ghost use Rattle.report_check.specs.RightAlone.{AreRightNumbers, IsRightAlone};

use crate::logs::read_report;
use crate::showing::shows_stand;
use change_spec::{Start, Step};
use config_graph::NoMemory;
use report_types::{HistoryLine, Report};
use std::alloc::Global;

fn keeps_to_limit(line: &HistoryLine) -> bool
    ensures { result ≡ consistent.keeps_to_limit line.now }
{
    match line {
        HistoryLine::Finish { n, rounds } => rounds <= n,
        _ => true,
    }
}

/// Whether no `finish` made more rounds than it might.
fn keep_to_limits(history: &[HistoryLine]) -> bool
    ensures { result ≡ list_all consistent.keeps_to_limit history.now }
{
    history.iter().all(|line| keeps_to_limit(line))
}

fn is_pending(line: &HistoryLine) -> bool
    ensures { result ≡ members.is_pending line.now }
{
    matches!(line, HistoryLine::Pending { .. })
}

/// Whether a change was given up.
fn has_pending(history: &[HistoryLine]) -> bool
    ensures { result ≡ list_any members.is_pending history.now }
{
    history.iter().any(|line| is_pending(line))
}

/// The status of a run with this history that left this node undone.
fn status_of(history: &[HistoryLine], unfinished: Option<u32>) -> u8
    ensures { result ≡ endings.status_of history.now unfinished }
{
    if has_pending(history) {
        7
    } else if unfinished.is_some() {
        8
    } else {
        0
    }
}

fn is_finish(step: &Step) -> bool
    ensures { result ≡ statements.is_finish (statement_of step.now) }
{
    matches!(step, Step::Finish { .. })
}

fn have_finish(steps: &[Step]) -> bool
    ensures { result ≡ list_any (λ s. statements.is_finish (statement_of s)) steps.now }
{
    steps.iter().any(|step| is_finish(step))
}

/// Whether the rounds of each `finish`, the node that isn't done and the status are right, where this is the first live
/// node that isn't done.
fn are_right_numbers(steps: &[Step], undone: Option<u32>, report: &Report) -> bool
    ensures { IsTrue result ↔ AreRightNumbers
        (list_any (λ s. statements.is_finish (statement_of s)) steps.now) undone report.now }
{
    let history = report.history.items();
    let unfinished = if have_finish(steps) { undone } else { None };
    keep_to_limits(history)
        && report.unfinished == unfinished
        && report.status == status_of(history, report.unfinished)
}

/// Whether a report is right by itself for a script of this start and these steps: its logs are those of the nodes that
/// its history makes, each leads its node to the end that it tells, and the history shows and counts what its own lines
/// and the logs come to. It takes time that grows with the length of the report and of the steps.
pub fn is_right_alone(
    alloc: Global,
    start: &Start,
    steps: &[Step],
    report: &Report,
) -> Result<bool, NoMemory>
    ensures { IfOk result (λ b. IsTrue b ↔ IsRightAlone (statements_of start.now steps.now) report.now) }
{
    match read_report(alloc, report)? {
        Some(undone) => Ok(
            are_right_numbers(steps, undone, report)
                && shows_stand(alloc, start, steps, report.history.items())?,
        ),
        None => Ok(false),
    }
}
