//! Reports.

ghost use Rattle.std.specs.Prelude.{◌≡◌, IfOk};
ghost use Rattle.report_writing.specs.Reports as of_reports;
ghost use Rattle.command_answers.specs.Answers.{run_status};
ghost use Rattle.command_answers.specs.Summaries as of_runs;
ghost use Rattle.command_program.specs.Refusals.{IsLine};

use crate::answer::Answer;
use command_answers::{Status, summary_text};
use config_graph::NoMemory;
use report_types::Report;
use report_writing::report_text;
use std::alloc::Global;

/// The text of a report that was read, in the version that is written today.
pub fn upgrade(alloc: Global, report: &Report) -> Result<Answer, NoMemory>
    requires { of_reports.LogsAreMade report.now }
    ensures { IfOk result (IsLine Status.Ok (of_reports.report_text report.now)) }
{
    Ok(Answer {
        status: Status::Ok,
        text: report_text(alloc, report)?,
    })
}

/// The report of a run that was made now, and how the run ends by it.
pub fn answer_run(alloc: Global, report: &Report) -> Result<Answer, NoMemory>
    requires { of_reports.LogsAreMade report.now }
    ensures status { IfOk result (λ answer. answer.status ≡ run_status report.now.status) }
    ensures text { IfOk result (λ answer. answer.text.items ≡ of_reports.report_text report.now) }
{
    Ok(Answer {
        status: Status::of_run(report.status),
        text: report_text(alloc, report)?,
    })
}

/// The summary of a run of so many lanes that was made now, and how the run ends by its report.
pub fn answer_summary(alloc: Global, lanes: u32, report: &Report) -> Result<Answer, NoMemory>
    ensures status { IfOk result (λ answer. answer.status ≡ run_status report.now.status) }
    ensures text { IfOk result (λ answer. answer.text.items ≡ of_runs.summary_text lanes report.now) }
{
    let status = Status::of_run(report.status);
    let text = summary_text(alloc, lanes, report)?;
    Ok(Answer { status, text })
}
