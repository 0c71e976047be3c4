//! What a report is judged to, by what a script asks for.

ghost use Rattle.std.specs.Prelude.{IfOk};
ghost use Rattle.command_spec.specs.Commands.{IsJudged};
ghost use Rattle.command_program.specs.Preparing.{CanRun, statements_in};
ghost use Rattle.command_program.specs.Refusals.{IsLine};

use crate::Prepared;
use crate::answer::Answer;
use command_answers::Status;
use config_graph::NoMemory;
use report_check::check_report;
use report_types::Report;
use std::alloc::Global;

/// Whether a report can be one of this machine for what a script asks for.
pub fn judge(alloc: Global, asked: &Prepared, report: &Report) -> Result<Answer, NoMemory>
    requires { CanRun asked.now }
    ensures { IfOk result
        (λ answer. IsJudged (statements_in asked.now) report.now answer.status answer.text.items) }
{
    if check_report(alloc, &asked.start, asked.steps.as_slice(), report)? {
        line(alloc, Status::Ok, b"consistent\n")
    } else {
        line(alloc, Status::Unlawful, b"unlawful\n")
    }
}

/// A line as an answer.
fn line(alloc: Global, status: Status, text: &[u8]) -> Result<Answer, NoMemory>
    ensures { IfOk result (IsLine status text.now) }
{
    Ok(Answer {
        status,
        text: Vec::from_slice(alloc, text)?,
    })
}
