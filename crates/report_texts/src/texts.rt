//! From a text to a report.

ghost use Rattle.std.specs.Prelude.{◌≡◌, ◌≢◌, ◌≤◌, ◌⊎◌, [], IfErr, IfOk, IsErrOf, IsOkAnd, length, Err, Ok};
ghost use Rattle.report_writing.specs.Reports.{LogsAreMade};
ghost use Rattle.report_texts.specs.declared.error.ReportFault.{ReportFault};
ghost use Rattle.report_texts.specs.declared.error.ReportFault.TheVariants as faults;
ghost use Rattle.report_texts.specs.Stages.{IsReportFault, reading};
ghost use Rattle.report_texts.specs.ReportTexts.{IsReportText};

use crate::ends::{is_over, status, unfinished, version};
use crate::error::ReportFault;
use crate::history::read_history;
use crate::logs::read_logs;
use crate::rest::Rest;
use crate::version::Version;
use config_graph::List;
use report_types::{HistoryLine, NodeLog, Report};
use std::alloc::Global;

/// How many bytes the text of a report has at most.
pub const MAX_REPORT: usize = 67_108_864;

/// The report whose text this is, in either version; or the first line that can't stand in its place, or that the
/// text ends too soon. Its time grows with the text's length.
pub fn parse_report(alloc: Global, text: &[u8]) -> Result<Report, ReportFault>
    requires { length text.now ≤ MAX_REPORT }
    ensures report { IfOk result (λ report. (version : Version) × IsReportText version text.now report) }
    ensures logs { IfOk result (λ report. LogsAreMade report) }
    ensures fault { IfErr result (λ fault. fault ≢ faults.NoMemory → IsReportFault text.now fault) }
    ensures whenever_report { (version : Version) (report : Report) → IsReportText version text.now report
        → IsOkAnd result (λ found. found ≡ report) ⊎ IsErrOf result faults.NoMemory }
    ensures whenever_fault { (fault : ReportFault) → IsReportFault text.now fault
        → IsErrOf result fault ⊎ IsErrOf result faults.NoMemory }
{
    match read_report(alloc, text) {
        Ok((_, report)) => Ok(report),
        Err(fault) => Err(fault),
    }
}

/// The version and the report.
fn read_report(alloc: Global, text: &[u8]) -> Result<(Version, Report), ReportFault>
    requires { length text.now ≤ MAX_REPORT }
    ensures read { IfOk result (λ found. reading text.now ≡ Ok (record { version = found.0; report = found.1 })) }
    ensures fault { IfErr result (λ fault. fault ≢ faults.NoMemory → reading text.now ≡ Err fault) }
{
    let mut history = Vec::new(alloc);
    let mut logs = Vec::new(alloc);
    let ends = fill(alloc, &mut history, &mut logs, text)?;
    Ok((
        ends.version,
        Report {
            history: List::of(history),
            logs: List::of(logs),
            unfinished: ends.unfinished,
            status: ends.status,
        },
    ))
}

/// What stands at both ends of a report.
#[derive(Clone, Copy)]
struct Ends {
    version: Version,
    unfinished: Option<u32>,
    status: u8,
}

/// Reads a report into its history and its logs.
fn fill(
    alloc: Global,
    history: &mut Vec<HistoryLine>,
    logs: &mut Vec<NodeLog>,
    text: &[u8],
) -> Result<Ends, ReportFault>
    requires few { length text.now ≤ MAX_REPORT }
    requires no_history { history.old.items ≡ [] }
    requires no_logs { logs.old.items ≡ [] }
    ensures read { IfOk result (λ ends. reading text.now ≡ Ok
        (record {
          version = ends.version;
          report = record {
            history = history.new.items;
            logs = logs.new.items;
            unfinished = ends.unfinished;
            status = ends.status;
          };
        })) }
    ensures fault { IfErr result (λ fault. fault ≢ faults.NoMemory → reading text.now ≡ Err fault) }
{
    let (version, rest) = version(Rest { number: 1, text })?;
    let rest = read_history(alloc, history, version, rest)?;
    let rest = read_logs(alloc, logs, version, history.as_slice(), rest)?;
    let (unfinished, rest) = unfinished(version, rest);
    let (status, rest) = status(rest)?;
    if is_over(rest) {
        Ok(Ends {
            version,
            unfinished,
            status,
        })
    } else {
        Err(ReportFault::BadLine(rest.number))
    }
}
