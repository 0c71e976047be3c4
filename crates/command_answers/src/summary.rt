//! The summary of a run.

ghost use Rattle.std.specs.Prelude.{◌≡◌, ◌++◌, IfOk, OnOk, count_by, flat_map};
ghost use Rattle.report_writing.specs.Reports.{ended};
ghost use Rattle.report_writing.specs.Writing.{with_one};
ghost use Rattle.command_answers.specs.Summaries as of_runs;

use config_graph::{Kind, NoMemory};
use itoa::Buffer;
use report_types::{HistoryLine, Last, NodeLog, Report};
use std::alloc::Global;

/// The summary of the report of a run of so many lanes: five lines, each a word and a number.
pub fn summary_text(alloc: Global, lanes: u32, report: &Report) -> Result<Vec<u8>, NoMemory>
    ensures { IfOk result (λ text. text.items ≡ of_runs.summary_text lanes report.now) }
{
    let history = report.history.items();
    let kept = kept_values(alloc, history, report.logs.items())?;
    let mut text = Vec::new(alloc);
    push_count(&mut text, b"big", u64::from(lanes))?;
    push_count(&mut text, b"nodes", count_made(history) as u64)?;
    push_count(&mut text, b"commits", count_commits(history) as u64)?;
    push_count(&mut text, b"items", kept.len() as u64)?;
    push_count(&mut text, b"status", u64::from(report.status))?;
    Ok(text)
}

/// Writes a line that is a word and a number.
fn push_count(text: &mut Vec<u8>, word: &[u8], count: u64) -> Result<(), NoMemory>
    ensures { OnOk result (text.new.items ≡ text.old.items ++ ended (with_one word.now count)) }
{
    let mut digits = Buffer::new();
    text.extend_from_slice(word)?;
    text.extend_from_slice(b" ")?;
    text.extend_from_slice(digits.format(count).as_bytes())?;
    text.extend_from_slice(b"\n")
}

fn count_made(history: &[HistoryLine]) -> usize
    ensures { result ≡ count_by of_runs.is_make history.now }
{
    history.iter().filter(|line| is_make(line)).count()
}

fn count_commits(history: &[HistoryLine]) -> usize
    ensures { result ≡ count_by of_runs.is_commit history.now }
{
    history.iter().filter(|line| is_commit(line)).count()
}

fn is_make(line: &HistoryLine) -> bool
    ensures { result ≡ of_runs.is_make line.now }
{
    matches!(line, HistoryLine::Make { .. })
}

fn is_commit(line: &HistoryLine) -> bool
    ensures { result ≡ of_runs.is_commit line.now }
{
    matches!(line, HistoryLine::Commit)
}

/// The values that the sinks keep at the end, by the lines that make the sinks.
fn kept_values(
    alloc: Global,
    history: &[HistoryLine],
    logs: &[NodeLog],
) -> Result<Vec<u64>, NoMemory>
    ensures { IfOk result (λ values. values.items ≡ flat_map (of_runs.kept_by logs.now) history.now) }
{
    let mut values = Vec::new(alloc);
    for line in history {
        push_kept(&mut values, line, logs)?;
    }
    Ok(values)
}

/// Adds what the node keeps that a line makes, where it is a sink.
fn push_kept(values: &mut Vec<u64>, line: &HistoryLine, logs: &[NodeLog]) -> Result<(), NoMemory>
    ensures { OnOk result (values.new.items ≡ values.old.items ++ of_runs.kept_by logs.now line.now) }
{
    if let HistoryLine::Make { slot, node, .. } = line {
        if is_sink(node.kind) {
            values.extend_from_slice(state_at(logs, *slot))?;
        }
    }
    Ok(())
}

fn is_sink(kind: Kind) -> bool
    ensures { result ≡ of_runs.is_sink kind }
{
    matches!(kind, Kind::Sink)
}

/// The numbers of the last state of the node in a slot.
fn state_at(logs: &[NodeLog], slot: u32) -> &[u64]
    ensures { result.now ≡ of_runs.state_at logs.now slot }
{
    match logs.get(slot as usize) {
        Some(log) => state_of(&log.last),
        None => &[],
    }
}

fn state_of(last: &Last) -> &[u64]
    ensures { result.now ≡ of_runs.state_of last.now }
{
    match last {
        Last::State(numbers) => numbers.items(),
        Last::Moved(_) => &[],
    }
}
