//! The logs of a report.

ghost use Rattle.std.specs.Prelude.{◌≡◌, ◌≢◌, [], ◌∷◌, None, Some, IfErr, IfOk, Err, Ok};
ghost use Rattle.report_writing.specs.Reports.{log_head, makes};
ghost use Rattle.report_texts.specs.declared.error.ReportFault.{ReportFault};
ghost use Rattle.report_texts.specs.declared.error.ReportFault.TheVariants as faults;
ghost use Rattle.report_texts.specs.ReportTexts.{written_by};
ghost use Rattle.report_texts.specs.Rests.{CanNumberLines, IsRestOf, leaving};
ghost use Rattle.report_texts.specs.Stages.{event_of, events_from, head_from, last_from, last_of, log_from, logs_from};
ghost use Rattle.report_texts.specs.TextLines.{lines};

use crate::error::ReportFault;
use crate::limits::{event_keeps, last_keeps};
use crate::readings::{event_said, last_said};
use crate::rest::{Rest, first_line, next_line};
use crate::version::Version;
use config_graph::{List, NoMemory};
use itoa::Buffer;
use quiesce_core::NodeEvent;
use report_types::{HistoryLine, Last, NodeLog};
use std::alloc::Global;

/// One log of each node that is made, in order.
pub fn read_logs<'a>(
    alloc: Global,
    logs: &mut Vec<NodeLog>,
    version: Version,
    history: &[HistoryLine],
    rest: Rest<'a>,
) -> Result<Rest<'a>, ReportFault>
    requires { CanNumberLines rest }
    ensures read { IfOk result
        (λ found. logs_from version (makes history.now) logs.old.items rest.entry.number (lines rest.entry.text.now)
        ≡ Ok (leaving logs.new.items found)) }
    ensures follows { IfOk result (λ found. IsRestOf found rest.entry) }
    ensures fault { IfErr result (λ fault. fault ≢ faults.NoMemory
        → logs_from version (makes history.now) logs.old.items rest.entry.number (lines rest.entry.text.now)
        ≡ Err fault) }
{
    let mut left = rest;
    for line in history {
        left = read_log_of(alloc, logs, version, line, left)?;
    }
    Ok(left)
}

/// The log of the node that a line makes, where it makes one.
fn read_log_of<'a>(
    alloc: Global,
    logs: &mut Vec<NodeLog>,
    version: Version,
    line: &HistoryLine,
    rest: Rest<'a>,
) -> Result<Rest<'a>, ReportFault>
    requires { CanNumberLines rest }
    ensures read { IfOk result (λ found. logs_from version (makes (line.now ∷ [])) logs.old.items rest.entry.number
        (lines rest.entry.text.now)
        ≡ Ok (leaving logs.new.items found)) }
    ensures follows { IfOk result (λ found. IsRestOf found rest.entry) }
    ensures fault { IfErr result (λ fault. fault ≢ faults.NoMemory
        → logs_from version (makes (line.now ∷ [])) logs.old.items rest.entry.number (lines rest.entry.text.now)
        ≡ Err fault) }
{
    let HistoryLine::Make { slot, node, .. } = line else {
        return Ok(rest);
    };
    let (log, left) = read_log(alloc, version, *slot, node.path.as_bytes(), rest)?;
    logs.push(log)?;
    Ok(left)
}

/// The log of the node of this path in this slot.
fn read_log<'a>(
    alloc: Global,
    version: Version,
    slot: u32,
    path: &[u8],
    rest: Rest<'a>,
) -> Result<(NodeLog, Rest<'a>), ReportFault>
    requires { CanNumberLines rest }
    ensures read { IfOk result (λ found. log_from version (record { slot = slot; path = path.now }) rest.entry.number
        (lines rest.entry.text.now)
        ≡ Ok (leaving found.0 found.1)) }
    ensures follows { IfOk result (λ found. IsRestOf found.1 rest.entry) }
    ensures fault { IfErr result (λ fault. fault ≢ faults.NoMemory
        → log_from version (record { slot = slot; path = path.now }) rest.entry.number (lines rest.entry.text.now)
        ≡ Err fault) }
{
    let rest = read_head(alloc, version, slot, path, rest)?;
    let (events, rest) = read_events(alloc, version, rest)?;
    let (last, rest) = read_last(alloc, version, rest)?;
    let events = List::of(events);
    Ok((NodeLog { slot, events, last }, rest))
}

/// The line above the log of a node.
fn read_head<'a>(
    alloc: Global,
    version: Version,
    slot: u32,
    path: &[u8],
    rest: Rest<'a>,
) -> Result<Rest<'a>, ReportFault>
    requires { CanNumberLines rest }
    ensures read { IfOk result (λ found. head_from version (record { slot = slot; path = path.now }) rest.entry.number
        (lines rest.entry.text.now)
        ≡ Ok (leaving (record { slot = slot; path = path.now }) found)) }
    ensures follows { IfOk result (λ found. IsRestOf found rest.entry) }
    ensures fault { IfErr result (λ fault. fault ≢ faults.NoMemory
        → head_from version (record { slot = slot; path = path.now }) rest.entry.number (lines rest.entry.text.now)
        ≡ Err fault) }
{
    let Some((line, behind)) = next_line(rest) else {
        return Err(ReportFault::Short);
    };
    let head = log_head(alloc, version, slot, path)?;
    if line == head.as_slice() {
        Ok(behind)
    } else {
        Err(ReportFault::BadLine(rest.number))
    }
}

/// `log SLOT`, in version 2 with the node's path.
fn log_head(alloc: Global, version: Version, slot: u32, path: &[u8]) -> Result<Vec<u8>, NoMemory>
    ensures { IfOk result (λ head. head.items ≡ log_head (written_by version) path.now slot) }
{
    let mut head = Vec::new(alloc);
    let mut digits = Buffer::new();
    head.extend_from_slice(b"log ")?;
    head.extend_from_slice(digits.format(slot).as_bytes())?;
    if version == Version::Second {
        head.extend_from_slice(b" ")?;
        head.extend_from_slice(path)?;
    }
    Ok(head)
}

/// The events of a node, as many as there are.
fn read_events<'a>(
    alloc: Global,
    version: Version,
    rest: Rest<'a>,
) -> Result<(Vec<NodeEvent>, Rest<'a>), NoMemory>
    requires { CanNumberLines rest }
    ensures read { IfOk result (λ found. events_from version [] rest.entry.number (lines rest.entry.text.now)
        ≡ leaving found.0.items found.1) }
    ensures follows { IfOk result (λ found. IsRestOf found.1 rest.entry) }
{
    let mut events = Vec::with_capacity(alloc, count_events(rest.text))?;
    let mut left = rest;
    'lines: while let Some((line, behind)) = next_line(left) {
        let Some(event) = event_in(version, line) else {
            return Ok((events, left));
        };
        events.push(event)?;
        left = behind;
    }
    Ok((events, left))
}

/// How many bytes the line of an event has at least.
const SHORTEST_EVENT: usize = 6;

/// How many lines may be of events: those before the first that ends a log, or is too short. So what is taken for them
/// keeps in proportion to their length, whatever they say.
fn count_events(text: &[u8]) -> usize {
    let mut count = 0;
    let mut left = text;
    while let Some((line, behind)) = first_line(left) {
        if line.len() < SHORTEST_EVENT || line.starts_with(b"state") || line.starts_with(b"moved") {
            return count;
        }
        count += 1;
        left = behind;
    }
    count
}

fn event_in(version: Version, line: &[u8]) -> Option<NodeEvent>
    ensures { result ≡ event_of version line.now }
{
    let event = event_said(line)?;
    if event_keeps(version, event) {
        Some(event)
    } else {
        None
    }
}

/// The end of a log.
fn read_last<'a>(
    alloc: Global,
    version: Version,
    rest: Rest<'a>,
) -> Result<(Last, Rest<'a>), ReportFault>
    requires { CanNumberLines rest }
    ensures read { IfOk result
        (λ found. last_from version rest.entry.number (lines rest.entry.text.now) ≡ Ok (leaving found.0 found.1)) }
    ensures follows { IfOk result (λ found. IsRestOf found.1 rest.entry) }
    ensures fault { IfErr result (λ fault. fault ≢ faults.NoMemory
        → last_from version rest.entry.number (lines rest.entry.text.now) ≡ Err fault) }
{
    let Some((line, behind)) = next_line(rest) else {
        return Err(ReportFault::Short);
    };
    match last_in(alloc, version, line)? {
        Some(last) => Ok((last, behind)),
        None => Err(ReportFault::BadLine(rest.number)),
    }
}

fn last_in(alloc: Global, version: Version, line: &[u8]) -> Result<Option<Last>, NoMemory>
    ensures { IfOk result (λ last. last ≡ last_of version line.now) }
{
    let Some(last) = last_said(alloc, line)? else {
        return Ok(None);
    };
    if last_keeps(version, &last) {
        Ok(Some(last))
    } else {
        Ok(None)
    }
}
