//! What lines say, as the definitions of stages have it.

ghost use Rattle.std.specs.Prelude.{◌≡◌, IfOk};
ghost use Rattle.report_lines.specs.Parts.{words};
ghost use Rattle.report_lines.specs.Readings.{event_in, last_in, line_in};

use config_graph::NoMemory;
use quiesce_core::NodeEvent;
use report_lines::{event_line, history_line, last_line};
use report_types::{HistoryLine, Last};
use std::alloc::Global;

/// What a line of the history says.
pub fn line_said(alloc: Global, line: &[u8]) -> Result<Option<HistoryLine>, NoMemory>
    ensures { IfOk result (λ found. found ≡ line_in (words line.now)) }
{
    history_line(alloc, line)
}

/// The event that a line of a log says.
pub fn event_said(line: &[u8]) -> Option<NodeEvent>
    ensures { result ≡ event_in (words line.now) }
{
    event_line(line)
}

/// The end of a log that a line says.
pub fn last_said(alloc: Global, line: &[u8]) -> Result<Option<Last>, NoMemory>
    ensures { IfOk result (λ found. found ≡ last_in (words line.now)) }
{
    last_line(alloc, line)
}
