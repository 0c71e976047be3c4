//! The limits of the versions.

ghost use Rattle.std.specs.Prelude.{◌≡◌};
ghost use Rattle.report_texts.specs.Limits.{event_keeps, is_port, is_slot, is_source, last_keeps, line_keeps};

use crate::version::Version;
use quiesce_core::{Deed, NodeEvent};
use report_types::{HistoryLine, Last};

/// Below which number the slots of a report of version 1 are.
const FIRST_SLOTS: u32 = 255;

/// The same of its ports.
const FIRST_PORTS: u32 = 1_024;

/// Whether a report of this version can have this slot.
pub fn is_slot(version: Version, slot: u32) -> bool
    ensures { result ≡ is_slot version slot }
{
    match version {
        Version::First => slot < FIRST_SLOTS,
        Version::Second => true,
    }
}

/// Whether a report of this version can have this port.
fn is_port(version: Version, port: u32) -> bool
    ensures { result ≡ is_port version port }
{
    match version {
        Version::First => port < FIRST_PORTS,
        Version::Second => true,
    }
}

fn is_source(version: Version, from: Option<u32>) -> bool
    ensures { result ≡ is_source version from }
{
    match from {
        Some(slot) => is_slot(version, slot),
        None => true,
    }
}

/// Whether the slots and ports of a line of the history keep the limits of this version.
pub fn line_keeps(version: Version, line: &HistoryLine) -> bool
    ensures { result ≡ line_keeps version line.now }
{
    match line {
        HistoryLine::Make { slot, from, .. } => is_slot(version, *slot)
            && is_source(version, *from),
        HistoryLine::Link { port, node, .. } => is_port(version, *port) && is_slot(version, *node),
        HistoryLine::Remove { node } => is_slot(version, *node),
        HistoryLine::Unlink { port }
        | HistoryLine::Close { port }
        | HistoryLine::Reopen { port }
        | HistoryLine::Drained { port, .. }
        | HistoryLine::Root { port, .. } => is_port(version, *port),
        _ => true,
    }
}

/// Whether the port of an event of a node keeps the limit of this version.
pub fn event_keeps(version: Version, event: NodeEvent) -> bool
    ensures { result ≡ event_keeps version event }
{
    match event.deed() {
        Deed::Begin(message)
        | Deed::Call(message)
        | Deed::Take(message)
        | Deed::Give(message)
        | Deed::End(message)
        | Deed::More(message)
        | Deed::Ask(message)
        | Deed::Hear(message) => is_port(version, message.port),
        Deed::Miss { port } => is_port(version, port),
    }
}

/// Whether the slot to which a log's state was handed over keeps the limit of this version.
pub fn last_keeps(version: Version, last: &Last) -> bool
    ensures { result ≡ last_keeps version last.now }
{
    match last {
        Last::State(_) => true,
        Last::Moved(slot) => is_slot(version, *slot),
    }
}
