//! Tests of lines.

ghost use Rattle.std.specs.Prelude.{◌≡◌, ◌↔◌, ◌==◌, ◌++◌, ℕ, OnOk, option_to_list, Some, filter_map, slice_get, IfOk, IsTrue};
ghost use Rattle.std.specs.List.{count_by};
ghost use Rattle.std.specs.List.Sorted.{IsStrictlyIncreasing};
ghost use Rattle.report_follows.specs.Fronts.{are_told_once};
ghost use Rattle.report_follows.specs.Testing as testing;
ghost use Rattle.report_follows.specs.Testing.{drained_port, falls_in, drained_in, root_port, tell_closes, tell_events, tells_event};

use config_graph::NoMemory;
use quiesce_core::Event;
use report_types::HistoryLine;
use std::alloc::Global;

/// Whether a line is that of an event.
fn is_line_of(line: &HistoryLine, event: &Event) -> bool
    ensures { result ≡ tells_event line.now event.now }
{
    match (line, event) {
        (
            HistoryLine::Make { slot, node, from },
            Event::Make {
                slot: n,
                node: made,
                from: source,
            },
        ) => { slot == n && node == made && from == source }
        (
            HistoryLine::Link {
                port,
                node,
                provide,
            },
            Event::Link {
                port: p,
                node: n,
                provide: x,
            },
        ) => { port == p && node == n && provide == x }
        (HistoryLine::Unlink { port }, Event::Unlink { port: p }) => port == p,
        (HistoryLine::Remove { node }, Event::Remove { node: n }) => node == n,
        (HistoryLine::Reopen { port }, Event::Reopen { port: p }) => port == p,
        _ => false,
    }
}

fn tells_at(lines: &[HistoryLine], events: &[Event], index: usize) -> bool
    ensures { result ≡ testing.tells_at lines.now events.now index }
{
    match (lines.get(index), events.get(index)) {
        (Some(line), Some(event)) => is_line_of(line, event),
        _ => false,
    }
}

/// Whether lines begin with those of events.
pub(crate) fn begin_with_events(lines: &[HistoryLine], events: &[Event]) -> bool
    ensures { result ≡ tell_events lines.now events.now }
{
    (0..events.len()).all(|index| tells_at(lines, events, index))
}

fn is_close_of(line: &HistoryLine, port: u32) -> bool
    ensures { result ≡ testing.is_close_of line.now port }
{
    matches!(line, HistoryLine::Close { port: closed } if *closed == port)
}

fn closes_at(lines: &[HistoryLine], ports: &[u32], index: usize) -> bool
    ensures { result ≡ testing.closes_at lines.now ports.now index }
{
    match (lines.get(index), ports.get(index)) {
        (Some(line), Some(port)) => is_close_of(line, *port),
        _ => false,
    }
}

/// Whether lines begin with the closes of these ports.
pub(crate) fn begin_with_closes(lines: &[HistoryLine], ports: &[u32]) -> bool
    ensures { result ≡ tell_closes lines.now ports.now }
{
    (0..ports.len()).all(|index| closes_at(lines, ports, index))
}

fn port_at(lines: &[HistoryLine], index: usize) -> Option<u32>
    ensures { result ≡ drained_port (slice_get lines.now index) }
{
    match lines.get(index) {
        Some(HistoryLine::Drained { port, .. }) => Some(*port),
        _ => None,
    }
}

fn is_drained_at(lines: &[HistoryLine], index: usize) -> bool
    ensures { result ≡ testing.is_drained_at lines.now index }
{
    port_at(lines, index).is_some()
}

/// How many lines at the front tell of drained ports.
pub(crate) fn drained_count(lines: &[HistoryLine]) -> usize
    ensures { result ≡ drained_in lines.now }
{
    (0..lines.len())
        .take_while(|index| is_drained_at(lines, *index))
        .count()
}

fn is_fall(before: Option<u32>, port: Option<u32>) -> bool
    ensures { result ≡ testing.is_fall before port }
{
    match (before, port) {
        (Some(p), Some(q)) => p >= q,
        _ => false,
    }
}

fn falls_at(lines: &[HistoryLine], index: usize) -> bool
    ensures { result ≡ testing.falls_at lines.now index }
{
    index > 0 && is_fall(port_at(lines, index - 1), port_at(lines, index))
}

/// How often the port that a line tells of isn't above the one before.
pub(crate) fn fall_count(lines: &[HistoryLine]) -> usize
    ensures { result ≡ falls_in lines.now }
{
    (0..lines.len())
        .filter(|index| falls_at(lines, *index))
        .count()
}

/// The ports that lines tell of, and then others.
pub(crate) fn list_seen(
    alloc: Global,
    drained: &[HistoryLine],
    roots: &[HistoryLine],
) -> Result<Vec<u32>, NoMemory>
    ensures { IfOk result (λ ports. ports.items ≡ filter_map testing.told_port drained.now
        ++ filter_map testing.told_port roots.now) }
{
    let mut ports = Vec::new(alloc);
    push_all_told(&mut ports, drained)?;
    push_all_told(&mut ports, roots)?;
    Ok(ports)
}

fn push_all_told(ports: &mut Vec<u32>, lines: &[HistoryLine]) -> Result<(), NoMemory>
    ensures { OnOk result (ports.new.items ≡ ports.old.items ++ filter_map testing.told_port lines.now) }
{
    for line in lines {
        push_told(ports, line)?;
    }
    Ok(())
}

fn push_told(ports: &mut Vec<u32>, line: &HistoryLine) -> Result<(), NoMemory>
    ensures { OnOk result (ports.new.items ≡ ports.old.items ++ option_to_list (testing.told_port line.now)) }
{
    if let Some(port) = told_port(line) {
        ports.push(port)?;
    }
    Ok(())
}

fn told_port(line: &HistoryLine) -> Option<u32>
    ensures { result ≡ testing.told_port line.now }
{
    match line {
        HistoryLine::Drained { port, .. } | HistoryLine::Root { port, .. } => Some(*port),
        _ => None,
    }
}

/// Whether each of these ports, which rise, is told of once, and no other.
pub(crate) fn are_seen(closed: &[u32], seen: Vec<u32>) -> bool
    requires rise { IsStrictlyIncreasing closed.now }
    ensures { result ≡ are_told_once closed.now seen.items }
{
    let mut seen = seen;
    seen.sort_unstable();
    seen.as_slice() == closed
}

fn root_port_at(lines: &[HistoryLine], index: usize) -> Option<u32>
    ensures { result ≡ root_port (slice_get lines.now index) }
{
    match lines.get(index) {
        Some(HistoryLine::Root { port, .. }) => Some(*port),
        _ => None,
    }
}

fn is_root_at(lines: &[HistoryLine], index: usize) -> bool
    ensures { result ≡ testing.is_root_at lines.now index }
{
    root_port_at(lines, index).is_some()
}

/// How many lines at the front tell of roots.
pub(crate) fn root_count(lines: &[HistoryLine]) -> usize
    ensures { result ≡ testing.roots_in lines.now }
{
    (0..lines.len())
        .take_while(|index| is_root_at(lines, *index))
        .count()
}

fn is_reopen_of(line: &HistoryLine, port: u32) -> bool
    ensures { result ≡ testing.is_reopen_of line.now port }
{
    matches!(line, HistoryLine::Reopen { port: opened } if *opened == port)
}

fn reopens_at(lines: &[HistoryLine], ports: &[u32], index: usize) -> bool
    ensures { result ≡ testing.reopens_at lines.now ports.now index }
{
    match (lines.get(index), ports.get(index)) {
        (Some(line), Some(port)) => is_reopen_of(line, *port),
        _ => false,
    }
}

/// Whether lines begin with the reopens of these ports.
pub(crate) fn begin_with_reopens(lines: &[HistoryLine], ports: &[u32]) -> bool
    ensures { result ≡ testing.tell_reopens lines.now ports.now }
{
    (0..ports.len()).all(|index| reopens_at(lines, ports, index))
}
