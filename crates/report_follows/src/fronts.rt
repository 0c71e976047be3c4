//! What stands at the front of lines.

ghost use Rattle.std.specs.Prelude.{◌≡◌, ◌++◌, bytes_eq, drop, filter_map, option_and_then, take, IfOk, MatchOption, None, Some};
ghost use Rattle.std.specs.Ordering.{int_eq};
ghost use Rattle.std.specs.Cmp.Lexicographic.{pointwise};
ghost use Rattle.std.specs.List.{list_all};
ghost use Rattle.std.specs.List.Sorted.{IsStrictlyIncreasing};
ghost use Rattle.report_follows.specs.Fronts as fronts;
ghost use Rattle.report_follows.specs.Testing.{is_tellable, tell_events, tell_reopens, told_port};

use crate::testing::{
    are_seen, begin_with_closes, begin_with_events, begin_with_reopens, drained_count, fall_count,
    list_seen, root_count,
};
use config_graph::NoMemory;
use quiesce_core::Event;
use report_types::HistoryLine;
use std::alloc::Global;

/// The lines behind so many.
pub(crate) fn behind(lines: &[HistoryLine], count: usize) -> &[HistoryLine]
    ensures { result.now ≡ drop count lines.now }
{
    if count < lines.len() {
        &lines[count..]
    } else {
        &[]
    }
}

/// So many lines.
pub(crate) fn before(lines: &[HistoryLine], count: usize) -> &[HistoryLine]
    ensures { result.now ≡ take count lines.now }
{
    if count < lines.len() {
        &lines[..count]
    } else {
        lines
    }
}

fn is_commit(line: &HistoryLine) -> bool
    ensures { result ≡ fronts.is_commit_line line.now }
{
    matches!(line, HistoryLine::Commit)
}

fn is_abandon(line: &HistoryLine) -> bool
    ensures { result ≡ fronts.is_abandon_line line.now }
{
    matches!(line, HistoryLine::Abandon)
}

fn is_pending_for(within: u32, line: &HistoryLine) -> bool
    ensures { result ≡ fronts.is_pending_for within line.now }
{
    matches!(line, HistoryLine::Pending { rounds } if *rounds == within)
}

fn begin_with_commit(lines: &[HistoryLine]) -> bool
    ensures { result ≡ fronts.begin_so fronts.is_commit_line lines.now }
{
    match lines.get(0) {
        Some(line) => is_commit(line),
        None => false,
    }
}

fn begin_with_abandon(lines: &[HistoryLine]) -> bool
    ensures { result ≡ fronts.begin_so fronts.is_abandon_line lines.now }
{
    match lines.get(0) {
        Some(line) => is_abandon(line),
        None => false,
    }
}

fn begin_with_pending(lines: &[HistoryLine], within: u32) -> bool
    ensures { result ≡ fronts.begin_so (fronts.is_pending_for within) lines.now }
{
    match lines.get(0) {
        Some(line) => is_pending_for(within, line),
        None => false,
    }
}

fn behind_if(test: bool, lines: &[HistoryLine], count: usize) -> Option<&[HistoryLine]>
    ensures { MatchOption result (fronts.behind_if test count lines.now ≡ None)
        (λ rest. fronts.behind_if test count lines.now ≡ Some rest.now) }
{
    if test {
        Some(behind(lines, count))
    } else {
        None
    }
}

/// What is left behind the events of a commit and its line.
fn behind_commit<'l>(lines: &'l [HistoryLine], events: &[Event]) -> Option<&'l [HistoryLine]>
    ensures { MatchOption result (fronts.behind_commit events.now lines.now ≡ None)
        (λ rest. fronts.behind_commit events.now lines.now ≡ Some rest.now) }
{
    let told = begin_with_events(lines, events);
    let rest = behind_if(told, lines, events.len())?;
    behind_if(begin_with_commit(rest), rest, 1)
}

/// What is left behind reopens and the line of a change that is given up.
fn behind_abandon<'l>(lines: &'l [HistoryLine], closed: &[u32]) -> Option<&'l [HistoryLine]>
    ensures { MatchOption result (fronts.behind_abandon closed.now lines.now ≡ None)
        (λ rest. fronts.behind_abandon closed.now lines.now ≡ Some rest.now) }
{
    let told = begin_with_reopens(lines, closed);
    let rest = behind_if(told, lines, closed.len())?;
    behind_if(begin_with_abandon(rest), rest, 1)
}

/// Whether each of these ports, which rise, is told of once in lines, and no other.
fn are_told_once(
    alloc: Global,
    closed: &[u32],
    drained: &[HistoryLine],
    roots: &[HistoryLine],
) -> Result<bool, NoMemory>
    requires rise { IsStrictlyIncreasing closed.now }
    ensures { IfOk result (λ b. b ≡ fronts.are_told_once closed.now
        (filter_map told_port drained.now ++ filter_map told_port roots.now)) }
{
    Ok(are_seen(closed, list_seen(alloc, drained, roots)?))
}

/// What is left behind the lines of a change that is committed, from those behind its closes on.
pub(crate) fn behind_committed<'l>(
    alloc: Global,
    lines: &'l [HistoryLine],
    within: u32,
    closed: &[u32],
    events: &[Event],
) -> Result<Option<&'l [HistoryLine]>, NoMemory>
    requires rise { IsStrictlyIncreasing closed.now }
    ensures { IfOk result (λ o. MatchOption o (fronts.behind_committed within closed.now events.now lines.now ≡ None)
        (λ rest. fronts.behind_committed within closed.now events.now lines.now ≡ Some rest.now)) }
{
    let count = drained_count(lines);
    let drained = before(lines, count);
    if fall_count(drained) > within as usize || !are_told_once(alloc, closed, drained, &[])? {
        return Ok(None);
    }
    Ok(behind_commit(behind(lines, count), events))
}

/// What is left behind the lines of a change that is given up, from those behind its `pending` line on.
fn behind_roots<'l>(
    alloc: Global,
    lines: &'l [HistoryLine],
    within: u32,
    closed: &[u32],
    drained: &[HistoryLine],
) -> Result<Option<&'l [HistoryLine]>, NoMemory>
    requires rise { IsStrictlyIncreasing closed.now }
    ensures { IfOk result (λ o. MatchOption o (fronts.behind_roots within closed.now drained.now lines.now ≡ None)
        (λ rest. fronts.behind_roots within closed.now drained.now lines.now ≡ Some rest.now)) }
{
    let count = root_count(lines);
    let roots = before(lines, count);
    if count == 0 || fall_count(drained) > within as usize {
        return Ok(None);
    }
    if !are_told_once(alloc, closed, drained, roots)? {
        return Ok(None);
    }
    Ok(behind_abandon(behind(lines, count), closed))
}

/// What is left behind the lines of a change that is given up, from those behind its closes on.
pub(crate) fn behind_given_up<'l>(
    alloc: Global,
    lines: &'l [HistoryLine],
    within: u32,
    closed: &[u32],
) -> Result<Option<&'l [HistoryLine]>, NoMemory>
    requires rise { IsStrictlyIncreasing closed.now }
    ensures { IfOk result (λ o. MatchOption o (fronts.behind_given_up within closed.now lines.now ≡ None)
        (λ rest. fronts.behind_given_up within closed.now lines.now ≡ Some rest.now)) }
{
    let count = drained_count(lines);
    let drained = before(lines, count);
    let rest = behind(lines, count);
    match behind_if(begin_with_pending(rest, within), rest, 1) {
        Some(rest) => behind_roots(alloc, rest, within, closed, drained),
        None => Ok(None),
    }
}

fn are_same_names(a: &[u8], b: &[u8]) -> bool
    ensures { result ≡ bytes_eq a.now b.now }
{
    a == b
}

fn are_same_args(a: &[i32], b: &[i32]) -> bool
    ensures { result ≡ pointwise int_eq a.now b.now }
{
    a == b
}

fn is_change(line: &HistoryLine, name: &[u8], args: &[i32]) -> bool
    ensures { result ≡ fronts.is_change_line name.now args.now line.now }
{
    match line {
        HistoryLine::Change {
            name: named,
            args: given,
        } => { are_same_names(named.as_bytes(), name) && are_same_args(given.items(), args) }
        _ => false,
    }
}

fn is_start(line: &HistoryLine, name: &[u8], args: &[i32]) -> bool
    ensures { result ≡ fronts.is_start_line name.now args.now line.now }
{
    match line {
        HistoryLine::Start {
            name: named,
            args: given,
        } => { are_same_names(named.as_bytes(), name) && are_same_args(given.items(), args) }
        _ => false,
    }
}

fn is_stop_line(line: &HistoryLine) -> bool
    ensures { result ≡ fronts.is_stop_line line.now }
{
    matches!(line, HistoryLine::Stop)
}

fn begin_with_change(lines: &[HistoryLine], name: &[u8], args: &[i32]) -> bool
    ensures { result ≡ fronts.begin_so (fronts.is_change_line name.now args.now) lines.now }
{
    match lines.get(0) {
        Some(line) => is_change(line, name, args),
        None => false,
    }
}

fn begin_with_start(lines: &[HistoryLine], name: &[u8], args: &[i32]) -> bool
    ensures { result ≡ fronts.begin_so (fronts.is_start_line name.now args.now) lines.now }
{
    match lines.get(0) {
        Some(line) => is_start(line, name, args),
        None => false,
    }
}

fn begin_with_stop(lines: &[HistoryLine]) -> bool
    ensures { result ≡ fronts.begin_so fronts.is_stop_line lines.now }
{
    match lines.get(0) {
        Some(line) => is_stop_line(line),
        None => false,
    }
}

fn begin_with_skipped(lines: &[HistoryLine]) -> bool
    ensures { result ≡ fronts.begin_so fronts.is_skipped_line lines.now }
{
    matches!(lines.get(0), Some(HistoryLine::Skipped))
}

fn begin_with_run(lines: &[HistoryLine], k: u32) -> bool
    ensures { result ≡ fronts.begin_so (fronts.is_run_line k) lines.now }
{
    match lines.get(0) {
        Some(HistoryLine::Run { k: asked, .. }) => *asked == k,
        _ => false,
    }
}

fn begin_with_finish(lines: &[HistoryLine], n: u32) -> bool
    ensures { result ≡ fronts.begin_so (fronts.is_finish_line n) lines.now }
{
    match lines.get(0) {
        Some(HistoryLine::Finish { n: most, .. }) => *most == n,
        _ => false,
    }
}

fn begin_with_show(lines: &[HistoryLine]) -> bool
    ensures { result ≡ fronts.begin_so fronts.is_show_line lines.now }
{
    matches!(lines.get(0), Some(HistoryLine::Show { .. }))
}

/// What is left behind the line of a run until so many transactions ended.
pub(crate) fn behind_run(lines: &[HistoryLine], k: u32) -> Option<&[HistoryLine]>
    ensures { MatchOption result (fronts.behind_first (fronts.is_run_line k) lines.now ≡ None)
        (λ rest. fronts.behind_first (fronts.is_run_line k) lines.now ≡ Some rest.now) }
{
    behind_if(begin_with_run(lines, k), lines, 1)
}

/// What is left behind the line of a finish of at most so many rounds.
pub(crate) fn behind_finish(lines: &[HistoryLine], n: u32) -> Option<&[HistoryLine]>
    ensures { MatchOption result (fronts.behind_first (fronts.is_finish_line n) lines.now ≡ None)
        (λ rest. fronts.behind_first (fronts.is_finish_line n) lines.now ≡ Some rest.now) }
{
    behind_if(begin_with_finish(lines, n), lines, 1)
}

/// What is left behind the line of a show.
pub(crate) fn behind_show(lines: &[HistoryLine]) -> Option<&[HistoryLine]>
    ensures { MatchOption result (fronts.behind_first fronts.is_show_line lines.now ≡ None)
        (λ rest. fronts.behind_first fronts.is_show_line lines.now ≡ Some rest.now) }
{
    behind_if(begin_with_show(lines), lines, 1)
}

/// What is left behind the two lines of a change that isn't tried.
pub(crate) fn behind_skipped<'l>(
    lines: &'l [HistoryLine],
    name: &[u8],
    args: &[i32],
) -> Option<&'l [HistoryLine]>
    ensures { MatchOption result (fronts.behind_skipped name.now args.now lines.now ≡ None)
        (λ rest. fronts.behind_skipped name.now args.now lines.now ≡ Some rest.now) }
{
    let rest = behind_if(begin_with_change(lines, name, args), lines, 1)?;
    behind_if(begin_with_skipped(rest), rest, 1)
}

fn behind_closes<'l>(lines: &'l [HistoryLine], closed: &[u32]) -> Option<&'l [HistoryLine]>
    ensures { MatchOption result (fronts.behind_closes closed.now lines.now ≡ None)
        (λ rest. fronts.behind_closes closed.now lines.now ≡ Some rest.now) }
{
    behind_if(begin_with_closes(lines, closed), lines, closed.len())
}

/// What is left behind the line of a change and its closes.
pub(crate) fn behind_opening<'l>(
    lines: &'l [HistoryLine],
    name: &[u8],
    args: &[i32],
    closed: &[u32],
) -> Option<&'l [HistoryLine]>
    ensures { MatchOption result (fronts.behind_opening name.now args.now closed.now lines.now ≡ None)
        (λ rest. fronts.behind_opening name.now args.now closed.now lines.now ≡ Some rest.now) }
{
    let rest = behind_if(begin_with_change(lines, name, args), lines, 1)?;
    behind_closes(rest, closed)
}

/// What is left behind the lines of a start, whose events are these.
pub(crate) fn behind_start<'l>(
    lines: &'l [HistoryLine],
    name: &[u8],
    args: &[i32],
    events: &[Event],
) -> Option<&'l [HistoryLine]>
    ensures { MatchOption result (fronts.behind_start name.now args.now events.now lines.now ≡ None)
        (λ rest. fronts.behind_start name.now args.now events.now lines.now ≡ Some rest.now) }
{
    let rest = behind_if(begin_with_start(lines, name, args), lines, 1)?;
    behind_commit(rest, events)
}

fn are_all_told(alloc: Global, ports: &[u32], lines: &[HistoryLine]) -> Result<bool, NoMemory>
    requires rise { IsStrictlyIncreasing ports.now }
    ensures { IfOk result (λ b. b ≡ fronts.are_all_told ports.now lines.now) }
{
    if drained_count(lines) != lines.len() {
        return Ok(false);
    }
    are_told_once(alloc, ports, lines, &[])
}

fn behind_stop_closes<'l>(lines: &'l [HistoryLine], ports: &[u32]) -> Option<&'l [HistoryLine]>
    ensures { MatchOption result
        (option_and_then (fronts.behind_closes ports.now) (fronts.behind_first fronts.is_stop_line lines.now) ≡ None)
        (λ rest. option_and_then (fronts.behind_closes ports.now) (fronts.behind_first fronts.is_stop_line lines.now)
        ≡ Some rest.now) }
{
    let rest = behind_if(begin_with_stop(lines), lines, 1)?;
    behind_closes(rest, ports)
}

/// Whether lines are those of a stop that closes these ports, which rise, and finds each of them drained.
pub(crate) fn is_stop(alloc: Global, lines: &[HistoryLine], ports: &[u32]) -> Result<bool, NoMemory>
    requires rise { IsStrictlyIncreasing ports.now }
    ensures { IfOk result (λ b. b ≡ fronts.is_stop_of ports.now lines.now) }
{
    match behind_stop_closes(lines, ports) {
        Some(rest) => are_all_told(alloc, ports, rest),
        None => Ok(false),
    }
}
