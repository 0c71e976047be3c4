//! Parts of a history: the lines of a start, the opening and the ends of a change, those of a run, a finish, a show and a
//! change that isn't tried, and the stop.

ghost use Rattle.std.specs.Prelude.{◌≡◌, ◌↔◌, ◌++◌, ◌∷◌, [], List, map, IfNone, IfOk, IfSome, IsTrue};
ghost use Rattle.std.specs.List.{list_all};
ghost use Rattle.std.specs.List.Sorted.{IsStrictlyIncreasing};
ghost use Rattle.change_spec.specs.Follows.{IsFinishLine, IsRunLine, IsShowLine, skip_lines};
ghost use Rattle.change_spec.specs.Members.{lines_of_events};
ghost use Rattle.merge_laws.specs.Reading.{IsCommittedSo, IsGivenUpSo};
ghost use Rattle.report_types.specs.declared.report.HistoryLine.{HistoryLine as Line};
ghost use Rattle.report_types.specs.declared.report.HistoryLine.TheVariants as to;
ghost use Rattle.report_follows.specs.Fronts.{HasNoFront, IsStopOf, LeadsTo};
ghost use Rattle.report_follows.specs.Testing.{is_tellable};

use crate::fronts;
use config_graph::NoMemory;
use quiesce_core::Event;
use report_types::HistoryLine;
use std::alloc::Global;

/// What is left of lines behind those of a start whose events are these, where they begin so.
pub fn after_start<'l>(
    lines: &'l [HistoryLine],
    name: &[u8],
    args: &[i32],
    events: &[Event],
) -> Option<&'l [HistoryLine]>
    requires tellable { IsTrue (list_all is_tellable events.now) }
    ensures found { IfSome result (λ rest. LeadsTo (λ (ls : List Line).
        ls ≡ to.Start name.now args.now ∷ lines_of_events events.now ++ to.Commit ∷ []) lines.now rest.now) }
    ensures none { IfNone result (HasNoFront (λ (ls : List Line).
        ls ≡ to.Start name.now args.now ∷ lines_of_events events.now ++ to.Commit ∷ []) lines.now) }
{
    fronts::behind_start(lines, name, args, events)
}

/// What is left of lines behind those with which a change begins that closes these ports, where they begin so.
pub fn after_opening<'l>(
    lines: &'l [HistoryLine],
    name: &[u8],
    args: &[i32],
    closed: &[u32],
) -> Option<&'l [HistoryLine]>
    ensures found { IfSome result (λ rest. LeadsTo (λ (ls : List Line).
        ls ≡ to.Change name.now args.now ∷ map to.Close closed.now) lines.now rest.now) }
    ensures none { IfNone result (HasNoFront (λ (ls : List Line).
        ls ≡ to.Change name.now args.now ∷ map to.Close closed.now) lines.now) }
{
    fronts::behind_opening(lines, name, args, closed)
}

/// What is left of lines behind those of a change that is committed, from those behind its closes on: where each port,
/// which rise, is found drained in so many looks, and the commit does these events.
pub fn after_committed<'l>(
    alloc: Global,
    lines: &'l [HistoryLine],
    within: u32,
    closed: &[u32],
    events: &[Event],
) -> Result<Option<&'l [HistoryLine]>, NoMemory>
    requires rise { IsStrictlyIncreasing closed.now }
    requires tellable { IsTrue (list_all is_tellable events.now) }
    ensures found { IfOk result (λ o. IfSome o
        (λ rest. LeadsTo (IsCommittedSo within closed.now events.now) lines.now rest.now)) }
    ensures none { IfOk result (λ o. IfNone o (HasNoFront (IsCommittedSo within closed.now events.now) lines.now)) }
{
    fronts::behind_committed(alloc, lines, within, closed, events)
}

/// What is left of lines behind those of a change that is given up, from those behind its closes on: where each port,
/// which rise, is found drained in so many looks or said to be open, and is reopened.
pub fn after_given_up<'l>(
    alloc: Global,
    lines: &'l [HistoryLine],
    within: u32,
    closed: &[u32],
) -> Result<Option<&'l [HistoryLine]>, NoMemory>
    requires rise { IsStrictlyIncreasing closed.now }
    ensures found { IfOk result (λ o. IfSome o
        (λ rest. LeadsTo (IsGivenUpSo within closed.now) lines.now rest.now)) }
    ensures none { IfOk result (λ o. IfNone o (HasNoFront (IsGivenUpSo within closed.now) lines.now)) }
{
    fronts::behind_given_up(alloc, lines, within, closed)
}

/// What is left of lines behind those of a change that isn't tried, where they begin so.
pub fn after_skipped<'l>(
    lines: &'l [HistoryLine],
    name: &[u8],
    args: &[i32],
) -> Option<&'l [HistoryLine]>
    ensures found { IfSome result
        (λ rest. LeadsTo (λ (ls : List Line). ls ≡ skip_lines name.now args.now) lines.now rest.now) }
    ensures none { IfNone result (HasNoFront (λ (ls : List Line). ls ≡ skip_lines name.now args.now) lines.now) }
{
    fronts::behind_skipped(lines, name, args)
}

/// What is left of lines behind that of a run until `k` transactions ended, whatever it tells of how many did.
pub fn after_run(lines: &[HistoryLine], k: u32) -> Option<&[HistoryLine]>
    ensures found { IfSome result (λ rest. LeadsTo (IsRunLine k) lines.now rest.now) }
    ensures none { IfNone result (HasNoFront (IsRunLine k) lines.now) }
{
    fronts::behind_run(lines, k)
}

/// What is left of lines behind that of a finish of at most `n` rounds, whatever it tells of how many there were.
pub fn after_finish(lines: &[HistoryLine], n: u32) -> Option<&[HistoryLine]>
    ensures found { IfSome result (λ rest. LeadsTo (IsFinishLine n) lines.now rest.now) }
    ensures none { IfNone result (HasNoFront (IsFinishLine n) lines.now) }
{
    fronts::behind_finish(lines, n)
}

/// What is left of lines behind that of a show, whatever graph it tells.
pub fn after_show(lines: &[HistoryLine]) -> Option<&[HistoryLine]>
    ensures found { IfSome result (λ rest. LeadsTo IsShowLine lines.now rest.now) }
    ensures none { IfNone result (HasNoFront IsShowLine lines.now) }
{
    fronts::behind_show(lines)
}

/// Whether lines are those of a stop that closes these ports, which rise, and finds each of them drained.
pub fn is_stop(alloc: Global, lines: &[HistoryLine], ports: &[u32]) -> Result<bool, NoMemory>
    requires rise { IsStrictlyIncreasing ports.now }
    ensures { IfOk result (λ b. IsTrue b ↔ IsStopOf ports.now lines.now) }
{
    fronts::is_stop(alloc, lines, ports)
}
