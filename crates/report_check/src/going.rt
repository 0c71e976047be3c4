//! A way that goes on until no member may come.

ghost use Rattle.std.specs.Prelude.{◌≤◌, ◌+◌, ◌↔◌, List, length, IfOk, IsTrue, OnOk, if◌then◌else◌};
ghost use Rattle.change_spec.specs.Members.{Member};
ghost use Rattle.merge_laws.specs.Guarded.{all_left};
ghost use Rattle.merge_laws.specs.Merges.{HasLogs, HasRootsApart, IsMergeWith};
ghost use Rattle.merge_laws.specs.Telling.{IsTold};
ghost use Rattle.report_check.specs.Going.{IsPlaced, IsTried, events_of, left_behind, number_of};
ghost use Rattle.report_check.specs.Ways.{GoesOnNoMore, IsDecidedBy, IsPassed, LeadsOn};

use crate::candidates::{Candidates, Chain};
use crate::way::Way;
use config_graph::NoMemory;
use merge_laws::going_decides_merges;
use report_types::{HistoryLine, NodeLog};
use std::alloc::Global;

/// Lets the next member of a chain come, where it may, and then adds the chains that may go on behind it.
fn try_one(
    way: &mut Way,
    candidates: &mut Candidates,
    history: &[HistoryLine],
    logs: &[NodeLog],
    chain: Chain,
) -> Result<bool, NoMemory>
    requires { IsPlaced way.old history.now logs.now }
    ensures tried { IfOk result (λ came. IsTried (left_behind way.old history.now logs.now)
        (number_of chain) came (left_behind way.new history.now logs.now)) }
    ensures placed { OnOk result (IsPlaced way.new history.now logs.now) }
    ensures few { IfOk result (λ came. length candidates.new.chains.items
        ≤ length candidates.old.chains.items + (if came then 3 else 0)) }
{
    if way.try_chain(history, logs, chain)? {
        way.add_behind(history, logs, chain, candidates)?;
        return Ok(true);
    }
    Ok(false)
}

/// Tries candidates until none is left.
fn follow(
    way: &mut Way,
    candidates: &mut Candidates,
    history: &[HistoryLine],
    logs: &[NodeLog],
) -> Result<(), NoMemory>
    requires { IsPlaced way.old history.now logs.now }
    ensures leads { OnOk result
        (LeadsOn (left_behind way.old history.now logs.now) (left_behind way.new history.now logs.now)) }
    ensures placed { OnOk result (IsPlaced way.new history.now logs.now) }
{
    while let Some(chain) = candidates.take() {
        try_one(way, candidates, history, logs, chain)?;
    }
    Ok(())
}

/// Tries each chain once, and says whether a member came.
fn try_all(
    way: &mut Way,
    candidates: &mut Candidates,
    history: &[HistoryLine],
    logs: &[NodeLog],
) -> Result<bool, NoMemory>
    requires { IsPlaced way.old history.now logs.now }
    ensures passed { IfOk result (λ came. IsPassed (left_behind way.old history.now logs.now)
        came (left_behind way.new history.now logs.now)) }
    ensures placed { OnOk result (IsPlaced way.new history.now logs.now) }
{
    let mut came = try_one(way, candidates, history, logs, Chain::History)?;
    for node in 0..logs.len() {
        let one = try_one(way, candidates, history, logs, Chain::Log(node))?;
        came = came || one;
    }
    Ok(came)
}

/// Goes on until no member may come. Candidates are tried first; that none may come is found by trying each chain.
fn go_on(
    way: &mut Way,
    candidates: &mut Candidates,
    history: &[HistoryLine],
    logs: &[NodeLog],
) -> Result<(), NoMemory>
    requires { IsPlaced way.old history.now logs.now }
    ensures leads { OnOk result
        (LeadsOn (left_behind way.old history.now logs.now) (left_behind way.new history.now logs.now)) }
    ensures no_more { OnOk result (GoesOnNoMore (left_behind way.new history.now logs.now)) }
    ensures placed { OnOk result (IsPlaced way.new history.now logs.now) }
{
    while try_all(way, candidates, history, logs)? {
        follow(way, candidates, history, logs)?;
    }
    Ok(())
}

/// Whether a way from here that goes on no more ends with nothing left.
fn decide(
    alloc: Global,
    way: &mut Way,
    history: &[HistoryLine],
    logs: &[NodeLog],
) -> Result<bool, NoMemory>
    requires { IsPlaced way.old history.now logs.now }
    ensures { IfOk result (IsDecidedBy (left_behind way.old history.now logs.now)) }
{
    let mut candidates = Candidates::new(alloc, logs.len())?;
    go_on(way, &mut candidates, history, logs)?;
    Ok(way.has_ended(history, logs))
}

/// Whether a way that goes on no more ends with nothing left of the history and of the logs, which stand by slots. Where
/// the history tells of each close, that is so exactly where there is a merge in which no root is begun at a port at
/// which services call.
pub fn leads_to_the_end(
    alloc: Global,
    history: &[HistoryLine],
    logs: &[NodeLog],
) -> Result<bool, NoMemory>
    ensures decided { IfOk result (IsDecidedBy (all_left history.now (events_of logs.now))) }
    ensures merges { IfOk result (λ ended. IsTold history.now → IsTrue ended ↔ ((m : List Member)
        × HasLogs (events_of logs.now) m × IsMergeWith history.now m × HasRootsApart m)) }
{
    going_decides_merges();
    let mut way = Way::new(alloc, history, logs)?;
    decide(alloc, &mut way, history, logs)
}
