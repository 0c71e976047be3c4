//! What a change will do, listed before it begins.

ghost use Rattle.std.specs.Prelude.{◌≡◌, ◌+◌, ◌*◌, ◌-◌, ◌^◌, ◌<◌, ◌++◌, ◌∷◌, [], List, map, IfOk, vec_len};
ghost use Rattle.change_spec.specs.Members.{lines_of_events};
ghost use Rattle.change_plan.specs.declared.plan_data.Move.{Move};
ghost use Rattle.change_engine.specs.Engines.{IsFor, IsPlanned, IsLaidOut};
ghost use Rattle.change_engine.specs.Passivating.{HasPlaceFor};
ghost use Rattle.config_graph.specs.Graph.{IsGraph};
ghost use Rattle.quiesce_core.specs.State.{Configuration};
ghost use Rattle.quiesce_core.specs.declared.event.Event.TheVariants as event;

use crate::engine::Change;
use crate::passivating::Waiting;
use crate::telling::push_lines;
use change_lists::{Layout, PlanIndex, layouts_tell_commits};
use change_plan::Plan;
use config_graph::{Graph, NoMemory};
use quiesce_core::Event;
use report_types::HistoryLine;
use std::alloc::Global;

/// The events that open these ports.
fn list_reopens(alloc: Global, ports: &[u32]) -> Result<Vec<Event>, NoMemory>
    ensures { IfOk result (λ events. events.items ≡ map event.Reopen ports.now) }
{
    let mut events = Vec::with_capacity(alloc, ports.len())?;
    for port in ports {
        events.push(Event::Reopen { port: *port })?;
    }
    Ok(events)
}

/// The lines of these events, and one behind them.
fn list_lines(
    alloc: Global,
    events: &[Event],
    last: HistoryLine,
) -> Result<Vec<HistoryLine>, NoMemory>
    ensures { IfOk result (λ lines. lines.items ≡ lines_of_events events.now ++ last ∷ []) }
{
    let mut lines = Vec::with_capacity(alloc, events.len().saturating_add(1))?;
    push_lines(&mut lines, events)?;
    lines.push(last)?;
    Ok(lines)
}

/// All that a change by this plan does and tells, whether it is committed or given up.
pub(crate) fn list_change(
    alloc: Global,
    layout: &Layout,
    old: &Graph,
    new: &Graph,
    plan: &Plan,
) -> Result<Change, NoMemory>
    requires planned { (c : Configuration) × (moves : List Move) × IsGraph old.now × IsLaidOut layout.now old.now c
        × IsPlanned old.now new.now moves plan.now c }
    ensures for_plan { IfOk result (λ change. IsFor layout.now old.now new.now plan.now change) }
    ensures waiting { IfOk result (λ change. HasPlaceFor change.waiting (vec_len change.closed)) }
{
    let plan = PlanIndex::of(alloc, old.node_count(), new.node_count(), plan)?;
    list_by(alloc, layout, old, new, &plan)
}

fn list_by(
    alloc: Global,
    layout: &Layout,
    old: &Graph,
    new: &Graph,
    plan: &PlanIndex<'_>,
) -> Result<Change, NoMemory>
    requires planned { (c : Configuration) × (moves : List Move) × IsGraph old.now × IsLaidOut layout.now old.now c
        × IsPlanned old.now new.now moves plan.now c }
    ensures for_plan { IfOk result (λ change. IsFor layout.now old.now new.now plan.now change) }
    ensures waiting { IfOk result (λ change. HasPlaceFor change.waiting (vec_len change.closed)) }
{
    layouts_tell_commits();
    let closed = layout.list_closed(alloc, plan)?;
    let commit = layout.list_commit(alloc, old, new, plan)?;
    let lines = list_lines(alloc, &commit.events, HistoryLine::Commit)?;
    let reopens = list_reopens(alloc, &closed)?;
    let reopen_lines = list_lines(alloc, &reopens, HistoryLine::Abandon)?;
    let waiting = Waiting::with_capacity(alloc, closed.len())?;
    Ok(Change {
        closed,
        events: commit.events,
        lines,
        reopens,
        reopen_lines,
        next: commit.next,
        waiting,
    })
}

/// How many lines a change by these lists tells at most: its own, one for each close, one for each port that is drained
/// or left, one for all that are left, and those of either end.
pub(crate) fn line_count(change: &Change) -> usize
    ensures { result < 2 ^ 64 - 1 → result ≡ 2 * vec_len change.now.closed + vec_len change.now.lines
        + vec_len change.now.reopen_lines + 2 }
{
    change
        .closed
        .len()
        .saturating_mul(2)
        .saturating_add(change.lines.len())
        .saturating_add(change.reopen_lines.len())
        .saturating_add(2)
}
