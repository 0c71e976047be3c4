//! What may come: who does an event, what a port is like, and what is told of it.

ghost use Rattle.std.specs.Prelude.{◌≡◌, slice_get, is_none, IfOk, if◌then◌else◌};
ghost use Rattle.quiesce_core.specs.Doers as doers;
ghost use Rattle.quiesce_core.specs.Effect.{effect};
ghost use Rattle.quiesce_core.specs.Rules.{denial};
ghost use Rattle.quiesce_core.specs.Runs as runs;
ghost use Rattle.quiesce_laws.specs.Drained as drained;
ghost use Rattle.quiesce_laws.specs.Roots as roots;
ghost use Rattle.change_spec.specs.Members as members;
ghost use Rattle.merge_laws.specs.Guarded as guarded;
ghost use Rattle.report_check.specs.Going.{is_allowed};

use config_graph::NoMemory;
use quiesce_core::{Core, CoreError, Event};
use report_types::HistoryLine;
use std::alloc::AllocError;

pub fn is_of_change(event: &Event) -> bool
    ensures { result ≡ doers.is_of_change event.now }
{
    matches!(
        event,
        Event::Close { .. }
            | Event::Reopen { .. }
            | Event::Make { .. }
            | Event::Link { .. }
            | Event::Unlink { .. }
            | Event::Remove { .. }
    )
}

/// The node that does an event; the change does the others.
fn doer(core: &Core, event: &Event) -> Option<u32>
    ensures { result ≡ runs.doer core.now.state event.now }
{
    match event {
        Event::Begin { port, .. }
        | Event::Call { port, .. }
        | Event::Miss { port }
        | Event::Ask { port, .. }
        | Event::End { port, .. } => Some(core.gate(*port).owner),
        Event::Take { port, .. }
        | Event::Give { port, .. }
        | Event::More { port, .. }
        | Event::Hear { port, .. } => core.gate(*port).target.map(|target| target.node),
        _ => None,
    }
}

pub fn is_done_by(core: &Core, node: usize, event: &Event) -> bool
    ensures { result ≡ runs.is_doer core.now.state node event.now }
{
    match doer(core, event) {
        Some(by) => by as usize == node,
        None => false,
    }
}

/// Whether services call at a port: some provision of its owner depends on it.
pub fn is_called_at(core: &Core, port: u32) -> bool
    ensures { result ≡ guarded.is_called_at core.now.state.config port }
{
    let gate = core.gate(port);
    match core.slot(gate.owner) {
        Some(slot) => slot.node.kind.is_depended_on(gate.require),
        None => false,
    }
}

pub fn is_drained(core: &Core, port: u32) -> bool
    ensures { result ≡ drained.is_drained core.now.state port }
{
    let exchange = core.exchange(port);
    core.gate(port).closed && (exchange.phase.is_idle() || exchange.within.is_some())
}

fn has_root(core: &Core, port: u32, serial: u32) -> bool
    ensures { result ≡ roots.has_root core.now.state port serial }
{
    let exchange = core.exchange(port);
    !exchange.phase.is_idle() && !exchange.within.is_some() && exchange.serial == serial
}

/// Whether a serial is more than the line at a place tells.
pub fn is_beyond(history: &[HistoryLine], place: usize, serial: u32) -> bool
    ensures { result ≡ guarded.is_beyond serial (slice_get history.now place) }
{
    match history.get(place) {
        Some(HistoryLine::Drained { serial: told, .. })
        | Some(HistoryLine::Root { serial: told, .. }) => *told < serial,
        _ => false,
    }
}

/// Whether a port has what the line at a place tells of it.
pub fn is_met(core: &Core, port: u32, history: &[HistoryLine], place: usize) -> bool
    ensures { result ≡ guarded.is_met core.now.state port (slice_get history.now place) }
{
    match history.get(place) {
        Some(HistoryLine::Drained { serial, .. }) => {
            is_called_at(core, port) || core.exchange(port).serial == *serial
        }
        Some(HistoryLine::Root { serial, .. }) => has_root(core, port, *serial),
        _ => false,
    }
}

/// The event that a line is. Only the node of a `Make` takes memory.
fn event_of(line: &HistoryLine) -> Result<Option<Event>, NoMemory>
    ensures { IfOk result (λ event. event ≡ members.event_of line.now) }
{
    let event = match line {
        HistoryLine::Make { slot, node, from } => Event::Make {
            slot: *slot,
            node: node.try_clone()?,
            from: *from,
        },
        HistoryLine::Link {
            port,
            node,
            provide,
        } => Event::Link {
            port: *port,
            node: *node,
            provide: *provide,
        },
        HistoryLine::Unlink { port } => Event::Unlink { port: *port },
        HistoryLine::Remove { node } => Event::Remove { node: *node },
        HistoryLine::Close { port } => Event::Close { port: *port },
        HistoryLine::Reopen { port } => Event::Reopen { port: *port },
        _ => return Ok(None),
    };
    Ok(Some(event))
}

/// Lets an event happen where no rule denies it, and says whether it did.
fn apply(core: &mut Core, event: &Event) -> Result<bool, NoMemory>
    ensures came { IfOk result (λ came. came ≡ is_none (denial core.old.state event.now)) }
    ensures state { IfOk result (λ came. core.new.state
        ≡ (if came then effect core.old.state event.now else core.old.state)) }
{
    match core.apply(event) {
        Ok(()) => Ok(true),
        Err(CoreError::Denied { .. }) => Ok(false),
        Err(CoreError::NoMemory) => Err(AllocError),
    }
}

/// The same of the event that a line is. A line that is none may always come.
pub fn tell(core: &mut Core, line: &HistoryLine) -> Result<bool, NoMemory>
    ensures came { IfOk result (λ came. came ≡ is_allowed core.old.state line.now) }
    ensures state { IfOk result (λ came. core.new.state
        ≡ (if came then guarded.told_state core.old.state line.now else core.old.state)) }
{
    match event_of(line)? {
        Some(event) => apply(core, &event),
        None => Ok(true),
    }
}
