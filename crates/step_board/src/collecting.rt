//! The logs of all nodes, with how each ended.

ghost use Rattle.std.specs.Prelude.{◌≡◌, ◌<◌, IfOk, length, slice_index_or, []};
ghost use Rattle.change_board.specs.Collecting.{heir_of};
ghost use Rattle.change_spec.specs.Lawful.{EndsAs};
ghost use Rattle.step_board.specs.Going.{ShowsSome};
ghost use Rattle.step_board.specs.Heirs.{AreHeirs, with_heir};
ghost use Rattle.step_board.specs.Standing.{AreLogs};
ghost use Rattle.node_turn_laws.specs.World.{World, state_of};

use crate::copying::copy_log;
use crate::nodes::Nodes;
use config_graph::{List, NoMemory};
use report_types::{Last, NodeLog};
use std::alloc::Global;

/// Notes that the node in this slot took over the state of the source, unless one before it did.
fn note_heir(heirs: &mut Vec<Option<u32>>, source: Option<u32>, slot: u32)
    ensures { heirs.new.items ≡ with_heir heirs.old.items source slot }
{
    if let Some(source) = source {
        let source = source as usize;
        if source < heirs.len() && heirs[source].is_none() {
            heirs[source] = Some(slot);
        }
    }
}

/// Which node took over the state of each, by slot.
fn find_heirs<N: Nodes>(alloc: Global, nodes: &N) -> Result<Vec<Option<u32>>, NoMemory>
    ensures { IfOk result
        (λ heirs. AreHeirs (N.machine nodes.now).config (length (N.machine nodes.now).config.slots) heirs.items) }
{
    let made = nodes.made().nodes;
    let mut heirs = vec![in alloc; None; made as usize]?;
    for slot in 0..made {
        let source = nodes.source(slot);
        note_heir(&mut heirs, source, slot);
    }
    Ok(heirs)
}

/// How the log of a node ends whose state this one took over.
fn last_of<N: Nodes>(
    alloc: Global,
    nodes: &N,
    slot: u32,
    heir: Option<u32>,
) -> Result<Last, NoMemory>
    requires made { slot < length (N.machine nodes.now).config.slots }
    requires heir { heir ≡ heir_of (N.machine nodes.now).config slot }
    requires some { ShowsSome N.shows nodes.now }
    ensures { IfOk result (λ last. (w : World) → N.shows nodes.now w → EndsAs (state_of w slot) heir last) }
{
    match heir {
        Some(heir) => Ok(Last::Moved(heir)),
        None => Ok(Last::State(List::of(nodes.numbers(alloc, slot)?))),
    }
}

/// A copy of a node's log.
fn log_of<N: Nodes>(
    alloc: Global,
    nodes: &N,
    slot: u32,
    heir: Option<u32>,
) -> Result<NodeLog, NoMemory>
    requires made { slot < length (N.machine nodes.now).config.slots }
    requires heir { heir ≡ heir_of (N.machine nodes.now).config slot }
    requires some { ShowsSome N.shows nodes.now }
    ensures slot { IfOk result (λ l. l.slot ≡ slot) }
    ensures events { IfOk result (λ l. l.events ≡ slice_index_or (N.logs nodes.now) slot []) }
    ensures last { IfOk result (λ l. (w : World) → N.shows nodes.now w → EndsAs (state_of w slot) heir l.last) }
{
    let events = List::of(copy_log(alloc, nodes.log(slot))?);
    let last = last_of(alloc, nodes, slot, heir)?;
    Ok(NodeLog { slot, events, last })
}

/// Copies of the logs of all nodes, by slot.
pub fn collect_logs<N: Nodes>(alloc: Global, nodes: &N) -> Result<Vec<NodeLog>, NoMemory>
    requires some { ShowsSome N.shows nodes.now }
    ensures { IfOk result (λ logs. AreLogs N.shows nodes.now (N.machine nodes.now) (N.logs nodes.now) logs.items) }
{
    let made = nodes.made().nodes;
    let heirs = find_heirs(alloc, nodes)?;
    let mut logs = Vec::with_capacity(alloc, made as usize)?;
    for slot in 0..made {
        let log = log_of(alloc, nodes, slot, heirs[slot as usize])?;
        logs.push(log)?;
    }
    Ok(logs)
}
