//! A replay.

ghost use Rattle.std.specs.Prelude.{◌≤◌, length, IfOk};
ghost use Rattle.config_graph.specs.declared.TheConstants.{MAX_NODES, MAX_PORTS};
ghost use Rattle.config_graph.specs.Graph.{ports};
ghost use Rattle.config_graph.specs.Sound.{Sound};
ghost use Rattle.quiesce_core.specs.Start.{started};
ghost use Rattle.quiesce_replay.specs.Outcomes.{Becomes};

use crate::applying::{Denial, apply_all};
use crate::writing::replay_text;
use config_graph::{Graph, NoMemory};
use quiesce_core::{Core, Event};
use std::alloc::Global;

/// What became of events.
#[derive(Drop)]
pub enum Outcome {
    /// One of them is denied, and those behind it aren't looked at.
    Denied(Denial),
    /// All happened: the text of what is then open and settled.
    Replayed(Vec<u8>),
}

/// Lets the events happen in order in the system that was started with the graph, up to the first that is denied.
pub fn replay(alloc: Global, graph: &Graph, events: &[Event]) -> Result<Outcome, NoMemory>
    requires sound { Sound graph.now }
    requires few_nodes { length graph.now.nodes ≤ MAX_NODES }
    requires few_ports { length (ports graph.now.nodes) ≤ MAX_PORTS }
    ensures { IfOk result (Becomes (started graph.now) events.now) }
{
    let mut core = Core::of(alloc, graph)?;
    match apply_all(&mut core, events)? {
        Some(denial) => Ok(Outcome::Denied(denial)),
        None => Ok(Outcome::Replayed(replay_text(alloc, &core, events.len())?)),
    }
}
