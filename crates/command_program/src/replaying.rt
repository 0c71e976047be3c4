//! Events over a component of a description.

ghost use Rattle.std.specs.Prelude.{◌≤◌, ℕ, List, length, IfOk, IfErr};
ghost use Rattle.config_graph.specs.declared.TheConstants.{MAX_NODES, MAX_PORTS};
ghost use Rattle.config_graph.specs.Graph.{ports};
ghost use Rattle.config_graph.specs.Sound.{Sound};
ghost use Rattle.darwin_types.specs.Checked.{description};
ghost use Rattle.quiesce_core.specs.Start.{started};
ghost use Rattle.command_spec.specs.Descriptions.{IsChecked};
ghost use Rattle.command_spec.specs.Plans.{RefusesStart};
ghost use Rattle.command_spec.specs.Replays.{HasReplay, Replays};
ghost use Rattle.command_answers.specs.DescriptionFaults.{MayRefuse};

use crate::answer::Answer;
use crate::plans::start;
use change_script::EventFile;
use command_answers::{DescriptionFault, Status, denied_line};
use config_graph::{Graph, NoMemory};
use darwin_types::Checked;
use quiesce_core::Event;
use quiesce_replay::{Outcome, replay};
use std::alloc::Global;

/// What the events of a file come to over the component that the file names.
pub fn replay_over(
    alloc: Global,
    checked: &Checked,
    file: &EventFile,
) -> Result<Answer, DescriptionFault>
    ensures replay { (text : List ℕ) → IsChecked text (description checked.now)
        → IfOk result (λ answer. HasReplay text file.now answer.status answer.text.items) }
    ensures refused { (text : List ℕ) → IsChecked text (description checked.now)
        → IfErr result (MayRefuse (RefusesStart text file.now.name file.now.args)) }
{
    let graph = start(alloc, checked, file.name.as_bytes(), file.args.items())?;
    Ok(replay_events(alloc, &graph, file.events.items())?)
}

/// What events come to in a system that was started with the graph.
fn replay_events(alloc: Global, graph: &Graph, events: &[Event]) -> Result<Answer, NoMemory>
    requires sound { Sound graph.now }
    requires few_nodes { length graph.now.nodes ≤ MAX_NODES }
    requires few_ports { length (ports graph.now.nodes) ≤ MAX_PORTS }
    ensures { IfOk result (λ answer. Replays (started graph.now) events.now answer.status answer.text.items) }
{
    match replay(alloc, graph, events)? {
        Outcome::Denied(denial) => Ok(Answer {
            status: Status::Denied,
            text: denied_line(alloc, denial)?,
        }),
        Outcome::Replayed(text) => Ok(Answer {
            status: Status::Ok,
            text,
        }),
    }
}
