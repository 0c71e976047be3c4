//! Changes between graphs, and starts with a component of a description.

ghost use Rattle.std.specs.Prelude.{◌≡◌, ℕ, List, IfOk, IfErr};
ghost use Rattle.config_graph.specs.Graph.{IsGraph};
ghost use Rattle.config_graph.specs.Sound.{Sound};
ghost use Rattle.darwin_types.specs.Checked.{description};
ghost use Rattle.change_plan.specs.Room.{HasRoomFor};
ghost use Rattle.command_spec.specs.Descriptions.{IsChecked};
ghost use Rattle.command_spec.specs.Plans.{Starts, RefusesStart, IsPartsText, IsPlanText, made_of_graph};
ghost use Rattle.change_spec.specs.Scripts.{nothing_made};
ghost use Rattle.command_spec.specs.Queries.{IsTextBy};
ghost use Rattle.command_answers.specs.DescriptionFaults.{MayRefuse};

use crate::answer::Answer;
use crate::description::graph_of;
use crate::rolling::roll_between;
use change_parts::parts;
use change_plan::{plan, plan_text, require_room};
use command_answers::{DescriptionFault, Status, parts_text};
use command_words::{Cut, TopCall};
use config_graph::{Graph, Made};
use darwin_types::Checked;
use std::alloc::Global;

/// What was made before a start.
const NOTHING_MADE: Made = Made { nodes: 0, ports: 0 };

/// The graph of a component with which a run can start.
pub fn start(
    alloc: Global,
    checked: &Checked,
    top: &[u8],
    args: &[i32],
) -> Result<Graph, DescriptionFault>
    ensures starts { (text : List ℕ) → IsChecked text (description checked.now)
        → IfOk result (Starts text top.now args.now) }
    ensures refused { (text : List ℕ) → IsChecked text (description checked.now)
        → IfErr result (MayRefuse (RefusesStart text top.now args.now)) }
    ensures sound { IfOk result (λ graph. Sound graph) }
    ensures room { IfOk result (λ graph. HasRoomFor nothing_made graph) }
{
    let graph = graph_of(alloc, checked, top, args)?;
    require_room(&graph, NOTHING_MADE)?;
    Ok(graph)
}

/// The change from one graph to another, where a run can start with the first, as it is asked for.
pub fn change_graphs(
    alloc: Global,
    cut: &Cut,
    call: &TopCall<'_>,
    target: &TopCall<'_>,
    old: &Graph,
    new: &Graph,
) -> Result<Answer, DescriptionFault>
    requires old { Sound old.now }
    requires room { HasRoomFor nothing_made old.now }
    requires new { Sound new.now }
    ensures { IfOk result (λ answer. IsTextBy cut.now call.now target.now answer.status old.now new.now
        answer.text.items) }
{
    match cut {
        Cut::Whole => Ok(answer_with(plan_between(alloc, old, new)?)),
        Cut::InParts => Ok(answer_with(parts_between(alloc, old, new)?)),
        Cut::Rolled { run, within } => {
            roll_between(alloc, old, new, call, target, *run, *within)
        }
    }
}

/// The answer that is a text that was asked for.
fn answer_with(text: Vec<u8>) -> Answer
    ensures status { result.status ≡ Status.Ok }
    ensures text { result.text ≡ text }
{
    Answer {
        status: Status::Ok,
        text,
    }
}

/// How much a start with the graph makes.
pub fn made_of(graph: &Graph) -> Made
    ensures made { result ≡ made_of_graph graph.now }
    ensures graph { IsGraph graph.now }
{
    Made {
        nodes: graph.node_count(),
        ports: graph.port_count(),
    }
}

/// The text of the plan from one graph to another, where a run has started with the first.
fn plan_between(alloc: Global, old: &Graph, new: &Graph) -> Result<Vec<u8>, DescriptionFault>
    ensures { IfOk result (λ written. IsPlanText old.now new.now written.items) }
{
    let steps = plan(alloc, old, new, &[], made_of(old))?;
    Ok(plan_text(alloc, old, new, &steps)?)
}

/// The text of its parts.
fn parts_between(alloc: Global, old: &Graph, new: &Graph) -> Result<Vec<u8>, DescriptionFault>
    requires old { Sound old.now }
    requires new { Sound new.now }
    ensures { IfOk result (λ written. IsPartsText old.now new.now written.items) }
{
    let parts = parts(alloc, old, new, &[], made_of(old))?;
    Ok(parts_text(alloc, old, parts.items())?)
}
