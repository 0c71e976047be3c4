//! Changes that are carried out part by part in a run.

ghost use Rattle.std.specs.Prelude.{◌≡◌, ◌<◌, ◌^◌, IfOk, length};
ghost use Rattle.config_graph.specs.Sound.{Sound};
ghost use Rattle.change_plan.specs.Room.{HasRoomFor};
ghost use Rattle.change_parts.specs.Carrying.{CanCarryOutAll};
ghost use Rattle.change_parts.specs.Rolls.{IsRoll, roll_statements, stage_left};
ghost use Rattle.command_spec.specs.Plans.{IsRollText, made_of_graph};
ghost use Rattle.change_spec.specs.Scripts.{nothing_made};

use crate::answer::Answer;
use crate::plans::made_of;
use change_parts::{Part, parts, parts_may_be_carried_out};
use change_spec::Start;
use command_answers::{DescriptionFault, Status, parts_text, push_roll_end};
use command_words::TopCall;
use config_graph::{Graph, List, NoMemory, Text};
use std::alloc::Global;
use step_board::{NodeTable, StepBoard};
use step_runner::{Roll, RollEnd, roll_in_rounds};

/// The text of the parts of the change from one graph to another, and what carrying them out comes to: in a run that
/// starts with the first, in which so many transactions end before the parts, and each part waits for so many rounds at
/// most.
pub fn roll_between(
    alloc: Global,
    old: &Graph,
    new: &Graph,
    call: &TopCall<'_>,
    target: &TopCall<'_>,
    run: u32,
    within: u32,
) -> Result<Answer, DescriptionFault>
    requires old { Sound old.now }
    requires room { HasRoomFor nothing_made old.now }
    requires new { Sound new.now }
    ensures { IfOk result (λ answer. IsRollText run within call.now target.now answer.status old.now new.now
        answer.text.items) }
{
    parts_may_be_carried_out();
    // Asked for by the contract alone: that the new one is a graph.
    let _ = made_of(new);
    let parts = parts(alloc, old, new, &[], made_of(old))?;
    let mut text = parts_text(alloc, old, parts.items())?;
    let end = roll_parts(alloc, old, call, target, parts.into_vec(), run, within)?;
    push_roll_end(alloc, &mut text, end.given_up, &end.graph)?;
    Ok(Answer {
        status: Status::of_roll(end.given_up),
        text,
    })
}

/// Carries these parts out in a run that starts with the graph.
fn roll_parts(
    alloc: Global,
    old: &Graph,
    call: &TopCall<'_>,
    target: &TopCall<'_>,
    parts: Vec<Part>,
    run: u32,
    within: u32,
) -> Result<RollEnd, NoMemory>
    requires sound { Sound old.now }
    requires room { HasRoomFor nothing_made old.now }
    requires can { CanCarryOutAll old.now (made_of_graph old.now) parts.items }
    requires few { length parts.items < 2 ^ 32 }
    ensures rounds { IfOk result (λ end. IsRoll (roll_statements call.now.top call.now.args old.now run target.now.top
        target.now.args within parts.items) end.given_up) }
    ensures graph { IfOk result (λ end. end.graph ≡ stage_left old.now parts.items end.given_up) }
{
    let start = start_with(alloc, call, old)?;
    let name = name_of(alloc, target)?;
    let args = args_of(alloc, target)?;
    let board = StepBoard::<NodeTable>::new(alloc)?;
    roll_in_rounds(
        alloc,
        board,
        Roll {
            start,
            run,
            name,
            args,
            parts,
            within,
        },
    )
}

/// The start with a component that has this graph.
fn start_with(alloc: Global, call: &TopCall<'_>, graph: &Graph) -> Result<Start, NoMemory>
    ensures name { IfOk result (λ start. start.name ≡ call.now.top) }
    ensures args { IfOk result (λ start. start.args ≡ call.now.args) }
    ensures graph { IfOk result (λ start. start.graph ≡ graph.now) }
{
    let name = name_of(alloc, call)?;
    let args = args_of(alloc, call)?;
    let graph = graph.try_clone()?;
    Ok(Start { name, args, graph })
}

/// The name of the component.
fn name_of(alloc: Global, call: &TopCall<'_>) -> Result<Text, NoMemory>
    ensures { IfOk result (λ name. name ≡ call.now.top) }
{
    Text::from_bytes(alloc, call.top.as_str().as_bytes())
}

/// Its arguments.
fn args_of(alloc: Global, call: &TopCall<'_>) -> Result<List<i32>, NoMemory>
    ensures { IfOk result (λ args. args ≡ call.now.args) }
{
    let args = Vec::from_slice(alloc, call.args.items())?;
    Ok(List::of(args))
}
