//! Starts and changes, with their graphs and plans.

ghost use Rattle.std.specs.Prelude.{IfErr, IfOk, IfSome, IsSome};
ghost use Rattle.std.specs.Option.{option_map};
ghost use Rattle.change_plan.specs.Room.{HasRoomFor};
ghost use Rattle.command_answers.specs.DescriptionFaults.{MayRefuse};
ghost use Rattle.command_spec.specs.Lines.{IsCallRefusal, Progress, changes, starts};
ghost use Rattle.config_graph.specs.Sound.{Sound};
ghost use Rattle.darwin_types.specs.Checked.{description};
ghost use Rattle.command_program.specs.Calls.{HasUsedFault, HasUsedGraph, LeadsToChange, LeadsToStart};
ghost use Rattle.command_program.specs.Ways.{CanFollow, IsAt, last_graph};

use crate::graph_of;
use crate::way::Way;
use change_plan::{Move, plan, require_room};
use change_spec::{Replacement, Start};
use command_answers::DescriptionFault;
use config_graph::{Graph, List, Text};
use std::alloc::Global;

/// The start with a component of the description that is used.
pub fn start_with(
    alloc: Global,
    way: &Way,
    name: Text,
    args: List<i32>,
) -> Result<Start, DescriptionFault>
    requires { IsSome way.now.used }
    ensures leads { (p : Progress) → IsAt way.now p → IfOk result (LeadsToStart p name args) }
    ensures sound { IfOk result (λ s. Sound s.graph) }
    ensures room { IfOk result (λ s. HasRoomFor way.now.made s.graph) }
    ensures refused { (p : Progress) → IsAt way.now p → IfErr result (MayRefuse (IsCallRefusal p starts name args)) }
{
    let graph = used_graph(alloc, way, name.as_bytes(), args.items())?;
    require_room(&graph, way.made)?;
    Ok(Start { name, args, graph })
}

/// The change to a component of the description that is used, from the graph that was named last.
pub fn change_to(
    alloc: Global,
    way: &Way,
    name: Text,
    args: List<i32>,
    within: u32,
    moves: List<Move>,
) -> Result<Replacement, DescriptionFault>
    requires used { IsSome way.now.used }
    requires begun { IsSome way.now.start }
    ensures leads { (p : Progress) → IsAt way.now p → IfOk result (LeadsToChange p name args within moves) }
    ensures follows { IfSome way.now.start
        (λ s. IfOk result (CanFollow (last_graph s.graph way.now.steps.items) way.now.made)) }
    ensures refused { (p : Progress) → IsAt way.now p
        → IfErr result (MayRefuse (IsCallRefusal p (changes within moves) name args)) }
{
    let graph = used_graph(alloc, way, name.as_bytes(), args.items())?;
    let plan = plan(alloc, way.graph(), &graph, moves.items(), way.made)?;
    Ok(Replacement {
        name,
        args,
        graph,
        moves,
        plan,
        within,
    })
}

/// The graph of a component of the description that is used.
fn used_graph(
    alloc: Global,
    way: &Way,
    name: &[u8],
    args: &[i32],
) -> Result<Graph, DescriptionFault>
    requires { IsSome way.now.used }
    ensures graph { IfOk result (HasUsedGraph (option_map description way.now.used) name.now args.now) }
    ensures sound { IfOk result (λ graph. Sound graph) }
    ensures at_fault { IfErr result (MayRefuse (HasUsedFault (option_map description way.now.used) name.now args.now)) }
{
    match &way.used {
        Some(checked) => graph_of(alloc, checked, name, args),
        None => unreachable!(),
    }
}
