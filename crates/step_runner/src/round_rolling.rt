//! A roll on nodes of one thread, from its start to what is left of it.

ghost use Rattle.std.specs.Prelude.{◌≡◌, ◌<◌, ◌^◌, List, [], IfOk, length};
ghost use Rattle.change_board.specs.Transcripts.{Item};
ghost use Rattle.change_engine.specs.Engines.{IsIdle};
ghost use Rattle.change_engine.specs.declared.passivating.LeftRoot.{LeftRoot};
ghost use Rattle.change_spec.specs.Asked.{CanStart, after_start};
ghost use Rattle.change_parts.specs.Carrying.{CanCarryOutAll};
ghost use Rattle.change_plan_laws.specs.Committing.{made_in};
ghost use Rattle.step_runner.specs.declared.rolling.RollError.TheVariants.{Pending};
ghost use Rattle.change_parts.specs.Rolls.{IsRoll, stage_left};
ghost use Rattle.change_transcript_laws.specs.Pieces.{config_at};
ghost use Rattle.step_runner.specs.RoundRolling.{HasBegun, RollsTo, statements_of};
ghost use Rattle.step_runner.specs.Behind.{AreByRounds};

use crate::{RollError, roll};
use change_board::Board;
use change_engine::Engine;
use change_parts::Part;
use change_round_laws::states_are_folds_of_own_events;
use change_spec::Start;
use config_graph::{Graph, List, NoMemory, Text};
use node_turn_laws::worlds_at_rest_stay;
use std::alloc::{AllocError, Global};
use step_board::{Nodes, StepBoard};

/// What is asked of a roll.
#[derive(Drop)]
pub struct Roll {
    /// The system that is started.
    pub start: Start,
    /// How many transactions are to end before the change.
    pub run: u32,
    /// The component to which the parts lead, and its arguments.
    pub name: Text,
    pub args: List<i32>,
    /// The parts of the change, in order.
    pub parts: Vec<Part>,
    /// How many rounds each part may wait.
    pub within: u32,
}

/// What a roll comes to.
#[derive(Drop)]
pub struct RollEnd {
    /// The part that was given up, counted from 1. None where all were carried out.
    pub given_up: Option<u32>,
    /// The graph that is left.
    pub graph: Graph,
}

/// The part that was given up.
fn part_left(refused: RollError) -> Result<u32, NoMemory>
    ensures { IfOk result (λ part. (left : List LeftRoot) × (refused ≡ Pending part left)) }
{
    match refused {
        RollError::Pending { part, left: _ } => Ok(part),
        RollError::NoMemory => Err(AllocError),
    }
}

/// Starts the system and lets it run.
fn begin<B: Board + Drop>(
    alloc: Global,
    board: B,
    start: Start,
    k: u32,
) -> Result<Engine<B>, NoMemory>
    requires start { CanStart start }
    requires board { B.stands_for board [] }
    ensures { IfOk result (λ e. HasBegun B.Board e start k) }
{
    let Start { name, args, graph } = start;
    let mut engine = Engine::start(alloc, board, name, args.into_vec(), graph)?;
    engine.run(k)?;
    Ok(engine)
}

/// Carries the parts out, as far as they come. Answers which one was given up, if any.
fn roll_part<B: Board + Drop>(
    alloc: Global,
    engine: &mut Engine<B>,
    name: Text,
    args: Vec<i32>,
    parts: Vec<Part>,
    within: u32,
) -> Result<Option<u32>, NoMemory>
    requires here { (t : List Item) × IsIdle B.Board engine.old t
        × CanCarryOutAll engine.old.graph (made_in (config_at t)) parts.items }
    requires few { length parts.items < 2 ^ 32 }
    ensures { IfOk result (λ given_up. (t : List Item) → IsIdle B.Board engine.old t
        → CanCarryOutAll engine.old.graph (made_in (config_at t)) parts.items
        → RollsTo B.Board engine.old engine.new name args.items within t parts.items given_up) }
{
    match roll(alloc, engine, name, args, parts, within) {
        Ok(()) => Ok(None),
        Err(refused) => {
            let part = part_left(refused)?;
            Ok(Some(part))
        }
    }
}

/// Lets the board go. What stands is what is left.
fn close_down<N: Nodes + Drop>(engine: Engine<StepBoard<N>>) -> Graph
    ensures graph { result ≡ engine.graph }
    ensures rounds { (t : List Item) → IsIdle ⟦<StepBoard<N> as Board>⟧ engine t → AreByRounds t }
{
    let Engine {
        board,
        history: _,
        graph,
        layout: _,
        change: _,
    } = engine;
    board.close_down();
    graph
}

/// Makes a roll on a board on which nothing was made: the start, the run, and the parts, as far as they come. A part
/// that still has roots open after so many rounds is given up, and ends it. Which one that is, or that there is none,
/// is what the rounds make of the start, the run and the parts.
pub fn roll_in_rounds<N: Nodes + Drop>(
    alloc: Global,
    board: StepBoard<N>,
    asked: Roll,
) -> Result<RollEnd, NoMemory>
    requires start { CanStart asked.start }
    requires parts { CanCarryOutAll asked.start.graph (after_start asked.start).made asked.parts.items }
    requires few { length asked.parts.items < 2 ^ 32 }
    requires board { ⟦<StepBoard<N> as Board>⟧.stands_for board [] }
    ensures rounds { IfOk result (λ end. IsRoll (statements_of asked) end.given_up) }
    ensures graph { IfOk result
        (λ end. end.graph ≡ stage_left asked.start.graph asked.parts.items end.given_up) }
{
    worlds_at_rest_stay();
    states_are_folds_of_own_events();
    let Roll {
        start,
        run,
        name,
        args,
        parts,
        within,
    } = asked;
    let mut engine = begin(alloc, board, start, run)?;
    let given_up = roll_part(alloc, &mut engine, name, args.into_vec(), parts, within)?;
    let graph = close_down(engine);
    Ok(RollEnd { given_up, graph })
}
