//! A change that is tried on any board.

ghost use Rattle.std.specs.Prelude.{◌≡◌, ℕ, List, IfOk};
ghost use Rattle.change_board.specs.Transcripts.{Item};
ghost use Rattle.change_engine.specs.Engines.{IsIdle, IsPlanned, IsPrepared};
ghost use Rattle.change_engine.specs.declared.draining.PassError.TheVariants.{Pending};
ghost use Rattle.change_plan.specs.declared.plan_data.Move.{Move};
ghost use Rattle.change_transcript_laws.specs.Pieces.{config_at};
ghost use Rattle.change_runner.specs.Replacing.{Replaced, WentThrough};

use change_board::Board;
use change_engine::{Engine, LeftRoot, PassError};
use change_plan::Plan;
use change_spec::Replacement;
use config_graph::{Graph, List, NoMemory};
use std::alloc::AllocError;

/// The roots that were left.
fn roots_left(refused: PassError) -> Result<List<LeftRoot>, NoMemory>
    ensures { IfOk result (λ left. (rounds : ℕ) × (refused ≡ Pending rounds left)) }
{
    match refused {
        PassError::Pending { rounds: _, left } => Ok(left),
        PassError::NoMemory => Err(AllocError),
    }
}

/// Waits for the ports to drain, and carries the prepared plan out. Gives it up where some roots are left, and answers
/// with these.
fn go_through<B: Board + Drop>(
    engine: &mut Engine<B>,
    plan: Plan,
    graph: Graph,
    within: u32,
) -> Result<Option<List<LeftRoot>>, NoMemory>
    requires { (t : List Item) × (moves : List Move) × IsPrepared B.Board engine.old t moves plan graph }
    ensures { IfOk result (λ left. WentThrough B.Board engine.old engine.new plan graph within left) }
{
    match engine.passivate(&plan, within) {
        Ok(()) => {
            engine.commit(plan, graph);
            Ok(None)
        }
        Err(refused) => {
            let left = roots_left(refused)?;
            engine.abandon(plan);
            Ok(Some(left))
        }
    }
}

/// Prepares a change, waits for its ports to drain, and carries it out. Gives it up where some roots are left after all
/// rounds, and answers with these.
pub fn replace<B: Board + Drop>(
    engine: &mut Engine<B>,
    change: Replacement,
) -> Result<Option<List<LeftRoot>>, NoMemory>
    requires { (t : List Item) × IsIdle B.Board engine.old t
        × IsPlanned engine.old.graph change.graph change.moves change.plan (config_at t) }
    ensures { IfOk result (λ left. (t : List Item) → IsIdle B.Board engine.old t
        → IsPlanned engine.old.graph change.graph change.moves change.plan (config_at t)
        → Replaced B.Board engine.old engine.new t change left) }
{
    let Replacement {
        name,
        args,
        graph,
        plan,
        within,
        moves: _,
    } = change;
    engine.prepare(name, args.into_vec(), &plan, &graph)?;
    go_through(engine, plan, graph, within)
}
