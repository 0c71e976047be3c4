//! The statements of a script, one after the other.

ghost use Rattle.std.specs.Prelude.{◌≡◌, true, false, List, [], Some, IfOk, OnOk};
ghost use Rattle.change_board.specs.Transcripts.{Item};
ghost use Rattle.change_engine.specs.Engines.{IsIdle};
ghost use Rattle.config_graph.specs.Graph.{Graph};
ghost use Rattle.change_spec.specs.Follows.{Follows};
ghost use Rattle.report_writing.specs.Reports.{LogsAreMade};
ghost use Rattle.change_spec.specs.Asked.{CanDoAll, CanStart, after_start, statements_of};
ghost use Rattle.change_spec.specs.Heard.{AreCommitted};
ghost use Rattle.change_runner.specs.Doing.{Carried, IsReady, is_given_up};
ghost use Rattle.change_runner.specs.Hearing.{Hears, committed_by, committed_in};
ghost use Rattle.change_runner.specs.Ran.{HasCarriedOut};
ghost use Rattle.change_spec.specs.declared.steps.Step.TheVariants as to_do;

use crate::hearing::Listener;
use crate::replacing::replace;
use change_board::Board;
use change_engine::Engine;
use change_spec::{Replacement, Start, Step};
use change_transcript_laws::transcripts_follow_their_scripts;
use config_graph::{Graph, NoMemory};
use report_types::Report;
use std::alloc::Global;

/// Notes a change that isn't tried.
fn skip_change<B: Board + Drop>(engine: &mut Engine<B>, change: Replacement) -> Result<(), NoMemory>
    requires here { (t : List Item) × IsIdle B.Board engine.old t × (is_given_up t ≡ true) }
    ensures { OnOk result ((t : List Item) → IsIdle B.Board engine.old t → is_given_up t ≡ true
        → Carried B.Board engine.old engine.new t (to_do.Change change) true) }
{
    engine.skip(change.name, change.args.into_vec())?;
    Ok(())
}

/// Carries a change out, which is told, or gives it up. Says whether it was given up.
fn replace_and_tell<B: Board + Drop, L: Listener>(
    engine: &mut Engine<B>,
    listener: &mut L,
    change: Replacement,
) -> Result<bool, NoMemory>
    requires here { (t : List Item) × IsIdle B.Board engine.old t × (is_given_up t ≡ false)
        × IsReady engine.old.graph t (to_do.Change change) }
    requires heard { (graphs : List Graph) × L.heard listener.old graphs }
    ensures carried { IfOk result (λ given_up. (t : List Item) → IsIdle B.Board engine.old t → is_given_up t ≡ false
        → IsReady engine.old.graph t (to_do.Change change)
        → Carried B.Board engine.old engine.new t (to_do.Change change) given_up) }
    ensures heard { IfOk result
        (λ given_up. Hears L.heard listener.old listener.new (committed_by given_up engine.new.graph)) }
{
    let left = replace(engine, change)?;
    if left.is_some() {
        return Ok(true);
    }
    let stands = engine.graph();
    listener.committed(stands)?;
    Ok(false)
}

/// Carries out one step. Says whether a change was given up so far.
fn carry_out_step<B: Board + Drop, L: Listener>(
    engine: &mut Engine<B>,
    listener: &mut L,
    given_up: bool,
    step: Step,
) -> Result<bool, NoMemory>
    requires here { (t : List Item) × IsIdle B.Board engine.old t × (given_up ≡ is_given_up t)
        × IsReady engine.old.graph t step }
    requires heard { (graphs : List Graph) × L.heard listener.old graphs }
    ensures carried { IfOk result (λ now. (t : List Item) → IsIdle B.Board engine.old t → given_up ≡ is_given_up t
        → IsReady engine.old.graph t step → Carried B.Board engine.old engine.new t step now) }
    ensures heard { IfOk result
        (λ now. Hears L.heard listener.old listener.new (committed_in step now engine.new.graph)) }
{
    match step {
        Step::Run { k } => {
            engine.run(k)?;
        }
        Step::Change(change) => {
            if given_up {
                skip_change(engine, change)?;
                return Ok(true);
            }
            return replace_and_tell(engine, listener, change);
        }
        Step::Finish { n } => {
            engine.finish(n)?;
        }
        Step::Show => engine.show()?,
    }
    Ok(given_up)
}

/// Carries out a script on a board on which nothing was made: the start, each step, and the stop. A change is skipped
/// once one before it was given up. The listener hears of each commit as it is made. Gives the report of the run, the
/// board and the listener.
pub fn run_statements<B: Board + Drop, L: Listener + Drop>(
    alloc: Global,
    board: B,
    start: Start,
    steps: Vec<Step>,
    listener: L,
) -> Result<(Report, B, L), NoMemory>
    requires start { CanStart start }
    requires steps { CanDoAll (after_start start) steps.items }
    requires board { B.stands_for board [] }
    requires listener { L.heard listener [] }
    ensures ok { IfOk result
        (λ x. HasCarriedOut B.Board (statements_of start steps.items) x.0 x.1) }
    ensures follows { IfOk result (λ x. Follows (statements_of start steps.items) x.0.history) }
    ensures logs { IfOk result (λ x. LogsAreMade x.0) }
    ensures heard { IfOk result
        (λ x. (graphs : List Graph) × L.heard x.2 graphs × AreCommitted x.0.history graphs) }
{
    transcripts_follow_their_scripts();
    let Start { name, args, graph } = start;
    let mut listener = listener;
    let mut engine = Engine::start(alloc, board, name, args.into_vec(), graph)?;
    listener.committed(engine.graph())?;
    let mut given_up = false;
    for step in steps {
        given_up = carry_out_step(&mut engine, &mut listener, given_up, step)?;
    }
    let (report, board) = engine.stop()?;
    Ok((report, board, listener))
}
