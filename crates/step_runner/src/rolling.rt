//! The parts of a change, one after the other.

ghost use Rattle.std.specs.Prelude.{◌≡◌, ◌<◌, ◌^◌, List, None, Some, length, IfErr, IfOk};
ghost use Rattle.change_board.specs.Transcripts.{Item};
ghost use Rattle.change_engine.specs.Engines.{IsIdle};
ghost use Rattle.change_engine.specs.declared.passivating.LeftRoot.{LeftRoot};
ghost use Rattle.change_parts.specs.Carrying.{CanCarryOut, CanCarryOutAll};
ghost use Rattle.change_plan_laws.specs.Committing.{made_in};
ghost use Rattle.change_runner.specs.Replacing.{Replaced};
ghost use Rattle.change_transcript_laws.specs.Pieces.{config_at};
ghost use Rattle.step_runner.specs.declared.rolling.RollError.TheVariants.{Pending};
ghost use Rattle.step_runner.specs.Rolling.{HasRolled, HasRolledUpTo, WherePending, replacement};

use change_board::Board;
use change_engine::{Engine, LeftRoot};
use change_parts::Part;
use change_runner::replace;
use change_spec::Replacement;
use config_graph::{List, NoMemory, Text};
use std::alloc::{AllocError, Global};

/// Why the rest of the parts wasn't carried out.
#[derive(Drop)]
pub enum RollError {
    /// After all rounds this part, counted from 1, had these roots left.
    Pending { part: u32, left: List<LeftRoot> },
    /// Memory ran out.
    NoMemory,
}

impl From<AllocError> for RollError {
    ghost use Rattle.std.specs.Prelude.{◌≡◌};
    ghost use Rattle.step_runner.specs.declared.rolling.RollError.TheVariants.{NoMemory};

    ghost from_gives = { λ _ e. e ≡ NoMemory };

    fn from(_error: AllocError) -> RollError {
        RollError::NoMemory
    }
}

/// The change that a part is.
fn replacement(
    alloc: Global,
    name: &Text,
    args: &[i32],
    part: Part,
    rounds: u32,
) -> Result<Replacement, NoMemory>
    ensures { IfOk result (λ c. c ≡ replacement name.now args.now rounds part) }
{
    let Part { next, plan, moves } = part;
    let name = name.try_clone()?;
    let args = Vec::from_slice(alloc, args)?;
    Ok(Replacement {
        name,
        args: List::of(args),
        graph: next,
        moves,
        plan,
        within: rounds,
    })
}

/// Carries one part out, or gives it up and answers with the roots that are left.
fn take_part<B: Board + Drop>(
    alloc: Global,
    engine: &mut Engine<B>,
    name: &Text,
    args: &[i32],
    part: Part,
    rounds: u32,
) -> Result<Option<List<LeftRoot>>, NoMemory>
    requires { (t : List Item) × IsIdle B.Board engine.old t
        × CanCarryOut engine.old.graph (made_in (config_at t)) part }
    ensures { IfOk result (λ left. (t : List Item) → IsIdle B.Board engine.old t
        → CanCarryOut engine.old.graph (made_in (config_at t)) part
        → Replaced B.Board engine.old engine.new t (replacement name.now args.now rounds part) left) }
{
    let change = replacement(alloc, name, args, part, rounds)?;
    replace(engine, change)
}

/// Refuses to go on where a part left some roots.
fn refuse_left(part: u32, left: Option<List<LeftRoot>>) -> Result<(), RollError>
    ensures none_left { IfOk result (λ _. left ≡ None) }
    ensures some_left { IfErr result (λ e. (roots : List LeftRoot) × (left ≡ Some roots) × (e ≡ Pending part roots)) }
{
    match left {
        None => Ok(()),
        Some(left) => Err(RollError::Pending { part, left }),
    }
}

/// Carries out the parts one after the other, each with so many rounds to wait in. The first of which some roots are
/// left is given up, and answered with these; none behind it is tried. After want of memory the run is over.
pub fn roll<B: Board + Drop>(
    alloc: Global,
    engine: &mut Engine<B>,
    name: Text,
    args: Vec<i32>,
    parts: Vec<Part>,
    rounds: u32,
) -> Result<(), RollError>
    requires here { (t : List Item) × IsIdle B.Board engine.old t
        × CanCarryOutAll engine.old.graph (made_in (config_at t)) parts.items }
    requires few { length parts.items < 2 ^ 32 }
    ensures ok { IfOk result (λ _. (t : List Item) → IsIdle B.Board engine.old t
        → CanCarryOutAll engine.old.graph (made_in (config_at t)) parts.items
        → HasRolled B.Board engine.old engine.new name args.items rounds t parts.items) }
    ensures pending { IfErr result (WherePending (λ part left. (t : List Item) → IsIdle B.Board engine.old t
        → CanCarryOutAll engine.old.graph (made_in (config_at t)) parts.items
        → HasRolledUpTo B.Board engine.old engine.new name args.items rounds t parts.items part left)) }
{
    let mut number = 0;
    for part in parts {
        number += 1;
        let left = take_part(alloc, engine, &name, &args, part, rounds)?;
        refuse_left(number, left)?;
    }
    Ok(())
}
