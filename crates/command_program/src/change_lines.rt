//! Changes that words ask for: the lines of a script that say one, and what these ask for.

ghost use Rattle.std.specs.Prelude.{◌≡◌, ◌∷◌, ◌++◌, [], false, IfOk, IfSome, OnOk};
ghost use Rattle.std.specs.Str.{IsUtf8};
ghost use Rattle.report_types.specs.declared.script.Body.TheVariants as bodies;
ghost use Rattle.command_spec.specs.Lines.{begun, of_lines};
ghost use Rattle.command_spec.specs.Plans.{lines_of_change};
ghost use Rattle.command_spec.specs.Scripts.{lines_of_script};
ghost use Rattle.change_spec.specs.declared.steps.Step.TheVariants as steps;
ghost use Rattle.command_program.specs.Coming.{Comes};
ghost use Rattle.command_program.specs.Fitting.{MayAllStand};
ghost use Rattle.command_program.specs.Planning.{CanMake, HasOneChange, IsAsked, IsChangeOf, IsChangeStep, line_of, lines_of_other};

use crate::Stop;
use crate::preparing::{Prepared, prepare_lines};
use cfg_io::Shelf;
use change_spec::{Replacement, Start, Step};
use command_words::{Change, TopCall, Word};
use config_graph::{List, NoMemory, Text};
use report_types::{Body, ScriptLine};
use std::alloc::Global;

/// A start, and a change from its graph, which has its plan.
#[derive(Drop)]
pub struct Planned {
    pub start: Start,
    pub change: Replacement,
}

/// Fetches the files of a change, and makes the graphs of its components and the plan.
pub fn prepare_change<H: Shelf>(
    alloc: Global,
    shelf: &mut H,
    change: &Change<'_>,
) -> Result<Planned, Stop>
    ensures comes { Comes (IsChangeOf change.now) (H.files shelf.old) (of_lines begun (lines_of_change change.now))
        (H.failed shelf.old) (H.failed shelf.new) result }
    ensures can { IfOk result CanMake }
    ensures kept { H.files shelf.new ≡ H.files shelf.old }
{
    let lines = lines_of(alloc, change)?;
    let asked = prepare_lines(alloc, shelf, lines)?;
    Ok(planned_by(asked))
}

/// The start and the one change that are asked for.
fn planned_by(asked: Prepared) -> Planned
    requires { HasOneChange asked }
    ensures { IsAsked asked result }
{
    let Prepared { start, mut steps } = asked;
    match steps.pop() {
        Some(step) => Planned {
            start,
            change: change_of(step),
        },
        None => unreachable!(),
    }
}

fn change_of(step: Step) -> Replacement
    requires { IsChangeStep step }
    ensures { step ≡ steps.Change result }
{
    match step {
        Step::Change(change) => change,
        Step::Run { .. } | Step::Finish { .. } | Step::Show => unreachable!(),
    }
}

/// The lines of a script that say a change.
fn lines_of(alloc: Global, change: &Change<'_>) -> Result<Vec<ScriptLine>, NoMemory>
    ensures lines { IfOk result (λ lines. lines_of_script lines.items ≡ lines_of_change change.now) }
    ensures stand { IfOk result (λ lines. MayAllStand false false lines.items) }
{
    let mut lines = Vec::new(alloc);
    push_file(alloc, &mut lines, &change.file)?;
    push_start(alloc, &mut lines, &change.call)?;
    push_other(alloc, &mut lines, &change.other)?;
    push_change(alloc, &mut lines, &change.target)?;
    Ok(lines)
}

/// `use FILE`.
fn push_file(alloc: Global, lines: &mut Vec<ScriptLine>, file: &Word<'_>) -> Result<(), NoMemory>
    ensures pushed { OnOk result (lines.new.items ≡ lines.old.items ++ line_of (bodies.File file.now) ∷ []) }
    ensures utf8 { OnOk result (IsUtf8 file.now) }
{
    let name = String::from_str(alloc, file.as_str())?;
    let name = Text::from_bytes(alloc, name.as_bytes())?;
    lines.push(ScriptLine {
        number: 0,
        body: Body::File(name),
    })?;
    Ok(())
}

/// The same of the second component's file, where one is named.
fn push_other(
    alloc: Global,
    lines: &mut Vec<ScriptLine>,
    other: &Option<Word<'_>>,
) -> Result<(), NoMemory>
    ensures pushed { OnOk result (lines.new.items ≡ lines.old.items ++ lines_of_other other.now) }
    ensures utf8 { OnOk result (IfSome other.now IsUtf8) }
{
    match other {
        Some(file) => push_file(alloc, lines, file),
        None => Ok(()),
    }
}

/// `start C(ARGS)`.
fn push_start(
    alloc: Global,
    lines: &mut Vec<ScriptLine>,
    call: &TopCall<'_>,
) -> Result<(), NoMemory>
    ensures { OnOk result (lines.new.items ≡ lines.old.items ++ line_of (bodies.Start call.now.top call.now.args) ∷ []) }
{
    let name = Text::from_bytes(alloc, call.top.as_str().as_bytes())?;
    let args = List::of(Vec::from_slice(alloc, call.args.items())?);
    lines.push(ScriptLine {
        number: 0,
        body: Body::Start { name, args },
    })?;
    Ok(())
}

/// `change to C(ARGS) within 0`.
fn push_change(
    alloc: Global,
    lines: &mut Vec<ScriptLine>,
    call: &TopCall<'_>,
) -> Result<(), NoMemory>
    ensures { OnOk result (lines.new.items
        ≡ lines.old.items ++ line_of (bodies.Change call.now.top call.now.args 0 []) ∷ []) }
{
    let name = Text::from_bytes(alloc, call.top.as_str().as_bytes())?;
    let args = List::of(Vec::from_slice(alloc, call.args.items())?);
    let moves = List::of(Vec::new(alloc));
    lines.push(ScriptLine {
        number: 0,
        body: Body::Change {
            name,
            args,
            within: 0,
            moves,
        },
    })?;
    Ok(())
}
