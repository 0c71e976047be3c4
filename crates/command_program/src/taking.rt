//! The lines of a script, one after the other.

ghost use Rattle.std.specs.Prelude.{◌≡◌, ◌∷◌, [], false, IsSome, None, OnOk, Option, is_some, string_bytes};
ghost use Rattle.cfg_io.specs.Shelf.{Files};
ghost use Rattle.std.specs.Str.{IsUtf8};
ghost use Rattle.change_script.specs.ScriptFiles.{is_file, is_start};
ghost use Rattle.report_types.specs.declared.script.Body.{Body as Statement};
ghost use Rattle.command_spec.specs.Lines.{Progress, calls, changes, does, starts, uses};
ghost use Rattle.command_spec.specs.Scripts.{lines_of_body, lines_of_script};
ghost use Rattle.command_program.specs.Fitting.{MayAllStand, MayStand};
ghost use Rattle.command_program.specs.Coming.{StopsFor};
ghost use Rattle.command_program.specs.Leading.{LeadOn, Marks, Took};
ghost use Rattle.command_program.specs.Refusals.{IsFaultOf};
ghost use Rattle.command_program.specs.Ways.{IsAt, IsNoChange};
ghost use Rattle.change_spec.specs.Asked.{statement_of};

use crate::Stop;
use crate::changing::{change_to, start_with};
use crate::files::{read_description, refuse_description};
use crate::way::Way;
use cfg_io::Shelf;
use change_plan::Move;
use change_spec::Step;
use command_answers::DescriptionFault;
use config_graph::{List, Text};
use report_types::{Body, ScriptLine};
use std::alloc::Global;

/// Goes on by these lines, to their end or to the first that is refused.
pub fn take_lines<H: Shelf>(
    alloc: Global,
    shelf: &mut H,
    way: &mut Way,
    lines: Vec<ScriptLine>,
) -> Result<(), Stop>
    requires { MayAllStand (is_some way.old.used) (is_some way.old.start) lines.items }
    ensures took { (p : Progress) → IsAt way.old p
        → Took (H.files shelf.old) p (lines_of_script lines.items) (H.failed shelf.old) (H.failed shelf.new)
        way.new result }
    ensures begun { OnOk result (IsSome way.new.start) }
    ensures kept { H.files shelf.new ≡ H.files shelf.old }
{
    for line in lines {
        take_line(alloc, shelf, way, line.body)?;
    }
    Ok(())
}

/// Goes on by a line, unless it is refused.
fn take_line<H: Shelf>(alloc: Global, shelf: &mut H, way: &mut Way, body: Body) -> Result<(), Stop>
    requires { MayStand (is_some way.old.used) (is_some way.old.start) body }
    ensures took { (p : Progress) → IsAt way.old p
        → Took (H.files shelf.old) p (lines_of_body body) (H.failed shelf.old) (H.failed shelf.new) way.new result }
    ensures marks { OnOk result (Marks way.old way.new body) }
    ensures kept { H.files shelf.new ≡ H.files shelf.old }
{
    match body {
        Body::File(name) => use_file(alloc, shelf, way, name),
        Body::Start { name, args } => start(alloc, way, name, args),
        Body::Change {
            name,
            args,
            within,
            moves,
        } => change(alloc, way, name, args, within, moves),
        Body::Run(k) => do_step(way, Step::Run { k }),
        Body::Finish(n) => do_step(way, Step::Finish { n }),
        Body::Show => do_step(way, Step::Show),
        Body::Stop => Ok(()),
    }
}

/// Fetches a file, whose description the lines below are of.
fn use_file<H: Shelf>(alloc: Global, shelf: &mut H, way: &mut Way, name: Text) -> Result<(), Stop>
    requires { IsUtf8 name }
    ensures took { (p : Progress) → IsAt way.old p
        → Took (H.files shelf.old) p (uses name ∷ []) (H.failed shelf.old) (H.failed shelf.new) way.new result }
    ensures marks { OnOk result (Marks way.old way.new (Body.File name)) }
    ensures kept { H.files shelf.new ≡ H.files shelf.old }
{
    let file = str_of(&name);
    let checked = read_description(alloc, shelf, file)?;
    way.describe(String::from_str(alloc, file)?, checked);
    Ok(())
}

/// Starts with a component, unless it is refused.
fn start(alloc: Global, way: &mut Way, name: Text, args: List<i32>) -> Result<(), Stop>
    requires used { IsSome way.old.used }
    requires unbegun { way.old.start ≡ None }
    ensures lead { (files : Option Files) (p : Progress) → IsAt way.old p → LeadOn files p (calls starts name args ∷ []) way.new result }
    ensures marks { OnOk result (Marks way.old way.new (Body.Start name args)) }
{
    match start_with(alloc, way, name, args) {
        Ok(start) => {
            way.begin(start);
            Ok(())
        }
        Err(fault) => Err(refuse(alloc, way, &fault)),
    }
}

/// Changes to a component, unless it is refused.
fn change(
    alloc: Global,
    way: &mut Way,
    name: Text,
    args: List<i32>,
    within: u32,
    moves: List<Move>,
) -> Result<(), Stop>
    requires used { IsSome way.old.used }
    requires begun { IsSome way.old.start }
    ensures lead { (files : Option Files) (p : Progress) → IsAt way.old p
        → LeadOn files p (calls (changes within moves) name args ∷ []) way.new result }
    ensures marks { OnOk result (Marks way.old way.new (Body.Change name args within moves)) }
{
    match change_to(alloc, way, name, args, within, moves) {
        Ok(change) => Ok(way.add_change(change)?),
        Err(fault) => Err(refuse(alloc, way, &fault)),
    }
}

/// What the run does of itself.
fn do_step(way: &mut Way, step: Step) -> Result<(), Stop>
    requires begun { IsSome way.old.start }
    requires not_change { IsNoChange step }
    ensures lead { (files : Option Files) (p : Progress) → IsAt way.old p → LeadOn files p (does (statement_of step) ∷ []) way.new result }
    ensures marks { (body : Statement) → is_file body ≡ false → is_start body ≡ false
        → OnOk result (Marks way.old way.new body) }
{
    Ok(way.add_step(step)?)
}

/// The line that refuses a start or a change, or want of memory.
fn refuse(alloc: Global, way: &Way, fault: &DescriptionFault) -> Stop
    ensures { StopsFor (IsFaultOf (string_bytes way.now.file) fault.now) result }
{
    refuse_description(alloc, way.file.as_str(), fault)
}

/// The name of a file.
fn str_of(name: &Text) -> &str
    requires { IsUtf8 name.now }
    ensures { result.now ≡ name.now }
{
    match str::from_utf8(name.as_bytes()) {
        Ok(name) => name,
        Err(_) => unreachable!(),
    }
}
