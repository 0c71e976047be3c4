//! What a script asks of a run, before it is run.

ghost use Rattle.std.specs.Prelude.{◌≡◌, false, IfOk, IsSome};
ghost use Rattle.command_spec.specs.Lines.{begun, of_lines};
ghost use Rattle.command_spec.specs.Scripts.{lines_of_script, prepares};
ghost use Rattle.command_program.specs.Coming.{Comes};
ghost use Rattle.command_program.specs.Fitting.{MayAllStand};
ghost use Rattle.command_program.specs.Preparing.{CanRun, IsAskedBy, IsPrepared};

use crate::Stop;
use crate::files::read_script;
use crate::taking::take_lines;
use crate::way::Way;
use cfg_io::Shelf;
use change_spec::{Start, Step};
use report_types::ScriptLine;
use std::alloc::Global;

/// What a script asks for. Each step has its plan, from the graph that was named before it.
#[derive(Drop)]
pub struct Prepared {
    pub start: Start,
    pub steps: Vec<Step>,
}

/// Fetches a script and the files that it uses, and makes the graphs and plans of what it asks for.
pub fn prepare<H: Shelf>(alloc: Global, shelf: &mut H, name: &str) -> Result<Prepared, Stop>
    ensures prepares { Comes IsPrepared (H.files shelf.old) (prepares name.now) (H.failed shelf.old)
        (H.failed shelf.new) result }
    ensures kept { H.files shelf.new ≡ H.files shelf.old }
    ensures can_run { IfOk result CanRun }
{
    let script = read_script(alloc, shelf, name)?;
    prepare_lines(alloc, shelf, script.lines.into_vec())
}

/// The same for the lines of a script.
pub fn prepare_lines<H: Shelf>(
    alloc: Global,
    shelf: &mut H,
    lines: Vec<ScriptLine>,
) -> Result<Prepared, Stop>
    requires { MayAllStand false false lines.items }
    ensures prepares { Comes IsPrepared (H.files shelf.old) (of_lines begun (lines_of_script lines.items))
        (H.failed shelf.old) (H.failed shelf.new) result }
    ensures kept { H.files shelf.new ≡ H.files shelf.old }
    ensures can_run { IfOk result CanRun }
{
    let mut way = Way::new(alloc);
    take_lines(alloc, shelf, &mut way, lines)?;
    Ok(asked_by(way))
}

/// What the lines of a script asked for.
fn asked_by(way: Way) -> Prepared
    requires { IsSome way.start }
    ensures { IsAskedBy way result }
{
    let Way {
        start,
        steps,
        file: _,
        used: _,
        made: _,
    } = way;
    match start {
        Some(start) => Prepared { start, steps },
        None => unreachable!(),
    }
}
