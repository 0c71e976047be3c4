//! The text of a change in parts, and of a roll.

ghost use Rattle.std.specs.Prelude.{◌≡◌, ◌<◌, ◌+◌, ◌^◌, ◌++◌, IfOk, OnOk, Some, length};
ghost use Rattle.config_graph.specs.GraphText.{graph_text};
ghost use Rattle.change_plan.specs.PlanText.{plan_text};
ghost use Rattle.change_plan.specs.PlanWithin.{IsPlanWithin};
ghost use Rattle.change_parts.specs.Parts.{ArePlansWithin};
ghost use Rattle.command_answers.specs.PartTexts.{end_line, part_line, parts_text};

use change_parts::Part;
use change_plan::plan_text;
use config_graph::{Graph, NoMemory, graph_text};
use itoa::Buffer;
use std::alloc::Global;

/// Of each part `part I` and the text of its plan.
pub fn parts_text(alloc: Global, old: &Graph, parts: &[Part]) -> Result<Vec<u8>, NoMemory>
    requires { ArePlansWithin old.now parts.now }
    ensures { IfOk result (λ text. text.items ≡ parts_text old.now parts.now) }
{
    let mut text = Vec::new(alloc);
    let mut stage = old;
    let mut number: u64 = 0;
    for part in parts {
        number += 1;
        push_part(alloc, &mut text, number, stage, part)?;
        stage = &part.next;
    }
    Ok(text)
}

/// Writes a part, made from this stage.
fn push_part(
    alloc: Global,
    text: &mut Vec<u8>,
    number: u64,
    stage: &Graph,
    part: &Part,
) -> Result<(), NoMemory>
    requires { IsPlanWithin stage.now part.now.next part.now.plan }
    ensures { OnOk result (text.new.items ≡ text.old.items ++ part_line number
        ++ plan_text stage.now part.now.next part.now.plan) }
{
    let mut digits = Buffer::new();
    text.extend_from_slice(b"part ")?;
    text.extend_from_slice(digits.format(number).as_bytes())?;
    text.extend_from_slice(b"\n")?;
    let steps = plan_text(alloc, stage, &part.next, &part.plan)?;
    text.extend_from_slice(steps.as_slice())
}

/// Writes behind the text of its parts how a roll ended, and the graph that it left: `done`, or `pending I` with the
/// number of the part that was given up.
pub fn push_roll_end(
    alloc: Global,
    text: &mut Vec<u8>,
    given_up: Option<u32>,
    left: &Graph,
) -> Result<(), NoMemory>
    ensures { OnOk result (text.new.items ≡ text.old.items ++ end_line given_up ++ graph_text left.now) }
{
    match given_up {
        None => text.extend_from_slice(b"done\n")?,
        Some(number) => push_pending(text, number)?,
    }
    let graph = graph_text(alloc, left)?;
    text.extend_from_slice(graph.as_slice())
}

/// Writes the line of the part that was given up.
fn push_pending(text: &mut Vec<u8>, number: u32) -> Result<(), NoMemory>
    ensures { OnOk result (text.new.items ≡ text.old.items ++ end_line (Some number)) }
{
    let mut digits = Buffer::new();
    text.extend_from_slice(b"pending ")?;
    text.extend_from_slice(digits.format(number).as_bytes())?;
    text.extend_from_slice(b"\n")
}
