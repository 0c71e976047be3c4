//! The text of a replay.

ghost use Rattle.std.specs.Prelude.{◌≡◌, ◌<◌, ◌++◌, ◌∷◌, [], ℕ, List, All, length, flat_map, decimal, codes, IfOk, OnOk};
ghost use Rattle.quiesce_core.specs.State as state;
ghost use Rattle.quiesce_replay.specs.Replay.{AreSettled};
ghost use Rattle.quiesce_replay.specs.ReplayText as text_of;

use crate::settling::list_settled;
use config_graph::NoMemory;
use itoa::Buffer;
use quiesce_core::{Core, OpenTxn, Stage};
use std::alloc::Global;

/// The text of a replay of so many events, all of which happened.
pub fn replay_text(alloc: Global, core: &Core, count: usize) -> Result<Vec<u8>, NoMemory>
    ensures { IfOk result (λ text. text_of.IsReplayText count core.now.state text.items) }
{
    let open = core.open_txns()?;
    let settled = list_settled(alloc, core)?;
    let mut text = Vec::new(alloc);
    push_count(&mut text, count)?;
    push_opens(&mut text, open.as_slice())?;
    push_rest(&mut text, core.rest())?;
    push_settled(&mut text, core, settled.as_slice())?;
    Ok(text)
}

/// `events N`
fn push_count(text: &mut Vec<u8>, count: usize) -> Result<(), NoMemory>
    ensures { OnOk result (text.new.items ≡ text.old.items ++ text_of.count_line count) }
{
    let mut digits = Buffer::new();
    text.extend_from_slice(b"events ")?;
    text.extend_from_slice(digits.format(count).as_bytes())?;
    text.extend_from_slice(b"\n")
}

/// `rest R`
fn push_rest(text: &mut Vec<u8>, rest: u128) -> Result<(), NoMemory>
    ensures { OnOk result (text.new.items ≡ text.old.items ++ text_of.rest_line rest) }
{
    let mut digits = Buffer::new();
    text.extend_from_slice(b"rest ")?;
    text.extend_from_slice(digits.format(rest).as_bytes())?;
    text.extend_from_slice(b"\n")
}

/// A line for each open transaction.
fn push_opens(text: &mut Vec<u8>, transactions: &[OpenTxn]) -> Result<(), NoMemory>
    ensures { OnOk result (text.new.items ≡ text.old.items ++ flat_map text_of.open_line transactions.now) }
{
    for transaction in transactions {
        push_open(text, transaction)?;
    }
    Ok(())
}

/// `open PORT SERIAL root|call waiting|taken|answered`
fn push_open(text: &mut Vec<u8>, transaction: &OpenTxn) -> Result<(), NoMemory>
    ensures { OnOk result (text.new.items ≡ text.old.items ++ text_of.open_line transaction.now) }
{
    let mut port = Buffer::new();
    let mut serial = Buffer::new();
    text.extend_from_slice(b"open ")?;
    text.extend_from_slice(port.format(transaction.port).as_bytes())?;
    text.extend_from_slice(b" ")?;
    text.extend_from_slice(serial.format(transaction.serial).as_bytes())?;
    text.extend_from_slice(origin(transaction.root))?;
    text.extend_from_slice(stage(transaction.stage))?;
    text.extend_from_slice(b"\n")
}

/// Whether a transaction was begun or called.
fn origin(root: bool) -> &'static [u8]
    ensures { result.now ≡ text_of.origin root }
{
    if root { b" root" } else { b" call" }
}

/// How far it has come.
fn stage(stage: Stage) -> &'static [u8]
    ensures { result.now ≡ text_of.stage stage }
{
    match stage {
        Stage::Waiting => b" waiting",
        Stage::Taken => b" taken",
        Stage::Answered => b" answered",
    }
}

/// A line for each of these nodes.
fn push_settled(text: &mut Vec<u8>, core: &Core, nodes: &[u32]) -> Result<(), NoMemory>
    requires { All (λ n. n < length core.now.state.config.slots) nodes.now }
    ensures { OnOk result
        (text.new.items ≡ text.old.items ++ flat_map (text_of.settled_line core.now.state) nodes.now) }
{
    for slot in nodes {
        push_node(text, core, *slot)?;
    }
    Ok(())
}

/// `settled PATH`
fn push_node(text: &mut Vec<u8>, core: &Core, slot: u32) -> Result<(), NoMemory>
    requires { slot < length core.now.state.config.slots }
    ensures { OnOk result (text.new.items ≡ text.old.items ++ text_of.settled_line core.now.state slot) }
{
    text.extend_from_slice(b"settled ")?;
    text.extend_from_slice(core.node(slot).path.as_bytes())?;
    text.extend_from_slice(b"\n")
}
