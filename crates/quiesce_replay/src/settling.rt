//! The nodes that are settled.

ghost use Rattle.std.specs.Prelude.{◌↔◌, IfOk, IsTrue};
ghost use Rattle.quiesce_core.specs.Settled.{Settled};
ghost use Rattle.quiesce_replay.specs.Replay.{AreSettled};

use config_graph::NoMemory;
use quiesce_core::Core;
use std::alloc::Global;

/// The slots of the live nodes that are settled, in order.
pub fn list_settled(alloc: Global, core: &Core) -> Result<Vec<u32>, NoMemory>
    ensures { IfOk result (λ nodes. AreSettled core.now.state nodes.items) }
{
    let mut nodes = Vec::new(alloc);
    for slot in 0..core.made().nodes {
        if is_settled(core, slot) {
            nodes.push(slot)?;
        }
    }
    Ok(nodes)
}

/// Whether a live node is in this slot, and settled.
fn is_settled(core: &Core, slot: u32) -> bool
    ensures { IsTrue result ↔ Settled core.now.state slot }
{
    core.is_live(slot) && core.settled(slot)
}
