//! Copies of logs.

ghost use Rattle.std.specs.Prelude.{◌≡◌, IfOk};

use config_graph::NoMemory;
use quiesce_core::NodeEvent;
use std::alloc::Global;

/// The same events again.
pub fn copy_log(alloc: Global, log: &[NodeEvent]) -> Result<Vec<NodeEvent>, NoMemory>
    ensures { IfOk result (λ copy. copy.items ≡ log.now) }
{
    let mut copy = Vec::with_capacity(alloc, log.len())?;
    for event in log {
        copy.push(*event)?;
    }
    Ok(copy)
}
