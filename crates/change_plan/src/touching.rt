//! Which nodes of the old graph a change touches.

ghost use Rattle.std.specs.Prelude.{◌<◌, ◌↔◌, IfOk, IsTrue, Some, length};
ghost use Rattle.std.specs.List.{range_with_len};
ghost use Rattle.config_graph.specs.Graph.{IsGraph, requires_at, target_of};
ghost use Rattle.change_plan.specs.Differences.{IsTwin};
ghost use Rattle.change_plan.specs.Selects.{Selects};
ghost use Rattle.change_plan.specs.Touched.{HasNewTarget, IsTouched, SameTarget};

use crate::differences::twin_of;
use config_graph::{Graph, NoMemory};
use std::alloc::Global;

/// Whether a port of a node and the port of the same node in another graph have the same target.
pub(crate) fn has_same_target(
    graph: &Graph,
    other: &Graph,
    node: u32,
    twin: u32,
    require: u32,
) -> bool
    requires port { require < requires_at graph.now.nodes node }
    requires twin { require < requires_at other.now.nodes twin }
    ensures { IsTrue result ↔ SameTarget graph.now other.now
        (target_of graph.now.links node require) (target_of other.now.links twin require) }
{
    match (graph.target(node, require), other.target(twin, require)) {
        (None, None) => true,
        (Some(here), Some(there)) => {
            here.provide == there.provide && graph.node(here.node) == other.node(there.node)
        }
        _ => false,
    }
}

/// Whether a node that stays has a port whose target differs.
fn has_new_target(old: &Graph, new: &Graph, node: u32, twin: u32) -> bool
    requires graph { IsGraph new.now }
    requires twin { IsTwin old.now new.now node twin }
    ensures { IsTrue result ↔ HasNewTarget old.now new.now node }
{
    for require in 0..old.node(node).kind.requires_() {
        if !has_same_target(old, new, node, twin, require) {
            return true;
        }
    }
    false
}

/// Whether a node of the old graph is removed, or stays and has a port whose target differs.
fn is_touched(old: &Graph, new: &Graph, node: u32) -> bool
    requires { node < length old.now.nodes }
    ensures { IsTrue result ↔ IsTouched old.now new.now node }
{
    match twin_of(new, old.node(node)) {
        None => true,
        Some(twin) => has_new_target(old, new, node, twin),
    }
}

/// The nodes of the old graph that are touched, in order.
pub(crate) fn list_touched(alloc: Global, old: &Graph, new: &Graph) -> Result<Vec<u32>, NoMemory>
    ensures { IfOk result
        (λ nodes. Selects (IsTouched old.now new.now) (range_with_len 0 (length old.now.nodes)) nodes.items) }
{
    let mut touched = Vec::new(alloc);
    for node in 0..old.node_count() {
        if is_touched(old, new, node) {
            touched.push(node)?;
        }
    }
    Ok(touched)
}
