//! Rows of `direct` and `enlarged`: the passive sets of nodes of a line.

ghost use Rattle.std.specs.Prelude.{◌<◌, ◌↔◌, All, IsTrue, length};

use crate::systems::{LINE, graph_after};
use config_graph::{Graph, NoMemory};
use passive_set::{direct, enlarged};
use std::alloc::Global;
use std::process::Abort;
use std::test::Fail;

/// Nodes of a line of three that are changed, which are passive then, and which are with what reaches those.
type Passive = (&'static [u32], &'static [u32], &'static [u32]);

static PASSIVE: [Passive; 4] = [
    (&[2], &[0, 2], &[0, 1, 2]),
    (&[], &[], &[]),
    (&[2, 0], &[0, 1, 2], &[0, 1, 2]),
    (&[2, 2], &[0, 2], &[0, 1, 2]),
];

/// Whether all of these are below the count.
fn are_below(nodes: &[u32], count: u32) -> bool
    ensures { IsTrue result ↔ All (λ n. n < count) nodes.now }
{
    nodes.iter().all(|node| *node < count)
}

/// Whether these nodes alone are passive where the nodes are changed.
fn is_direct(alloc: Global, graph: &Graph, nodes: &[u32], wanted: &[u32]) -> Result<bool, NoMemory>
    requires { All (λ n. n < length graph.now.nodes) nodes.now }
{
    let near = direct(alloc, graph, nodes)?;
    Ok(near.as_slice() == wanted)
}

/// The same with what reaches them.
fn is_enlarged(
    alloc: Global,
    graph: &Graph,
    nodes: &[u32],
    wanted: &[u32],
) -> Result<bool, NoMemory>
    requires { All (λ n. n < length graph.now.nodes) nodes.now }
{
    let all = enlarged(alloc, graph, nodes)?;
    Ok(all.as_slice() == wanted)
}

fn assert_passive(
    rt: &impl Abort,
    alloc: Global,
    graph: &Graph,
    (nodes, near, all): &Passive,
) -> Result<(), NoMemory> {
    let are_nodes = are_below(nodes, graph.node_count());
    assert!(rt; are_nodes);
    assert!(rt; is_direct(alloc, graph, nodes, near)?, "{}", nodes.len());
    assert!(rt; is_enlarged(alloc, graph, nodes, all)?, "{}", nodes.len());
    Ok(())
}

#[test]
fn passive_sets_of_a_line(rt: HostRuntime) -> Result<(), Fail> {
    let graph = graph_after(&rt, rt.alloc(), &[LINE])?;
    assert!(rt; graph.node_count() == 3);
    for row in &PASSIVE {
        assert_passive(&rt, rt.alloc(), &graph, row)?;
    }
    Ok(())
}
