//! Marks: one for each node, to note the members of a set.

ghost use Rattle.std.specs.Prelude.{◌≡◌, ◌<◌, ◌^◌, ◌↔◌, ℕ, length, All, Contains, IfOk};
ghost use Rattle.std.specs.List.Sorted.{IsStrictlyIncreasing};
ghost use Rattle.config_graph.specs.Marks.{IsMarked};

use config_graph::NoMemory;
use std::alloc::Global;

/// So many marks, of which those of these nodes are set.
pub(crate) fn mark_nodes(alloc: Global, count: u32, nodes: &[u32]) -> Result<Vec<bool>, NoMemory>
    requires { All (λ n. n < count) nodes.now }
    ensures length { IfOk result (λ marks. length marks.items ≡ count) }
    ensures marked { IfOk result (λ marks. (i : ℕ) → IsMarked marks.items i ↔ Contains nodes.now i) }
{
    let mut marks = vec![in alloc; false; count as usize]?;
    for node in nodes {
        marks[*node as usize] = true;
    }
    Ok(marks)
}

/// The nodes whose marks are set, in rising order.
pub(crate) fn list_marked(alloc: Global, marks: &[bool]) -> Result<Vec<u32>, NoMemory>
    requires { length marks.now < 2 ^ 32 }
    ensures marked { IfOk result (λ nodes. (i : ℕ) → Contains nodes.items i ↔ IsMarked marks.now i) }
    ensures rising { IfOk result (λ nodes. IsStrictlyIncreasing nodes.items) }
{
    let mut nodes = Vec::new(alloc);
    for (node, is_marked) in marks.iter().enumerate() {
        if *is_marked {
            nodes.push(node as u32)?;
        }
    }
    Ok(nodes)
}
