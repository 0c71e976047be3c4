//! From the instances of an elaboration to its graph.

ghost use Rattle.std.specs.Prelude.{◌≡◌, IfOk};
ghost use Rattle.base.specs.Answers.{Answers};
ghost use Rattle.config_graph.specs.Cycles.{graph_wiring};
ghost use Rattle.config_graph.specs.Wiring.{HasNoCycle};
ghost use Rattle.elaborator.specs.Instances.{Instance};
ghost use Rattle.elaborator.specs.Graph.{IsElab};
ghost use Rattle.elaborator.specs.Numbering.{IsOf};
ghost use Rattle.elaborator.specs.Expansion.{expanded_of, IsNumbering};
ghost use Rattle.elaborator.specs.PortIndex.{IsIndexed};
ghost use Rattle.elaborator.specs.Built.{CycleFault, BuildFault, IsBuilt};
ghost use Rattle.elaborator.specs.declared.error.ElabError.TheVariants.{NoMemory};

use crate::ElabError;
use crate::chains::Targets;
use crate::instance::Expansion;
use crate::links::links_of;
use crate::nodes::{nodes_of, take_nodes};
use crate::pairs::index_bindings;
use config_graph::{Graph, first_on_cycle};
use std::alloc::{AllocError, Global};

/// The graph of an expansion, of which the nodes take their paths.
pub fn build_graph(alloc: Global, expansion: &mut Expansion) -> Result<Graph, ElabError>
    requires kept { IsNumbering expansion.old }
    requires of_top { (top : Instance) × IsOf (expanded_of expansion.old) top }
    ensures { (top : Instance) → IsOf (expanded_of expansion.old) top
        → Answers NoMemory (IsBuilt (expanded_of expansion.old) top) (BuildFault (expanded_of expansion.old) top)
        result }
{
    let targets = index_bindings(alloc, expansion)?;
    let graph = join(alloc, expansion, &targets)?;
    without_cycle(alloc, graph)
}

/// The nodes of an expansion, linked by its bindings.
fn join(alloc: Global, expansion: &mut Expansion, targets: &Targets) -> Result<Graph, AllocError>
    requires kept { IsNumbering expansion.old }
    requires of_top { (top : Instance) × IsOf (expanded_of expansion.old) top }
    requires indexed { IsIndexed (expanded_of expansion.old) targets.now }
    ensures { (top : Instance) → IsOf (expanded_of expansion.old) top
        → IfOk result (IsElab (expanded_of expansion.old).tree top) }
{
    let nodes = nodes_of(alloc, expansion)?;
    let links = links_of(alloc, expansion, &nodes, targets)?;
    let taken = take_nodes(alloc, expansion, &nodes)?;
    let graph = Graph::build(alloc, taken, links)?;
    Ok(graph)
}

/// The graph, where no node depends on itself.
fn without_cycle(alloc: Global, graph: Graph) -> Result<Graph, ElabError>
    ensures { Answers NoMemory (λ g. (g ≡ graph) × HasNoCycle (graph_wiring g)) (CycleFault graph) result }
{
    check_cycle(alloc, &graph)?;
    Ok(graph)
}

/// Refuses a graph in which a node depends on itself; the first of them is named.
fn check_cycle(alloc: Global, graph: &Graph) -> Result<(), ElabError>
    ensures { Answers NoMemory (λ _. HasNoCycle (graph_wiring graph.now)) (CycleFault graph.now) result }
{
    match first_on_cycle(alloc, graph)? {
        None => Ok(()),
        Some(node) => Err(ElabError::DependsCycle(graph.node(node).path.try_clone()?)),
    }
}
