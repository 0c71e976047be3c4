//! Elaboration of a description.

ghost use Rattle.std.specs.Prelude.{◌≡◌, IfErr, IfOk, Some};
ghost use Rattle.base.specs.Answers.{Answers, Refuses};
ghost use Rattle.config_graph.specs.Graph.{Graph as GraphValue};
ghost use Rattle.config_graph.specs.Sound.{Sound};
ghost use Rattle.darwin_parser.specs.Tree.{tree_of};
ghost use Rattle.darwin_types.specs.Checked.{description};
ghost use Rattle.elaborator.specs.Instances.{top_instance};
ghost use Rattle.elaborator.specs.Expansion.{instance_in};
ghost use Rattle.elaborator.specs.ExpansionFaults.{IsTop};
ghost use Rattle.elaborator.specs.Faults.{Faults};
ghost use Rattle.darwin_types.specs.Faults.{carried};
ghost use Rattle.elaborator.specs.Elaboration.{HasNoFault, ElaboratesTo, IsAnswerOf};
ghost use Rattle.elaborator.specs.declared.error.ElabError.TheVariants.{NoMemory};

use crate::ElabError;
use crate::building::build_graph;
use crate::directory::Directory;
use crate::growing::expand;
use crate::instance::Instance;
use config_graph::{Graph, Text};
use darwin_types::Checked;
use darwin_walk::parameters_of;
use std::alloc::Global;

/// The graph of a description: its nodes are the instances of primitive components below an instance of
/// the component `top`, whose parameters have the values `args`, and links are where bindings lead from a
/// requirement of a node to a provision of one. The paths, parameters and ports of all instances are held
/// until the graph is made, so memory grows with them.
///
/// # Errors
///
/// Each of `ElabError` comes where its fault holds. Where several hold any one may be named.
pub fn elaborate(
    alloc: Global,
    checked: &Checked,
    top: &[u8],
    args: &[i32],
) -> Result<Graph, ElabError>
    // What is given is the graph of this description, in which no fault holds, and each such graph is given.
    ensures no_fault { IfOk result (λ _. HasNoFault (description checked.now) top.now args.now) }
    ensures graph { IfOk result (λ g. ElaboratesTo (description checked.now) top.now args.now g) }
    ensures every_graph { (g : GraphValue) → HasNoFault (description checked.now) top.now args.now
        → ElaboratesTo (description checked.now) top.now args.now g → IsAnswerOf result g }
    // It may be run.
    ensures sound { IfOk result (λ g. Sound g) }
    // A fault that is named holds.
    ensures fault { IfErr result (Refuses NoMemory (Faults (description checked.now) top.now args.now)) }
{
    graph_or_fault(alloc, checked, top, args)
}

/// The graph, or a fault that holds.
fn graph_or_fault(
    alloc: Global,
    checked: &Checked,
    top: &[u8],
    args: &[i32],
) -> Result<Graph, ElabError>
    ensures no_fault { IfOk result (λ _. HasNoFault (description checked.now) top.now args.now) }
    ensures graph { IfOk result (λ g. ElaboratesTo (description checked.now) top.now args.now g) }
    ensures sound { IfOk result (λ g. Sound g) }
    ensures fault { IfErr result (Refuses NoMemory (Faults (description checked.now) top.now args.now)) }
{
    let directory = Directory::of(checked);
    let instance = top_of(alloc, &directory, top, args)?;
    let mut expansion = expand(alloc, directory, instance)?;
    build_graph(alloc, &mut expansion)
}

/// The instance at the top.
fn top_of<'a>(
    alloc: Global,
    directory: &Directory<'a>,
    name: &[u8],
    args: &[i32],
) -> Result<Instance<'a>, ElabError>
    ensures { Answers NoMemory (λ i. IsTop (tree_of directory.now.unit.now) i
        × (top_instance (tree_of directory.now.unit.now) name.now args.now ≡ Some (instance_in i)))
        (Faults (tree_of directory.now.unit.now) name.now args.now) result }
{
    let Some(entry) = directory.find(name) else {
        return Err(ElabError::NoTop(Text::from_bytes(alloc, name)?));
    };
    if entry.is_primitive {
        return Err(ElabError::TopIsKind(Text::from_bytes(alloc, name)?));
    }
    let component = entry.component;
    if component.params.len() != args.len() {
        return Err(ElabError::TopArgs {
            wanted: carried(component.params.len()),
            given: carried(args.len()),
        });
    }
    Ok(Instance {
        path: Text::from_bytes(alloc, b"")?,
        depth: 0,
        maker: None,
        component,
        is_primitive: false,
        env: parameters_of(alloc, component, args)?,
        bindings: Vec::new(alloc),
        port_sizes: Vec::new(alloc),
    })
}

/// A number as an error carries it.
fn carried(number: usize) -> u32
    ensures { result ≡ carried number }
{
    u32::try_from(number).unwrap_or(u32::MAX)
}
