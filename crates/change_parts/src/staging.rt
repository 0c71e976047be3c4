//! The graphs between the parts of a change.

ghost use Rattle.std.specs.Prelude.{◌≡◌, ◌<◌, ◌^◌, ℕ, List, IfOk, filter_map, length, map, not, slice_index_or, false};
ghost use Rattle.config_graph.specs.Graph.{IsGraph};
ghost use Rattle.change_plan.specs.declared.plan_data.Move.{Move};
ghost use Rattle.change_parts.specs.Stages.{IsAfter};
ghost use Rattle.change_parts.specs.Members.{IsIndex};
ghost use Rattle.change_parts.specs.Staging.{AreLaid, IsApplied, link_in, links_in, stands};

use crate::members::Members;
use config_graph::{Graph, Link, NoMemory, Node};
use std::alloc::Global;

/// Nodes of a graph, and at which place of it each member stands that is one of them.
#[derive(Drop)]
struct Laid {
    nodes: Vec<Node>,
    places: Vec<u32>,
}

/// The graph after the groups whose members are marked.
pub(crate) fn stage(
    alloc: Global,
    old: &Graph,
    new: &Graph,
    members: &Members,
    applied: &[bool],
) -> Result<Graph, NoMemory>
    requires index { IsIndex old.now new.now members.now }
    requires few { length members.now.nodes.items < 2 ^ 31 }
    requires applied { (moves : List Move) × (firsts : List (List ℕ))
        × IsApplied old.now new.now moves firsts members.now.nodes.items applied.now }
    ensures graph { IfOk result (λ g. IsGraph g) }
    ensures after { IfOk result (λ g. (moves : List Move) (firsts : List (List ℕ))
        → IsApplied old.now new.now moves firsts members.now.nodes.items applied.now
        → IsAfter old.now new.now moves firsts old.now g) }
{
    let laid = lay(alloc, members, applied)?;
    let links = list_links(alloc, old, new, members, applied, &laid.places)?;
    Graph::build(alloc, laid.nodes, links)
}

/// Whether a member stands in the graph after the groups whose members are marked.
fn stands(members: &Members, applied: &[bool], number: u32) -> bool
    ensures { result ≡ stands members.now applied.now number }
{
    if is_marked(applied, number) {
        is_marked(&members.in_new, number)
    } else {
        is_marked(&members.in_old, number)
    }
}

/// Whether a number is marked.
pub(crate) fn is_marked(marks: &[bool], number: u32) -> bool
    ensures { result ≡ slice_index_or marks.now number false }
{
    marks.get(number as usize).copied().unwrap_or(false)
}

/// The members that stand there, in order.
fn lay(alloc: Global, members: &Members, applied: &[bool]) -> Result<Laid, NoMemory>
    requires few { length members.now.nodes.items < 2 ^ 31 }
    ensures laid { IfOk result
        (λ laid. AreLaid (stands members.now applied.now) members.now.nodes.items laid.nodes.items laid.places.items) }
    ensures all { IfOk result (λ laid. length laid.places.items ≡ length members.now.nodes.items) }
{
    let mut nodes = Vec::new(alloc);
    let mut places = Vec::with_capacity(alloc, members.nodes.len())?;
    for node in &members.nodes {
        let number = places.len() as u32;
        places.push(nodes.len() as u32)?;
        if stands(members, applied, number) {
            nodes.push(node.try_clone()?)?;
        }
    }
    Ok(Laid { nodes, places })
}

/// The links there: those of the new graph where their first nodes are marked, and else those of the old one.
fn list_links(
    alloc: Global,
    old: &Graph,
    new: &Graph,
    members: &Members,
    applied: &[bool],
    places: &[u32],
) -> Result<Vec<Link>, NoMemory>
    ensures { IfOk result (λ v. v.items ≡ links_in old.now new.now members.now applied.now places.now) }
{
    let left = mark_left(alloc, applied)?;
    let mut links = list_some(alloc, old.links(), &members.of_old, &left, places)?;
    links.extend_from_slice(&list_some(alloc, new.links(), &members.of_new, applied, places)?)?;
    Ok(links)
}

/// Marks for all that aren't marked.
fn mark_left(alloc: Global, marks: &[bool]) -> Result<Vec<bool>, NoMemory>
    ensures { IfOk result (λ v. v.items ≡ map not marks.now) }
{
    marks.iter().map(|mark| !*mark).collect(alloc)
}

/// Those links of a graph whose first nodes are marked, as links between places.
fn list_some(
    alloc: Global,
    links: &[Link],
    numbers: &[u32],
    marks: &[bool],
    places: &[u32],
) -> Result<Vec<Link>, NoMemory>
    ensures { IfOk result (λ v. v.items ≡ filter_map (link_in numbers.now marks.now places.now) links.now) }
{
    links
        .iter()
        .filter_map(|link| link_in(numbers, marks, places, link))
        .collect(alloc)
}

/// A link between places, where its first node is marked.
fn link_in(numbers: &[u32], marks: &[bool], places: &[u32], link: &Link) -> Option<Link>
    ensures { result ≡ link_in numbers.now marks.now places.now link.now }
{
    let first = *numbers.get(link.from as usize)?;
    let second = *numbers.get(link.to as usize)?;
    let is_marked = *marks.get(first as usize)?;
    let from = *places.get(first as usize)?;
    let to = *places.get(second as usize)?;
    if !is_marked {
        return None;
    }
    Some(Link {
        from,
        require: link.require,
        to,
        provide: link.provide,
    })
}
