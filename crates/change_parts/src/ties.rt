//! Which nodes have to change together, as pairs of their numbers.

ghost use Rattle.std.specs.Prelude.{◌≡◌, IfOk, filter_map, slice_get};
ghost use Rattle.change_parts.specs.Listed.{begin_number, changed_numbers, link_tie, move_tie, owner_number, path_tie, ties_of};

use crate::members::Members;
use change_plan::{OldPort, Plan, Shift};
use config_graph::{Graph, Link, NoMemory};
use std::alloc::Global;

/// The pairs of nodes that are tied by a change from one graph to another, which has this plan.
pub(crate) fn list_ties(
    alloc: Global,
    old: &Graph,
    new: &Graph,
    plan: &Plan,
    members: &Members,
) -> Result<Vec<(u32, u32)>, NoMemory>
    ensures { IfOk result (λ ties. ties.items ≡ ties_of old.now new.now plan.now members.now) }
{
    let mut ties = list_path_ties(alloc, old, new, plan.remove.items(), members)?;
    ties.extend_from_slice(&list_move_ties(alloc, plan.moves.items(), members)?)?;
    ties.extend_from_slice(&list_link_ties(alloc, old.links(), &members.of_old, &members.in_new)?)?;
    ties.extend_from_slice(&list_link_ties(alloc, new.links(), &members.of_new, &members.in_old)?)?;
    Ok(ties)
}

/// The removed node at this place with the created node that has its path.
fn path_tie(old: &Graph, new: &Graph, members: &Members, place: u32) -> Option<(u32, u32)>
    ensures { result ≡ path_tie old.now new.now members.now place }
{
    let node = old.nodes().get(place as usize)?;
    let other = new.index_of(node.path.as_bytes())?;
    let first = *members.of_old.get(place as usize)?;
    let second = *members.of_new.get(other as usize)?;
    Some((first, second))
}

fn list_path_ties(
    alloc: Global,
    old: &Graph,
    new: &Graph,
    removed: &[u32],
    members: &Members,
) -> Result<Vec<(u32, u32)>, NoMemory>
    ensures { IfOk result (λ ties. ties.items ≡ filter_map (path_tie old.now new.now members.now) removed.now) }
{
    removed
        .iter()
        .filter_map(|place| path_tie(old, new, members, *place))
        .collect(alloc)
}

/// The ends of a move.
fn move_tie(members: &Members, shift: &Shift) -> Option<(u32, u32)>
    ensures { result ≡ move_tie members.now shift.now }
{
    let first = *members.of_old.get(shift.old as usize)?;
    let second = *members.of_new.get(shift.new as usize)?;
    Some((first, second))
}

fn list_move_ties(
    alloc: Global,
    moves: &[Shift],
    members: &Members,
) -> Result<Vec<(u32, u32)>, NoMemory>
    ensures { IfOk result (λ ties. ties.items ≡ filter_map (move_tie members.now) moves.now) }
{
    moves
        .iter()
        .filter_map(|shift| move_tie(members, shift))
        .collect(alloc)
}

/// The ends of a link, where the node at which it ends isn't marked.
fn link_tie(numbers: &[u32], marks: &[bool], link: &Link) -> Option<(u32, u32)>
    ensures { result ≡ link_tie numbers.now marks.now link.now }
{
    let from = *numbers.get(link.from as usize)?;
    let to = *numbers.get(link.to as usize)?;
    let is_marked = *marks.get(to as usize)?;
    if is_marked { None } else { Some((from, to)) }
}

fn list_link_ties(
    alloc: Global,
    links: &[Link],
    numbers: &[u32],
    marks: &[bool],
) -> Result<Vec<(u32, u32)>, NoMemory>
    ensures { IfOk result (λ ties. ties.items ≡ filter_map (link_tie numbers.now marks.now) links.now) }
{
    links
        .iter()
        .filter_map(|link| link_tie(numbers, marks, link))
        .collect(alloc)
}

/// The numbers of the changed nodes: those that a plan removes, unlinks, creates or links.
pub(crate) fn list_changed(
    alloc: Global,
    plan: &Plan,
    members: &Members,
) -> Result<Vec<u32>, NoMemory>
    ensures { IfOk result (λ numbers. numbers.items ≡ changed_numbers plan.now members.now) }
{
    let mut numbers = list_numbers(alloc, plan.remove.items(), &members.of_old)?;
    numbers.extend_from_slice(&list_owners(alloc, plan.unlink.items(), &members.of_old)?)?;
    numbers.extend_from_slice(&list_numbers(alloc, plan.create.items(), &members.of_new)?)?;
    numbers.extend_from_slice(&list_linked(alloc, plan.link.items(), &members.of_new)?)?;
    Ok(numbers)
}

fn number_at(numbers: &[u32], place: u32) -> Option<u32>
    ensures { result ≡ slice_get numbers.now place }
{
    numbers.get(place as usize).copied()
}

fn list_numbers(alloc: Global, places: &[u32], numbers: &[u32]) -> Result<Vec<u32>, NoMemory>
    ensures { IfOk result (λ v. v.items ≡ filter_map (slice_get numbers.now) places.now) }
{
    places
        .iter()
        .filter_map(|place| number_at(numbers, *place))
        .collect(alloc)
}

fn list_owners(alloc: Global, ports: &[OldPort], numbers: &[u32]) -> Result<Vec<u32>, NoMemory>
    ensures { IfOk result (λ v. v.items ≡ filter_map (owner_number numbers.now) ports.now) }
{
    ports
        .iter()
        .filter_map(|port| number_at(numbers, port.node))
        .collect(alloc)
}

fn list_linked(alloc: Global, links: &[Link], numbers: &[u32]) -> Result<Vec<u32>, NoMemory>
    ensures { IfOk result (λ v. v.items ≡ filter_map (begin_number numbers.now) links.now) }
{
    links
        .iter()
        .filter_map(|link| number_at(numbers, link.from))
        .collect(alloc)
}
