//! Moves: by which nodes the states of removed nodes go to created ones.

ghost use Rattle.std.specs.Prelude.{◌≡◌, ◌<◌, ◌^◌, ◌⊎◌, ◌↔◌, [], ◌∷◌, ◌++◌, List, None, Some, length, map, Contains, IfErr, IfNone, IfOk, IfSome, OnOk};
ghost use Rattle.std.specs.List.{slice_index_or};
ghost use Rattle.std.specs.List.Sorted.{IsStrictlyIncreasing};
ghost use Rattle.config_graph.specs.Graph.{IsGraph};
ghost use Rattle.change_plan.specs.declared.error.PlanError.TheVariants.{NoMemory};
ghost use Rattle.change_plan.specs.declared.plan_data.Move.{Move};
ghost use Rattle.change_plan.specs.declared.plan_data.Shift.{Shift};
ghost use Rattle.change_plan.specs.Moves.{IsFit, IsGoneAt, IsPathGone, IsShifts, MoveLeads, MayMove, MayMoveAll};
ghost use Rattle.change_plan.specs.MoveEnds.{MarksEnds};
ghost use Rattle.change_plan.specs.Refusals.{FirstMoveFault, MoveFault};

use crate::differences::twin_of;
use crate::{Move, PlanError, Shift};
use config_graph::{Graph, NoMemory};
use std::alloc::Global;

/// The ends of moves, marked: for each node of the old graph whether its state goes on, and for each of the new one
/// from which node its state comes.
#[derive(Drop)]
struct Ends {
    sources: Vec<bool>,
    targets: Vec<Option<u32>>,
}

/// The moves by indexes, in the order of the nodes that are created.
pub(crate) fn list_shifts(
    alloc: Global,
    old: &Graph,
    new: &Graph,
    moves: &[Move],
) -> Result<Vec<Shift>, PlanError>
    ensures old { IsGraph old.now }
    ensures new { IsGraph new.now }
    ensures shifts { IfOk result (λ shifts. IsShifts old.now new.now moves.now shifts.items) }
    ensures may_move { IfOk result (λ _. MayMoveAll old.now new.now moves.now (length moves.now)) }
    ensures refused { IfErr result (λ e. (e ≡ NoMemory) ⊎ FirstMoveFault old.now new.now moves.now e) }
{
    let mut ends = mark_none(alloc, old, new)?;
    for moved in moves {
        mark_move(old, new, moved, &mut ends)?;
    }
    Ok(list_by_target(alloc, &ends.targets)?)
}

/// No ends are marked.
fn mark_none(alloc: Global, old: &Graph, new: &Graph) -> Result<Ends, NoMemory>
    ensures marked { IfOk result (λ ends. MarksEnds old.now new.now [] ends.sources.items ends.targets.items) }
    ensures old { IsGraph old.now }
    ensures new { IsGraph new.now }
{
    let old_count = old.node_count() as usize;
    let new_count = new.node_count() as usize;
    Ok(Ends {
        sources: vec![in alloc; false; old_count]?,
        targets: vec![in alloc; None; new_count]?,
    })
}

/// Marks the ends of a move, unless an earlier one has its source or its target.
fn mark_move(old: &Graph, new: &Graph, moved: &Move, ends: &mut Ends) -> Result<(), PlanError>
    requires sources { length ends.old.sources.items ≡ length old.now.nodes }
    requires targets { length ends.old.targets.items ≡ length new.now.nodes }
    ensures marked { (before : List Move)
        → MarksEnds old.now new.now before ends.old.sources.items ends.old.targets.items
        → OnOk result
        (MarksEnds old.now new.now (before ++ moved.now ∷ []) ends.new.sources.items ends.new.targets.items) }
    ensures may_move { (before : List Move)
        → MarksEnds old.now new.now before ends.old.sources.items ends.old.targets.items
        → OnOk result (MayMove old.now new.now before moved.now) }
    ensures refused { (before : List Move)
        → MarksEnds old.now new.now before ends.old.sources.items ends.old.targets.items
        → IfErr result (λ e. (e ≡ NoMemory) ⊎ MoveFault old.now new.now before moved.now e) }
{
    let shift = shift_of(old, new, moved)?;
    if ends.sources[shift.old as usize] {
        return Err(PlanError::MovedTwice(moved.from.try_clone()?));
    }
    if ends.targets[shift.new as usize].is_some() {
        return Err(PlanError::MovedTwice(moved.to.try_clone()?));
    }
    ends.sources[shift.old as usize] = true;
    ends.targets[shift.new as usize] = Some(shift.old);
    Ok(())
}

/// A move by indexes.
fn shift_of(old: &Graph, new: &Graph, moved: &Move) -> Result<Shift, PlanError>
    ensures leads { IfOk result (λ s. MoveLeads old.now new.now moved.now s.old s.new) }
    ensures old_within { IfOk result (λ s. s.old < length old.now.nodes) }
    ensures new_within { IfOk result (λ s. s.new < length new.now.nodes) }
    ensures fit { OnOk result (IsFit old.now new.now moved.now) }
    ensures old { OnOk result (IsGraph old.now) }
    ensures new { OnOk result (IsGraph new.now) }
    ensures refused { (before : List Move)
        → IfErr result (λ e. (e ≡ NoMemory) ⊎ MoveFault old.now new.now before moved.now e) }
{
    let Some(source) = gone_at(old, new, moved.from.as_bytes()) else {
        return Err(PlanError::NotRemoved(moved.from.try_clone()?));
    };
    let Some(target) = gone_at(new, old, moved.to.as_bytes()) else {
        return Err(PlanError::NotCreated(moved.to.try_clone()?));
    };
    let is_same_kind = old.node(source).kind == new.node(target).kind;
    if !is_same_kind {
        let from = moved.from.try_clone()?;
        return Err(PlanError::KindsDiffer(from, moved.to.try_clone()?));
    }
    Ok(Shift {
        old: source,
        new: target,
    })
}

/// The node of a graph that has this path, if another graph hasn't that node.
fn gone_at(graph: &Graph, other: &Graph, path: &[u8]) -> Option<u32>
    ensures graph { IsGraph graph.now }
    ensures found { IfSome result (λ i. IsGoneAt graph.now other.now path.now i) }
    ensures within { IfSome result (λ i. i < length graph.now.nodes) }
    ensures missing { IfNone result (¬ IsPathGone graph.now other.now path.now) }
{
    let nodes = graph.nodes();
    let index = graph.index_of(path)?;
    let node = &nodes[index as usize];
    match twin_of(other, node) {
        None => Some(index),
        Some(_) => None,
    }
}

/// The moves that were marked, in the order of their targets.
fn list_by_target(alloc: Global, targets: &[Option<u32>]) -> Result<Vec<Shift>, NoMemory>
    requires { length targets.now < 2 ^ 32 }
    ensures shifts { IfOk result
        (λ shifts. (s : Shift) → Contains shifts.items s ↔ (slice_index_or targets.now s.new None ≡ Some s.old)) }
    ensures rising { IfOk result (λ shifts. IsStrictlyIncreasing (map (λ (s : Shift). s.new) shifts.items)) }
{
    let mut shifts = Vec::new(alloc);
    for (new, source) in targets.iter().enumerate() {
        if let Some(old) = source {
            shifts.push(Shift {
                old: *old,
                new: new as u32,
            })?;
        }
    }
    Ok(shifts)
}
