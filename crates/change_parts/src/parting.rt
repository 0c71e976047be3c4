//! The parts of a change.

ghost use Rattle.std.specs.Prelude.{◌≡◌, ◌⊎◌, ◌<◌, ◌^◌, ℕ, List, All, IfErr, IfOk, OnOk, length};
ghost use Rattle.base.specs.Answers.{Answers};
ghost use Rattle.config_graph.specs.Graph.{IsGraph};
ghost use Rattle.config_graph.specs.Sound.{Sound};
ghost use Rattle.change_plan.specs.PlanWithin.{IsPlanWithin};
ghost use Rattle.change_plan.specs.Plans.{IsPlanOf};
ghost use Rattle.change_plan.specs.Refusals.{CanPlan, IsRefusal};
ghost use Rattle.change_plan.specs.Selects.{Selects};
ghost use Rattle.change_plan.specs.declared.error.PlanError.{PlanError};
ghost use Rattle.change_plan.specs.declared.error.PlanError.TheVariants.{NoMemory};
ghost use Rattle.change_plan.specs.declared.plan_data.Move.{Move};
ghost use Rattle.change_parts.specs.Parts.{ArePlansWithin, AreParts, stage_after};
ghost use Rattle.change_parts.specs.Groupings.{IsGrouping};
ghost use Rattle.change_parts.specs.Owning.{IsOwn, is_own, number_of};

use crate::Part;
use crate::groups::{Grouping, mark_applied};
use crate::staging::{is_marked, stage};
use change_plan::{Move, PlanError, plan};
use config_graph::{Graph, List, Made, NoMemory, has_cycle};
use std::alloc::Global;

/// The parts of the change from the old graph to the new one, with these moves, where so many nodes and ports were
/// made before. Each is made where all before it were made: it takes the fewest groups of nodes that have to change
/// together after which there is no cycle of dependent services. There is none where both graphs are the same. What
/// is refused is what `plan` refuses for the whole change.
///
/// Time grows with the groups, each with the nodes, ports and moves and the bytes of their paths; and with the ties
/// that make one class of two, of which there are fewer than nodes, each with the nodes.
pub fn parts(
    alloc: Global,
    old: &Graph,
    new: &Graph,
    moves: &[Move],
    made: Made,
) -> Result<List<Part>, PlanError>
    requires old { Sound old.now }
    requires new { Sound new.now }
    ensures parts { IfOk result (AreParts old.now new.now moves.now) }
    ensures within { IfOk result (ArePlansWithin old.now) }
    ensures graphs { IfOk result (λ ps. All (λ p. IsGraph p.next) ps) }
    ensures few { IfOk result (λ ps. length ps < 2 ^ 32) }
    ensures accepted { OnOk result (CanPlan old.now new.now moves.now made) }
    ensures accepts { CanPlan old.now new.now moves.now made → IfErr result (λ e. e ≡ NoMemory) }
    ensures refused { IfErr result
        (λ e. (e ≡ NoMemory) ⊎ IsRefusal old.now new.now moves.now made e) }
    ensures refuses { (e : PlanError) → IsRefusal old.now new.now moves.now made e
        → Answers NoMemory (λ _. ⊥) (λ refusal. refusal ≡ e) result }
{
    let whole = plan(alloc, old, new, moves, made)?;
    let grouping = Grouping::of(alloc, old, new, &whole)?;
    let parts = list_parts(alloc, old, new, moves, made, &grouping)?;
    Ok(List::of(parts))
}

/// The parts of a change whose groups are known, and for which there is a plan.
fn list_parts(
    alloc: Global,
    old: &Graph,
    new: &Graph,
    moves: &[Move],
    made: Made,
    grouping: &Grouping,
) -> Result<Vec<Part>, PlanError>
    requires old { Sound old.now }
    requires new { Sound new.now }
    requires can { CanPlan old.now new.now moves.now made }
    requires grouping { IsGrouping old.now new.now moves.now grouping.now }
    ensures parts { IfOk result (λ v. AreParts old.now new.now moves.now v.items) }
    ensures within { IfOk result (λ v. ArePlansWithin old.now v.items) }
    ensures graphs { IfOk result (λ v. All (λ p. IsGraph p.next) v.items) }
    ensures few { IfOk result (λ v. length v.items < 2 ^ 32) }
    ensures refused { IfErr result (λ e. e ≡ NoMemory) }
{
    let mut parts = Vec::new(alloc);
    let mut before = vec![in alloc; false; grouping.least.len()]?;
    for last in &grouping.firsts {
        let applied = mark_applied(alloc, &grouping.least, *last)?;
        let next = stage(alloc, old, new, &grouping.members, &applied)?;
        if !has_cycle(alloc, &next)? {
            let own = list_own(
                alloc,
                old,
                moves,
                &grouping.members.of_old,
                &before,
                &applied,
            )?;
            let part = part_to(alloc, last_stage(old, &parts), next, own, made)?;
            parts.push(part)?;
            before = applied;
        }
    }
    Ok(parts)
}

/// The graph after these parts.
fn last_stage<'a>(old: &'a Graph, parts: &'a [Part]) -> &'a Graph
    ensures { result.now ≡ stage_after old.now parts.now (length parts.now) }
{
    if parts.is_empty() {
        return old;
    }
    &parts[parts.len() - 1].next
}

/// The part between two graphs that has these moves.
fn part_to(
    alloc: Global,
    from: &Graph,
    next: Graph,
    own: Vec<Move>,
    made: Made,
) -> Result<Part, PlanError>
    requires { CanPlan from.now next own.items made }
    ensures next { IfOk result (λ p. p.next ≡ next) }
    ensures moves { IfOk result (λ p. p.moves ≡ own.items) }
    ensures plan { IfOk result (λ p. IsPlanOf from.now next own.items p.plan) }
    ensures within { IfOk result (λ p. IsPlanWithin from.now next p.plan) }
    ensures refused { IfErr result (λ e. e ≡ NoMemory) }
{
    let plan = plan(alloc, from, &next, &own, made)?;
    Ok(Part {
        next,
        plan,
        moves: List::of(own),
    })
}

/// Copies of the moves whose sources are marked and weren't before.
fn list_own(
    alloc: Global,
    old: &Graph,
    moves: &[Move],
    numbers: &[u32],
    before: &[bool],
    applied: &[bool],
) -> Result<Vec<Move>, NoMemory>
    ensures { IfOk result
        (λ v. Selects (IsOwn old.now numbers.now before.now applied.now) moves.now v.items) }
{
    let mut own = Vec::new(alloc);
    for moved in moves {
        if is_own(old, numbers, before, applied, moved) {
            own.push(copy_move(moved)?)?;
        }
    }
    Ok(own)
}

/// Whether the source of a move is marked and wasn't before.
fn is_own(old: &Graph, numbers: &[u32], before: &[bool], applied: &[bool], moved: &Move) -> bool
    ensures { result ≡ is_own old.now numbers.now before.now applied.now moved.now }
{
    match number_of(old, numbers, moved.from.as_bytes()) {
        Some(number) => is_marked(applied, number) && !is_marked(before, number),
        None => false,
    }
}

/// The number of the node with this path.
fn number_of(old: &Graph, numbers: &[u32], path: &[u8]) -> Option<u32>
    ensures { result ≡ number_of old.now numbers.now path.now }
{
    let place = old.index_of(path)?;
    numbers.get(place as usize).copied()
}

fn copy_move(moved: &Move) -> Result<Move, NoMemory>
    ensures { IfOk result (λ m. m ≡ moved.now) }
{
    let from = moved.from.try_clone()?;
    let to = moved.to.try_clone()?;
    Ok(Move { from, to })
}
