//! The plan from one graph to another.

ghost use Rattle.std.specs.Prelude.{◌≡◌, ◌⊎◌, IfErr, IfOk, OnOk};
ghost use Rattle.base.specs.Answers.{Answers};
ghost use Rattle.change_plan.specs.PlanWithin.{IsPlanWithin};
ghost use Rattle.change_plan.specs.Plans.{IsPlanOf};
ghost use Rattle.change_plan.specs.Refusals.{CanPlan, IsRefusal};
ghost use Rattle.change_plan.specs.declared.error.PlanError.{PlanError};
ghost use Rattle.change_plan.specs.declared.error.PlanError.TheVariants.{NoMemory};

use crate::differences::{list_gone, list_gone_links, list_gone_ports};
use crate::moving::list_shifts;
use crate::room::require_room_to_create;
use crate::touching::list_touched;
use crate::{Move, Plan, PlanError};
use config_graph::{Graph, List, Made};
use passive_set::enlarged;
use std::alloc::Global;

/// The plan from the old graph to the new one, with these moves, where so many nodes and ports were made before. A
/// node of both graphs is the same exactly where path, kind and argument are equal.
///
/// Time grows with the nodes, ports and moves and the bytes of their paths, each path found by halving.
pub fn plan(
    alloc: Global,
    old: &Graph,
    new: &Graph,
    moves: &[Move],
    made: Made,
) -> Result<Plan, PlanError>
    ensures plan { IfOk result (IsPlanOf old.now new.now moves.now) }
    ensures within { IfOk result (IsPlanWithin old.now new.now) }
    ensures accepted { OnOk result (CanPlan old.now new.now moves.now made) }
    ensures accepts { CanPlan old.now new.now moves.now made → IfErr result (λ e. e ≡ NoMemory) }
    ensures refused { IfErr result
        (λ e. (e ≡ NoMemory) ⊎ IsRefusal old.now new.now moves.now made e) }
    ensures refuses { (e : PlanError) → IsRefusal old.now new.now moves.now made e
        → Answers NoMemory (λ _. ⊥) (λ refusal. refusal ≡ e) result }
{
    let shifts = list_shifts(alloc, old, new, moves)?;
    let create = list_gone(alloc, new, old)?;
    require_room_to_create(new, &create, made)?;
    let touched = list_touched(alloc, old, new)?;
    Ok(Plan {
        unlink: List::of(list_gone_ports(alloc, old, new)?),
        remove: List::of(list_gone(alloc, old, new)?),
        create: List::of(create),
        link: List::of(list_gone_links(alloc, new, old)?),
        moves: List::of(shifts),
        freeze: List::of(enlarged(alloc, old, &touched)?),
    })
}
