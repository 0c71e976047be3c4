//! The groups of a change, in the order of their least paths.

ghost use Rattle.std.specs.Prelude.{◌≡◌, ◌<◌, ◌^◌, ◌==◌, ℕ, List, All, IfOk, false, filter, length, slice_index_or};
ghost use Rattle.std.specs.List.{list_any, range_with_len};
ghost use Rattle.change_plan.specs.Plans.{IsPlanOf};
ghost use Rattle.change_plan.specs.Selects.{Selects};
ghost use Rattle.change_plan.specs.declared.plan_data.Move.{Move};
ghost use Rattle.change_parts.specs.Groupings.{IsGrouping, LeadsIn, applied_up_to, leads};

use crate::classes::list_least;
use crate::members::Members;
use crate::staging::is_marked;
use crate::ties::{list_changed, list_ties};
use change_plan::Plan;
use config_graph::{Graph, NoMemory};
use std::alloc::Global;

/// The nodes of a change, each with the least number of its group, and the least numbers of all groups, in order.
#[derive(Drop)]
pub(crate) struct Grouping {
    pub members: Members,
    pub least: Vec<u32>,
    pub firsts: Vec<u32>,
}

impl Grouping {
    /// The groups of the change that has this plan.
    pub(crate) fn of(
        alloc: Global,
        old: &Graph,
        new: &Graph,
        plan: &Plan,
    ) -> Result<Grouping, NoMemory>
        requires { (moves : List Move) × IsPlanOf old.now new.now moves plan.now }
        ensures { IfOk result (λ g. (moves : List Move) → IsPlanOf old.now new.now moves plan.now
            → IsGrouping old.now new.now moves g) }
    {
        let members = Members::of(alloc, old, new)?;
        let ties = list_ties(alloc, old, new, plan, &members)?;
        let least = list_least(alloc, members.nodes.len() as u32, &ties)?;
        let changed = list_changed(alloc, plan, &members)?;
        let firsts = list_firsts(alloc, &least, &changed)?;
        Ok(Grouping {
            members,
            least,
            firsts,
        })
    }
}

/// The numbers at which groups begin: changed ones that are the least of their class.
fn list_firsts(alloc: Global, least: &[u32], changed: &[u32]) -> Result<Vec<u32>, NoMemory>
    requires few { length least.now < 2 ^ 31 }
    requires within { All (λ k. k < length least.now) changed.now }
    ensures { IfOk result
        (λ v. Selects (LeadsIn least.now changed.now) (range_with_len 0 (length least.now)) v.items) }
{
    let marks = mark_numbers(alloc, least.len(), changed)?;
    list_leads(alloc, least, &marks)
}

/// The numbers that are marked and the least of their class.
fn list_leads(alloc: Global, least: &[u32], marks: &[bool]) -> Result<Vec<u32>, NoMemory>
    requires { length least.now < 2 ^ 31 }
    ensures { IfOk result
        (λ v. v.items ≡ filter (leads least.now marks.now) (range_with_len 0 (length least.now))) }
{
    let count = least.len() as u32;
    (0..count)
        .filter(|number| leads(least, marks, *number))
        .collect(alloc)
}

/// Whether a number is marked and the least of its class.
fn leads(least: &[u32], marks: &[bool], number: u32) -> bool
    ensures { result ≡ leads least.now marks.now number }
{
    let is_least = match least.get(number as usize) {
        Some(first) => *first == number,
        None => false,
    };
    is_least && is_marked(marks, number)
}

/// Marks for these numbers, which are below the count.
fn mark_numbers(alloc: Global, count: usize, numbers: &[u32]) -> Result<Vec<bool>, NoMemory>
    requires { All (λ k. k < count) numbers.now }
    ensures { IfOk result
        (λ v. (k : ℕ) → slice_index_or v.items k false ≡ list_any (λ j. k == j) numbers.now) }
{
    let mut marks = vec![in alloc; false; count]?;
    for number in numbers {
        marks[*number as usize] = true;
    }
    Ok(marks)
}

/// Marks for the members of the groups up to one.
pub(crate) fn mark_applied(alloc: Global, least: &[u32], last: u32) -> Result<Vec<bool>, NoMemory>
    ensures { IfOk result (λ v. v.items ≡ applied_up_to least.now last) }
{
    least.iter().map(|number| *number <= last).collect(alloc)
}
