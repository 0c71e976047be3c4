//! The nodes whose state no other took over are taken out of the hall at the end.

ghost use Rattle.std.specs.Prelude.{◌≡◌, ℕ, ◌<◌, ◌≤◌, ◌++◌, [], List, IfOk, length, vec_capacity};
ghost use Rattle.std.specs.List.{AllByRecursion};
ghost use Rattle.component_trait.specs.Moves as moves;
ghost use Rattle.config_graph.specs.declared.TheConstants.{MAX_NODES};
ghost use Rattle.live_board.specs.Collecting.{AreTold, LiesAt, TellsEnd};
ghost use Rattle.live_board.specs.Keeping.{AreKept};
ghost use Rattle.live_board.specs.Lengths.{length_at};
ghost use Rattle.live_hall.specs.declared.guest.Guest.{Guest as GuestFields};
ghost use Rattle.report_types.specs.declared.report.Last.TheVariants.{State, Moved};

use crate::heirs::heir_at;
use crate::keeping::take_back;
use component_trait::Component;
use config_graph::{List, NoMemory};
use live_hall::{BoxedGuest, Door, Named};
use report_types::{Last, NodeLog};
use state_handover::AnyNode;
use std::alloc::Global;
use std::sync::Wait;

/// How a node's log ends, and whether it is done.
#[derive(Drop)]
pub struct End {
    pub last: Last,
    pub done: bool,
}

/// The logs of all nodes, by slot, without their events; and whether those nodes are done whose state no other took over.
#[derive(Drop)]
pub struct Ends {
    pub logs: Vec<NodeLog>,
    pub dones: Vec<bool>,
}

/// The numbers of a component's state.
fn numbers_of<C: Component>(alloc: Global, node: &C) -> Result<Vec<u64>, NoMemory>
    ensures { IfOk result (λ numbers. numbers.items ≡ moves.numbers (C.state node.now)) }
{
    let count = node.state_len();
    let mut numbers = Vec::with_capacity(alloc, count)?;
    for index in 0..count {
        numbers.push(node.state_word(index))?;
    }
    Ok(numbers)
}

/// The end of the log of a node whose state no other took over.
fn end_of(alloc: Global, guest: &BoxedGuest) -> Result<End, NoMemory>
    ensures last { IfOk result
        (λ e. e.last ≡ State (moves.numbers (⟦<AnyNode as Component>⟧.state guest.now.node.inner))) }
    ensures done { IfOk result (λ e. e.done ≡ moves.is_done (⟦<AnyNode as Component>⟧.state guest.now.node.inner)) }
{
    let guest = guest.guest();
    let numbers = numbers_of(alloc, guest.node.inner())?;
    let done = guest.node.done();
    Ok(End {
        last: Last::State(List::of(numbers)),
        done,
    })
}

/// How the log of a slot ends. The node whose state no other took over is taken to the others; it may have to be waited
/// for.
fn take_end<J: Named, R: Wait>(
    rt: &R,
    alloc: Global,
    door: &mut Door<J, R>,
    kept: &mut Vec<Option<BoxedGuest>>,
    heir: Option<u32>,
    slot: u32,
    guests: &mut Vec<BoxedGuest>,
) -> Result<End, NoMemory>
    requires slot { slot < MAX_NODES }
    requires kept { AreKept J.gates kept.old.items }
    requires room { length guests.old.items < vec_capacity guests.old }
    ensures kept { AreKept J.gates kept.new.items }
    ensures guests { (more : List GuestFields) × (guests.new.items ≡ guests.old.items ++ more)
        × (length more ≤ 1) × AllByRecursion (LiesAt J.gates) more }
    ensures room { vec_capacity guests.new ≡ vec_capacity guests.old }
    ensures told { IfOk result
        (λ e. TellsEnd ⟦<AnyNode as Component>⟧.state heir slot guests.new.items e.last e.done) }
{
    match heir {
        Some(heir) => Ok(End {
            last: Last::Moved(heir),
            done: true,
        }),
        None => {
            let guest = take_back(rt, kept, door, slot);
            let end = end_of(alloc, &guest);
            guests.push_reserved(guest);
            end
        }
    }
}

/// How the logs of all slots end. The nodes whose state no other took over are taken to these.
pub fn take_ends<J: Named, R: Wait>(
    rt: &R,
    alloc: Global,
    door: &mut Door<J, R>,
    kept: &mut Vec<Option<BoxedGuest>>,
    heirs: &Vec<Option<u32>>,
    slots: u32,
    guests: &mut Vec<BoxedGuest>,
) -> Result<Ends, NoMemory>
    requires few { slots ≤ MAX_NODES }
    requires kept { AreKept J.gates kept.old.items }
    requires none { guests.old.items ≡ [] }
    requires room { slots ≤ vec_capacity guests.old }
    ensures kept { AreKept J.gates kept.new.items }
    ensures guests { AllByRecursion (LiesAt J.gates) guests.new.items }
    ensures told { IfOk result (λ e. AreTold ⟦<AnyNode as Component>⟧.state heirs.now.items slots guests.new.items
        e.logs.items e.dones.items) }
{
    let mut logs = Vec::with_capacity(alloc, slots as usize)?;
    let mut dones = Vec::with_capacity(alloc, slots as usize)?;
    for slot in 0..slots {
        let End { last, done } = take_end(
            rt,
            alloc,
            door,
            kept,
            heir_at(heirs, slot),
            slot,
            guests,
        )?;
        logs.push_reserved(NodeLog {
            slot,
            events: List::of(Vec::new(alloc)),
            last,
        });
        dones.push_reserved(done);
    }
    Ok(Ends { logs, dones })
}
