//! A worker's way in to the hall.

ghost use Rattle.std.specs.Prelude.{◌≡◌, ⊤, ℕ, ◌<◌, List, MatchOption, length, map, slice_index_or, slice_set};
ghost use Rattle.std.specs.Arc.{arc_value};
ghost use Rattle.base.specs.Count.{Rose};
ghost use Rattle.config_graph.specs.declared.TheConstants.{MAX_NODES};
ghost use Rattle.crossbeam_queue.specs.Fifo.{Held};
ghost use Rattle.live_hall.specs.Doors.{Opens};
ghost use Rattle.live_hall.specs.Houses.{FitsCell, HousedFor, IsAt, place};
ghost use Rattle.base.specs.Paired.{Paired};

use crate::boxed::BoxedGuest;
use crate::cell;
use crate::cell::{Cell, Named};
use crate::lock::Lock;
use std::marker::Model;
use std::sync::{Arc, Wait};
use std::thread;

/// A worker's way in to all cells, which it shares with other doors. Contracts see how often it found each cell empty.
#[derive(Drop)]
pub struct Door<J: Named, R: Wait> {
    pub(crate) rt: R,
    pub(crate) cells: Arc<Vec<Cell<J>>>,
    pub(crate) locks: Vec<Lock>,
}

impl<J: Named, R: Wait> Model for Door<J, R> {
    ghost Value = { List ℕ };

    ghost view = { λ d. map (λ l. l.missed) d.locks.items };

    ghost invariant = { λ d. (length (arc_value d.cells).items ≡ MAX_NODES) × (length d.locks.items ≡ MAX_NODES)
        × Paired Opens (arc_value d.cells).items d.locks.items };
}

impl<J: Named, R: Wait> Door<J, R> {
    /// Puts the node into its cell, and tries again while the place is taken. So it may wait, for as long as others
    /// take no node from there.
    pub fn put(&mut self, node: BoxedGuest)
        requires slot { node.node.slot < MAX_NODES }
        requires gates { IsAt J.gates node }
        ensures { self.new ≡ self.old }
    {
        let at = node.guest().node.slot as usize;
        let cells: &Vec<Cell<J>> = &self.cells;
        put_until(&self.rt, &cells[at], &mut self.locks[at], node);
    }

    /// Takes the node of a slot. There is none only where the cell was empty at that step.
    pub fn take(&mut self, slot: u32) -> Option<BoxedGuest>
        requires { slot < MAX_NODES }
        ensures taken { MatchOption result
            ((n : ℕ) × Rose (slice_index_or self.old slot 0) n × (self.new ≡ slice_set self.old slot n))
            (λ node. FitsCell J.gates slot node × (self.new ≡ self.old)) }
        ensures empty { MatchOption result (Held 0 (HousedFor J.gates (place slot))) (λ _. ⊤) }
    {
        let at = slot as usize;
        let cells: &Vec<Cell<J>> = &self.cells;
        let taken = take_here(&self.rt, &cells[at], &mut self.locks[at], slot);
        taken
    }
}

/// Puts the node in once there is room.
fn put_until<J: Named, R: Wait>(rt: &R, cell: &Cell<J>, lock: &mut Lock, node: BoxedGuest)
    requires opens { Opens node.node.slot cell.now lock.old }
    requires gates { IsAt J.gates node }
    ensures opens { Opens node.node.slot cell.now lock.new }
    ensures same { lock.new.missed ≡ lock.old.missed }
{
    let mut waiting = Some(node);
    for _ in rt.forever() {
        let Some(node) = waiting else {
            break;
        };
        waiting = cell::put(rt, cell, &mut lock.key, node).err();
        if waiting.is_some() {
            thread::yield_now();
        }
    }
}

fn take_here<J: Named, R: Wait>(
    rt: &R,
    cell: &Cell<J>,
    lock: &mut Lock,
    slot: u32,
) -> Option<BoxedGuest>
    requires opens { Opens slot cell.now lock.old }
    ensures opens { Opens slot cell.now lock.new }
    ensures taken { MatchOption result (Rose lock.old.missed lock.new.missed)
        (λ node. FitsCell J.gates slot node × (lock.new.missed ≡ lock.old.missed)) }
    ensures empty { MatchOption result (Held 0 (HousedFor J.gates (place slot))) (λ _. ⊤) }
{
    let taken = cell::take(rt, cell, &mut lock.key);
    if taken.is_none() {
        lock.missed = lock.missed.saturating_add(1);
    }
    taken
}
