//! What a worker holds: nodes that it took out of the hall, for more turns than one.

ghost use Rattle.std.specs.Prelude.{◌≡◌, ◌<◌, Bool, IfOk, IfSome, List, length};
ghost use Rattle.config_graph.specs.declared.TheConstants.{MAX_NODES};
ghost use Rattle.live_board.specs.Keeping.{AreKept, stored};
ghost use Rattle.live_hall.specs.Houses.{FitsCell};

use config_graph::{MAX_NODES, NoMemory};
use live_hall::{BoxedGuest, Door, Named};
use std::alloc::Global;
use std::marker::Model;
use std::sync::Wait;

/// A worker's way to nodes: those that it holds, by slot, and a door to those that lie in the hall. What is held fits the
/// cell of its slot. Contracts see of which slots a node is held.
#[derive(Drop)]
pub struct Held<J: Named, R: Wait> {
    door: Door<J, R>,
    guests: Vec<Option<BoxedGuest>>,
}

impl<J: Named, R: Wait> Model for Held<J, R> {
    ghost Value = { List Bool };

    ghost view = { λ h. stored h.guests.items };

    ghost invariant = { λ h. AreKept J.gates h.guests.items × (length h.guests.items ≡ MAX_NODES) };
}

impl<J: Named, R: Wait + Copy> Held<J, R> {
    /// None is held yet. It takes the memory of all places.
    pub fn new(alloc: Global, door: Door<J, R>) -> Result<Held<J, R>, NoMemory> {
        let guests = no_guests::<J>(alloc)?;
        Ok(Held { door, guests })
    }
}

impl<J: Named, R: Wait> Held<J, R> {
    /// Whether the node of a slot is held.
    pub fn has(&self, slot: u32) -> bool
        requires { slot < MAX_NODES }
    {
        self.guests[slot as usize].is_some()
    }

    /// The node of a slot: the one that is held, and only else the one that lies in the hall.
    pub fn take(&mut self, slot: u32) -> Option<BoxedGuest>
        requires { slot < MAX_NODES }
        ensures { IfSome result (FitsCell J.gates slot) }
    {
        let held = taken_out::<J>(&mut self.guests, slot);
        if held.is_some() {
            held
        } else {
            self.door.take(slot)
        }
    }

    /// Holds the node of a slot, where it is to stay, and else puts it back into the hall.
    pub fn give_back(&mut self, slot: u32, guest: BoxedGuest, stays: bool)
        requires slot { slot < MAX_NODES }
        requires fits { FitsCell J.gates slot guest }
    {
        if stays {
            keep::<J>(&mut self.guests, slot, guest);
        } else {
            self.door.put(guest);
        }
    }

    /// Puts the node of a slot back into the hall, where it is held.
    fn put_one_back(&mut self, slot: u32)
        requires { slot < MAX_NODES }
    {
        if let Some(guest) = taken_out::<J>(&mut self.guests, slot) {
            self.door.put(guest);
        }
    }

    /// Puts all nodes that are held back into the hall. They are in slots below this.
    pub fn put_back(&mut self, slots: u32) {
        for slot in 0..slots.min(MAX_NODES) {
            self.put_one_back(slot);
        }
    }
}

/// A place for the node of each slot, in which none lies.
fn no_guests<J: Named>(alloc: Global) -> Result<Vec<Option<BoxedGuest>>, NoMemory>
    ensures fits { IfOk result (λ v. AreKept J.gates v.items) }
    ensures places { IfOk result (λ v. length v.items ≡ MAX_NODES) }
{
    let mut guests = Vec::with_capacity(alloc, MAX_NODES as usize)?;
    for _ in 0..MAX_NODES {
        guests.push(None)?;
    }
    Ok(guests)
}

/// What lies in the place of a slot.
fn taken_out<J: Named>(guests: &mut Vec<Option<BoxedGuest>>, slot: u32) -> Option<BoxedGuest>
    requires slot { slot < length guests.old.items }
    requires fits { AreKept J.gates guests.old.items }
    ensures taken { IfSome result (FitsCell J.gates slot) }
    ensures fits { AreKept J.gates guests.new.items }
    ensures places { length guests.new.items ≡ length guests.old.items }
{
    guests[slot as usize].take()
}

/// Lays a node into the place of its slot.
fn keep<J: Named>(guests: &mut Vec<Option<BoxedGuest>>, slot: u32, guest: BoxedGuest)
    requires slot { slot < length guests.old.items }
    requires guest { FitsCell J.gates slot guest }
    requires fits { AreKept J.gates guests.old.items }
    ensures fits { AreKept J.gates guests.new.items }
    ensures places { length guests.new.items ≡ length guests.old.items }
{
    guests[slot as usize] = Some(guest);
}
