//! What a board keeps: removed nodes, by slot, and memory for nodes to be made and their pasts.

ghost use Rattle.std.specs.Prelude.{◌≡◌, ℕ, ◌+◌, ◌<◌, ◌≤◌, Some, true, IfOk, IfSome, OnOk, is_some, length, slice_set};
ghost use Rattle.config_graph.specs.declared.TheConstants.{MAX_NODES};
ghost use Rattle.live_board.specs.Keeping.{AreKept, HaveRoom, is_stored, stored, without};
ghost use Rattle.live_hall.specs.Houses.{FitsCell};

use crate::blank::Blank;
use config_graph::NoMemory;
use live_hall::{BoxedGuest, Door, Named};
use std::alloc::Global;
use std::sync::Wait;
use std::thread;

/// The node of a slot, once it lies in the hall.
pub fn await_guest<J: Named, R: Wait>(rt: &R, door: &mut Door<J, R>, slot: u32) -> BoxedGuest
    requires { slot < MAX_NODES }
    ensures { FitsCell J.gates slot result }
{
    for _ in rt.forever() {
        if let Some(guest) = door.take(slot) {
            return guest;
        }
        thread::yield_now();
    }
    unreachable!()
}

/// Makes a place for the removed node of each slot below this.
pub fn make_places<J: Named>(kept: &mut Vec<Option<BoxedGuest>>, slots: u32) -> Result<(), NoMemory>
    requires { AreKept J.gates kept.old.items }
    ensures kept { AreKept J.gates kept.new.items }
    ensures stored { (n : ℕ) → is_stored (stored kept.new.items) n ≡ is_stored (stored kept.old.items) n }
    ensures enough { OnOk result (slots ≤ length kept.new.items) }
{
    for _ in kept.len()..slots as usize {
        kept.push(None)?;
    }
    Ok(())
}

/// Puts a removed node away: into its place, or into the hall where it has none.
pub fn put_away<J: Named, R: Wait>(
    kept: &mut Vec<Option<BoxedGuest>>,
    door: &mut Door<J, R>,
    slot: u32,
    guest: BoxedGuest,
)
    requires slot { slot < MAX_NODES }
    requires fits { FitsCell J.gates slot guest }
    requires kept { AreKept J.gates kept.old.items }
    ensures kept { AreKept J.gates kept.new.items }
    ensures stored { stored kept.new.items ≡ slice_set (stored kept.old.items) slot true }
    ensures door { door.new ≡ door.old }
{
    let at = slot as usize;
    if at < kept.len() {
        kept[at] = Some(guest);
    } else {
        door.put(guest);
    }
}

/// What lies in a place, if there is one.
fn taken_out<J: Named>(kept: &mut Vec<Option<BoxedGuest>>, slot: u32) -> Option<BoxedGuest>
    requires { AreKept J.gates kept.old.items }
    ensures fits { IfSome result (FitsCell J.gates slot) }
    ensures there { is_some result ≡ is_stored (stored kept.old.items) slot }
    ensures kept { AreKept J.gates kept.new.items }
    ensures stored { stored kept.new.items ≡ without (stored kept.old.items) (Some slot) }
{
    let at = slot as usize;
    if at < kept.len() {
        kept[at].take()
    } else {
        None
    }
}

/// The node of a slot: from its place where it lies there, and only else from the hall.
pub fn take_back<J: Named, R: Wait>(
    rt: &R,
    kept: &mut Vec<Option<BoxedGuest>>,
    door: &mut Door<J, R>,
    slot: u32,
) -> BoxedGuest
    requires slot { slot < MAX_NODES }
    requires kept { AreKept J.gates kept.old.items }
    ensures fits { FitsCell J.gates slot result }
    ensures kept { AreKept J.gates kept.new.items }
    ensures stored { stored kept.new.items ≡ without (stored kept.old.items) (Some slot) }
    ensures door { is_stored (stored kept.old.items) slot ≡ true → door.new ≡ door.old }
{
    match taken_out::<J>(kept, slot) {
        Some(guest) => guest,
        None => await_guest(rt, door, slot),
    }
}

/// Memory for so many nodes, each with so many earlier nodes of its line.
pub fn blanks(alloc: Global, nodes: u32, lines: u32) -> Result<Vec<Blank>, NoMemory>
    ensures { IfOk result (λ v. HaveRoom v.items nodes lines) }
{
    let mut all = Vec::with_capacity(alloc, nodes as usize)?;
    for _ in 0..nodes {
        let blank = Blank::new(alloc, lines)?;
        all.push(blank)?;
    }
    Ok(all)
}

/// Memory for one of these nodes.
pub fn take_blank(blanks: &mut Vec<Blank>) -> Blank
    requires { 0 < length blanks.old.items }
    ensures { (nodes lines : ℕ) → HaveRoom blanks.old.items (nodes + 1) lines
        → HaveRoom blanks.new.items nodes lines × (lines ≤ result.room) }
{
    blanks.take_last()
}
