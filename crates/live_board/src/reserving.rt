//! Room for nodes to be made.

ghost use Rattle.std.specs.Prelude.{◌≡◌, ℕ, ◌+◌, ◌≤◌, IfOk, OnOk, length};
ghost use Rattle.config_graph.specs.declared.TheConstants.{MAX_NODES};
ghost use Rattle.live_board.specs.Keeping.{AreKept, HaveRoom, is_stored, stored};
ghost use Rattle.live_board.specs.Lengths.{length_at};

use crate::blank::Blank;
use crate::heirs::make_heir_places;
use crate::keeping::{blanks, make_places};
use config_graph::NoMemory;
use live_hall::{BoxedGuest, Named};
use std::alloc::Global;

/// A place to keep each node in, once it is removed, and one to note its heir; and memory for so many nodes to be made,
/// each with a list for so many earlier nodes.
pub fn make_room<J: Named>(
    alloc: Global,
    kept: &mut Vec<Option<BoxedGuest>>,
    heirs: &mut Vec<Option<u32>>,
    made: u32,
    nodes: u32,
    lists: u32,
    lines: u32,
) -> Result<Vec<Blank>, NoMemory>
    requires few { made + nodes ≤ MAX_NODES }
    requires kept { AreKept J.gates kept.old.items }
    ensures kept { AreKept J.gates kept.new.items }
    ensures stored { (n : ℕ) → is_stored (stored kept.new.items) n ≡ is_stored (stored kept.old.items) n }
    ensures places { OnOk result (made + nodes ≤ length kept.new.items) }
    ensures heirs { (n : ℕ) → length_at heirs.new.items n ≡ length_at heirs.old.items n }
    ensures longer { length heirs.old.items ≤ length heirs.new.items }
    ensures enough { OnOk result (made ≤ length heirs.new.items) }
    ensures lists { IfOk result (λ v. HaveRoom v.items lists lines) }
{
    make_places::<J>(kept, made + nodes)?;
    make_heir_places(heirs, made)?;
    blanks(alloc, lists, lines)
}
