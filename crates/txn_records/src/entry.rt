//! What a change does and sees, as its record has it.

use quiesce_core::Event;
use std::collections::LinkedList;

/// An entry of a record. Records are what contracts see a change to have done and seen: no value of this type is made.
pub enum Entry {
    /// An event of the change.
    Did {
        event: Event,
    },
    /// A look at a port, with the word that was loaded.
    Looked {
        port: u32,
        word: u64,
    },
    /// A sight of the node made in a slot, with all that it did so far.
    Sighted {
        slot: u32,
        events: LinkedList<Event>,
    },
    /// The mark of a scan: here nodes were given turns, and one of these moved or none.
    Scanned {
        begins: bool,
        moved: bool,
    },
}
