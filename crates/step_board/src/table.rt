//! The nodes of a system with their gate and their inboxes.

ghost use Rattle.std.specs.Prelude.{◌≡◌, ◌+◌, ◌<◌, ◌≤◌, ℕ, true, length, slice_get, Some, vec_capacity};
ghost use Rattle.step_board.specs.Rooms.{has_past_room};

use crate::held::Held;
use node_gate::CoreGate;
use port_queue::PlainHints;
use std::alloc::Global;

/// The nodes of a system on one thread, by slot, with the gate over the change machine and the inboxes. It keeps each
/// node that was made: what it did stays.
#[derive(Drop)]
pub struct NodeTable {
    pub(crate) alloc: Global,
    pub(crate) gate: CoreGate,
    pub(crate) hints: PlainHints,
    pub(crate) nodes: Vec<Held>,
    /// For the first slot of each line, the slot of the node that is at its end.
    pub(crate) line_ends: Vec<u32>,
    /// For so many nodes more there is memory.
    pub(crate) spare: u32,
    /// Below which slot the nodes are whose state one of those may take over.
    pub(crate) sources: u32,
    ghost node_room: { length nodes.items + spare ≤ vec_capacity nodes },
    ghost end_room: { length line_ends.items + spare ≤ vec_capacity line_ends },
    ghost sources_made: { sources ≤ length nodes.items },
    ghost past_room: { (k : ℕ) (h : _) → k < sources → slice_get nodes.items k ≡ Some h → has_past_room h ≡ true },
}
