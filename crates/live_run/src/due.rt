//! Which nodes a worker gives turns next.

use config_graph::MAX_NODES;
use quiesce_core::{Deed, NodeEvent};

/// In how many passes a worker looks for a node that has something to do, where others have it: these hold it for up to 64 of
/// their passes, which may take longer.
const LOOKS: u8 = 192;

/// How often a worker still looks for the node of each slot, since it may have something to do.
#[derive(Drop)]
pub struct Due {
    looks: [u8; MAX_NODES as usize],
}

impl Due {
    pub fn new() -> Due {
        Due {
            looks: [0; MAX_NODES as usize],
        }
    }

    /// The node has something to do. A slot that no node can have is passed over.
    pub fn add(&mut self, slot: u32) {
        if let Some(looks) = self.looks.get_mut(slot as usize) {
            *looks = LOOKS;
        }
    }

    /// The node is looked for once, where it isn't anyway.
    pub fn add_once(&mut self, slot: u32) {
        if let Some(looks) = self.looks.get_mut(slot as usize) {
            *looks = (*looks).max(1);
        }
    }

    /// Whether the node is to be looked for.
    pub fn has(&self, slot: u32) -> bool {
        match self.looks.get(slot as usize) {
            Some(looks) => *looks > 0,
            None => false,
        }
    }

    /// The node wasn't there.
    pub fn miss(&mut self, slot: u32) {
        if let Some(looks) = self.looks.get_mut(slot as usize) {
            *looks = looks.saturating_sub(1);
        }
    }

    /// The node had its turn.
    pub fn remove(&mut self, slot: u32) {
        if let Some(looks) = self.looks.get_mut(slot as usize) {
            *looks = 0;
        }
    }
}

/// Whether a node that did this can't go on by itself.
pub fn waits(event: NodeEvent) -> bool {
    matches!(
        event.deed(),
        Deed::Begin(_) | Deed::Call(_) | Deed::Ask(_) | Deed::More(_)
    )
}
