//! Which nodes meet at each port.

use config_graph::{MAX_PORTS, NoMemory};
use quiesce_core::{Deed, NodeEvent};
use std::alloc::Global;
use std::sync::atomic::{AtomicU32, Ordering};

/// Stands where no node is known.
const NOBODY: u32 = u32::MAX;

/// By port, the node that owns it, and the one to which it was linked last. It tells a worker which node is worth a turn
/// next, and no more: a link may change meanwhile.
#[derive(Drop)]
pub struct Partners {
    owners: Vec<AtomicU32>,
    targets: Vec<AtomicU32>,
}

impl Partners {
    /// Nothing is known.
    pub fn new(alloc: Global) -> Result<Partners, NoMemory> {
        Ok(Partners {
            owners: no_nodes(alloc)?,
            targets: no_nodes(alloc)?,
        })
    }

    pub fn tell_owner(&self, port: u32, slot: u32) {
        put(&self.owners, port, slot);
    }

    pub fn tell_target(&self, port: u32, slot: u32) {
        put(&self.targets, port, slot);
    }

    /// The slot of the node that may go on by what another did at a port, where one may and is known.
    pub fn of(&self, event: NodeEvent) -> Option<u32> {
        match event.deed() {
            Deed::Begin(message) | Deed::Call(message) | Deed::Ask(message) => {
                at(&self.targets, message.port)
            }
            Deed::Give(message) | Deed::More(message) => at(&self.owners, message.port),
            _ => None,
        }
    }
}

/// A place for each port that may be made.
fn no_nodes(alloc: Global) -> Result<Vec<AtomicU32>, NoMemory> {
    let mut all = Vec::with_capacity(alloc, MAX_PORTS as usize)?;
    for _ in 0..MAX_PORTS {
        all.push(AtomicU32::new(NOBODY))?;
    }
    Ok(all)
}

fn put(slots: &Vec<AtomicU32>, port: u32, slot: u32) {
    if let Some(place) = slots.get(port as usize) {
        place.store(slot, Ordering::SeqCst);
    }
}

fn at(slots: &Vec<AtomicU32>, port: u32) -> Option<u32> {
    let slot = slots.get(port as usize)?.load(Ordering::SeqCst);
    if slot == NOBODY { None } else { Some(slot) }
}
