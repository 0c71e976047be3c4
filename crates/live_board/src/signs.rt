//! What a board and the workers beside it tell one another.

use crate::partners::Partners;
use config_graph::NoMemory;
use quiesce_core::NodeEvent;
use std::alloc::Global;
use std::sync::atomic::{AtomicBool, AtomicU32, Ordering};

/// What the workers beside a board tell it, and what it tells them. No contract rests on it.
#[derive(Drop)]
pub struct Signs {
    /// A worker found no memory.
    short: AtomicBool,
    /// A worker moved a node since the last scan.
    moved: AtomicBool,
    /// Nodes were made in slots below this.
    made: AtomicU32,
    /// A change is under way.
    changing: AtomicBool,
    partners: Partners,
}

impl Signs {
    /// Nothing was told.
    pub fn new(alloc: Global) -> Result<Signs, NoMemory> {
        Ok(Signs {
            short: AtomicBool::new(false),
            moved: AtomicBool::new(false),
            made: AtomicU32::new(0),
            changing: AtomicBool::new(false),
            partners: Partners::new(alloc)?,
        })
    }

    /// A worker found no memory.
    pub fn tell_short(&self) {
        self.short.store(true, Ordering::SeqCst);
    }

    /// Whether a worker found no memory.
    pub fn is_short(&self) -> bool {
        self.short.load(Ordering::SeqCst)
    }

    /// A worker moved a node. The sign is read first, since writing takes it from other processors.
    pub fn tell_move(&self) {
        if !self.moved.load(Ordering::SeqCst) {
            self.moved.store(true, Ordering::SeqCst);
        }
    }

    /// Whether a change is under way, or the stop is: each node is to lie in the hall again behind its turn then, since the
    /// change may wait for it.
    pub fn is_changing(&self) -> bool {
        self.changing.load(Ordering::SeqCst)
    }

    /// A change is under way from now on, or none is. The sign is read first here too.
    pub(crate) fn tell_change(&self, changing: bool) {
        if self.changing.load(Ordering::SeqCst) != changing {
            self.changing.store(changing, Ordering::SeqCst);
        }
    }

    /// Whether a worker moved a node since this was called last.
    pub(crate) fn take_move(&self) -> bool {
        self.moved.load(Ordering::SeqCst) && self.moved.swap(false, Ordering::SeqCst)
    }

    /// A node was made in the next slot, with so many ports from this one on.
    pub(crate) fn tell_made(&self, slot: u32, first_port: u32, ports: u32) {
        for port in 0..ports {
            self.partners
                .tell_owner(first_port.saturating_add(port), slot);
        }
        self.made.store(slot.saturating_add(1), Ordering::SeqCst);
    }

    /// A port was linked to the node of a slot.
    pub(crate) fn tell_link(&self, port: u32, slot: u32) {
        self.partners.tell_target(port, slot);
    }

    /// Below which slot nodes were made.
    pub fn made(&self) -> u32 {
        self.made.load(Ordering::SeqCst)
    }

    /// The slot of the node that may go on by what another did, where one may.
    pub fn partner(&self, event: NodeEvent) -> Option<u32> {
        self.partners.of(event)
    }
}
