//! A turnstile that leaves the nodes which a change made to a worker.

use crate::counting::is_done;
use crate::looking::{Awaited, await_it, word_of};
use command_live::Turnstile;
use std::sync::atomic::{AtomicBool, Ordering};
use txn_gate::Gates;

/// A node to which nothing leads.
const LONE: u32 = 0;

/// The two sources that the change makes are in slots from this one on, and these are their ports.
const FIRST_MADE: u32 = 5;

const FIRST_PORT: u32 = 2;

const SECOND_PORT: u32 = 3;

/// That the last transaction of each of these sources has ended.
#[derive(Drop)]
struct AreDone<'a>(&'a Gates);

impl Awaited for AreDone<'_> {
    fn has_come(&self) -> bool {
        is_done(word_of(self.0, FIRST_PORT)) && is_done(word_of(self.0, SECOND_PORT))
    }
}

/// Once the thread of the change came to one of these sources, it waits at a node that nobody needs until both are done.
#[derive(Drop)]
pub struct Coming<'a> {
    gates: &'a Gates,
    /// The thread of the change came to one of them.
    came: AtomicBool,
    /// It waited in vain.
    missed: AtomicBool,
}

impl<'a> Coming<'a> {
    pub fn new(gates: &'a Gates) -> Coming<'a> {
        Coming {
            gates,
            came: AtomicBool::new(false),
            missed: AtomicBool::new(false),
        }
    }

    /// Whether nobody waited in vain.
    pub fn is_held(&self) -> bool {
        !self.missed.load(Ordering::SeqCst)
    }
}

impl Turnstile for Coming<'_> {
    fn before(&self, worker: u32, slot: u32) {
        if worker > 0 {
            return;
        }
        if slot >= FIRST_MADE {
            self.came.store(true, Ordering::SeqCst);
        }
        if slot == LONE && self.came.load(Ordering::SeqCst) {
            await_it(&AreDone(self.gates), &self.missed);
        }
    }
}
