//! A turnstile at which workers wait for an observer.

use crate::looking::{Awaited, await_it};
use command_live::{Observers, Turnstile};
use std::sync::atomic::{AtomicBool, Ordering};

/// One of them noted the first commit.
impl Awaited for Observers {
    fn has_come(&self) -> bool {
        self.seen.load(Ordering::SeqCst) > 0
    }
}

/// Holds each worker before a turn until an observer noted the first commit, and the thread of the change until a worker
/// was let go.
#[derive(Drop)]
pub struct LookingOn<'a> {
    observers: &'a Observers,
    /// A worker was let go.
    came: AtomicBool,
    /// Somebody waited in vain.
    missed: AtomicBool,
}

impl<'a> LookingOn<'a> {
    pub fn new(observers: &'a Observers) -> LookingOn<'a> {
        LookingOn {
            observers,
            came: AtomicBool::new(false),
            missed: AtomicBool::new(false),
        }
    }

    /// Whether a worker was let go, and nobody waited in vain.
    pub fn is_held(&self) -> bool {
        self.came.load(Ordering::SeqCst) && !self.missed.load(Ordering::SeqCst)
    }
}

impl Turnstile for LookingOn<'_> {
    fn before(&self, worker: u32, slot: u32) {
        let _ = slot;
        if worker == 0 {
            await_it(&self.came, &self.missed);
        } else {
            await_it(self.observers, &self.missed);
        }
        self.came.store(true, Ordering::SeqCst);
    }
}
