//! A turnstile at which all workers meet.

use crate::looking::{Awaited, await_it};
use command_live::Turnstile;
use std::sync::atomic::{AtomicBool, AtomicU32, Ordering};

/// Holds whoever comes to a turn, the thread of the change too, until all of so many workers have come to one.
#[derive(Drop)]
pub struct Meeting {
    /// A bit for each worker that is to come.
    all: u32,
    /// A bit for each that has come.
    came: AtomicU32,
    /// Somebody waited in vain.
    missed: AtomicBool,
}

/// The bit of a worker.
fn bit_of(worker: u32) -> u32 {
    1_u32.wrapping_shl(worker)
}

impl Meeting {
    /// Of workers 1, 2 and so on, up to this one.
    pub fn of(workers: u32) -> Meeting {
        let mut all = 0_u32;
        for worker in 1..=workers {
            all |= bit_of(worker);
        }
        Meeting {
            all,
            came: AtomicU32::new(0),
            missed: AtomicBool::new(false),
        }
    }

    /// Whether they all met, and nobody waited in vain.
    pub fn is_held(&self) -> bool {
        self.has_come() && !self.missed.load(Ordering::SeqCst)
    }
}

/// That all of them have come.
impl Awaited for Meeting {
    fn has_come(&self) -> bool {
        self.came.load(Ordering::SeqCst) & self.all == self.all
    }
}

impl Turnstile for Meeting {
    fn before(&self, worker: u32, slot: u32) {
        let _ = slot;
        self.came.fetch_or(bit_of(worker), Ordering::SeqCst);
        await_it(self, &self.missed);
    }
}
