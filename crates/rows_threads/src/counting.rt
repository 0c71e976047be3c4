//! A turnstile that counts the turns of a worker.

use crate::looking::{Awaited, await_it, word_of};
use command_live::Turnstile;
use quiesce_word::Word;
use std::sync::atomic::{AtomicBool, AtomicU32, Ordering};
use txn_gate::Gates;

/// Two sources, behind two nodes to which nothing leads, and their ports.
const FIRST_SOURCE: u32 = 2;

const SECOND_SOURCE: u32 = 3;

const FIRST_PORT: u32 = 0;

const SECOND_PORT: u32 = 1;

/// How many items each of them has.
pub const ITEMS: u32 = 3;

/// That the last transaction of each source has ended.
#[derive(Drop)]
struct AreDone<'a>(&'a Gates);

/// Whether a source's port has had the transactions of all its items.
pub fn is_done(word: Word) -> bool {
    word.serial == ITEMS && word.phase.is_idle()
}

impl Awaited for AreDone<'_> {
    fn has_come(&self) -> bool {
        is_done(word_of(self.0, FIRST_PORT)) && is_done(word_of(self.0, SECOND_PORT))
    }
}

/// The thread of the change waits from its first turn on until all is done. The worker waits before its first turn until
/// then, and gives all turns in which something moves.
#[derive(Drop)]
pub struct Counting<'a> {
    gates: &'a Gates,
    /// The thread of the change came to its first turn.
    came: AtomicBool,
    /// How often the worker came to a turn.
    turns: AtomicU32,
    /// How often it came to one of the first source, and of the second.
    firsts: AtomicU32,
    seconds: AtomicU32,
    /// A source had begun more transactions than its turns before are enough for.
    early: AtomicBool,
    /// Somebody waited in vain.
    missed: AtomicBool,
}

impl<'a> Counting<'a> {
    pub fn new(gates: &'a Gates) -> Counting<'a> {
        Counting {
            gates,
            came: AtomicBool::new(false),
            turns: AtomicU32::new(0),
            firsts: AtomicU32::new(0),
            seconds: AtomicU32::new(0),
            early: AtomicBool::new(false),
            missed: AtomicBool::new(false),
        }
    }

    /// How often the worker came to a turn, where each source began a transaction only behind such a call, and nobody
    /// waited in vain.
    pub fn turns(&self) -> Option<u32> {
        if self.early.load(Ordering::SeqCst) || self.missed.load(Ordering::SeqCst) {
            return None;
        }
        Some(self.turns.load(Ordering::SeqCst))
    }

    fn before_change(&self) {
        self.came.store(true, Ordering::SeqCst);
        await_it(&AreDone(self.gates), &self.missed);
    }

    /// A source that began so many transactions comes to a turn. Each of those before took a turn to begin, and each but
    /// the last another to end.
    fn before_source(&self, turns: &AtomicU32, begun: u32) {
        if begun > turns.fetch_add(1, Ordering::SeqCst).div_ceil(2) {
            self.early.store(true, Ordering::SeqCst);
        }
    }

    fn before_worker(&self, slot: u32) {
        self.turns.fetch_add(1, Ordering::SeqCst);
        await_it(&self.came, &self.missed);
        match slot {
            FIRST_SOURCE => {
                let begun = word_of(self.gates, FIRST_PORT).serial;
                self.before_source(&self.firsts, begun)
            }
            SECOND_SOURCE => {
                let begun = word_of(self.gates, SECOND_PORT).serial;
                self.before_source(&self.seconds, begun)
            }
            _ => (),
        }
    }
}

impl Turnstile for Counting<'_> {
    fn before(&self, worker: u32, slot: u32) {
        if worker == 0 {
            self.before_change();
        } else {
            self.before_worker(slot);
        }
    }
}
