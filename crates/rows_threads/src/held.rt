//! A turnstile that holds a node of one line while the nodes of another go on.

use crate::looking::{Awaited, await_it, word_of};
use command_live::Turnstile;
use std::sync::atomic::{AtomicBool, Ordering};
use txn_gate::Gates;

/// The source and the map of the line that is held.
const HELD_SOURCE: u32 = 0;

const HELD_MAP: u32 = 1;

/// The source and the sink of the other line.
const OTHER_SOURCE: u32 = 3;

const OTHER_SINK: u32 = 5;

/// The ports of the two sources.
const HELD_PORT: u32 = 0;

const OTHER_PORT: u32 = 2;

/// That the held source began a transaction. It is open until the map goes on.
#[derive(Drop)]
struct HasBegun<'a>(&'a Gates);

impl Awaited for HasBegun<'_> {
    fn has_come(&self) -> bool {
        word_of(self.0, HELD_PORT).serial > 0
    }
}

/// That the other source began its third transaction: so its second, before which it was held back, has ended.
#[derive(Drop)]
struct HasGoneOn<'a>(&'a Gates);

impl Awaited for HasGoneOn<'_> {
    fn has_come(&self) -> bool {
        word_of(self.0, OTHER_PORT).serial > 2
    }
}

/// That the port of the held source is open.
#[derive(Drop)]
struct IsOver<'a>(&'a Gates);

impl Awaited for IsOver<'_> {
    fn has_come(&self) -> bool {
        !word_of(self.0, HELD_PORT).closed
    }
}

/// Holds a worker before a turn of the one map, where a transaction of its source waits then, until the change is over.
/// Of the other line one transaction is begun before the change, and more are while the thread of the change waits in it.
#[derive(Drop)]
pub struct Held<'a> {
    gates: &'a Gates,
    /// A worker is held before the map's turn.
    holds: AtomicBool,
    /// The thread of the change came to a turn in the change.
    came: AtomicBool,
    /// The change is over, and the worker goes on.
    released: AtomicBool,
    /// Somebody waited in vain.
    missed: AtomicBool,
}

impl<'a> Held<'a> {
    pub fn new(gates: &'a Gates) -> Held<'a> {
        Held {
            gates,
            holds: AtomicBool::new(false),
            came: AtomicBool::new(false),
            released: AtomicBool::new(false),
            missed: AtomicBool::new(false),
        }
    }

    /// Whether a worker was held and let go, and nobody waited in vain.
    pub fn is_held(&self) -> bool {
        self.released.load(Ordering::SeqCst) && !self.missed.load(Ordering::SeqCst)
    }

    fn await_here<A: Awaited>(&self, awaited: &A) {
        await_it(awaited, &self.missed);
    }

    /// Whether the change is under way: before the start is over, the port is closed too, and nothing was begun at it.
    fn is_changing(&self) -> bool {
        let word = word_of(self.gates, HELD_PORT);
        word.closed && word.serial > 0
    }

    /// In the change, its thread waits for the other line, of which it has no node in its hands.
    fn before_change(&self, slot: u32) {
        if self.is_changing() && (slot < OTHER_SOURCE || slot > OTHER_SINK) {
            self.came.store(true, Ordering::SeqCst);
            self.await_here(&HasGoneOn(self.gates));
        }
    }

    /// In the change, workers go on once its thread waits, which so finds a node that lies in the hall. The other source
    /// has one item under way before.
    fn before_worker(&self, slot: u32) {
        let has_more = slot == OTHER_SOURCE && word_of(self.gates, OTHER_PORT).serial > 0;
        if has_more || self.is_changing() {
            self.await_here(&self.came);
        }
    }

    /// The map's turn comes once the change is over.
    fn before_held_map(&self) {
        if self.released.load(Ordering::SeqCst) {
            return;
        }
        self.holds.store(true, Ordering::SeqCst);
        self.await_here(&self.came);
        self.await_here(&IsOver(self.gates));
        self.released.store(true, Ordering::SeqCst);
    }
}

impl Turnstile for Held<'_> {
    fn before(&self, worker: u32, slot: u32) {
        match slot {
            HELD_SOURCE => self.await_here(&self.holds),
            OTHER_SOURCE => self.await_here(&HasBegun(self.gates)),
            _ => (),
        }
        if worker == 0 {
            self.before_change(slot);
        } else if slot == HELD_MAP {
            self.before_held_map();
        } else {
            self.before_worker(slot);
        }
    }
}
