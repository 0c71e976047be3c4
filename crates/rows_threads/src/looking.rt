//! What turnstiles see of ports from outside, and how they wait.

ghost use Rattle.std.specs.Prelude.{◌<◌};
ghost use Rattle.config_graph.specs.declared.TheConstants.{MAX_PORTS};

use quiesce_word::Word;
use std::sync::atomic::{AtomicBool, Ordering};
use std::thread;
use txn_gate::Gates;

/// How often a turnstile looks at what it waits for, before it fails the test.
const LOOKS: u32 = 10_000_000;

/// What may be waited for.
pub trait Awaited {
    fn has_come(&self) -> bool;
}

impl Awaited for AtomicBool {
    fn has_come(&self) -> bool {
        self.load(Ordering::SeqCst)
    }
}

/// What the word of a port says now.
pub fn word_of(gates: &Gates, port: u32) -> Word
    requires { port < MAX_PORTS }
{
    Word::of(
        gates
            .words
            .shared
            .peek(((port % 512) * 8 + port / 512) as usize),
    )
}

/// Waits until that has come, and sets the flag where it never does. Nobody waits any more once the flag is set.
pub fn await_it<A: Awaited>(awaited: &A, missed: &AtomicBool) {
    for _ in 0..LOOKS {
        if awaited.has_come() || missed.load(Ordering::SeqCst) {
            return;
        }
        thread::yield_now();
    }
    missed.store(true, Ordering::SeqCst);
}
