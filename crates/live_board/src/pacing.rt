//! How long the board leaves nodes to their workers before it scans again.

ghost use Rattle.std.specs.Prelude.{◌≡◌, ◌≤◌};

use std::sync::Wait;
use std::thread::Parker;
use std::time::Duration;

/// Behind so many scans in a row without a move of a worker there is nobody to leave the nodes to.
const SCANS_ALONE: u32 = 8;

/// So many scans come at once, before the first that waits.
const SCANS_AT_ONCE: u32 = 8;

/// So many pauses there are at most, some two seconds: else a system that never rests would move for far longer in the
/// rounds that a script allows.
const PAUSES: u32 = 4_096;

/// By how many microseconds a pause is longer than the one before it, and how long the longest is.
const MICROS_MORE: u32 = 8;

const MOST_MICROS: u32 = 500;

/// The pauses between the scans of a run. A scan takes each node from its worker, and from the processor on which it
/// lies. So the pauses grow while workers move nodes.
#[derive(Drop)]
pub struct Pace {
    parker: Parker,
    /// Behind how many scans workers had moved nodes, since eight in a row found them still.
    busy: u32,
    /// Since how many scans no worker moved a node.
    alone: u32,
    /// How many pauses there were.
    paused: u32,
}

impl Pace {
    pub fn new() -> Pace {
        Pace {
            parker: Parker::new(),
            busy: 0,
            alone: 0,
            paused: 0,
        }
    }

    /// The next scans come at once, and as many pauses may come as at first.
    pub fn restart(&mut self) {
        self.busy = 0;
        self.paused = 0;
    }

    /// How many microseconds the next scan waits: none where no worker is at work.
    fn pause(&self) -> u32
        ensures few { result ≤ 500 }
        ensures none { self.now.busy ≡ 0 → result ≡ 0 }
    {
        match self.busy.checked_sub(SCANS_AT_ONCE) {
            Some(scans) if self.paused < PAUSES => {
                scans.saturating_mul(MICROS_MORE).min(MOST_MICROS)
            }
            _ => 0,
        }
    }

    /// Waits for as long as the scans before say.
    pub fn wait<R: Wait>(&self, rt: &R) {
        let micros = self.pause();
        if micros > 0 {
            self.parker
                .park_timeout(rt, Duration::from_micros(u64::from(micros)));
        }
    }

    /// Notes that a scan was made, and whether a worker moved a node since the one before.
    pub fn note(&mut self, moved: bool) {
        if self.pause() > 0 {
            self.paused = self.paused.saturating_add(1);
        }
        if moved {
            self.alone = 0;
            self.busy = self.busy.saturating_add(1);
        } else {
            self.alone = self.alone.saturating_add(1);
            self.busy = if self.alone < SCANS_ALONE {
                self.busy
            } else {
                0
            };
        }
    }
}
