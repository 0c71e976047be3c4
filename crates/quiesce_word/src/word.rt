//! The word of a port.

ghost use Rattle.std.specs.Prelude.{◌≡◌, ◌<◌, ◌^◌};
ghost use Rattle.quiesce_word.specs.Words as words;
ghost use Rattle.quiesce_word.specs.Words.{FitsWord};

use crate::bits::{bits, less_one};
use crate::phase::Phase;
use config_graph::Target;

/// How many values and how many serials a word can spell.
const VALUES: u64 = 1 << 24;

/// A port's transactions are spent after that of this serial.
pub const LAST_SERIAL: u32 = 16_777_215;

/// How many provisions of a target, and how many targets, none among them.
const PROVISIONS: u64 = 1 << 2;

const TARGETS: u64 = 1 << 10;

/// What a word spells of a port.
#[derive(Clone, Copy)]
pub struct Word {
    /// Whether no transaction may be begun at the port.
    pub closed: bool,
    /// How far its transaction has come.
    pub phase: Phase,
    /// Whether the transaction belongs to a service of the port's owner.
    pub consequent: bool,
    /// To what the port is linked.
    pub target: Option<Target>,
    /// Which of the port's transactions it is, from 1.
    pub serial: u32,
    /// The last message.
    pub value: u32,
}

fn flag(holds: bool) -> u64
    ensures bits { result ≡ words.flag holds }
    ensures fits { result < 2 ^ 1 }
{
    if holds { 1 } else { 0 }
}

impl Word {
    /// The number that spells the fields.
    pub fn pack(self) -> u64
        requires { FitsWord self }
        ensures { result ≡ words.pack self }
    {
        let (slot, provide) = match self.target {
            Some(target) => (target.node as u64 + 1, target.provide as u64),
            None => (0, 0),
        };
        let phase = self.phase.number() + 4 * flag(self.closed);
        let consequent = flag(self.consequent) + 2 * phase;
        let target = provide + PROVISIONS * (slot + TARGETS * consequent);
        self.value as u64 + VALUES * (self.serial as u64 + VALUES * target)
    }

    /// The fields that a number spells.
    pub fn of(word: u64) -> Word
        ensures fields { result ≡ words.unpack word }
        ensures fits { FitsWord result }
    {
        let provide = bits(word, 48, 49) as u32;
        let target = less_one(bits(word, 50, 59)).map(|node| Target {
            node: node as u32,
            provide,
        });
        Word {
            closed: bits(word, 63, 63) == 1,
            phase: Phase::of(bits(word, 61, 62)),
            consequent: bits(word, 60, 60) == 1,
            target,
            serial: bits(word, 24, 47) as u32,
            value: bits(word, 0, 23) as u32,
        }
    }

    /// Whether the port is closed, and idle or in a consequent transaction.
    pub fn is_drained(self) -> bool
        ensures { result ≡ words.is_drained self }
    {
        self.closed && (self.phase.is_idle() || self.consequent)
    }

    /// Whether the port has a transaction that was begun, and not called within a service.
    pub fn has_root(self) -> bool
        ensures { result ≡ words.has_root self }
    {
        !self.phase.is_idle() && !self.consequent
    }

    /// Whether the port had its last transaction.
    pub fn is_spent(self) -> bool
        ensures { result ≡ words.is_spent self }
    {
        self.serial == LAST_SERIAL
    }

    /// Whether a call finds no target, or no transaction left.
    pub fn is_missing(self) -> bool
        ensures { result ≡ words.is_missing self }
    {
        self.target.is_none() || self.is_spent()
    }

    /// Whether a message stands there for this node.
    pub fn is_message_to(self, node: u32) -> bool
        ensures { result ≡ words.is_message_to node self }
    {
        self.phase.is_asked() && self.target.map_or(false, |target| target.node == node)
    }
}
