//! The word of a slot.

ghost use Rattle.std.specs.Prelude.{◌≡◌};
ghost use Rattle.quiesce_word.specs.SlotWords.{FitsSlotWord, kind_of_bits, pack_slot, unpack_slot};

use crate::bits::{bits, less_one};
use config_graph::Kind;

/// How many kinds and none a word can spell, how many first ports, and how many arguments.
const KINDS: u64 = 1 << 4;

const PORTS: u64 = 1 << 16;

const ARGUMENTS: u64 = 1 << 24;

/// What a word spells of the node that was made in a slot.
#[derive(Clone, Copy)]
pub struct SlotWord {
    pub kind: Kind,
    /// Its first port. Its ports are numbered in a row, in the order of its requirements.
    pub first_port: u32,
    pub arg: Option<u32>,
    /// The slot of the removed node whose state it took over.
    pub from: Option<u32>,
}

/// All kinds, in the order of their numbers.
const ALL_KINDS: [Kind; 12] = [
    Kind::Philosopher,
    Kind::Place,
    Kind::Fork,
    Kind::Source,
    Kind::Map,
    Kind::Buffer,
    Kind::Sink,
    Kind::Teller,
    Kind::Branch,
    Kind::Account,
    Kind::Asker,
    Kind::Adder,
];

/// The kind whose number is one less.
fn kind_of(number: u64) -> Option<Kind>
    ensures { result ≡ kind_of_bits number }
{
    let place = less_one(number)?;
    ALL_KINDS.get(place as usize).copied()
}

impl SlotWord {
    /// The number that spells the fields. It is never 0, which stands for a slot in which no node was made.
    pub fn pack(self) -> u64
        requires { FitsSlotWord self }
        ensures { result ≡ pack_slot self }
    {
        let from = self.from.map_or(0, |slot| slot as u64 + 1);
        let arg = self.arg.map_or(0, |arg| arg as u64) + ARGUMENTS * from;
        let kind = self.kind.number() as u64 + 1;
        kind + KINDS * (self.first_port as u64 + PORTS * arg)
    }

    /// The fields that a number spells, where it spells a kind.
    pub fn of(word: u64) -> Option<SlotWord>
        ensures { result ≡ unpack_slot word }
    {
        let kind = kind_of(bits(word, 0, 3))?;
        let arg = bits(word, 20, 43) as u32;
        Some(SlotWord {
            kind,
            first_port: bits(word, 4, 19) as u32,
            arg: if kind.has_arg() { Some(arg) } else { None },
            from: less_one(bits(word, 44, 53)).map(|slot| slot as u32),
        })
    }
}
