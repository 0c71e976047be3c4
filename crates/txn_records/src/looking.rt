//! What a look at a port finds.

ghost use Rattle.std.specs.Prelude.{◌≡◌};
ghost use Rattle.txn_records.specs.Looks.{look_of};

use quiesce_word::Word;

/// What a look at a port finds.
#[derive(Clone, Copy, PartialEq, Eq)]
pub enum Look {
    /// The port is closed, and idle or in a consequent transaction; `serial` is that of its last one.
    Drained { serial: u32, idle: bool },
    /// It is open, or has a transaction that its owner began: the word that was loaded.
    Busy { word: u64 },
}

impl Look {
    /// What a word shows.
    pub fn of(word: u64) -> Look
        ensures { result ≡ look_of word }
    {
        let fields = Word::of(word);
        if fields.is_drained() {
            return Look::Drained {
                serial: fields.serial,
                idle: fields.phase.is_idle(),
            };
        }
        Look::Busy { word }
    }
}
