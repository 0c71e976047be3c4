//! Operands of the steps by which gates change a word: what exclusive or takes to turn some of its fields, and what
//! or and and take for its closed bit. Each says what it makes of any word that is as the step finds it, whatever the
//! other fields are, since the change closes and opens gates while nodes take their steps.

ghost use Rattle.std.specs.Prelude.{◌≡◌, ◌+◌, ◌^◌, ◌<◌, Some, None, true, false, bit_and, bit_or, bit_xor};
ghost use Rattle.config_graph.specs.declared.node.Target.{Target as Linked};
ghost use Rattle.quiesce_word.specs.Operands.{AreTurned, call_difference, difference, end_difference, link_difference, message_difference};
ghost use Rattle.quiesce_word.specs.Words.{FitsTarget, FitsWord, pack};
ghost use Rattle.quiesce_word.specs.SlotWords.{pack_slot};
ghost use Rattle.quiesce_word.specs.declared.slot_word.SlotWord.{SlotWord as SlotFields};
ghost use Rattle.quiesce_word.specs.declared.word.Word.{Word as Fields};

use crate::phase::Phase;
use crate::word::Word;
use config_graph::Target;

/// The operand of or that closes a gate.
pub const CLOSED: u64 = 1 << 63;

/// The operand of and that opens it.
pub const ALL_BUT_CLOSED: u64 = CLOSED - 1;

const BLANK: Word = Word {
    closed: false,
    phase: Phase::Idle,
    consequent: false,
    target: None,
    serial: 0,
    value: 0,
};

/// A law: or and and with these close and open a gate, and leave the rest of its word as it is.
pub fn closed_bits_turn()
    ensures closing { (w : Fields) → FitsWord w → bit_or (pack w) CLOSED ≡ pack (record w { closed = true }) }
    ensures opening { (w : Fields) → FitsWord w
        → bit_and (pack w) ALL_BUT_CLOSED ≡ pack (record w { closed = false }) }
{}

/// A law: or with the word of a node fills a slot in which none was made.
pub fn slots_are_filled()
    ensures { (w : SlotFields) → bit_or 0 (pack_slot w) ≡ pack_slot w }
{}

/// A law: exclusive or with the difference of two words turns the fields in which they differ, and no others.
pub fn differences_turn_fields()
    ensures { (from to old new : Fields) → FitsWord from → FitsWord to → FitsWord old
        → AreTurned from to old new
        → bit_xor (pack old) (difference from to) ≡ pack new }
{}

/// The operand by which exclusive or makes `to` of `from`.
fn difference_of(from: Word, to: Word) -> u64
    requires from { FitsWord from }
    requires to { FitsWord to }
    ensures { result ≡ difference from to }
{
    from.pack() ^ to.pack()
}

/// A call by a port whose word was loaded before: asks with this value, as the port's next transaction.
pub fn call_operand(loaded: Word, value: u32) -> u64
    requires fits { FitsWord loaded }
    requires serial { loaded.serial + 1 < 2 ^ 24 }
    requires value { value < 2 ^ 24 }
    ensures operand { result ≡ call_difference loaded value }
    ensures turns { (w : Fields) → FitsWord w → w.phase ≡ loaded.phase → w.consequent ≡ loaded.consequent
        → w.serial ≡ loaded.serial → w.value ≡ loaded.value
        → bit_xor (pack w) result
        ≡ pack (record w { phase = Phase.Asked; consequent = true; serial = loaded.serial + 1; value = value }) }
{
    let asked = Word {
        phase: Phase::Asked,
        consequent: true,
        serial: loaded.serial + 1,
        value,
        ..loaded
    };
    difference_of(loaded, asked)
}

/// The answer to a message of value `heard`.
pub fn give_operand(heard: u32, value: u32) -> u64
    requires heard { heard < 2 ^ 24 }
    requires value { value < 2 ^ 24 }
    ensures operand { result ≡ message_difference Phase.Asked heard Phase.Answered value }
    ensures turns { (w : Fields) → FitsWord w → w.phase ≡ Phase.Asked → w.value ≡ heard
        → bit_xor (pack w) result ≡ pack (record w { phase = Phase.Answered; value = value }) }
{
    let asked = Word {
        phase: Phase::Asked,
        value: heard,
        ..BLANK
    };
    let answered = Word {
        phase: Phase::Answered,
        value,
        ..BLANK
    };
    difference_of(asked, answered)
}

/// The intermediate reply to a message of value `heard`.
pub fn more_operand(heard: u32, value: u32) -> u64
    requires heard { heard < 2 ^ 24 }
    requires value { value < 2 ^ 24 }
    ensures operand { result ≡ message_difference Phase.Asked heard Phase.More value }
    ensures turns { (w : Fields) → FitsWord w → w.phase ≡ Phase.Asked → w.value ≡ heard
        → bit_xor (pack w) result ≡ pack (record w { phase = Phase.More; value = value }) }
{
    let asked = Word {
        phase: Phase::Asked,
        value: heard,
        ..BLANK
    };
    let in_more = Word {
        phase: Phase::More,
        value,
        ..BLANK
    };
    difference_of(asked, in_more)
}

/// A further message after an intermediate reply of value `seen`.
pub fn ask_operand(seen: u32, value: u32) -> u64
    requires seen { seen < 2 ^ 24 }
    requires value { value < 2 ^ 24 }
    ensures operand { result ≡ message_difference Phase.More seen Phase.Asked value }
    ensures turns { (w : Fields) → FitsWord w → w.phase ≡ Phase.More → w.value ≡ seen
        → bit_xor (pack w) result ≡ pack (record w { phase = Phase.Asked; value = value }) }
{
    let in_more = Word {
        phase: Phase::More,
        value: seen,
        ..BLANK
    };
    let asked = Word {
        phase: Phase::Asked,
        value,
        ..BLANK
    };
    difference_of(in_more, asked)
}

/// The end of a transaction with the answer `seen`.
pub fn end_operand(seen: u32, consequent: bool) -> u64
    requires { seen < 2 ^ 24 }
    ensures operand { result ≡ end_difference seen consequent }
    ensures turns { (w : Fields) → FitsWord w → w.phase ≡ Phase.Answered → w.value ≡ seen → w.consequent ≡ consequent
        → bit_xor (pack w) result ≡ pack (record w { phase = Phase.Idle; value = 0; consequent = false }) }
{
    let answered = Word {
        phase: Phase::Answered,
        consequent,
        value: seen,
        ..BLANK
    };
    difference_of(answered, BLANK)
}

/// A port that is linked to nothing is linked to the target, and one that is linked to the target to nothing.
pub fn link_operand(target: Target) -> u64
    requires { FitsTarget target }
    ensures operand { result ≡ link_difference target }
    ensures link { (w : Fields) → FitsWord w → w.target ≡ None
        → bit_xor (pack w) result ≡ pack (record w { target = Some target }) }
    ensures unlink { (w : Fields) → FitsWord w → w.target ≡ Some target
        → bit_xor (pack w) result ≡ pack (record w { target = None }) }
{
    let linked = Word {
        target: Some(target),
        ..BLANK
    };
    difference_of(BLANK, linked)
}
