//! Laws of words: what a word spells, at which bits, and what the operations of the gates make of words.

ghost use Rattle.std.specs.Prelude.{◌≡◌, ◌+◌, ◌*◌, ◌^◌, ◌<◌, ℕ, List, Option, Some, None, true, false, bit_and, bit_or, bit_xor};
ghost use Rattle.std.specs.Option.{option_map_or};
ghost use Rattle.config_graph.specs.Kinds.{row};
ghost use Rattle.config_graph.specs.declared.TheConstants.{VALUE_LIMIT};
ghost use Rattle.quiesce_word.specs.Operands.{link_difference, message_difference};
ghost use Rattle.quiesce_word.specs.Packs.{FitIn, bits, by_fields, plus_one, spell};
ghost use Rattle.quiesce_word.specs.SlotWords.{FitsSlotWord, pack_slot, unpack_slot};
ghost use Rattle.quiesce_word.specs.Words.{FitsWord, flag, pack, phase_bits, provide_bits, slot_bits, unpack};
ghost use Rattle.quiesce_word.specs.declared.slot_word.SlotWord.{SlotWord};
ghost use Rattle.config_graph.specs.declared.node.Target.{Target};
ghost use Rattle.quiesce_word.specs.declared.word.TheConstants.{LAST_SERIAL};
ghost use Rattle.quiesce_word.specs.declared.word.Word.{Word};

use crate::phase::Phase;
use config_graph::Kind;

/// Words as they are worked out by hand: the word of a port that was never made; of a port whose root was just begun,
/// the first, with value 1, to the node in slot 0; of one whose first transaction was called with value 11, to the node
/// in slot 2; and the word of a slot in which a map that adds 10 was made from the node of slot 0, with port 2 as its
/// first.
pub fn worked_words()
    ensures unmade { pack
        (record { closed = true; phase = Phase.Idle; consequent = false; target = None; serial = 0; value = 0 })
        ≡ 0x8000_0000_0000_0000 }
    ensures begun { let first : Target = record { node = 0; provide = 0 } in
        pack (record {
          closed = false;
          phase = Phase.Asked;
          consequent = false;
          target = Some first;
          serial = 1;
          value = 1;
        })
        ≡ 0x2004_0000_0100_0001 }
    ensures called { let third : Target = record { node = 2; provide = 0 } in
        pack (record {
          closed = false;
          phase = Phase.Asked;
          consequent = true;
          target = Some third;
          serial = 1;
          value = 11;
        })
        ≡ 0x300c_0000_0100_000b }
    ensures made { pack_slot (record { kind = Kind.Map; first_port = 2; arg = Some 10; from = Some 0 })
        ≡ 0x1000_00a0_0025 }
{}

/// Operands as they are worked out by hand: of the answer 7 to a message of value 1, and of a link to the node in
/// slot 2.
pub fn worked_operands()
    ensures given { message_difference Phase.Asked 1 Phase.Answered 7 ≡ 0x6000_0000_0000_0006 }
    ensures linked { link_difference (record { node = 2; provide = 0 }) ≡ 0x000c_0000_0000_0000 }
{}

/// A word is the sum of its fields, each times the place of its first bit.
pub fn words_are_sums()
    ensures port { (w : Word) → pack w
        ≡ w.value + 2 ^ 24 * w.serial + 2 ^ 48 * provide_bits w.target + 2 ^ 50 * slot_bits w.target
        + 2 ^ 60 * flag w.consequent + 2 ^ 61 * phase_bits w.phase + 2 ^ 63 * flag w.closed }
    ensures slot { (w : SlotWord) → pack_slot w
        ≡ 1 + (row w.kind).number + 16 * w.first_port + 2 ^ 20 * option_map_or (λ a. a) w.arg 0
        + 2 ^ 44 * plus_one w.from }
{}

/// Words are numbers of 64 bits, and the word of a slot in which a node was made isn't 0. Values and arguments fill
/// their fields, and so do serials, the last among them.
pub fn words_have_their_room()
    ensures port { (w : Word) → FitsWord w → pack w < 2 ^ 64 }
    ensures slot { (w : SlotWord) → FitsSlotWord w → pack_slot w < 2 ^ 54 }
    ensures made { (w : SlotWord) → 0 < pack_slot w }
    ensures values { VALUE_LIMIT ≡ 2 ^ 24 }
    ensures serials { LAST_SERIAL + 1 ≡ 2 ^ 24 }
{}

/// Each field of a port stands at its bits.
pub fn each_field_has_its_bits()
    ensures value { (w : Word) → FitsWord w → bits 0 23 (pack w) ≡ w.value }
    ensures serial { (w : Word) → FitsWord w → bits 24 47 (pack w) ≡ w.serial }
    ensures provide { (w : Word) → FitsWord w → bits 48 49 (pack w) ≡ provide_bits w.target }
    ensures slot { (w : Word) → FitsWord w → bits 50 59 (pack w) ≡ slot_bits w.target }
    ensures consequent { (w : Word) → FitsWord w → bits 60 60 (pack w) ≡ flag w.consequent }
    ensures phase { (w : Word) → FitsWord w → bits 61 62 (pack w) ≡ phase_bits w.phase }
    ensures closed { (w : Word) → FitsWord w → bits 63 63 (pack w) ≡ flag w.closed }
{}

/// A word of a port spells the fields that it was packed from.
pub fn words_decode()
    ensures { (w : Word) → FitsWord w → unpack (pack w) ≡ w }
{}

/// So does a word of a slot.
pub fn slot_words_decode()
    ensures { (w : SlotWord) → FitsSlotWord w → unpack_slot (pack_slot w) ≡ Some w }
{}

/// Other fields have another word.
pub fn words_differ()
    ensures { (v w : Word) → FitsWord v → FitsWord w → pack v ≡ pack w → v ≡ w }
{}

/// So they do in words of slots.
pub fn slot_words_differ()
    ensures { (v w : SlotWord) → FitsSlotWord v → FitsSlotWord w → pack_slot v ≡ pack_slot w → v ≡ w }
{}

/// Exclusive or, or, and of numbers that spell fields spell those of the fields.
pub fn packs_meet_field_by_field()
    ensures by_xor { (widths xs ys : List ℕ) → FitIn widths xs → FitIn widths ys
        → bit_xor (spell widths xs) (spell widths ys) ≡ spell widths (by_fields bit_xor xs ys) }
    ensures by_or { (widths xs ys : List ℕ) → FitIn widths xs → FitIn widths ys
        → bit_or (spell widths xs) (spell widths ys) ≡ spell widths (by_fields bit_or xs ys) }
    ensures by_and { (widths xs ys : List ℕ) → FitIn widths xs → FitIn widths ys
        → bit_and (spell widths xs) (spell widths ys) ≡ spell widths (by_fields bit_and xs ys) }
{}
