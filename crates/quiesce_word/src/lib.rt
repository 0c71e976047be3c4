//! Gate words: what the gates keep of a port, and what they keep of a slot, each in one number of 64 bits. A word is
//! packed from fields that have their bits in it, and spells them again.
#![tactic(auto)]

mod bits;
mod laws;
mod operands;
mod phase;
mod slot_word;
mod word;

pub use laws::{
    each_field_has_its_bits, packs_meet_field_by_field, slot_words_decode, slot_words_differ,
    words_are_sums, words_decode, words_differ, words_have_their_room, worked_operands,
    worked_words,
};
pub use operands::{
    ALL_BUT_CLOSED, CLOSED, ask_operand, call_operand, closed_bits_turn, differences_turn_fields,
    end_operand, give_operand, link_operand, more_operand, slots_are_filled,
};
pub use phase::Phase;
pub use slot_word::SlotWord;
pub use word::{LAST_SERIAL, Word};
