//! Laws of words: what the words of ports and slots tell of a state, and what each event makes of them.

ghost use Rattle.std.specs.Prelude.{◌≡◌, ◌+◌, ◌≤◌, ◌&&◌, ◌||◌, ℕ, IsTrue, List, None, Option, Some, false, true, bit_and, bit_or, bit_xor, length, is_some, option_map};
ghost use Rattle.std.specs.Option.{option_map_or};
ghost use Rattle.config_graph.specs.declared.node.Node.{Node};
ghost use Rattle.config_graph.specs.declared.node.Target.{Target};
ghost use Rattle.quiesce_word.specs.Phases.{is_answered, is_asked, is_idle, is_in_more};
ghost use Rattle.quiesce_word.specs.SlotWords.{FitsSlotWord, pack_slot, unpack_slot};
ghost use Rattle.quiesce_word.specs.Operands.{call_difference, end_difference, link_difference, message_difference};
ghost use Rattle.quiesce_word.specs.Words.{FitsWord, has_root, is_drained, is_message_to, is_missing, pack, unpack};
ghost use Rattle.quiesce_core.specs.declared.event.Event.{Event};
ghost use Rattle.quiesce_core.specs.declared.state.OpenTxn.{OpenTxn};
ghost use Rattle.quiesce_core.specs.declared.state.Service.{Service};
ghost use Rattle.quiesce_core.specs.declared.state.Slot.{Slot};
ghost use Rattle.quiesce_core.specs.Named.{AreNamed};
ghost use Rattle.quiesce_core.specs.Open.{open_txn};
ghost use Rattle.quiesce_core.specs.Rules.{denial, is_live_port, is_value};
ghost use Rattle.quiesce_core.specs.Runs.{IsRun, Step, is_doer, state_after};
ghost use Rattle.quiesce_core.specs.Sources.{SourcesAreGone};
ghost use Rattle.quiesce_core.specs.State.{Configuration, State, exchange, gate, service, slot, target};
ghost use Rattle.quiesce_core.specs.Traffic.{IsConsistent};
ghost use Rattle.quiesce_core.specs.WellFormed.{IsSound, IsWellFormed};
ghost use Rattle.quiesce_core.specs.Words.{CallsThrough, changed_port, changed_slot, fields_after, root_denial, slot_fields_of, slot_word_of, word_of};
ghost use Rattle.quiesce_core.specs.Fields.{fields_of};

use crate::event::Event;
use crate::state::Phase;
use quiesce_word::{ALL_BUT_CLOSED, CLOSED};

/// What ports and slots show has its room in their words.
pub fn words_fit()
    ensures port { (s : State) → IsWellFormed s → (p : ℕ) → FitsWord (fields_of s p) }
    ensures slot { (c : Configuration) → IsSound c → AreNamed c → SourcesAreGone c
        → (n : ℕ) (m : Slot) → slot c n ≡ Some m → FitsSlotWord (slot_fields_of m) }
{}

/// The words of a state spell what it has of its ports and slots.
pub fn words_of_states_decode()
    ensures port { (s : State) → IsWellFormed s → (p : ℕ) → unpack (word_of s p) ≡ fields_of s p }
    ensures slot { (c : Configuration) → IsSound c → AreNamed c → SourcesAreGone c
        → (n : ℕ) → unpack_slot (slot_word_of c n) ≡ option_map slot_fields_of (slot c n) }
{}

/// So they do after every run.
pub fn words_of_runs_decode()
    ensures port { (es : List Event) (p : ℕ) → IsRun es
        → unpack (word_of (state_after es) p) ≡ fields_of (state_after es) p }
    ensures slot { (es : List Event) (n : ℕ) → IsRun es
        → unpack_slot (slot_word_of (state_after es).config n) ≡ option_map slot_fields_of
        (slot (state_after es).config n) }
{}

/// What each event makes of the words. An event of a port but Take, Hear and Miss changes its word, as `fields_after`
/// says, and no other; a Make changes the word of its slot, which was 0; all else leaves all words as they are.
pub fn words_follow_events()
    ensures port { (s t : State) (e : Event) → IsWellFormed s → Step s e t → (p : ℕ) → changed_port e ≡ Some p
        → fields_of t p ≡ fields_after e (fields_of s p) }
    ensures other_ports { (s t : State) (e : Event) → IsWellFormed s → Step s e t → (p : ℕ)
        → (¬ changed_port e ≡ Some p)
        → fields_of t p ≡ fields_of s p }
    ensures unmade { (s t : State) (n : ℕ) (node : Node) (from : Option ℕ) → Step s (Event.Make n node from) t
        → slot_word_of s.config n ≡ 0 }
    ensures made { (s t : State) (n : ℕ) (node : Node) (from : Option ℕ) → IsWellFormed s
        → Step s (Event.Make n node from) t
        → slot_word_of t.config n
        ≡ pack_slot (record { kind = node.kind; first_port = length s.config.gates; arg = node.arg; from = from }) }
    ensures other_slots { (s t : State) (e : Event) → IsWellFormed s → Step s e t → (n : ℕ)
        → (¬ changed_slot e ≡ Some n)
        → slot_word_of t.config n ≡ slot_word_of s.config n }
{}

/// A port's word tells whether the port is drained, closed and idle or in a consequent transaction, and whether it has
/// an open root.
pub fn words_tell_of_transactions()
    ensures drained { (s : State) → IsWellFormed s → (p : ℕ)
        → is_drained (unpack (word_of s p))
        ≡ ((gate s.config p).closed && (is_idle (exchange s p).phase || is_some (exchange s p).within)) }
    ensures root { (s : State) → IsWellFormed s → (p : ℕ)
        → has_root (unpack (word_of s p)) ≡ option_map_or (λ (t : OpenTxn). t.root) (open_txn s p) false }
{}

/// By which operation of the gates, with which operand, each step comes to the word of `words_follow_events`. A Begin
/// compares and exchanges; a Call, a reply, a further message and an End turn fields by exclusive or, and so do Link
/// and Unlink; Close and Make set bits, and Reopen clears one.
pub fn words_follow_operations()
    ensures begin { (s t : State) (p k v : ℕ) → IsWellFormed s → Step s (Event.Begin p k v) t
        → word_of t p ≡ pack
        (record (fields_of s p) { phase = Phase.Asked; serial = k; value = v; consequent = false }) }
    ensures call { (s t : State) (p k v : ℕ) → IsWellFormed s → Step s (Event.Call p k v) t
        → word_of t p ≡ bit_xor (word_of s p) (call_difference (fields_of s p) v) }
    ensures give { (s t : State) (p k v : ℕ) → IsWellFormed s → IsConsistent s → Step s (Event.Give p k v) t
        → word_of t p ≡ bit_xor (word_of s p) (message_difference Phase.Asked (exchange s p).value Phase.Answered v) }
    ensures more_ { (s t : State) (p k v : ℕ) → IsWellFormed s → IsConsistent s → Step s (Event.More p k v) t
        → word_of t p ≡ bit_xor (word_of s p) (message_difference Phase.Asked (exchange s p).value Phase.More v) }
    ensures ask { (s t : State) (p k v : ℕ) → IsWellFormed s → Step s (Event.Ask p k v) t
        → word_of t p ≡ bit_xor (word_of s p) (message_difference Phase.More (exchange s p).value Phase.Asked v) }
    ensures end { (s t : State) (p k v : ℕ) → IsWellFormed s → Step s (Event.End p k v) t
        → word_of t p ≡ bit_xor (word_of s p) (end_difference v (is_some (exchange s p).within)) }
    ensures close { (s t : State) (p : ℕ) → IsWellFormed s → Step s (Event.Close p) t
        → word_of t p ≡ bit_or (word_of s p) CLOSED }
    ensures reopen { (s t : State) (p : ℕ) → IsWellFormed s → Step s (Event.Reopen p) t
        → word_of t p ≡ bit_and (word_of s p) ALL_BUT_CLOSED }
    ensures link { (s t : State) (p n x : ℕ) → IsWellFormed s → Step s (Event.Link p n x) t
        → word_of t p ≡ bit_xor (word_of s p) (link_difference (record { node = n; provide = x })) }
    ensures unlink { (s t : State) (p : ℕ) (to : Target) → IsWellFormed s → target s.config p ≡ Some to
        → Step s (Event.Unlink p) t
        → word_of t p ≡ bit_xor (word_of s p) (link_difference to) }
    ensures make { (s t : State) (n : ℕ) (node : Node) (from : Option ℕ) → IsWellFormed s
        → Step s (Event.Make n node from) t
        → slot_word_of t.config n ≡ bit_or (slot_word_of s.config n)
        (pack_slot (record { kind = node.kind; first_port = length s.config.gates; arg = node.arg; from = from })) }
{}

/// What was never made has the word of a closed, idle and unlinked port, or of an empty slot.
pub fn unmade_words()
    ensures port { (s : State) → IsWellFormed s → (p : ℕ) → length s.config.gates ≤ p → word_of s p ≡ CLOSED }
    ensures slot { (c : Configuration) (n : ℕ) → length c.slots ≤ n → slot_word_of c n ≡ 0 }
{}

/// Which event a step may do at a port, by the word that it loads. The rest of the event's rules the node knows itself:
/// that it is live and the value is one, and for a call that its service allows it.
pub fn words_judge_events()
    ensures begin { (s : State) (p v : ℕ) → IsWellFormed s → IsTrue (is_live_port s.config p) → IsTrue (is_value v)
        → let w = unpack (word_of s p) in IsTrue (is_idle w.phase)
        → denial s (Event.Begin p (w.serial + 1) v) ≡ root_denial w }
    ensures call { (s : State) (p v : ℕ) → IsWellFormed s → CallsThrough s p → IsTrue (is_value v)
        → let w = unpack (word_of s p) in is_missing w ≡ false → denial s (Event.Call p (w.serial + 1) v) ≡ None }
    ensures miss { (s : State) (p : ℕ) → IsWellFormed s → CallsThrough s p
        → let w = unpack (word_of s p) in is_missing w ≡ true → denial s (Event.Miss p) ≡ None }
    ensures take { (s : State) (p n : ℕ) → IsWellFormed s → IsConsistent s → service s n ≡ None
        → let w = unpack (word_of s p) in is_message_to n w ≡ true
        → denial s (Event.Take p w.serial w.value) ≡ None }
    ensures stale { (s : State) (p n k v : ℕ) → IsWellFormed s
        → let w = unpack (word_of s p) in is_message_to n w ≡ false
        → denial s (Event.Take p k v) ≡ None → is_doer s n (Event.Take p k v) ≡ false }
    ensures hear { (s : State) (p n : ℕ) (u : Service) → IsWellFormed s → IsConsistent s
        → service s n ≡ Some u → u.port ≡ p → u.heard ≡ false
        → let w = unpack (word_of s p) in IsTrue (is_asked w.phase) → denial s (Event.Hear p w.serial w.value) ≡ None }
    ensures ask { (s : State) (p v : ℕ) → IsWellFormed s → IsConsistent s → IsTrue (is_value v)
        → let w = unpack (word_of s p) in IsTrue (is_in_more w.phase) → denial s (Event.Ask p w.serial v) ≡ None }
    ensures end { (s : State) (p : ℕ) → IsWellFormed s → IsConsistent s
        → let w = unpack (word_of s p) in IsTrue (is_answered w.phase)
        → denial s (Event.End p w.serial w.value) ≡ None }
{}
