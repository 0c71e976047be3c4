//! What words answer the calls of nodes.

ghost use Rattle.std.specs.Prelude.{◌≡◌, None};
ghost use Rattle.quiesce_word.specs.Words as words;
ghost use Rattle.quiesce_word.specs.Words.{unpack};
ghost use Rattle.txn_spec.specs.Steps.{seen_in};
ghost use Rattle.txn_gate.specs.Calls.{called_in, exchanged_in, heard_in, refused_in, taken_in};

use node_gate::{BeginAnswer, CallAnswer, HearAnswer, SeeAnswer, TakeAnswer};
use quiesce_word::{Phase, Word};

/// Why the node can't begin by the word that was loaded, where it can't.
pub fn refusal(loaded: u64) -> Option<BeginAnswer>
    ensures { result ≡ refused_in loaded }
{
    let word = Word::of(loaded);
    if word.closed {
        return Some(BeginAnswer::Closed { word: loaded });
    }
    if word.target.is_none() {
        return Some(BeginAnswer::Unlinked { word: loaded });
    }
    if word.is_spent() {
        return Some(BeginAnswer::Spent {
            serial: word.serial,
        });
    }
    None
}

/// The answer where the exchange was tried.
pub fn exchanged(loaded: u64, found: u64) -> BeginAnswer
    requires { refused_in loaded ≡ None }
    ensures { result ≡ exchanged_in loaded found }
{
    if found == loaded {
        let word = Word::of(loaded);
        return BeginAnswer::Begun {
            serial: word.serial + 1,
            target: word.target.map_or(0, |target| target.node),
        };
    }
    if Word::of(found).closed {
        return BeginAnswer::Closed { word: found };
    }
    BeginAnswer::Again { loaded, found }
}

/// Whether the word of a port that its owner loaded to call there leads nowhere, or had its last transaction.
pub fn is_missing(loaded: u64) -> bool
    ensures { result ≡ words.is_missing (unpack loaded) }
{
    Word::of(loaded).is_missing()
}

/// The answer to a call by the word that was loaded.
pub fn called(loaded: u64) -> CallAnswer
    ensures { result ≡ called_in loaded }
{
    let word = Word::of(loaded);
    if word.is_missing() {
        return CallAnswer::Missed { word: loaded };
    }
    CallAnswer::Called {
        serial: word.serial + 1,
        target: word.target.map_or(0, |target| target.node),
    }
}

/// The answer to the node of this slot that would take a request up.
pub fn taken(found: u64, slot: u32) -> TakeAnswer
    ensures { result ≡ taken_in slot found }
{
    let word = Word::of(found);
    if !word.is_message_to(slot) {
        return TakeAnswer::Stale { word: found };
    }
    TakeAnswer::Taken {
        provide: word.target.map_or(0, |target| target.provide),
        serial: word.serial,
        value: word.value,
    }
}

/// What an owner sees.
pub fn seen(found: u64) -> SeeAnswer
    ensures { result ≡ seen_in found }
{
    let word = Word::of(found);
    match word.phase {
        Phase::Answered => SeeAnswer::Answer { value: word.value },
        Phase::More => SeeAnswer::More { value: word.value },
        _ => SeeAnswer::NotYet { word: found },
    }
}

/// What a service hears.
pub fn heard(found: u64) -> HearAnswer
    ensures { result ≡ heard_in found }
{
    let word = Word::of(found);
    if !word.phase.is_asked() {
        return HearAnswer::NotYet { word: found };
    }
    HearAnswer::Heard { value: word.value }
}
