//! The words that ask for a session of `apply`.

ghost use Rattle.std.specs.Prelude.{◌≡◌, ◌∷◌, map, string_bytes, IfOk, IfSome, IfNone};
ghost use Rattle.command_words.specs.SessionWords.{AskForNoSession, AsksToApply, SaysChange, SaysSession};

use crate::calls::{number, read_change};
use crate::words::Change;
use config_graph::NoMemory;
use std::alloc::Global;

/// A change that is to be carried out on a system elsewhere.
#[derive(Drop)]
pub struct SessionWords<'a> {
    /// In rounds: how long the ports have to drain.
    pub within: u32,
    pub change: Change<'a>,
}

/// What the words ask for, where they ask for a session.
pub fn read_session(alloc: Global, words: &[String]) -> Result<Option<SessionWords<'_>>, NoMemory>
    ensures found { IfOk result (λ found. IfSome found (AsksToApply (map string_bytes words.now))) }
    ensures none { IfOk result (λ found. IfNone found (AskForNoSession (map string_bytes words.now))) }
{
    match words {
        [] => Ok(None),
        [first, ..] => read_named(alloc, first.as_str(), &words[1..]),
    }
}

/// What a word asks for with these words behind it.
fn read_named<'a>(
    alloc: Global,
    first: &str,
    words: &'a [String],
) -> Result<Option<SessionWords<'a>>, NoMemory>
    ensures found { IfOk result (λ found. IfSome found (AsksToApply (first.now ∷ map string_bytes words.now))) }
    ensures none { IfOk result (λ found. IfNone found (AskForNoSession (first.now ∷ map string_bytes words.now))) }
{
    if first == "apply" {
        said_session(alloc, words)
    } else {
        Ok(None)
    }
}

/// The session that these words say, the first of which is the number of rounds.
fn said_session(alloc: Global, words: &[String]) -> Result<Option<SessionWords<'_>>, NoMemory>
    ensures found { IfOk result (λ found. IfSome found (SaysSession (map string_bytes words.now))) }
    ensures none { IfOk result (λ found. IfNone found ((asked : SessionWords)
        → SaysSession (map string_bytes words.now) asked → ⊥)) }
{
    match words {
        [] => Ok(None),
        [count, ..] => counted_session(alloc, count.as_str(), &words[1..]),
    }
}

/// The session that a number of rounds and these words behind it say.
fn counted_session<'a>(
    alloc: Global,
    count: &str,
    words: &'a [String],
) -> Result<Option<SessionWords<'a>>, NoMemory>
    ensures found { IfOk result (λ found. IfSome found (SaysSession (count.now ∷ map string_bytes words.now))) }
    ensures none { IfOk result (λ found. IfNone found ((asked : SessionWords)
        → SaysSession (count.now ∷ map string_bytes words.now) asked → ⊥)) }
{
    match number(count) {
        Some(within) => said_change(alloc, within, words),
        None => Ok(None),
    }
}

/// The session of so many rounds whose change these words say, the first of which is the file.
fn said_change(
    alloc: Global,
    within: u32,
    words: &[String],
) -> Result<Option<SessionWords<'_>>, NoMemory>
    ensures within { IfOk result (λ found. IfSome found (λ asked. asked.within ≡ within)) }
    ensures found { IfOk result (λ found. IfSome found (SaysChange (map string_bytes words.now))) }
    ensures none { IfOk result (λ found. IfNone found ((asked : SessionWords)
        → SaysChange (map string_bytes words.now) asked → ⊥)) }
{
    match words {
        [] => Ok(None),
        [file, ..] => change_in(alloc, within, file.as_str(), &words[1..]),
    }
}

/// The same for a file and the words behind it.
fn change_in<'a>(
    alloc: Global,
    within: u32,
    file: &'a str,
    words: &'a [String],
) -> Result<Option<SessionWords<'a>>, NoMemory>
    ensures within { IfOk result (λ found. IfSome found (λ asked. asked.within ≡ within)) }
    ensures found { IfOk result (λ found. IfSome found (SaysChange (file.now ∷ map string_bytes words.now))) }
    ensures none { IfOk result (λ found. IfNone found ((asked : SessionWords)
        → SaysChange (file.now ∷ map string_bytes words.now) asked → ⊥)) }
{
    if file.is_empty() {
        return Ok(None);
    }
    match read_change(alloc, file, words)? {
        Some(change) => Ok(Some(SessionWords { within, change })),
        None => Ok(None),
    }
}
