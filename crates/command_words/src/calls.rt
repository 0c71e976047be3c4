//! Changes and calls of components, and the numbers among words.

ghost use Rattle.std.specs.Prelude.{◌≡◌, ◌∷◌, map, string_bytes, IfOk, IfSome, IfNone};
ghost use Rattle.std.specs.List.{AllByRecursion, prefix_len};
ghost use Rattle.std.specs.Option.{SomeIff};
ghost use Rattle.std.specs.Str.Parse.{digits_value};
ghost use Rattle.command_words.specs.CommandLine.{IsCall, IsChange, IsFound, IsInteger, IsNumber, IsOther, IsTarget, integer_of, is_file_name, is_part};
ghost use Rattle.command_words.specs.declared.words.TopCall.{TopCall};

use crate::words::{Change, TopCall, Word};
use config_graph::{List, NoMemory};
use darwin_lexer::is_name;
use std::alloc::Global;

/// A component to which a change leads, and its file where that is named.
#[derive(Drop)]
struct Target<'a> {
    other: Option<Word<'a>>,
    target: TopCall<'a>,
}

/// The change that a file and the words behind it say, with `--` between two components.
pub fn read_change<'a>(
    alloc: Global,
    file: &'a str,
    words: &'a [String],
) -> Result<Option<Change<'a>>, NoMemory>
    ensures { IfOk result (IsFound (λ change. (change.file ≡ file.now) × IsChange (map string_bytes words.now) change)) }
{
    let at = parting(words);
    if at >= words.len() {
        return Ok(None);
    }
    let Some(call) = read_call(alloc, &words[..at])? else {
        return Ok(None);
    };
    let Some(to) = read_target(alloc, &words[at + 1..])? else {
        return Ok(None);
    };
    Ok(Some(Change {
        file: Word::of(file),
        call,
        other: to.other,
        target: to.target,
    }))
}

/// The component to which a change leads, where these words stand behind `--`.
fn read_target(alloc: Global, words: &[String]) -> Result<Option<Target<'_>>, NoMemory>
    ensures { IfOk result (IsFound (λ to. IsTarget (map string_bytes words.now) to.other to.target)) }
{
    match read_call(alloc, words)? {
        Some(target) => Ok(Some(Target {
            other: None,
            target,
        })),
        None => read_other(alloc, words),
    }
}

/// The component of a file that these words name.
fn read_other(alloc: Global, words: &[String]) -> Result<Option<Target<'_>>, NoMemory>
    ensures { IfOk result (IsFound (λ to. IsOther (map string_bytes words.now) to.other to.target)) }
{
    match words {
        [] => Ok(None),
        [file, ..] => other_of(alloc, file.as_str(), &words[1..]),
    }
}

/// The component of a file that a word names and these words behind it.
fn other_of<'a>(
    alloc: Global,
    file: &'a str,
    words: &'a [String],
) -> Result<Option<Target<'a>>, NoMemory>
    ensures { IfOk result (IsFound (λ to. IsOther (file.now ∷ map string_bytes words.now) to.other to.target)) }
{
    if !is_file_name(file) {
        return Ok(None);
    }
    match read_call(alloc, words)? {
        Some(target) => Ok(Some(Target {
            other: Some(Word::of(file)),
            target,
        })),
        None => Ok(None),
    }
}

/// Whether a word holds a dot or a slash, and so names a file behind `--`.
fn is_file_name(word: &str) -> bool
    ensures { result ≡ is_file_name word.now }
{
    word.as_bytes()
        .iter()
        .any(|byte| *byte == b'.' || *byte == b'/')
}

/// How many words stand before the first `--`, or how many there are where none is.
fn parting(words: &[String]) -> usize
    ensures { result ≡ prefix_len (λ word. is_part (string_bytes word)) words.now }
{
    words
        .iter()
        .take_while(|word| word.as_str() != "--")
        .count()
}

/// The component and the arguments that these words are.
pub fn read_call(alloc: Global, words: &[String]) -> Result<Option<TopCall<'_>>, NoMemory>
    ensures found { IfOk result (λ found. IfSome found (λ call. IsCall (map string_bytes words.now) call)) }
    ensures none { IfOk result (λ found. IfNone found ((call : TopCall) → IsCall (map string_bytes words.now) call
        → ⊥)) }
{
    if words.is_empty() {
        return Ok(None);
    }
    let top = words[0].as_str();
    if !is_name(top.as_bytes()) {
        return Ok(None);
    }
    let Some(args) = integers(alloc, &words[1..])? else {
        return Ok(None);
    };
    Ok(Some(TopCall {
        top: Word::of(top),
        args: List::of(args),
    }))
}

/// The values of words that are all integers.
fn integers(alloc: Global, words: &[String]) -> Result<Option<Vec<i32>>, NoMemory>
    ensures found { IfOk result (λ found. IfSome found
        (λ args. AllByRecursion IsInteger (map string_bytes words.now)
        × (args.items ≡ map integer_of (map string_bytes words.now)))) }
    ensures none { IfOk result (λ found. IfNone found (AllByRecursion IsInteger (map string_bytes words.now) → ⊥)) }
{
    let mut values = Vec::new(alloc);
    for word in words {
        match integer(word.as_str()) {
            Some(value) => values.push(value)?,
            None => return Ok(None),
        }
    }
    Ok(Some(values))
}

/// The value of a word that is digits, where it is in the range of a `u32`.
pub fn number(word: &str) -> Option<u32>
    ensures { SomeIff result (IsNumber word.now) (digits_value 10 word.now) }
{
    match word.parse() {
        Ok(value) if !word.starts_with('+') => Some(value),
        _ => None,
    }
}

/// The value of a word that is an optional `-` and digits, where it is in the range of an `i32`.
fn integer(word: &str) -> Option<i32>
    ensures { SomeIff result (IsInteger word.now) (integer_of word.now) }
{
    if word.starts_with('+') {
        return None;
    }
    word.parse().ok()
}
