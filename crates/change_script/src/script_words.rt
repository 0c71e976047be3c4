//! The words of a line of a script, by the form that the line has.

ghost use Rattle.std.specs.Prelude.{◌≡◌, ◌<◌, not, nat_eq, codes, length, map, option_copied, option_map, IfOk, IfSome};
ghost use Rattle.std.specs.List.{list_all, starts_with};
ghost use Rattle.change_script.specs.Tokens as of_tokens;
ghost use Rattle.change_script.specs.ScriptWords.{change_head, change_within, change_words, ends_of, file_in, first_move, is_blankless, more_moves, moves_in, name_behind, one_word, optional_arguments, start_words, script_verb_bytes, script_verb_named, where_empty, within_and_moves, within_at, without_blanks, words_behind, words_in, words_in_tokens, words_of};

use crate::arguments::arguments;
use crate::tokens::{after_arrow, after_sign, blanks_len, first_word, is_blank, is_end};
use config_graph::NoMemory;
use std::alloc::Global;

/// The first word of each line but `use`.
#[derive(Clone, Copy)]
pub enum ScriptVerb {
    Start,
    Run,
    Change,
    Finish,
    Show,
    Stop,
}

/// PATH -> PATH
#[derive(Clone, Copy)]
pub struct MoveWords<'a> {
    pub from: &'a [u8],
    pub to: &'a [u8],
}

/// What stands in a line at the places of NUM, FILE, C and the arguments.
#[derive(Drop)]
pub enum StatementWords<'a> {
    File(&'a [u8]),
    Start {
        name: &'a [u8],
        args: Vec<&'a [u8]>,
    },
    Run(&'a [u8]),
    Change {
        name: &'a [u8],
        args: Vec<&'a [u8]>,
        within: &'a [u8],
        moves: Vec<MoveWords<'a>>,
    },
    Finish(&'a [u8]),
    Show,
    Stop,
}

const VERBS: [ScriptVerb; 6] = [
    ScriptVerb::Start,
    ScriptVerb::Run,
    ScriptVerb::Change,
    ScriptVerb::Finish,
    ScriptVerb::Show,
    ScriptVerb::Stop,
];

impl ScriptVerb {
    fn bytes(self) -> &'static [u8]
        ensures { result.now ≡ script_verb_bytes self }
    {
        match self {
            ScriptVerb::Start => b"start",
            ScriptVerb::Run => b"run",
            ScriptVerb::Change => b"change",
            ScriptVerb::Finish => b"finish",
            ScriptVerb::Show => b"show",
            ScriptVerb::Stop => b"end",
        }
    }
}

/// The verb of a line that begins with this word.
fn script_verb_named(name: &[u8]) -> Option<ScriptVerb>
    ensures { result ≡ script_verb_named name.now }
{
    VERBS.iter().copied().find(|verb| verb.bytes() == name)
}

/// The words of a line; `None` where it has none of the forms.
pub fn words_in(alloc: Global, line: &[u8]) -> Result<Option<StatementWords<'_>>, NoMemory>
    ensures { IfOk result (λ found. option_map words_of found ≡ words_in line.now) }
{
    match file_in(line) {
        Some(name) => Ok(Some(StatementWords::File(name))),
        None => words_in_tokens(alloc, line),
    }
}

/// FILE, where the line is `use`, a blank or more, and then one piece without a blank.
fn file_in(line: &[u8]) -> Option<&[u8]>
    ensures { option_copied result ≡ file_in line.now }
{
    if !begins_use(line) {
        return None;
    }
    name_behind(&line[3..])
}

fn begins_use(line: &[u8]) -> bool
    ensures { result ≡ starts_with nat_eq line.now (codes "use") }
{
    line.starts_with(b"use")
}

fn name_behind(text: &[u8]) -> Option<&[u8]>
    ensures { option_copied result ≡ name_behind text.now }
{
    let name = without_blanks(text);
    if begins_blank(text) && is_blankless(name) {
        Some(name)
    } else {
        None
    }
}

fn words_in_tokens(alloc: Global, line: &[u8]) -> Result<Option<StatementWords<'_>>, NoMemory>
    ensures { IfOk result (λ found. option_map words_of found ≡ words_in_tokens (of_tokens.tokens line.now)) }
{
    let Some((name, rest)) = first_word(line) else {
        return Ok(None);
    };
    match script_verb_named(name) {
        Some(verb) => words_behind(alloc, verb, rest),
        None => Ok(None),
    }
}

/// The words behind a verb.
fn words_behind(
    alloc: Global,
    verb: ScriptVerb,
    line: &[u8],
) -> Result<Option<StatementWords<'_>>, NoMemory>
    ensures { IfOk result (λ found. option_map words_of found ≡ words_behind verb (of_tokens.tokens line.now)) }
{
    match verb {
        ScriptVerb::Start => start_words(alloc, line),
        ScriptVerb::Run => Ok(run_words(line)),
        ScriptVerb::Change => change_words(alloc, line),
        ScriptVerb::Finish => Ok(finish_words(line)),
        ScriptVerb::Show => Ok(where_empty(StatementWords::Show, line)),
        ScriptVerb::Stop => Ok(where_empty(StatementWords::Stop, line)),
    }
}

fn where_empty<'a>(words: StatementWords<'a>, line: &[u8]) -> Option<StatementWords<'a>>
    ensures { option_map words_of result ≡ where_empty (words_of words.entry) (of_tokens.tokens line.now) }
{
    if is_end(line) { Some(words) } else { None }
}

/// NUM
fn run_words(line: &[u8]) -> Option<StatementWords<'_>>
    ensures { option_map words_of result ≡ words_behind ScriptVerb.Run (of_tokens.tokens line.now) }
{
    let count = one_word(line)?;
    Some(StatementWords::Run(count))
}

/// `within` NUM
fn finish_words(line: &[u8]) -> Option<StatementWords<'_>>
    ensures { option_map words_of result ≡ words_behind ScriptVerb.Finish (of_tokens.tokens line.now) }
{
    let (within, line) = within_at(line)?;
    if is_end(line) {
        Some(StatementWords::Finish(within))
    } else {
        None
    }
}

/// The one word of the line.
fn one_word(line: &[u8]) -> Option<&[u8]>
    ensures { option_copied result ≡ one_word (of_tokens.tokens line.now) }
{
    let (count, line) = first_word(line)?;
    if is_end(line) { Some(count) } else { None }
}

/// The word behind `within`, and what stands behind it.
fn within_at(line: &[u8]) -> Option<(&[u8], &[u8])>
    ensures { option_map (λ pair. (pair.0.now, of_tokens.tokens pair.1.now)) result ≡ within_at
        (of_tokens.tokens line.now) }
{
    let (preposition, line) = first_word(line)?;
    let (count, line) = first_word(line)?;
    if preposition == b"within".as_slice() {
        Some((count, line))
    } else {
        None
    }
}

/// C [args]
fn start_words(alloc: Global, line: &[u8]) -> Result<Option<StatementWords<'_>>, NoMemory>
    ensures { IfOk result (λ found. option_map words_of found ≡ start_words (of_tokens.tokens line.now)) }
{
    let Some((name, line)) = first_word(line) else {
        return Ok(None);
    };
    match optional_arguments(alloc, line)? {
        Some((args, rest)) if is_end(rest) => Ok(Some(StatementWords::Start { name, args })),
        _ => Ok(None),
    }
}

/// Nothing, or the arguments in parentheses; and what stands behind them.
fn optional_arguments(alloc: Global, line: &[u8]) -> Result<Option<(Vec<&[u8]>, &[u8])>, NoMemory>
    ensures { IfOk result (λ found. option_map (λ pair. (
      map (λ word. word.now) pair.0.items,
      of_tokens.tokens
          pair.1.now,
    )) found ≡ optional_arguments (of_tokens.tokens line.now)) }
{
    match after_sign(line, b'(') {
        Some(rest) => arguments(alloc, rest),
        None => Ok(Some((Vec::new(alloc), line))),
    }
}

/// `to` C [args] `within` NUM [`moving` moves]
fn change_words(alloc: Global, line: &[u8]) -> Result<Option<StatementWords<'_>>, NoMemory>
    ensures { IfOk result (λ found. option_map words_of found ≡ change_words (of_tokens.tokens line.now)) }
{
    let Some((name, line)) = change_head(line) else {
        return Ok(None);
    };
    match optional_arguments(alloc, line)? {
        Some((args, rest)) => change_with(alloc, name, args, rest),
        None => Ok(None),
    }
}

/// `to` C, and what stands behind.
fn change_head(line: &[u8]) -> Option<(&[u8], &[u8])>
    ensures { option_map (λ pair. (pair.0.now, of_tokens.tokens pair.1.now)) result ≡ change_head
        (of_tokens.tokens line.now) }
{
    let (preposition, line) = first_word(line)?;
    let (name, line) = first_word(line)?;
    if preposition == b"to".as_slice() {
        Some((name, line))
    } else {
        None
    }
}

/// `within` NUM [`moving` moves]
fn change_with<'a>(
    alloc: Global,
    name: &'a [u8],
    args: Vec<&'a [u8]>,
    line: &'a [u8],
) -> Result<Option<StatementWords<'a>>, NoMemory>
    ensures { IfOk result (λ found. option_map words_of found ≡ change_within name.now
        (map (λ word. word.now) args.entry.items) (within_at (of_tokens.tokens line.now))) }
{
    match within_and_moves(alloc, line)? {
        Some((within, moves)) => Ok(Some(StatementWords::Change {
            name,
            args,
            within,
            moves,
        })),
        None => Ok(None),
    }
}

/// The word behind `within`, and the moves behind it.
fn within_and_moves(
    alloc: Global,
    line: &[u8],
) -> Result<Option<(&[u8], Vec<MoveWords<'_>>)>, NoMemory>
    ensures { IfOk result (λ found. option_map (λ pair. (pair.0.now, map ends_of pair.1.items)) found
        ≡ within_and_moves (within_at (of_tokens.tokens line.now))) }
{
    let Some((within, line)) = within_at(line) else {
        return Ok(None);
    };
    match moves_in(alloc, line)? {
        Some(moves) => Ok(Some((within, moves))),
        None => Ok(None),
    }
}

/// Nothing, or `moving` and moves.
fn moves_in(alloc: Global, line: &[u8]) -> Result<Option<Vec<MoveWords<'_>>>, NoMemory>
    ensures { IfOk result
        (λ found. option_map (λ moves. map ends_of moves.items) found ≡ moves_in (of_tokens.tokens line.now)) }
{
    if is_end(line) {
        return Ok(Some(Vec::new(alloc)));
    }
    match first_word(line) {
        Some((adverb, line)) if adverb == b"moving".as_slice() => more_moves(alloc, line),
        _ => Ok(None),
    }
}

/// PATH -> PATH {, PATH -> PATH}
fn more_moves(alloc: Global, line: &[u8]) -> Result<Option<Vec<MoveWords<'_>>>, NoMemory>
    ensures { IfOk result
        (λ found. option_map (λ moves. map ends_of moves.items) found ≡ more_moves (of_tokens.tokens line.now)) }
{
    let mut moves = Vec::new(alloc);
    let mut rest = line;
    'moves: loop {
        let Some((ends, behind)) = first_move(rest) else {
            return Ok(None);
        };
        moves.push(ends)?;
        if is_end(behind) {
            return Ok(Some(moves));
        }
        let Some(behind) = after_sign(behind, b',') else {
            return Ok(None);
        };
        rest = behind;
    }
}

/// PATH -> PATH, and what stands behind.
fn first_move(line: &[u8]) -> Option<(MoveWords<'_>, &[u8])>
    ensures moved { option_map (λ pair. (ends_of pair.0, of_tokens.tokens pair.1.now)) result ≡ first_move
        (of_tokens.tokens line.now) }
    ensures shorter { IfSome result (λ pair. length pair.1.now < length line.now) }
{
    let (from, line) = first_word(line)?;
    let line = after_arrow(line)?;
    let (to, line) = first_word(line)?;
    Some((MoveWords { from, to }, line))
}

/// `text` from its first byte on that is no blank.
fn without_blanks(text: &[u8]) -> &[u8]
    ensures { result.now ≡ without_blanks text.now }
{
    &text[blanks_len(text)..]
}

/// Whether the text begins with a space or a tab.
fn begins_blank(text: &[u8]) -> bool
    ensures { result ≡ of_tokens.begins_blank text.now }
{
    match text.first() {
        Some(&first) => is_blank(first),
        None => false,
    }
}

/// Whether the text is one byte or more and has no blank.
fn is_blankless(text: &[u8]) -> bool
    ensures { result ≡ is_blankless text.now }
{
    !text.is_empty() && has_no_blank(text)
}

fn has_no_blank(text: &[u8]) -> bool
    ensures { result ≡ list_all (λ byte. not (of_tokens.is_blank byte)) text.now }
{
    text.iter().all(|byte| !is_blank(*byte))
}
