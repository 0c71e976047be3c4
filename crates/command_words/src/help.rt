//! What the program says of itself.

ghost use Rattle.std.specs.Prelude.{◌≡◌, ◌++◌, None, map, string_bytes, IfOk, OnOk};
ghost use Rattle.std.specs.List.{flat_map};
ghost use Rattle.command_words.specs.HelpTexts as texts;

use crate::keywords::{KEYWORDS, Keyword};
use config_graph::NoMemory;
use std::alloc::Global;

/// What `--version` writes.
pub const VERSION: &str = "darwin_run 0.1.0\n";

const HEAD: &str =
    "darwin_run --help\n    write this text, as -h and help do; behind a command, its form alone\ndarwin_run --version\n    write the program's name and version\n";

const FOOT: &str =
    "\nstatus\n  0  what was asked for is written\n  1  the words have no form\n  2  a description is refused\n  3  a script, a file of events, a report or a line is refused\n  4  a file or standard input can't be read\n  5  standard output failed\n  6  memory ran out\n  7  a change was given up\n  8  a node isn't done behind finish\n  9  an event is denied\n 10  a report isn't consistent with the script\n\n/dev/stdin serves for a file. Behind -- a FILE has a dot or a slash in its name.\n";

/// The commands with their forms and what each does, and the statuses; or the lines of one command.
pub fn help_text(alloc: Global, of: Option<Keyword>) -> Result<Vec<u8>, NoMemory>
    ensures { IfOk result (λ text. text.items ≡ texts.help_text of) }
{
    let mut text = Vec::new(alloc);
    match of {
        Some(keyword) => push_lines(&mut text, keyword)?,
        None => push_all(&mut text)?,
    }
    Ok(text)
}

/// The form that is nearest to words which have none: that of the command whose word has most in common with the first of
/// them, at its front.
pub fn hint(words: &[String]) -> &'static str
    ensures { result.now ≡ texts.hint_of (map string_bytes words.now) }
{
    match words {
        [] => "darwin_run --help\n",
        [first, ..] => nearest_form(nearest(first.as_str().as_bytes(), &KEYWORDS)),
    }
}

fn nearest_form(keyword: Option<Keyword>) -> &'static str
    ensures { result.now ≡ texts.nearest_form keyword }
{
    match keyword {
        None => "darwin_run --help\n",
        Some(keyword) => keyword.form(),
    }
}

/// The command of these whose word has most in common with a word, at its front.
fn nearest(word: &[u8], keywords: &[Keyword]) -> Option<Keyword>
    ensures { result ≡ texts.nearest_of word.now None keywords.now }
{
    let mut best = None;
    for keyword in keywords {
        best = nearer(word, best, *keyword);
    }
    best
}

/// The later of two commands, where its word has more in common with a word.
fn nearer(word: &[u8], best: Option<Keyword>, keyword: Keyword) -> Option<Keyword>
    ensures { result ≡ texts.nearer word.now best keyword }
{
    let least = match best {
        Some(best) => in_common(word, best.word().as_bytes()),
        None => 0,
    };
    if least < in_common(word, keyword.word().as_bytes()) {
        Some(keyword)
    } else {
        best
    }
}

/// How many bytes two words have in common at their fronts.
fn in_common(one: &[u8], other: &[u8]) -> usize
    ensures { result ≡ texts.in_common one.now other.now }
{
    let mut count = 0;
    while count < one.len() && count < other.len() && one[count] == other[count] {
        count += 1;
    }
    count
}

fn push_all(text: &mut Vec<u8>) -> Result<(), NoMemory>
    ensures { OnOk result (text.new.items ≡ text.old.items ++ texts.help_text None) }
{
    text.extend_from_slice(HEAD.as_bytes())?;
    push_commands(text, &KEYWORDS)?;
    text.extend_from_slice(FOOT.as_bytes())
}

fn push_commands(text: &mut Vec<u8>, keywords: &[Keyword]) -> Result<(), NoMemory>
    ensures { OnOk result (text.new.items ≡ text.old.items ++ flat_map texts.lines_of keywords.now) }
{
    for keyword in keywords {
        push_lines(text, *keyword)?;
    }
    Ok(())
}

fn push_lines(text: &mut Vec<u8>, keyword: Keyword) -> Result<(), NoMemory>
    ensures { OnOk result (text.new.items ≡ text.old.items ++ texts.lines_of keyword) }
{
    text.extend_from_slice(keyword.form().as_bytes())?;
    text.extend_from_slice(keyword.deed().as_bytes())
}
