//! What words ask for.

ghost use Rattle.std.specs.Prelude.{◌≡◌, ◌<◌, ◌↔◌, ◌∷◌, [], IsTrue, codes, length, map, string_bytes, IfOk, IfSome, IfNone};
ghost use Rattle.std.specs.Option.{SomeIff};
ghost use Rattle.std.specs.Str.Parse.{digits_value};
ghost use Rattle.command_words.specs.CommandLine.{Asks, BehindFile, HasBody, HasNoForm, IsCount, IsEnd, IsFound, IsNumber, IsRolled, SaysCounts, SaysObservers, SaysThreads};
ghost use Rattle.command_words.specs.Keywords.{word_of};

use crate::MAX_LANES;
use crate::calls::{number, read_call, read_change};
use crate::keywords::{Keyword, keyword_of};
use crate::words::{Change, Command, Cut, MAX_OBSERVERS, MAX_WORKERS, USUAL_WORKERS, Word};
use config_graph::NoMemory;
use std::alloc::Global;

/// How many threads of each sort a run has.
#[derive(Clone, Copy)]
struct ThreadCounts {
    workers: u32,
    observers: u32,
}

/// How long a roll runs before its parts, for how many rounds each of these may wait, and the change that is cut.
#[derive(Drop)]
struct Rolled<'a> {
    run: u32,
    within: u32,
    change: Change<'a>,
}

/// The command that something makes, where it was found.
macro_rules! found {
    ($read:expr, $what:ident => $command:expr) => {
        match $read {
            Some($what) => Ok(Some($command)),
            None => Ok(None),
        }
    };
}

/// What the words ask for, where they have one of the forms.
pub fn read_words(alloc: Global, words: &[String]) -> Result<Option<Command<'_>>, NoMemory>
    ensures found { IfOk result (λ found. IfSome found (λ command. Asks (map string_bytes words.now) command)) }
    ensures none { IfOk result (λ found. IfNone found (HasNoForm (map string_bytes words.now))) }
{
    match words {
        [] => Ok(None),
        [only] => Ok(read_lone(only.as_str())),
        [first, ..] => read_command(alloc, first.as_str(), &words[1..]),
    }
}

/// What a word asks for by itself.
fn read_lone(word: &str) -> Option<Command<'_>>
    ensures { IsFound (Asks (word.now ∷ [])) result }
{
    if word == "--help" {
        Some(Command::Help { of: None })
    } else if word == "-h" {
        Some(Command::Help { of: None })
    } else if word == "help" {
        Some(Command::Help { of: None })
    } else if word == "--version" {
        Some(Command::Version)
    } else {
        None
    }
}

/// What two or more words ask for, the first of which names a command.
fn read_command<'a>(
    alloc: Global,
    first: &str,
    words: &'a [String],
) -> Result<Option<Command<'a>>, NoMemory>
    requires { 0 < length words.now }
    ensures { IfOk result (IsFound (Asks (first.now ∷ map string_bytes words.now))) }
{
    match keyword_of(first) {
        Some(keyword) if asks_help(words) => Ok(Some(Command::Help { of: Some(keyword) })),
        Some(keyword) => read_body(alloc, keyword, words[0].as_str(), &words[1..]),
        None => Ok(None),
    }
}

/// Whether words behind that of a command ask what its forms are.
fn asks_help(words: &[String]) -> bool
    requires { 0 < length words.now }
    ensures { IsTrue result ↔ (map string_bytes words.now ≡ codes "--help" ∷ []) }
{
    words.len() == 1 && words[0].as_str() == "--help"
}

/// What a command's words ask for, of which the first is a file or a number.
fn read_body<'a>(
    alloc: Global,
    own: Keyword,
    first: &'a str,
    words: &'a [String],
) -> Result<Option<Command<'a>>, NoMemory>
    ensures { IfOk result (IsFound (HasBody own (first.now ∷ map string_bytes words.now))) }
{
    if first.is_empty() {
        return Ok(None);
    }
    let file = Word::of(first);
    match own {
        Keyword::Flat => found!(read_call(alloc, words)?, call => Command::Flat { file, call }),
        Keyword::Plan => found!(read_change(alloc, first, words)?, change => Command::Change {
            cut: Cut::Whole,
            change,
        }),
        Keyword::Parts => found!(read_change(alloc, first, words)?, change => Command::Change {
            cut: Cut::InParts,
            change,
        }),
        Keyword::Roll => found!(read_rolled(alloc, first, words)?, roll => Command::Change {
            cut: Cut::Rolled {
                run: roll.run,
                within: roll.within,
            },
            change: roll.change,
        }),
        // These words ask for a session, which is no command.
        Keyword::Apply => Ok(None),
        Keyword::Replay => found!(read_file(words), events => Command::Replay { file, events }),
        Keyword::Step => found!(read_end(words), _end => Command::Step { script: file }),
        Keyword::Live => found!(said_threads(words), said => Command::Live {
            script: file,
            workers: said.workers,
            observers: said.observers,
        }),
        Keyword::Check => found!(read_file(words), report => Command::Check {
            script: file,
            report,
        }),
        Keyword::Big => found!(read_lanes(first, words), lanes => Command::Big { lanes }),
        Keyword::Upgrade => found!(read_end(words), _end => Command::Upgrade { file }),
    }
}

/// That nothing more is said.
fn read_end(words: &[String]) -> Option<()>
    ensures { IsFound (λ _. IsEnd (map string_bytes words.now)) result }
{
    match words {
        [] => Some(()),
        [_, ..] => None,
    }
}

/// A file, and nothing more.
fn read_file(words: &[String]) -> Option<Word<'_>>
    ensures { IsFound (λ file. BehindFile file IsEnd (map string_bytes words.now)) result }
{
    match words {
        [file] if !file.as_str().is_empty() => Some(Word::of(file.as_str())),
        _ => None,
    }
}

/// How many lanes a word says, and nothing more.
fn read_lanes(word: &str, words: &[String]) -> Option<u32>
    ensures { IsFound (λ lanes. IsEnd (map string_bytes words.now) × IsCount MAX_LANES word.now
        × (lanes ≡ digits_value 10 word.now)) result }
{
    match words {
        [] => count_up_to(word, MAX_LANES),
        [_, ..] => None,
    }
}

/// Two numbers, and the change of a file.
fn read_rolled<'a>(
    alloc: Global,
    file: &'a str,
    words: &'a [String],
) -> Result<Option<Rolled<'a>>, NoMemory>
    ensures { IfOk result (IsFound (λ roll. (roll.change.file ≡ file.now)
        × IsRolled roll.run roll.within roll.change (map string_bytes words.now))) }
{
    match words {
        [] => Ok(None),
        [run, ..] => rolled_behind(alloc, file, run.as_str(), &words[1..]),
    }
}

/// The same of a word and those behind it.
fn rolled_behind<'a>(
    alloc: Global,
    file: &'a str,
    run: &str,
    words: &'a [String],
) -> Result<Option<Rolled<'a>>, NoMemory>
    ensures { IfOk result (IsFound (λ roll. (roll.change.file ≡ file.now) × IsRolled roll.run roll.within roll.change
        (run.now ∷ map string_bytes words.now))) }
{
    match words {
        [] => Ok(None),
        [within, ..] => rolled_change(alloc, file, run, within.as_str(), &words[1..]),
    }
}

/// The same of two words and those behind them.
fn rolled_change<'a>(
    alloc: Global,
    file: &'a str,
    run: &str,
    within: &str,
    words: &'a [String],
) -> Result<Option<Rolled<'a>>, NoMemory>
    ensures { IfOk result (IsFound (λ roll. (roll.change.file ≡ file.now) × IsRolled roll.run roll.within roll.change
        (run.now ∷ within.now ∷ map string_bytes words.now))) }
{
    let Some(run) = number(run) else {
        return Ok(None);
    };
    let Some(within) = number(within) else {
        return Ok(None);
    };
    match read_change(alloc, file, words)? {
        Some(change) => Ok(Some(Rolled {
            run,
            within,
            change,
        })),
        None => Ok(None),
    }
}

/// How many threads these words say, which say nothing or begin with the option of workers.
fn said_threads(words: &[String]) -> Option<ThreadCounts>
    ensures { IsFound (λ said. SaysThreads (map string_bytes words.now) said.workers said.observers) result }
{
    match words {
        [] => Some(ThreadCounts {
            workers: USUAL_WORKERS,
            observers: 0,
        }),
        [option, ..] => said_workers(option.as_str(), &words[1..]),
    }
}

/// How many threads an option and these words behind it say.
fn said_workers(option: &str, words: &[String]) -> Option<ThreadCounts>
    ensures { IsFound (λ said. SaysThreads (option.now ∷ map string_bytes words.now) said.workers said.observers)
        result }
{
    if option == "--workers" {
        said_counts(words)
    } else {
        None
    }
}

/// How many threads these words say, the first of which is the number of workers.
fn said_counts(words: &[String]) -> Option<ThreadCounts>
    ensures { IsFound (λ said. SaysCounts (map string_bytes words.now) said.workers said.observers) result }
{
    match words {
        [] => None,
        [count, ..] => {
            let workers = count_up_to(count.as_str(), MAX_WORKERS)?;
            let observers = said_observers(&words[1..])?;
            Some(ThreadCounts { workers, observers })
        }
    }
}

/// How many observers these words say, which say nothing or are an option and its number.
fn said_observers(words: &[String]) -> Option<u32>
    ensures { IsFound (SaysObservers (map string_bytes words.now)) result }
{
    match words {
        [] => Some(0),
        [option, count] if option.as_str() == "--watch" => {
            count_up_to(count.as_str(), MAX_OBSERVERS)
        }
        _ => None,
    }
}

/// The value of a word that is digits, where it is from 1 to the most.
fn count_up_to(word: &str, most: u32) -> Option<u32>
    ensures { SomeIff result (IsCount most word.now) (digits_value 10 word.now) }
{
    match number(word) {
        Some(count) if 1 <= count && count <= most => Some(count),
        _ => None,
    }
}
