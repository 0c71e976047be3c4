//! What a line of a script means.

ghost use Rattle.std.specs.Prelude.{◌≡◌, true, map, Some, IfOk};
ghost use Rattle.std.specs.List.{list_all};
ghost use Rattle.std.specs.Str.{is_utf8};
ghost use Rattle.change_script.specs.Faults.{MeansLine};
ghost use Rattle.change_script.specs.Numbers as of_numbers;
ghost use Rattle.change_script.specs.ScriptForms.{are_paths, are_right};
ghost use Rattle.change_script.specs.ScriptLines.{body_of, keep_limits, meaning, meaning_of, move_of, paths_fit};
ghost use Rattle.change_script.specs.ScriptWords.{ends_of, words_of};

use crate::arguments::{are_integers, integer_values, integers_fit};
use crate::error::{LineError, LineFault};
use crate::numbers::{is_number, number_fits, number_value};
use crate::paths::{is_name, is_path, path_fits};
use crate::script_words::{MoveWords, StatementWords, words_in};
use change_plan::Move;
use config_graph::{List, NoMemory, Text};
use report_types::Body;
use std::alloc::Global;

/// The statement of a line, or what is wrong with the line.
pub fn meaning(alloc: Global, line: &[u8]) -> Result<Body, LineError>
    ensures { MeansLine result (meaning line.now) }
{
    match words_in(alloc, line)? {
        Some(words) => meaning_of(alloc, &words),
        None => Err(LineError::Fault(LineFault::Bad)),
    }
}

fn meaning_of(alloc: Global, words: &StatementWords<'_>) -> Result<Body, LineError>
    ensures { MeansLine result (meaning_of (Some (words_of words.now))) }
{
    if !are_right(words) {
        return Err(LineError::Fault(LineFault::Bad));
    }
    if !keep_limits(words) {
        return Err(LineError::Fault(LineFault::Big));
    }
    Ok(body_of(alloc, words)?)
}

/// Whether each word is of the kind that stands at its place.
fn are_right(words: &StatementWords<'_>) -> bool
    ensures { result ≡ are_right (words_of words.now) }
{
    match words {
        StatementWords::File(name) => is_utf8(name),
        StatementWords::Start { name, args } => is_name(name) && are_integers(args),
        StatementWords::Run(count) => is_number(count),
        StatementWords::Change {
            name,
            args,
            within,
            moves,
        } => is_name(name) && are_integers(args) && is_number(within) && all_are_paths(moves),
        StatementWords::Finish(within) => is_number(within),
        StatementWords::Show | StatementWords::Stop => true,
    }
}

/// Whether each number is within its limit.
fn keep_limits(words: &StatementWords<'_>) -> bool
    requires { are_right (words_of words.now) ≡ true }
    ensures { result ≡ keep_limits (words_of words.now) }
{
    match words {
        StatementWords::Start { args, .. } => integers_fit(args),
        StatementWords::Run(count) => number_fits(count),
        StatementWords::Change {
            args,
            within,
            moves,
            ..
        } => integers_fit(args) && number_fits(within) && all_paths_fit(moves),
        StatementWords::Finish(within) => number_fits(within),
        StatementWords::File(_) | StatementWords::Show | StatementWords::Stop => true,
    }
}

/// The statement that right words make.
fn body_of(alloc: Global, words: &StatementWords<'_>) -> Result<Body, NoMemory>
    requires right { are_right (words_of words.now) ≡ true }
    requires limits { keep_limits (words_of words.now) ≡ true }
    ensures { IfOk result (λ body. body ≡ body_of (words_of words.now)) }
{
    match words {
        StatementWords::File(name) => Ok(Body::File(Text::from_bytes(alloc, name)?)),
        StatementWords::Start { name, args } => start_of(alloc, name, args),
        StatementWords::Run(count) => Ok(Body::Run(number_value(count))),
        StatementWords::Change {
            name,
            args,
            within,
            moves,
        } => change_of(alloc, name, args, number_value(within), moves),
        StatementWords::Finish(within) => Ok(Body::Finish(number_value(within))),
        StatementWords::Show => Ok(Body::Show),
        StatementWords::Stop => Ok(Body::Stop),
    }
}

fn start_of(alloc: Global, name: &[u8], args: &[&[u8]]) -> Result<Body, NoMemory>
    requires integers { list_all of_numbers.is_integer (map (λ word. word.now) args.now) ≡ true }
    requires fit { list_all of_numbers.integer_fits (map (λ word. word.now) args.now) ≡ true }
    ensures { IfOk result
        (λ body. body ≡ Body.Start name.now (map of_numbers.integer (map (λ word. word.now) args.now))) }
{
    let args = integer_values(alloc, args)?;
    let name = Text::from_bytes(alloc, name)?;
    Ok(Body::Start {
        name,
        args: List::of(args),
    })
}

fn change_of(
    alloc: Global,
    name: &[u8],
    args: &[&[u8]],
    within: u32,
    moves: &[MoveWords<'_>],
) -> Result<Body, NoMemory>
    requires integers { list_all of_numbers.is_integer (map (λ word. word.now) args.now) ≡ true }
    requires fit { list_all of_numbers.integer_fits (map (λ word. word.now) args.now) ≡ true }
    ensures { IfOk result (λ body. body ≡ Body.Change name.now
        (map of_numbers.integer (map (λ word. word.now) args.now)) within (map move_of (map ends_of moves.now))) }
{
    let args = integer_values(alloc, args)?;
    let moves = moves_of(alloc, moves)?;
    let name = Text::from_bytes(alloc, name)?;
    Ok(Body::Change {
        name,
        args: List::of(args),
        within,
        moves: List::of(moves),
    })
}

fn moves_of(alloc: Global, moves: &[MoveWords<'_>]) -> Result<Vec<Move>, NoMemory>
    ensures { IfOk result (λ made. made.items ≡ map move_of (map ends_of moves.now)) }
{
    let mut made = Vec::new(alloc);
    for ends in moves {
        made.push(move_of(alloc, ends)?)?;
    }
    Ok(made)
}

fn move_of(alloc: Global, ends: &MoveWords<'_>) -> Result<Move, NoMemory>
    ensures { IfOk result (λ made. made ≡ move_of (ends_of ends.now)) }
{
    let from = Text::from_bytes(alloc, ends.from)?;
    let to = Text::from_bytes(alloc, ends.to)?;
    Ok(Move { from, to })
}

/// Whether both ends of each move are paths.
fn all_are_paths(moves: &[MoveWords<'_>]) -> bool
    ensures { result ≡ list_all are_paths (map ends_of moves.now) }
{
    each_is_of_paths(moves)
}

fn each_is_of_paths(moves: &[MoveWords<'_>]) -> bool
    ensures { result ≡ list_all (λ ends. are_paths (ends_of ends)) moves.now }
{
    moves
        .iter()
        .all(|ends| is_path(ends.from) && is_path(ends.to))
}

/// Whether the indexes of all paths are within their limit.
fn all_paths_fit(moves: &[MoveWords<'_>]) -> bool
    ensures { result ≡ list_all paths_fit (map ends_of moves.now) }
{
    each_of_paths_fits(moves)
}

fn each_of_paths_fits(moves: &[MoveWords<'_>]) -> bool
    ensures { result ≡ list_all (λ ends. paths_fit (ends_of ends)) moves.now }
{
    moves
        .iter()
        .all(|ends| path_fits(ends.from) && path_fits(ends.to))
}

fn is_utf8(bytes: &[u8]) -> bool
    ensures { result ≡ is_utf8 bytes.now }
{
    str::from_utf8(bytes).is_ok()
}
