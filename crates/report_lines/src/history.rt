//! The lines of a history, but for those of a graph that is shown.

ghost use Rattle.std.specs.Prelude.{◌≡◌, Some, None, IfOk, IfSome, MatchOption, option_copied, option_map};
ghost use Rattle.report_types.specs.declared.report.HistoryLine.{HistoryLine};
ghost use Rattle.report_writing.specs.Reports.{ended, history_text};
ghost use Rattle.report_lines.specs.ReportLines.{IsLine};
ghost use Rattle.report_lines.specs.Parts.{parts_left, words};
ghost use Rattle.report_lines.specs.declared.verbs.HistoryVerb.TheVariants as verbs;
ghost use Rattle.report_lines.specs.Readings.{arg_in, arguments_in, kind_in, line_by, line_in, make_in, make_line, source_in, system_in, typed_in};

use crate::numbers::{index, one_index, pair, plain_integer, triple};
use crate::parts::{Words, bracketed, first_word, is_used_up};
use crate::verbs::{Bare, HistoryVerb, OneNumber, TwoNumbers, history_verb_named};
use change_script::cut;
use config_graph::{Kind, List, NoMemory, Node, Text, kind_of};
use report_types::HistoryLine;
use std::alloc::Global;

/// What a line of a history says, or `None` where it is none, or shows a graph.
pub fn history_line(alloc: Global, line: &[u8]) -> Result<Option<HistoryLine>, NoMemory>
    ensures line { IfOk result (λ found. IfSome found (λ says. (ended line.now ≡ history_text says) × IsLine says)) }
    ensures whenever_line { IfOk result (λ found. (says : HistoryLine) → IsLine says
        → ended line.now ≡ history_text says
        → found ≡ Some says) }
{
    read_line(alloc, line)
}

fn read_line(alloc: Global, line: &[u8]) -> Result<Option<HistoryLine>, NoMemory>
    ensures { IfOk result (λ says. says ≡ line_in (words line.now)) }
{
    let (verb, rest) = cut(line, b' ');
    match history_verb_named(verb) {
        Some(verb) => told_by(alloc, verb, rest),
        None => Ok(None),
    }
}

fn told_by(
    alloc: Global,
    verb: HistoryVerb,
    rest: Words<'_>,
) -> Result<Option<HistoryLine>, NoMemory>
    ensures { IfOk result (λ says. says ≡ line_by verb (parts_left 32 (option_copied rest.entry))) }
{
    match verb {
        HistoryVerb::Start => start(alloc, rest),
        HistoryVerb::Change => change(alloc, rest),
        HistoryVerb::Make => make(alloc, rest),
        HistoryVerb::Link => Ok(link(rest)),
        HistoryVerb::Run => Ok(run(rest)),
        HistoryVerb::Bare(bare) => Ok(alone(bare, rest)),
        HistoryVerb::OneNumber(single) => Ok(with_one(single, rest)),
        HistoryVerb::TwoNumbers(double) => Ok(with_two(double, rest)),
    }
}

fn alone(bare: Bare, rest: Words<'_>) -> Option<HistoryLine>
    ensures { result ≡ line_by (verbs.Bare bare) (parts_left 32 (option_copied rest.entry)) }
{
    if is_used_up(rest) {
        Some(bare.line())
    } else {
        None
    }
}

fn with_one(single: OneNumber, rest: Words<'_>) -> Option<HistoryLine>
    ensures { result ≡ line_by (verbs.OneNumber single) (parts_left 32 (option_copied rest.entry)) }
{
    Some(single.line(one_index(rest)?))
}

fn with_two(double: TwoNumbers, rest: Words<'_>) -> Option<HistoryLine>
    ensures { result ≡ line_by (verbs.TwoNumbers double) (parts_left 32 (option_copied rest.entry)) }
{
    let (first, second) = pair(rest, u64::from(u32::MAX))?;
    Some(double.line(first, second as u32))
}

fn link(rest: Words<'_>) -> Option<HistoryLine>
    ensures { result ≡ line_by verbs.Link (parts_left 32 (option_copied rest.entry)) }
{
    let (port, node, provide) = triple(rest)?;
    Some(HistoryLine::Link {
        port,
        node,
        provide,
    })
}

fn run(rest: Words<'_>) -> Option<HistoryLine>
    ensures { result ≡ line_by verbs.Run (parts_left 32 (option_copied rest.entry)) }
{
    let (k, ended) = pair(rest, u64::MAX)?;
    Some(HistoryLine::Run { k, ended })
}

fn start(alloc: Global, rest: Words<'_>) -> Result<Option<HistoryLine>, NoMemory>
    ensures { IfOk result (λ says. says ≡ line_by verbs.Start (parts_left 32 (option_copied rest.entry))) }
{
    Ok(match system(alloc, rest)? {
        Some((name, args)) => Some(HistoryLine::Start { name, args }),
        None => None,
    })
}

fn change(alloc: Global, rest: Words<'_>) -> Result<Option<HistoryLine>, NoMemory>
    ensures { IfOk result (λ says. says ≡ line_by verbs.Change (parts_left 32 (option_copied rest.entry))) }
{
    Ok(match system(alloc, rest)? {
        Some((name, args)) => Some(HistoryLine::Change { name, args }),
        None => None,
    })
}

/// `C(ARGS)`: a component and its arguments.
fn system(alloc: Global, rest: Words<'_>) -> Result<Option<(Text, List<i32>)>, NoMemory>
    ensures { IfOk result (λ found. found ≡ system_in (parts_left 32 (option_copied rest.entry))) }
{
    let Some((name, inside)) = system_parts(rest) else {
        return Ok(None);
    };
    let Some(args) = arguments(alloc, inside)? else {
        return Ok(None);
    };
    Ok(Some((Text::from_bytes(alloc, name)?, List::of(args))))
}

fn system_parts(rest: Words<'_>) -> Option<(&[u8], &[u8])>
    ensures { MatchOption result (system_in (parts_left 32 (option_copied rest.entry)) ≡ None)
        (λ found. system_in (parts_left 32 (option_copied rest.entry))
        ≡ option_map (λ args. (found.0.now, args)) (arguments_in found.1.now)) }
{
    let (word, behind) = first_word(rest)?;
    if !is_used_up(behind) {
        return None;
    }
    let (name, inside) = bracketed(word)?;
    if name.is_empty() {
        None
    } else {
        Some((name, inside))
    }
}

/// The integers of a list, which commas part.
fn arguments(alloc: Global, list: &[u8]) -> Result<Option<Vec<i32>>, NoMemory>
    ensures { IfOk result (λ found. option_map (λ args. args.items) found ≡ arguments_in list.now) }
{
    let mut args = Vec::new(alloc);
    if list.is_empty() {
        return Ok(Some(args));
    }
    let mut rest = Some(list);
    'parts: while let Some(left) = rest {
        let (word, behind) = cut(left, b',');
        let Some(arg) = plain_integer(word) else {
            return Ok(None);
        };
        args.push(arg)?;
        rest = behind;
    }
    Ok(Some(args))
}

/// A node that is made.
#[derive(Clone, Copy)]
struct MakeLine<'a> {
    slot: u32,
    path: &'a [u8],
    typed: (Kind, Option<u32>),
    from: Option<u32>,
}

/// SLOT PATH KIND(ARG), with `from` SLOT or without.
fn make(alloc: Global, rest: Words<'_>) -> Result<Option<HistoryLine>, NoMemory>
    ensures { IfOk result (λ says. says ≡ line_by verbs.Make (parts_left 32 (option_copied rest.entry))) }
{
    let Some(line) = make_words(rest) else {
        return Ok(None);
    };
    let path = Text::from_bytes(alloc, line.path)?;
    let (kind, arg) = line.typed;
    Ok(Some(HistoryLine::Make {
        slot: line.slot,
        node: Node { path, kind, arg },
        from: line.from,
    }))
}

fn make_words(rest: Words<'_>) -> Option<MakeLine<'_>>
    ensures { MatchOption result (make_in (parts_left 32 (option_copied rest.entry)) ≡ None)
        (λ line. make_in (parts_left 32 (option_copied rest.entry))
        ≡ Some (make_line line.slot line.path.now line.typed line.from)) }
{
    let (slot, rest) = first_word(rest)?;
    let slot = index(slot)?;
    let (path, rest) = first_word(rest)?;
    if path.is_empty() {
        return None;
    }
    let (typed, from) = typed(rest)?;
    Some(MakeLine {
        slot,
        path,
        typed,
        from,
    })
}

/// KIND(ARG), with `from` SLOT or without.
fn typed(rest: Words<'_>) -> Option<((Kind, Option<u32>), Option<u32>)>
    ensures { result ≡ typed_in (parts_left 32 (option_copied rest.entry)) }
{
    let (word, rest) = first_word(rest)?;
    Some((kind_in(word)?, source(rest)?))
}

/// `KIND(ARG)`
pub fn kind_in(word: &[u8]) -> Option<(Kind, Option<u32>)>
    ensures { result ≡ kind_in word.now }
{
    let (name, inside) = bracketed(word)?;
    Some((kind_of(name)?, arg_in(inside)?))
}

fn arg_in(inside: &[u8]) -> Option<Option<u32>>
    ensures { result ≡ arg_in inside.now }
{
    if inside.is_empty() {
        Some(None)
    } else {
        Some(Some(index(inside)?))
    }
}

/// `from` SLOT, or nothing.
fn source(rest: Words<'_>) -> Option<Option<u32>>
    ensures { result ≡ source_in (parts_left 32 (option_copied rest.entry)) }
{
    let Some((preposition, slot)) = first_word(rest) else {
        return Some(None);
    };
    if preposition == b"from".as_slice() {
        Some(Some(one_index(slot)?))
    } else {
        None
    }
}
