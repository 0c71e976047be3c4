//! What a line of an event file says.

ghost use Rattle.std.specs.Prelude.{◌≡◌, map, option_map, option_copied, IfOk};
ghost use Rattle.change_script.specs.Faults.{MeansLine};
ghost use Rattle.change_script.specs.Tokens.{tokens};
ghost use Rattle.change_script.specs.Arguments.{arguments, at_end};
ghost use Rattle.change_script.specs.EventLines.{after_kind, link_event, make, make_of_kind, make_words, meaning, meaning_of, optional_number, single_in, source, start, start_of_words, three_numbers, triple_in, words_of};

use crate::arguments::{are_integers, arguments, integer_values, integers_fit};
use crate::error::{LineError, LineFault, both};
use crate::numbers::number;
use crate::paths::{is_name, path};
use crate::tokens::{after_sign, first_word, is_end};
use crate::verbs::{EventVerb, event_verb_named};
use config_graph::{Kind, List, NoMemory, Node, Text, kind_of};
use quiesce_core::Event;
use std::alloc::Global;

/// What a line says.
#[derive(Drop)]
pub enum EventLine {
    Start { name: Text, args: List<i32> },
    Event(Event),
}

/// Three numbers of a line, in order.
#[derive(Clone, Copy)]
pub struct Triple {
    pub first: u32,
    pub second: u32,
    pub third: u32,
}

/// The words of a `make` line.
#[derive(Clone, Copy)]
struct MakeLine<'a> {
    slot: &'a [u8],
    path: &'a [u8],
    kind: &'a [u8],
    arg: Option<&'a [u8]>,
    from: Option<&'a [u8]>,
}

/// What `line` says, or what is wrong with it.
pub fn meaning(alloc: Global, line: &[u8]) -> Result<EventLine, LineError>
    ensures { MeansLine result (meaning (tokens line.now)) }
{
    let Some((name, rest)) = first_word(line) else {
        return Err(LineError::Fault(LineFault::Bad));
    };
    let Some(verb) = event_verb_named(name) else {
        return Err(LineError::Fault(LineFault::Bad));
    };
    meaning_of(alloc, verb, rest)
}

/// What a line says by what stands behind its verb.
fn meaning_of(alloc: Global, verb: EventVerb, line: &[u8]) -> Result<EventLine, LineError>
    ensures { MeansLine result (meaning_of verb (tokens line.now)) }
{
    match verb {
        EventVerb::Start => start(alloc, line),
        EventVerb::Owner(step) => Ok(EventLine::Event(step.event(triple_in(line)?).event())),
        EventVerb::Target(step) => Ok(EventLine::Event(step.event(triple_in(line)?).event())),
        EventVerb::Single(kind) => Ok(EventLine::Event(kind.event(single_in(line)?))),
        EventVerb::Link => Ok(EventLine::Event(link(triple_in(line)?))),
        EventVerb::Make => Ok(EventLine::Event(make(alloc, line)?)),
    }
}

/// PORT SLOT PROVIDE
fn link(numbers: Triple) -> Event
    ensures { result ≡ link_event numbers }
{
    Event::Link {
        port: numbers.first,
        node: numbers.second,
        provide: numbers.third,
    }
}

/// NUM
fn single_in(line: &[u8]) -> Result<u32, LineFault>
    ensures { result ≡ single_in (tokens line.now) }
{
    let Some((first, line)) = first_word(line) else {
        return Err(LineFault::Bad);
    };
    if !is_end(line) {
        return Err(LineFault::Bad);
    }
    number(first)
}

/// NUM NUM NUM
fn triple_in(line: &[u8]) -> Result<Triple, LineFault>
    ensures { result ≡ triple_in (tokens line.now) }
{
    let Some((first, line)) = first_word(line) else {
        return Err(LineFault::Bad);
    };
    let Some((second, line)) = first_word(line) else {
        return Err(LineFault::Bad);
    };
    let Some((third, line)) = first_word(line) else {
        return Err(LineFault::Bad);
    };
    if !is_end(line) {
        return Err(LineFault::Bad);
    }
    three_numbers(first, second, third)
}

fn three_numbers(first: &[u8], second: &[u8], third: &[u8]) -> Result<Triple, LineFault>
    ensures { result ≡ three_numbers first.now second.now third.now }
{
    let (first, (second, third)) = both(number(first), both(number(second), number(third)))?;
    Ok(Triple {
        first,
        second,
        third,
    })
}

/// SLOT PATH KIND() or SLOT PATH KIND(NUM), and then `from` SLOT or nothing.
fn make(alloc: Global, line: &[u8]) -> Result<Event, LineError>
    ensures { MeansLine result (make (tokens line.now)) }
{
    let Some(words) = make_words(line) else {
        return Err(LineError::Fault(LineFault::Bad));
    };
    let Some(kind) = kind_of(words.kind) else {
        return Err(LineError::Fault(LineFault::Bad));
    };
    make_of_kind(alloc, &words, kind)
}

fn make_of_kind(alloc: Global, words: &MakeLine<'_>, kind: Kind) -> Result<Event, LineError>
    ensures { MeansLine result (make_of_kind (words_of words.now) (Some kind)) }
{
    let options = both(optional_number(words.arg), optional_number(words.from));
    let (slot, (_, (arg, from))) = both(number(words.slot), both(path(words.path), options))?;
    let path = Text::from_bytes(alloc, words.path)?;
    Ok(Event::Make {
        slot,
        node: Node { path, kind, arg },
        from,
    })
}

fn optional_number(word: Option<&[u8]>) -> Result<Option<u32>, LineFault>
    ensures { result ≡ optional_number (option_copied word.entry) }
{
    match word {
        Some(word) => Ok(Some(number(word)?)),
        None => Ok(None),
    }
}

fn make_words(line: &[u8]) -> Option<MakeLine<'_>>
    ensures { option_map words_of result ≡ make_words (tokens line.now) }
{
    let (slot, line) = first_word(line)?;
    let (path, line) = first_word(line)?;
    let (kind, line) = first_word(line)?;
    after_kind(slot, path, kind, line)
}

/// KIND's parentheses, empty or round a word, and then `from` SLOT or nothing.
fn after_kind<'a>(
    slot: &'a [u8],
    path: &'a [u8],
    kind: &'a [u8],
    line: &'a [u8],
) -> Option<MakeLine<'a>>
    ensures { option_map words_of result ≡ after_kind slot.now path.now kind.now (tokens line.now) }
{
    let line = after_sign(line, b'(')?;
    let (arg, line) = match after_sign(line, b')') {
        Some(line) => (None, line),
        None => {
            let (arg, line) = first_word(line)?;
            (Some(arg), after_sign(line, b')')?)
        }
    };
    let from = source(line)?;
    Some(MakeLine {
        slot,
        path,
        kind,
        arg,
        from,
    })
}

/// `from` SLOT, or nothing.
fn source(line: &[u8]) -> Option<Option<&[u8]>>
    ensures { option_map option_copied result ≡ source (tokens line.now) }
{
    if is_end(line) {
        return Some(None);
    }
    let (preposition, line) = first_word(line)?;
    let (slot, line) = first_word(line)?;
    if is_end(line) && preposition == b"from".as_slice() {
        Some(Some(slot))
    } else {
        None
    }
}

/// C(ARGS)
fn start(alloc: Global, line: &[u8]) -> Result<EventLine, LineError>
    ensures { MeansLine result (start (tokens line.now)) }
{
    let Some((name, line)) = first_word(line) else {
        return Err(LineError::Fault(LineFault::Bad));
    };
    let Some(line) = after_sign(line, b'(') else {
        return Err(LineError::Fault(LineFault::Bad));
    };
    let Some(words) = last_arguments(alloc, line)? else {
        return Err(LineError::Fault(LineFault::Bad));
    };
    start_of_words(alloc, name, &words)
}

/// The words up to the closing parenthesis, which ends the line.
fn last_arguments(alloc: Global, line: &[u8]) -> Result<Option<Vec<&[u8]>>, NoMemory>
    ensures { IfOk result (λ found. option_map (λ words. map (λ word. word.now) words.items) found ≡ at_end
        (arguments (tokens line.now))) }
{
    match arguments(alloc, line)? {
        Some((words, rest)) if is_end(rest) => Ok(Some(words)),
        _ => Ok(None),
    }
}

fn start_of_words(alloc: Global, name: &[u8], words: &[&[u8]]) -> Result<EventLine, LineError>
    ensures { MeansLine result (start_of_words name.now (Some (map (λ word. word.now) words.now))) }
{
    if !(is_name(name) && are_integers(words)) {
        return Err(LineError::Fault(LineFault::Bad));
    }
    if !integers_fit(words) {
        return Err(LineError::Fault(LineFault::Big));
    }
    let args = integer_values(alloc, words)?;
    let name = Text::from_bytes(alloc, name)?;
    Ok(EventLine::Start {
        name,
        args: List::of(args),
    })
}
