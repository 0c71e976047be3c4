//! The lines of a node's log.

ghost use Rattle.std.specs.Prelude.{◌≡◌, IfOk, IfSome, Some, option_copied, option_map};
ghost use Rattle.quiesce_core.specs.declared.event.Event.{Event};
ghost use Rattle.report_types.specs.declared.report.Last.{Last};
ghost use Rattle.report_writing.specs.Reports.{ended, last_text};
ghost use Rattle.report_writing.specs.Writing.{written};
ghost use Rattle.report_lines.specs.ReportLines.{IsLast, IsNodeEvent};
ghost use Rattle.report_types.specs.declared.report.Last.TheVariants as lasts;
ghost use Rattle.change_script.specs.declared.verbs.EventVerb.TheVariants as verbs;
ghost use Rattle.report_lines.specs.Parts.{all_of, parts_left, words};
ghost use Rattle.report_lines.specs.Numbers.{max32, max64, one_in, plain};
ghost use Rattle.report_lines.specs.Readings.{event_by, event_in, last_in, step_numbers};

use crate::numbers::{one_index, plain, triple};
use crate::parts::{Words, first_word};
use change_script::{EventVerb, Single, Triple, cut, event_verb_named};
use config_graph::{List, NoMemory};
use quiesce_core::{Deed, NodeEvent};
use report_types::Last;
use std::alloc::Global;

/// The event of a node that a line is, or `None` where it is none.
pub fn event_line(line: &[u8]) -> Option<NodeEvent>
    ensures event { IfSome result (λ event. (line.now ≡ written event) × IsNodeEvent event) }
    ensures whenever_event { (event : Event) → IsNodeEvent event → line.now ≡ written event → result ≡ Some event }
{
    read_event(line)
}

fn read_event(line: &[u8]) -> Option<NodeEvent>
    ensures { result ≡ event_in (words line.now) }
{
    let (verb, rest) = cut(line, b' ');
    event_by(event_verb_named(verb)?, rest)
}

/// What stands behind a verb, where the event is one of a node.
fn event_by(verb: EventVerb, rest: Words<'_>) -> Option<NodeEvent>
    ensures { result ≡ event_by verb (parts_left 32 (option_copied rest.entry)) }
{
    match verb {
        EventVerb::Owner(step) => Some(step.event(step_numbers(rest)?)),
        EventVerb::Target(step) => Some(step.event(step_numbers(rest)?)),
        EventVerb::Single(single) => miss(single, rest),
        EventVerb::Start | EventVerb::Link | EventVerb::Make => None,
    }
}

/// PORT SERIAL VALUE
fn step_numbers(rest: Words<'_>) -> Option<Triple>
    ensures { result ≡ step_numbers (parts_left 32 (option_copied rest.entry)) }
{
    let (first, second, third) = triple(rest)?;
    Some(Triple {
        first,
        second,
        third,
    })
}

/// A miss is an event of a node; the other events with one number are those of a change.
fn miss(single: Single, rest: Words<'_>) -> Option<NodeEvent>
    ensures { result ≡ event_by (verbs.Single single) (parts_left 32 (option_copied rest.entry)) }
{
    match single {
        Single::Miss => Some(NodeEvent::of(Deed::Miss {
            port: one_index(rest)?,
        })),
        Single::Close | Single::Reopen | Single::Unlink | Single::Remove => None,
    }
}

/// How a log ends by its last line, or `None` where the line is none.
pub fn last_line(alloc: Global, line: &[u8]) -> Result<Option<Last>, NoMemory>
    ensures last { IfOk result (λ found. IfSome found (λ last. (ended line.now ≡ last_text last) × IsLast last)) }
    ensures whenever_last { IfOk result (λ found. (last : Last) → IsLast last → ended line.now ≡ last_text last
        → found ≡ Some last) }
{
    read_last(alloc, line)
}

/// `state` with its numbers, or `moved SLOT`.
fn read_last(alloc: Global, line: &[u8]) -> Result<Option<Last>, NoMemory>
    ensures { IfOk result (λ last. last ≡ last_in (words line.now)) }
{
    let (verb, rest) = cut(line, b' ');
    if verb == b"state".as_slice() {
        return state(alloc, rest);
    }
    if verb == b"moved".as_slice() {
        return Ok(moved(rest));
    }
    Ok(None)
}

fn moved(rest: Words<'_>) -> Option<Last>
    ensures { result ≡ option_map lasts.Moved (one_in max32 (parts_left 32 (option_copied rest.entry))) }
{
    Some(Last::Moved(one_index(rest)?))
}

fn state(alloc: Global, rest: Words<'_>) -> Result<Option<Last>, NoMemory>
    ensures { IfOk result (λ last. last
        ≡ option_map lasts.State (all_of (plain max64) (parts_left 32 (option_copied rest.entry)))) }
{
    Ok(match numbers(alloc, rest)? {
        Some(numbers) => Some(Last::State(List::of(numbers))),
        None => None,
    })
}

/// The numbers that words are.
fn numbers(alloc: Global, words: Words<'_>) -> Result<Option<Vec<u64>>, NoMemory>
    ensures { IfOk result (λ found. option_map (λ numbers. numbers.items) found
        ≡ all_of (plain max64) (parts_left 32 (option_copied words.entry))) }
{
    let mut numbers = Vec::new(alloc);
    let mut rest = words;
    'words: while let Some((word, behind)) = first_word(rest) {
        let Some(number) = plain(word, u64::MAX) else {
            return Ok(None);
        };
        numbers.push(number)?;
        rest = behind;
    }
    Ok(Some(numbers))
}
