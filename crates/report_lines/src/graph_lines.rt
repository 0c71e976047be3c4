//! The lines of a graph's text.

ghost use Rattle.std.specs.Prelude.{◌≡◌, Some, None, IfOk, MatchOption, option_copied};
ghost use Rattle.report_lines.specs.Parts.{parts_left, words};
ghost use Rattle.report_lines.specs.GraphLines.{is_graph_line, named_node_in, node_in, node_of, second_word, target_in};

use crate::history::kind_in;
use crate::parts::{Words, first_word, is_used_up};
use change_script::cut;
use config_graph::{Kind, NoMemory, Node, Text};
use std::alloc::Global;

/// Whether a line begins as those of a graph's text do.
pub fn is_graph_line(line: &[u8]) -> bool
    ensures { result ≡ is_graph_line (words line.now) }
{
    let (verb, _) = cut(line, b' ');
    verb == b"node".as_slice() || verb == b"port".as_slice()
}

/// The node of a `node` line, or `None` where the line is none.
pub fn node_line(alloc: Global, line: &[u8]) -> Result<Option<Node>, NoMemory>
    ensures { IfOk result (λ node. node ≡ node_in (words line.now)) }
{
    let (verb, rest) = cut(line, b' ');
    if verb != b"node".as_slice() {
        return Ok(None);
    }
    let Some((path, typed)) = node_words(rest) else {
        return Ok(None);
    };
    let (kind, arg) = typed;
    let path = Text::from_bytes(alloc, path)?;
    Ok(Some(Node { path, kind, arg }))
}

/// PATH KIND(ARG)
fn node_words(rest: Words<'_>) -> Option<(&[u8], (Kind, Option<u32>))>
    ensures { MatchOption result (named_node_in (parts_left 32 (option_copied rest.entry)) ≡ None)
        (λ found. named_node_in (parts_left 32 (option_copied rest.entry)) ≡ node_of found.0.now (Some found.1)) }
{
    let (path, rest) = first_word(rest)?;
    let (kind, behind) = first_word(rest)?;
    if is_used_up(behind) {
        Some((path, kind_in(kind)?))
    } else {
        None
    }
}

/// The word for the target of a `port` line, or `None` where the line is none.
pub fn target_word(line: &[u8]) -> Option<&[u8]>
    ensures { MatchOption result (target_in (words line.now) ≡ None)
        (λ target. target_in (words line.now) ≡ Some target.now) }
{
    let (verb, rest) = cut(line, b' ');
    if verb == b"port".as_slice() {
        second_word(rest)
    } else {
        None
    }
}

/// PATH.REQUIRE TARGET
fn second_word(rest: Words<'_>) -> Option<&[u8]>
    ensures { MatchOption result (second_word (parts_left 32 (option_copied rest.entry)) ≡ None)
        (λ target. second_word (parts_left 32 (option_copied rest.entry)) ≡ Some target.now) }
{
    let (_, rest) = first_word(rest)?;
    let (target, behind) = first_word(rest)?;
    if is_used_up(behind) {
        Some(target)
    } else {
        None
    }
}
