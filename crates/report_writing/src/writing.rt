//! The text of a report.

ghost use Rattle.std.specs.Prelude.{◌≡◌, ◌==◌, ◌≤◌, ◌*◌, ◌++◌, false, All, IfSome, Some, find, option_copied, option_to_list, slice_get, length, filter, flat_map, map, codes, decimal, IfOk, OnOk};
ghost use Rattle.std.specs.Fmt.{signed_decimal};
ghost use Rattle.config_graph.specs.GraphText.{graph_text as drawn_text, kind_text};
ghost use Rattle.quiesce_core.specs.declared.event.Event.TheVariants as events;
ghost use Rattle.report_writing.specs.Writing.{from_words, spaced, with_one, with_three};
ghost use Rattle.report_writing.specs.Reports.{LogsAreMade, args_text, ended, event_text, history_text, last_text, log_head, log_text, made_by, makes, path_in, report_text, second, unfinished_text, with_system, with_two};
ghost use Rattle.report_writing.specs.MadeNodes.{slot_path_of};

use crate::events::{LINES, PIECE, put_events};
use crate::line_end::{LINE, LINE_END, put_number, put_three};
use crate::room::text_room;
use config_graph::{Graph, Kind, NoMemory, Node, graph_text, kind_text};
use itoa::Buffer;
use quiesce_core::NodeEvent;
use report_types::{HistoryLine, Last, NodeLog, Report};
use std::alloc::Global;

/// The path of the node that was made in a slot.
#[derive(Clone, Copy)]
struct MadeNode<'a> {
    slot: u32,
    path: &'a [u8],
}

/// The text of a report, in version 2.
///
/// Its time grows with the text's length where the slots of the `make` lines are 0, 1 and so on.
pub fn report_text(alloc: Global, report: &Report) -> Result<Vec<u8>, NoMemory>
    requires { LogsAreMade report.now }
    ensures { IfOk result (λ text. text.items ≡ report_text report.now) }
{
    let made = list_made(alloc, report.history.items())?;
    let mut text = Vec::with_capacity(alloc, text_room(report))?;
    push_one(&mut text, b"report", 2)?;
    push_history(&mut text, report.history.items())?;
    push_logs(&mut text, made.as_slice(), report.logs.items())?;
    push_unfinished(&mut text, report.unfinished)?;
    push_one(&mut text, b"status", u64::from(report.status))?;
    Ok(text)
}

/// The slots and the paths of the nodes that a history makes.
fn list_made(alloc: Global, history: &[HistoryLine]) -> Result<Vec<MadeNode<'_>>, NoMemory>
    ensures { IfOk result (λ made. map slot_path_of made.items ≡ makes history.now) }
{
    let mut made = Vec::new(alloc);
    for line in history {
        push_made(&mut made, line)?;
    }
    Ok(made)
}

/// Adds the node of a `make` line.
fn push_made<'a>(made: &mut Vec<MadeNode<'a>>, line: &'a HistoryLine) -> Result<(), NoMemory>
    ensures { OnOk result
        (map slot_path_of made.new.items ≡ map slot_path_of made.old.items ++ option_to_list (made_by line.now)) }
{
    if let HistoryLine::Make { slot, node, .. } = line {
        made.push(MadeNode {
            slot: *slot,
            path: node.path.as_bytes(),
        })?;
    }
    Ok(())
}

/// The path of the node that was made in this slot.
fn path_of<'a>(made: &[MadeNode<'a>], slot: u32) -> &'a [u8]
    requires { length (filter (λ m. m.slot == slot) (map slot_path_of made.now)) ≡ 1 }
    ensures { result.now ≡ path_in (map slot_path_of made.now) slot }
{
    match path_at_place(made, slot) {
        Some(path) => path,
        None => search_path(made, slot),
    }
}

/// The path at the slot's own place, where the slots so far were numbered in order.
fn path_at_place<'a>(made: &[MadeNode<'a>], slot: u32) -> Option<&'a [u8]>
    ensures { IfSome result (λ path. (node : MadeNode) × (slice_get made.now slot ≡ Some node) × (node.slot ≡ slot)
        × (node.path.now ≡ path.now)) }
{
    let node = made.get(slot as usize)?;
    if node.slot == slot {
        Some(node.path)
    } else {
        None
    }
}

fn search_path<'a>(made: &[MadeNode<'a>], slot: u32) -> &'a [u8]
    ensures { result.now ≡ path_in (map slot_path_of made.now) slot }
{
    match find_made(made, slot) {
        Some(node) => node.path,
        None => &[],
    }
}

fn find_made<'a, 'b>(made: &'b [MadeNode<'a>], slot: u32) -> Option<&'b MadeNode<'a>>
    ensures { option_copied result ≡ find (λ node. node.slot == slot) made.now }
{
    made.iter().find(|node| node.slot == slot)
}

/// The lines of a history.
fn push_history(text: &mut Vec<u8>, lines: &[HistoryLine]) -> Result<(), NoMemory>
    ensures { OnOk result (text.new.items ≡ text.old.items ++ flat_map history_text lines.now) }
{
    for line in lines {
        push_line(text, line)?;
    }
    Ok(())
}

/// A line of a history, and the graph's lines where it shows one.
pub fn push_line(text: &mut Vec<u8>, line: &HistoryLine) -> Result<(), NoMemory>
    ensures { OnOk result (text.new.items ≡ text.old.items ++ history_text line.now) }
{
    match line {
        HistoryLine::Start { name, args } => {
            push_system(text, b"start", name.as_bytes(), args.items())
        }
        HistoryLine::Change { name, args } => {
            push_system(text, b"change", name.as_bytes(), args.items())
        }
        HistoryLine::Make { slot, node, from } => push_make(text, *slot, node, *from),
        HistoryLine::Link {
            port,
            node,
            provide,
        } => push_link(text, *port, *node, *provide),
        HistoryLine::Unlink { port } => push_one(text, b"unlink", u64::from(*port)),
        HistoryLine::Remove { node } => push_one(text, b"remove", u64::from(*node)),
        HistoryLine::Close { port } => push_one(text, b"close", u64::from(*port)),
        HistoryLine::Reopen { port } => push_one(text, b"reopen", u64::from(*port)),
        HistoryLine::Drained { port, serial } => {
            push_two(text, b"drained", u64::from(*port), u64::from(*serial))
        }
        HistoryLine::Commit => push_verb(text, b"commit"),
        HistoryLine::Abandon => push_verb(text, b"abandon"),
        HistoryLine::Skipped => push_verb(text, b"skipped"),
        HistoryLine::Pending { rounds } => push_one(text, b"pending", u64::from(*rounds)),
        HistoryLine::Root { port, serial } => {
            push_two(text, b"open", u64::from(*port), u64::from(*serial))
        }
        HistoryLine::Run { k, ended } => push_two(text, b"run", u64::from(*k), *ended),
        HistoryLine::Finish { n, rounds } => {
            push_two(text, b"finish", u64::from(*n), u64::from(*rounds))
        }
        HistoryLine::Show { graph } => push_show(text, graph),
        HistoryLine::Stop => push_verb(text, b"stop"),
    }
}

/// `VERB C(ARGS)`
fn push_system(text: &mut Vec<u8>, verb: &[u8], name: &[u8], args: &[i32]) -> Result<(), NoMemory>
    ensures { OnOk result (text.new.items ≡ text.old.items ++ ended (with_system verb.now name.now args.now)) }
{
    text.extend_from_slice(verb)?;
    text.extend_from_slice(b" ")?;
    text.extend_from_slice(name)?;
    text.extend_from_slice(b"(")?;
    push_args(text, args)?;
    text.extend_from_slice(b")\n")
}

/// The arguments of a component, parted by commas.
fn push_args(text: &mut Vec<u8>, args: &[i32]) -> Result<(), NoMemory>
    ensures { OnOk result (text.new.items ≡ text.old.items ++ args_text args.now) }
{
    let Some((first, more)) = args.split_first() else {
        return Ok(());
    };
    push_integer(text, *first)?;
    push_more_args(text, more)
}

fn push_more_args(text: &mut Vec<u8>, args: &[i32]) -> Result<(), NoMemory>
    ensures { OnOk result (text.new.items ≡ text.old.items ++ flat_map (λ arg. codes "," ++ signed_decimal arg) args.now) }
{
    for arg in args {
        push_behind_comma(text, arg)?;
    }
    Ok(())
}

fn push_behind_comma(text: &mut Vec<u8>, arg: &i32) -> Result<(), NoMemory>
    ensures { OnOk result (text.new.items ≡ text.old.items ++ (codes "," ++ signed_decimal arg.now)) }
{
    text.extend_from_slice(b",")?;
    push_integer(text, *arg)
}

fn push_integer(text: &mut Vec<u8>, integer: i32) -> Result<(), NoMemory>
    ensures { OnOk result (text.new.items ≡ text.old.items ++ signed_decimal integer) }
{
    let mut digits = Buffer::new();
    text.extend_from_slice(digits.format(integer).as_bytes())
}

/// `show`, and the text of the graph behind it.
fn push_show(text: &mut Vec<u8>, graph: &Graph) -> Result<(), NoMemory>
    ensures { OnOk result (text.new.items ≡ text.old.items ++ (ended (codes "show") ++ drawn_text graph.now)) }
{
    let drawn = graph_text(*text.allocator(), graph)?;
    text.extend_from_slice(b"show\n")?;
    text.extend_from_slice(drawn.as_slice())
}

/// The log of each node.
fn push_logs(text: &mut Vec<u8>, made: &[MadeNode<'_>], logs: &[NodeLog]) -> Result<(), NoMemory>
    requires { All (λ log. length (filter (λ m. m.slot == log.slot) (map slot_path_of made.now)) ≡ 1) logs.now }
    ensures { OnOk result
        (text.new.items ≡ text.old.items ++ flat_map (log_text second (map slot_path_of made.now)) logs.now) }
{
    for log in logs {
        push_log(text, path_of(made, log.slot), log)?;
    }
    Ok(())
}

/// `log SLOT PATH`, a line for each event, and the last line.
fn push_log(text: &mut Vec<u8>, path: &[u8], log: &NodeLog) -> Result<(), NoMemory>
    ensures { OnOk result (text.new.items ≡ text.old.items ++ (ended (log_head second path.now log.now.slot)
        ++ flat_map event_text log.now.events ++ last_text log.now.last)) }
{
    push_head(text, log.slot, path)?;
    push_events(text, log.events.items())?;
    push_last(text, &log.last)
}

/// `log SLOT PATH`
fn push_head(text: &mut Vec<u8>, slot: u32, path: &[u8]) -> Result<(), NoMemory>
    ensures { OnOk result (text.new.items ≡ text.old.items ++ ended (log_head second path.now slot)) }
{
    text.extend_from_slice(b"log")?;
    push_number(text, u64::from(slot))?;
    text.extend_from_slice(b" ")?;
    text.extend_from_slice(path)?;
    text.extend_from_slice(b"\n")
}

/// The lines of what a node did, many of them at once.
fn push_events(text: &mut Vec<u8>, events: &[NodeEvent]) -> Result<(), NoMemory>
    ensures { OnOk result (text.new.items ≡ text.old.items ++ flat_map event_text events.now) }
{
    let mut piece = [b'\n'; PIECE];
    let mut left = events;
    while !left.is_empty() {
        let (front, more) = left.split_at(left.len().min(LINES));
        push_piece(text, &mut piece, front)?;
        left = more;
    }
    Ok(())
}

/// The lines of these events, as one piece.
fn push_piece(text: &mut Vec<u8>, piece: &mut [u8], events: &[NodeEvent]) -> Result<(), NoMemory>
    requires { length events.now * 72 ≤ length piece.old }
    ensures text { OnOk result (text.new.items ≡ text.old.items ++ flat_map event_text events.now) }
    ensures length { length piece.new ≡ length piece.old }
{
    let start = put_events(piece, events);
    text.extend_from_slice(&piece[start..])
}

/// `make SLOT PATH KIND(ARG)`, with `from SLOT` where the node takes over a state.
fn push_make(text: &mut Vec<u8>, slot: u32, node: &Node, from: Option<u32>) -> Result<(), NoMemory>
    ensures { OnOk result (text.new.items ≡ text.old.items ++ event_text (events.Make slot node.now from)) }
{
    text.extend_from_slice(b"make")?;
    push_number(text, u64::from(slot))?;
    text.extend_from_slice(b" ")?;
    text.extend_from_slice(node.path.as_bytes())?;
    push_kind(text, node.kind, node.arg)?;
    push_source(text, from)?;
    text.extend_from_slice(b"\n")
}

/// A kind with its argument, behind a space.
fn push_kind(text: &mut Vec<u8>, kind: Kind, arg: Option<u32>) -> Result<(), NoMemory>
    ensures { OnOk result (text.new.items ≡ text.old.items ++ (codes " " ++ kind_text kind arg)) }
{
    let kind = kind_text(*text.allocator(), kind, arg)?;
    text.extend_from_slice(b" ")?;
    text.extend_from_slice(kind.as_slice())
}

/// `from SLOT` behind a space, or nothing.
fn push_source(text: &mut Vec<u8>, from: Option<u32>) -> Result<(), NoMemory>
    ensures { OnOk result (text.new.items ≡ text.old.items ++ spaced (from_words from)) }
{
    match from {
        Some(slot) => {
            text.extend_from_slice(b" from")?;
            push_number(text, u64::from(slot))
        }
        None => Ok(()),
    }
}

/// `state` with its numbers, or `moved SLOT`.
fn push_last(text: &mut Vec<u8>, last: &Last) -> Result<(), NoMemory>
    ensures { OnOk result (text.new.items ≡ text.old.items ++ last_text last.now) }
{
    match last {
        Last::State(numbers) => push_state(text, numbers.items()),
        Last::Moved(slot) => push_one(text, b"moved", u64::from(*slot)),
    }
}

/// `state` with its numbers.
fn push_state(text: &mut Vec<u8>, numbers: &[u64]) -> Result<(), NoMemory>
    ensures { OnOk result (text.new.items ≡ text.old.items ++ ended (codes "state" ++ flat_map (λ number. codes " " ++ decimal number) numbers.now)) }
{
    text.extend_from_slice(b"state")?;
    push_numbers(text, numbers)?;
    text.extend_from_slice(b"\n")
}

fn push_numbers(text: &mut Vec<u8>, numbers: &[u64]) -> Result<(), NoMemory>
    ensures { OnOk result (text.new.items ≡ text.old.items ++ flat_map (λ number. codes " " ++ decimal number) numbers.now) }
{
    for number in numbers {
        push_number(text, *number)?;
    }
    Ok(())
}

/// `unfinished SLOT`, where a node isn't done.
fn push_unfinished(text: &mut Vec<u8>, unfinished: Option<u32>) -> Result<(), NoMemory>
    ensures { OnOk result (text.new.items ≡ text.old.items ++ unfinished_text unfinished) }
{
    match unfinished {
        Some(slot) => push_one(text, b"unfinished", u64::from(slot)),
        None => Ok(()),
    }
}

/// A verb alone.
fn push_verb(text: &mut Vec<u8>, verb: &[u8]) -> Result<(), NoMemory>
    ensures { OnOk result (text.new.items ≡ text.old.items ++ ended verb.now) }
{
    text.extend_from_slice(verb)?;
    text.extend_from_slice(b"\n")
}

/// A verb and a number.
fn push_one(text: &mut Vec<u8>, verb: &[u8], first: u64) -> Result<(), NoMemory>
    ensures { OnOk result (text.new.items ≡ text.old.items ++ ended (with_one verb.now first)) }
{
    let mut line = [b'\n'; LINE_END];
    let start = put_number(&mut line, LINE_END - 1, first);
    text.extend_from_slice(verb)?;
    text.extend_from_slice(&line[start..])
}

/// A verb and two numbers.
fn push_two(text: &mut Vec<u8>, verb: &[u8], first: u64, second: u64) -> Result<(), NoMemory>
    ensures { OnOk result (text.new.items ≡ text.old.items ++ ended (with_two verb.now first second)) }
{
    let mut line = [b'\n'; LINE_END];
    let start = put_number(&mut line, LINE_END - 1, second);
    let start = put_number(&mut line, start, first);
    text.extend_from_slice(verb)?;
    text.extend_from_slice(&line[start..])
}

/// `link PORT SLOT PROVIDE`
fn push_link(text: &mut Vec<u8>, port: u32, node: u32, provide: u32) -> Result<(), NoMemory>
    ensures { OnOk result (text.new.items ≡ text.old.items ++ ended (with_three (codes "link") port node provide)) }
{
    let mut line = [b'\n'; LINE];
    let start = put_three(&mut line, LINE, b"link", port, node, provide);
    text.extend_from_slice(&line[start..])
}

/// A number behind a space.
fn push_number(text: &mut Vec<u8>, number: u64) -> Result<(), NoMemory>
    ensures { OnOk result (text.new.items ≡ text.old.items ++ (codes " " ++ decimal number)) }
{
    let mut line = [b'\n'; LINE_END];
    let start = put_number(&mut line, LINE_END, number);
    text.extend_from_slice(&line[start..])
}
