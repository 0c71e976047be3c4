//! The lines of what nodes did, many of them as one piece of text.

ghost use Rattle.std.specs.Prelude.{◌≡◌, ◌≤◌, ◌+◌, ◌*◌, ◌++◌, drop, flat_map, length};
ghost use Rattle.report_writing.specs.Reports.{event_text};

use crate::line_end::{put_one, put_three};
use quiesce_core::{Deed, Message, NodeEvent};

/// How many lines are put at once.
pub const LINES: usize = 64;

/// The most bytes of so many lines, each of `LINE` bytes at most.
pub const PIECE: usize = 4_608;

/// Puts the line of an event of a node before the byte at `end`, and tells where it starts.
fn put_event(piece: &mut [u8], end: usize, event: NodeEvent) -> usize
    requires room { 72 ≤ end }
    requires within { end ≤ length piece.old }
    ensures start { (end ≤ result + 72) × (result ≤ end) }
    ensures written { drop result piece.new ≡ event_text event ++ drop end piece.old }
    ensures length { length piece.new ≡ length piece.old }
{
    match event.deed() {
        Deed::Begin(
            Message {
                port,
                serial,
                value,
            },
        ) => put_three(piece, end, b"begin", port, serial, value),
        Deed::Call(
            Message {
                port,
                serial,
                value,
            },
        ) => put_three(piece, end, b"call", port, serial, value),
        Deed::Take(
            Message {
                port,
                serial,
                value,
            },
        ) => put_three(piece, end, b"take", port, serial, value),
        Deed::Give(
            Message {
                port,
                serial,
                value,
            },
        ) => put_three(piece, end, b"give", port, serial, value),
        Deed::End(
            Message {
                port,
                serial,
                value,
            },
        ) => put_three(piece, end, b"end", port, serial, value),
        Deed::More(
            Message {
                port,
                serial,
                value,
            },
        ) => put_three(piece, end, b"more", port, serial, value),
        Deed::Ask(
            Message {
                port,
                serial,
                value,
            },
        ) => put_three(piece, end, b"ask", port, serial, value),
        Deed::Hear(
            Message {
                port,
                serial,
                value,
            },
        ) => put_three(piece, end, b"hear", port, serial, value),
        Deed::Miss { port } => put_one(piece, end, b"miss", port),
    }
}

/// Puts the lines of events of nodes at the end of a piece, and tells where they start.
pub fn put_events(piece: &mut [u8], events: &[NodeEvent]) -> usize
    requires room { length events.now * 72 ≤ length piece.old }
    ensures within { result ≤ length piece.new }
    ensures written { drop result piece.new ≡ flat_map event_text events.now }
    ensures length { length piece.new ≡ length piece.old }
{
    let mut start = piece.len();
    let mut at = events.len();
    while at > 0 {
        at -= 1;
        start = put_event(piece, start, events[at]);
    }
    start
}
