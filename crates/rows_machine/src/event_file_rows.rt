//! Rows of `parse_events`: the events that files have.

ghost use Rattle.std.specs.Prelude.{◌≤◌, length};

use change_script::{EventFile, parse_events};
use config_graph::Kind;
use darwin_lexer::MAX_TEXT;
use quiesce_core::Event;
use std::alloc::Global;
use std::process::Abort;

/// An event's word and numbers.
type Told = (&'static str, [u32; 3]);

/// What an event of a node tells. Of others it is no word.
fn told_of_node(event: &Event) -> Told {
    match event {
        Event::Begin {
            port,
            serial,
            value,
        } => ("begin", [*port, *serial, *value]),
        Event::Call {
            port,
            serial,
            value,
        } => ("call", [*port, *serial, *value]),
        Event::Take {
            port,
            serial,
            value,
        } => ("take", [*port, *serial, *value]),
        Event::Give {
            port,
            serial,
            value,
        } => ("give", [*port, *serial, *value]),
        Event::End {
            port,
            serial,
            value,
        } => ("end", [*port, *serial, *value]),
        Event::More {
            port,
            serial,
            value,
        } => ("more", [*port, *serial, *value]),
        Event::Ask {
            port,
            serial,
            value,
        } => ("ask", [*port, *serial, *value]),
        Event::Hear {
            port,
            serial,
            value,
        } => ("hear", [*port, *serial, *value]),
        Event::Miss { port } => ("miss", [*port, 0, 0]),
        _ => ("", [0, 0, 0]),
    }
}

/// What an event tells. A node that is made isn't told.
fn told(event: &Event) -> Told {
    match event {
        Event::Close { port } => ("close", [*port, 0, 0]),
        Event::Reopen { port } => ("reopen", [*port, 0, 0]),
        Event::Link {
            port,
            node,
            provide,
        } => ("link", [*port, *node, *provide]),
        Event::Unlink { port } => ("unlink", [*port, 0, 0]),
        Event::Remove { node } => ("remove", [*node, 0, 0]),
        _ => told_of_node(event),
    }
}

/// The file starts the line.
fn starts_the_line(file: &EventFile) -> bool {
    file.name.as_bytes() == b"Line".as_slice() && file.args.items() == [3, -10].as_slice()
}

/// An event file has these events.
fn assert_events(rt: &impl Abort, alloc: Global, text: &[u8], wanted: &[Told])
    requires { length text.now ≤ MAX_TEXT }
{
    let Ok(file) = parse_events(alloc, text) else {
        panic!(rt; "the file isn't read");
    };
    assert!(rt; starts_the_line(&file));
    assert!(rt; file.events.items().len() == wanted.len());
    for (event, wanted) in file.events.items().iter().zip(wanted) {
        assert!(rt; told(event) == *wanted);
    }
}

#[test]
fn events_of_owners_are_read(rt: HostRuntime) {
    let text =
        b"start Line(3, -10)\nbegin 1 2 3\ncall 4 5 6\n\nask 13 14 15\nend 22 23 24\n# a note\nmiss 25";
    let events = [
        ("begin", [1, 2, 3]),
        ("call", [4, 5, 6]),
        ("ask", [13, 14, 15]),
        ("end", [22, 23, 24]),
        ("miss", [25, 0, 0]),
    ];
    assert_events(&rt, rt.alloc(), text, &events);
}

#[test]
fn events_of_targets_are_read(rt: HostRuntime) {
    let text = b"start Line(3, -10)\ntake 7 8 9\nmore 10 11 12\nhear 16 17 18\ngive 19 20 21";
    let events = [
        ("take", [7, 8, 9]),
        ("more", [10, 11, 12]),
        ("hear", [16, 17, 18]),
        ("give", [19, 20, 21]),
    ];
    assert_events(&rt, rt.alloc(), text, &events);
}

#[test]
fn events_of_changes_are_read(rt: HostRuntime) {
    let text = b"start Line(3, -10)\n  close 26\nreopen\t27\nlink 35 36 37\nunlink 38\nremove 39";
    let events = [
        ("close", [26, 0, 0]),
        ("reopen", [27, 0, 0]),
        ("link", [35, 36, 37]),
        ("unlink", [38, 0, 0]),
        ("remove", [39, 0, 0]),
    ];
    assert_events(&rt, rt.alloc(), text, &events);
}

/// A node that is made, by its slot, path, kind, argument, and the node from which it has its state.
type Made = (u32, &'static [u8], Kind, Option<u32>, Option<u32>);

static MADE: [Made; 3] = [
    (28, b"p.F[01]", Kind::Map, Some(29), None),
    (30, b"b", Kind::Buffer, Some(31), Some(32)),
    (33, b"c", Kind::Fork, None, Some(34)),
];

fn is_made(event: &Event, (slot, path, kind, arg, from): &Made) -> bool {
    match event {
        Event::Make {
            slot: made,
            node,
            from: old,
        } => {
            *made == *slot
                && node.path.as_bytes() == *path
                && node.kind == *kind
                && node.arg == *arg
                && *old == *from
        }
        _ => false,
    }
}

#[test]
fn nodes_are_read(rt: HostRuntime) {
    let text =
        b"start Line(3, -10)\nmake 28 p.F[01] map(29)\nmake 30 b buffer ( 31 )from 32\nmake 33 c fork() from 34";
    let Ok(file) = parse_events(rt.alloc(), text) else {
        panic!(rt; "the file isn't read");
    };
    assert!(rt; starts_the_line(&file));
    assert!(rt; file.events.items().len() == MADE.len());
    for (event, made) in file.events.items().iter().zip(&MADE) {
        assert!(rt; is_made(event, made));
    }
}
