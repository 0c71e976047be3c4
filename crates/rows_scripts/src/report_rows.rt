//! Rows of `report_text`: each line of a report, and whole reports.

ghost use Rattle.std.specs.Prelude.{IfOk};
ghost use Rattle.report_writing.specs.Reports.{LogsAreMade};

use config_graph::{Graph, Kind, List, Node, Text};
use quiesce_core::{Core, Deed, Event, Message, NodeEvent};
use report_types::{HistoryLine, Last, NodeLog, Report};
use report_writing::report_text;
use std::alloc::Global;
use std::process::Abort;
use std::test::Fail;

/// A text of these bytes.
fn text(alloc: Global, bytes: &[u8]) -> Result<Text, Fail> {
    Ok(Text::from_bytes(alloc, bytes)?)
}

/// A node with this path.
fn node(alloc: Global, path: &[u8], kind: Kind, arg: Option<u32>) -> Result<Node, Fail> {
    let path = text(alloc, path)?;
    Ok(Node { path, kind, arg })
}

/// The line of a node that is made.
fn make(
    alloc: Global,
    slot: u32,
    path: &[u8],
    kind: Kind,
    arg: Option<u32>,
    from: Option<u32>,
) -> Result<HistoryLine, Fail> {
    let node = node(alloc, path, kind, arg)?;
    Ok(HistoryLine::Make { slot, node, from })
}

/// A report without logs, as its text.
fn assert_history(
    rt: &impl Abort,
    alloc: Global,
    lines: Vec<HistoryLine>,
    wanted: &[u8],
) -> Result<(), Fail> {
    let report = Report {
        history: List::of(lines),
        logs: List::of(Vec::new(alloc)),
        unfinished: None,
        status: 0,
    };
    let written = report_text(alloc, &report)?;
    assert!(rt; written.as_slice() == wanted);
    Ok(())
}

#[test]
fn starts_and_changes_are_written(rt: HostRuntime) -> Result<(), Fail> {
    let alloc = rt.alloc();
    let mut lines = Vec::new(alloc);
    lines.push(HistoryLine::Start {
        name: text(alloc, b"Line")?,
        args: List::of([3, -10].to_vec(alloc)?),
    })?;
    lines.push(HistoryLine::Change {
        name: text(alloc, b"C")?,
        args: List::of(Vec::new(alloc)),
    })?;
    lines.push(HistoryLine::Change {
        name: text(alloc, b"C")?,
        args: List::of([-2147483648, 0, 2147483647].to_vec(alloc)?),
    })?;
    let wanted =
        b"report 2\nstart Line(3,-10)\nchange C()\nchange C(-2147483648,0,2147483647)\nstatus 0\n";
    assert_history(&rt, alloc, lines, wanted)
}

#[test]
fn events_of_changes_are_written(rt: HostRuntime) -> Result<(), Fail> {
    let alloc = rt.alloc();
    let mut lines = Vec::new(alloc);
    lines.push(make(alloc, 0, b"m", Kind::Map, Some(10), None)?)?;
    lines.push(make(alloc, 1, b"p.F[0]", Kind::Sink, None, Some(4294967295))?)?;
    lines.push(HistoryLine::Link {
        port: 1,
        node: 2,
        provide: 3,
    })?;
    lines.push(HistoryLine::Unlink { port: 4 })?;
    lines.push(HistoryLine::Remove { node: 5 })?;
    lines.push(HistoryLine::Close { port: 6 })?;
    lines.push(HistoryLine::Reopen { port: 7 })?;
    let wanted =
        b"report 2\nmake 0 m map(10)\nmake 1 p.F[0] sink() from 4294967295\nlink 1 2 3\nunlink 4\nremove 5\nclose 6\nreopen 7\nstatus 0\n";
    assert_history(&rt, alloc, lines, wanted)
}

#[test]
fn the_course_of_changes_is_written(rt: HostRuntime) -> Result<(), Fail> {
    let alloc = rt.alloc();
    let mut lines = Vec::new(alloc);
    lines.push(HistoryLine::Drained { port: 1, serial: 2 })?;
    lines.push(HistoryLine::Commit)?;
    lines.push(HistoryLine::Abandon)?;
    lines.push(HistoryLine::Skipped)?;
    lines.push(HistoryLine::Pending { rounds: 3 })?;
    lines.push(HistoryLine::Root { port: 4, serial: 5 })?;
    lines.push(HistoryLine::Run {
        k: 6,
        ended: 18446744073709551615,
    })?;
    lines.push(HistoryLine::Finish { n: 7, rounds: 8 })?;
    lines.push(HistoryLine::Stop)?;
    let wanted =
        b"report 2\ndrained 1 2\ncommit\nabandon\nskipped\npending 3\nopen 4 5\nrun 6 18446744073709551615\nfinish 7 8\nstop\nstatus 0\n";
    assert_history(&rt, alloc, lines, wanted)
}

/// A source that is linked to a sink.
fn pair(alloc: Global) -> Result<Graph, Fail> {
    let mut core = Core::empty(alloc);
    core.apply(&Event::Make {
        slot: 0,
        node: node(alloc, b"s", Kind::Source, Some(3))?,
        from: None,
    })?;
    core.apply(&Event::Make {
        slot: 1,
        node: node(alloc, b"t", Kind::Sink, None)?,
        from: None,
    })?;
    core.apply(&Event::Link {
        port: 0,
        node: 1,
        provide: 0,
    })?;
    Ok(core.graph()?)
}

#[test]
fn graphs_are_written(rt: HostRuntime) -> Result<(), Fail> {
    let alloc = rt.alloc();
    let mut lines = Vec::new(alloc);
    lines.push(HistoryLine::Show {
        graph: pair(alloc)?,
    })?;
    lines.push(HistoryLine::Stop)?;
    let wanted =
        b"report 2\nshow\nnode s source(3)\nport s.out t.in\nnode t sink()\nstop\nstatus 0\n";
    assert_history(&rt, alloc, lines, wanted)
}

/// A report of one node.
fn one_log(
    alloc: Global,
    node: Node,
    events: Vec<NodeEvent>,
    last: Last,
    unfinished: Option<u32>,
    status: u8,
) -> Result<Report, Fail>
    ensures { IfOk result (λ report. LogsAreMade report) }
{
    let mut history = Vec::new(alloc);
    history.push(HistoryLine::Make {
        slot: 0,
        node,
        from: None,
    })?;
    let mut logs = Vec::new(alloc);
    logs.push(NodeLog {
        slot: 0,
        events: List::of(events),
        last,
    })?;
    Ok(Report {
        history: List::of(history),
        logs: List::of(logs),
        unfinished,
        status,
    })
}

/// What is done at port 1 with serial 2 and value 3.
const MESSAGE: Message = Message {
    port: 1,
    serial: 2,
    value: 3,
};

#[test]
fn logs_are_written(rt: HostRuntime) -> Result<(), Fail> {
    let alloc = rt.alloc();
    let mut events = Vec::new(alloc);
    events.push(NodeEvent::of(Deed::Begin(MESSAGE)))?;
    events.push(NodeEvent::of(Deed::Call(MESSAGE)))?;
    events.push(NodeEvent::of(Deed::Take(MESSAGE)))?;
    events.push(NodeEvent::of(Deed::More(MESSAGE)))?;
    events.push(NodeEvent::of(Deed::Ask(MESSAGE)))?;
    events.push(NodeEvent::of(Deed::Hear(MESSAGE)))?;
    events.push(NodeEvent::of(Deed::Give(MESSAGE)))?;
    events.push(NodeEvent::of(Deed::End(MESSAGE)))?;
    events.push(NodeEvent::of(Deed::Miss { port: 4 }))?;
    let last = Last::State(List::of([11, 18446744073709551615].to_vec(alloc)?));
    let node = node(alloc, b"t", Kind::Sink, None)?;
    let report = one_log(alloc, node, events, last, None, 7)?;
    let written = report_text(alloc, &report)?;
    let wanted =
        b"report 2\nmake 0 t sink()\nlog 0 t\nbegin 1 2 3\ncall 1 2 3\ntake 1 2 3\nmore 1 2 3\nask 1 2 3\nhear 1 2 3\ngive 1 2 3\nend 1 2 3\nmiss 4\nstate 11 18446744073709551615\nstatus 7\n";
    assert!(rt; written.as_slice() == wanted.as_slice());
    Ok(())
}

#[test]
fn ends_of_logs_are_written(rt: HostRuntime) -> Result<(), Fail> {
    let alloc = rt.alloc();
    let node = node(alloc, b"p.F[0]", Kind::Place, Some(1))?;
    let last = Last::State(List::of(Vec::new(alloc)));
    let report = one_log(alloc, node, Vec::new(alloc), last, Some(0), 8)?;
    let written = report_text(alloc, &report)?;
    let wanted = b"report 2\nmake 0 p.F[0] place(1)\nlog 0 p.F[0]\nstate\nunfinished 0\nstatus 8\n";
    assert!(rt; written.as_slice() == wanted.as_slice());
    Ok(())
}

#[test]
fn a_moved_state_is_written(rt: HostRuntime) -> Result<(), Fail> {
    let alloc = rt.alloc();
    let node = node(alloc, b"a", Kind::Account, Some(100))?;
    let report = one_log(alloc, node, Vec::new(alloc), Last::Moved(4), None, 0)?;
    let written = report_text(alloc, &report)?;
    let wanted = b"report 2\nmake 0 a account(100)\nlog 0 a\nmoved 4\nstatus 0\n";
    assert!(rt; written.as_slice() == wanted.as_slice());
    Ok(())
}
