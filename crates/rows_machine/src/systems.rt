//! The systems of the rows, as events in the words of event files.

ghost use Rattle.std.specs.Prelude.{IfOk};
ghost use Rattle.config_graph.specs.Sound.{Sound};

use change_script::{EventFile, parse_events};
use config_graph::{Graph, NoMemory};
use darwin_lexer::MAX_TEXT;
use quiesce_core::{Core, Event};
use std::alloc::{AllocError, Global};
use std::process::Abort;
use std::test::Fail;

/// A source, port 1, leads to a map, port 0, and the map to a sink.
pub const LINE: &str = "make 0 m map(10)
make 1 s source(3)
make 2 t sink()
link 0 2 0
link 1 0 0
reopen 0
reopen 1
";

/// Node 0 asks node 1, which sends intermediate replies.
pub const TWO: &str = "make 0 a asker(2)
make 1 d adder()
link 0 1 0
reopen 0
";

/// A teller leads to a branch, whose ports 1 and 2 lead to an account, as does the port of a source, node 3.
pub const BANK: &str = "make 0 w teller(3)
make 1 r branch()
make 2 a account(100)
make 3 x source(1)
link 0 1 0
link 1 2 0
link 2 2 0
link 3 2 0
reopen 0
reopen 3
";

/// What takes the sink out of the line.
pub const WITHOUT_SINK: &str = "close 0
close 1
unlink 0
remove 2
";

fn push_all(text: &mut String, pieces: &[&str], last: &str) -> Result<(), AllocError> {
    for piece in pieces {
        text.push_str(piece)?;
    }
    text.push_str(last)
}

/// The events of an event file with this text.
fn events_in(rt: &impl Abort, alloc: Global, text: &[u8]) -> EventFile {
    assert!(rt; text.len() <= MAX_TEXT);
    match parse_events(alloc, text) {
        Ok(file) => file,
        Err(_) => panic!(rt; "the events aren't read"),
    }
}

/// The events of an event file, in pieces and a last one, behind its start.
pub fn events_of(
    rt: &impl Abort,
    alloc: Global,
    pieces: &[&str],
    last: &str,
) -> Result<EventFile, Fail> {
    let mut text = String::from_str(alloc, "start X()\n")?;
    push_all(&mut text, pieces, last)?;
    Ok(events_in(rt, alloc, text.as_str().as_bytes()))
}

/// A copy of each event happens.
fn happen(rt: &impl Abort, core: &mut Core, events: &[Event]) -> Result<(), NoMemory> {
    for event in events {
        let copy = event.try_clone()?;
        assert!(rt; core.apply(&copy) == Ok(()));
    }
    Ok(())
}

/// The state after these events, from where nothing is made.
pub fn core_after(rt: &impl Abort, alloc: Global, pieces: &[&str]) -> Result<Core, Fail> {
    let file = events_of(rt, alloc, pieces, "")?;
    let mut core = Core::empty(alloc);
    happen(rt, &mut core, file.events.items())?;
    Ok(core)
}

/// The graph of what these events make and link.
pub fn graph_after(rt: &impl Abort, alloc: Global, pieces: &[&str]) -> Result<Graph, Fail>
    ensures { IfOk result Sound }
{
    let core = core_after(rt, alloc, pieces)?;
    Ok(core.graph()?)
}
