//! Rows of the lines of observers.

use crate::graphs::one_sink;
use config_graph::{List, NoMemory};
use std::alloc::Global;
use std::test::Fail;
use watch_lines::{Counts, Sighting, push_watch_text};

/// What was noted behind so many commits.
fn noted(commits: u32, nodes: u32) -> Sighting {
    Sighting {
        commits,
        nodes,
        links: 0,
    }
}

/// The lines of an observer who saw these beside two commits of the graph of one node.
fn lines_of(alloc: Global, seen: &[Sighting]) -> Result<List<Sighting>, NoMemory> {
    let graph = one_sink(alloc)?;
    let mut counts = Counts::new(alloc)?;
    counts.add(&graph)?;
    counts.add(&graph)?;
    counts.lines(alloc, seen)
}

/// Each number is written once, with the counts of the run, and the last commit of each observer.
#[test]
fn two_observers(rt: HostRuntime) -> Result<(), Fail> {
    let alloc = rt.alloc();
    let mut observers = Vec::new(alloc);
    let seen = [
        noted(0, 0),
        noted(1, 7),
        noted(1, 1),
        noted(1, 1),
        noted(0, 0),
        noted(2, 7),
        noted(3, 1),
    ];
    observers.push(lines_of(alloc, &seen)?)?;
    observers.push(lines_of(alloc, &[])?)?;
    let mut text = Vec::new(alloc);
    push_watch_text(&mut text, &observers)?;
    let wanted = b"seen 0 0 0 0\nseen 0 1 1 0\nseen 0 2 1 0\nseen 1 2 1 0\n";
    assert!(rt; text.as_slice() == wanted.as_slice());
    Ok(())
}
