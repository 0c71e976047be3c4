//! Rows of observers in threads of their own.

ghost use Rattle.std.specs.Prelude.{◌≡◌, ◌≤◌, [], List as Items, OnOk};
ghost use Rattle.config_graph.specs.Graph.{Graph as Shape};
ghost use Rattle.watch_view.specs.Hearing.{HasHeard};

use crate::graphs::one_sink;
use change_runner::Listener;
use config_graph::{Graph, List, NoMemory};
use std::alloc::Global;
use std::sync::Wait;
use std::sync::atomic::Ordering;
use std::test::Fail;
use std::thread;
use std::thread::Threads;
use watch_view::{Observers, Sighting, Watch};

/// How often a row looks for what observers noted at most. So it ends, and fails, where they note nothing.
const LOOKS: u32 = 10_000_000;

/// How many watches there are at most, until each observer looked on in one of them.
const WATCHES: u32 = 1_000;

/// How many commits one observer sees, one after the other.
const COMMITS: u32 = 20;

/// What an observer notes before the first commit.
const NOTHING: Sighting = Sighting {
    commits: 0,
    nodes: 0,
    links: 0,
};

/// What it notes of the graph of one node.
const fn one_node(commits: u32) -> Sighting {
    Sighting {
        commits,
        nodes: 1,
        links: 0,
    }
}

/// Waits until an observer noted so many commits, and says whether one did, where there is any.
fn is_noted(observers: &Observers, commits: u32) -> bool {
    if observers.count == 0 {
        return true;
    }
    for _ in 0..LOOKS {
        if observers.seen.load(Ordering::SeqCst) >= commits {
            return true;
        }
        thread::yield_now();
    }
    false
}

/// Makes so many commits, and says whether an observer noted each before the next was made.
fn commit_each<R: Threads + Wait + Copy>(
    watch: &mut Watch<R>,
    observers: &Observers,
    graph: &Graph,
    commits: u32,
) -> Result<bool, NoMemory>
    requires { (graphs : Items Shape) × HasHeard watch.old graphs }
{
    let mut noted = true;
    for commit in 0..commits {
        watch.committed(graph)?;
        noted = noted && is_noted(observers, commit + 1);
    }
    Ok(noted)
}

/// The lines of observers beside so many commits, and whether one of them noted each before the next was made, and the
/// last before the end.
fn beside_commits<R: Threads + Wait + Copy + Send + Sync>(
    rt: R,
    alloc: Global,
    observers: &Observers,
    graph: &Graph,
    commits: u32,
) -> Result<(bool, Vec<List<Sighting>>), NoMemory>
    requires { observers.now.count ≤ 4 }
{
    thread::scope(
        thread::scope_env(),
        &rt,
        move |scope| -> Result<(bool, Vec<List<Sighting>>), NoMemory>
            requires { observers.now.count ≤ 4 }
        {
            let mut watch = Watch::begin(scope, rt, alloc, observers)?;
            let noted = commit_each(&mut watch, observers, graph, commits)?;
            Ok((noted, watch.end(alloc, observers.count)?))
        },
    )
}

/// What is written of one observer: nothing is left out that it noted.
#[test]
fn one_observer(rt: HostRuntime) -> Result<(), Fail> {
    let alloc = rt.alloc();
    let observers = Observers::new(1);
    let (noted, lines) = beside_commits(rt, alloc, &observers, &one_sink(alloc)?, COMMITS)?;
    assert!(rt; noted);
    let Some(lines) = lines.first() else {
        return Err(Fail::new("lines"));
    };
    let lines = match lines.items() {
        [first, behind @ ..] if *first == NOTHING => behind,
        lines => lines,
    };
    assert!(rt; lines.len() == COMMITS as usize);
    for (line, commits) in lines.iter().zip(1..) {
        assert!(rt; *line == one_node(commits));
    }
    Ok(())
}

/// Each of so many observers ends with the last commit.
#[test]
fn all_observers(rt: HostRuntime) -> Result<(), Fail> {
    let alloc = rt.alloc();
    for count in 0..=4 {
        let observers = Observers::new(count);
        let (noted, lines) = beside_commits(rt, alloc, &observers, &one_sink(alloc)?, 2)?;
        assert!(rt; noted);
        assert!(rt; lines.len() == count as usize);
        for lines in &lines {
            assert!(rt; lines.items().last().copied() == Some(one_node(2)));
        }
    }
    Ok(())
}

/// Whether an observer noted more than the last commit, of which it learns at the end.
fn has_looked_on(lines: &List<Sighting>) -> bool {
    lines.items().len() > 1
}

/// Each of four observers looks on before the end, in one of a thousand watches.
#[test]
fn each_looks_on(rt: HostRuntime) -> Result<(), Fail> {
    let alloc = rt.alloc();
    let graph = one_sink(alloc)?;
    let mut looked = [false; 4];
    for _ in 0..WATCHES {
        let observers = Observers::new(4);
        let (noted, lines) = beside_commits(rt, alloc, &observers, &graph, 2)?;
        assert!(rt; noted);
        for (looked, lines) in looked.iter_mut().zip(&lines) {
            *looked |= has_looked_on(lines);
        }
        if looked == [true; 4] {
            return Ok(());
        }
    }
    Err(Fail::new("an observer that looks on"))
}

/// A watch that is let go behind a commit, with all of its observers.
fn let_go<R: Threads + Wait + Copy + Send + Sync>(
    rt: R,
    alloc: Global,
    observers: &Observers,
    graph: &Graph,
) -> Result<bool, NoMemory>
    requires { observers.now.count ≤ 4 }
{
    thread::scope(
        thread::scope_env(),
        &rt,
        move |scope| -> Result<bool, NoMemory>
            requires { observers.now.count ≤ 4 }
        {
            let mut watch = Watch::begin(scope, rt, alloc, observers)?;
            watch.committed(graph)?;
            let noted = is_noted(observers, 1);
            drop(watch);
            Ok(noted)
        },
    )
}

/// No observer goes on where a run is given up.
#[test]
fn given_up(rt: HostRuntime) -> Result<(), Fail> {
    let alloc = rt.alloc();
    let observers = Observers::new(4);
    let noted = let_go(rt, alloc, &observers, &one_sink(alloc)?)?;
    assert!(rt; noted);
    Ok(())
}
