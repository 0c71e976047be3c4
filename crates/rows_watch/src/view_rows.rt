//! Rows of views.

ghost use Rattle.std.specs.Prelude.{◌≡◌, false};

use crate::graphs::one_sink;
use config_graph::{Graph, NoMemory, same};
use std::sync::Wait;
use std::test::Fail;
use std::thread;
use std::thread::{Threads, join};
use watch_view::{Seen, ViewWriter, Viewer, Views};

/// How many graphs are published beside a reader.
const COMMITS: u32 = 2_000;

/// How often it reads at most. So a row ends, and fails, where the last graph is never seen.
const READS: u32 = 10_000_000;

/// Whether this number of graphs is seen, and this graph.
fn are(seen: &Seen, commits: u32, graph: &Graph) -> bool {
    seen.commits == commits && same(&seen.graph, graph)
}

/// Whether a read and `last` both give this number and this graph.
fn give<R: Wait + Copy>(
    rt: &R,
    writer: &ViewWriter<R>,
    viewer: &mut Viewer,
    commits: u32,
    graph: &Graph,
) -> Result<bool, NoMemory> {
    let (read, last) = (viewer.read(rt)?, writer.last()?);
    Ok(are(&read, commits, graph) && are(&last, commits, graph))
}

/// What is given before a commit and after it.
fn commit_one<R: Wait + Copy>(
    rt: &R,
    writer: ViewWriter<R>,
    viewer: Viewer,
    nothing: &Graph,
    graph: &Graph,
) -> Result<(bool, bool), NoMemory>
    requires { writer.failed ≡ false }
{
    let (mut writer, mut viewer) = (writer, viewer);
    let before = give(rt, &writer, &mut viewer, 0, nothing)?;
    writer.commit(graph)?;
    viewer.learn(&writer.tell());
    let after = give(rt, &writer, &mut viewer, 1, graph)?;
    Ok((before, after))
}

/// 0 and the empty graph before a commit, 1 and its graph after it.
#[test]
fn one_viewer(rt: HostRuntime) -> Result<(), Fail> {
    let alloc = rt.alloc();
    let nothing = Graph::build(alloc, Vec::new(alloc), Vec::new(alloc))?;
    let graph = one_sink(alloc)?;
    let (writer, mut viewers) = Views::new(rt, alloc, 1)?;
    let Some(Some(viewer)) = viewers.pop() else {
        return Err(Fail::new("a viewer"));
    };
    let given = commit_one(&rt, writer, viewer, &nothing, &graph)?;
    assert!(rt; given == (true, true));
    Ok(())
}

/// Four observers each have a viewer, which reads what was published.
#[test]
fn four_viewers(rt: HostRuntime) -> Result<(), Fail> {
    let graph = one_sink(rt.alloc())?;
    let (writer, viewers) = Views::new(rt, rt.alloc(), 4)?;
    let mut writer = writer;
    writer.commit(&graph)?;
    let mut count = 0_u32;
    for viewer in viewers {
        let Some(mut viewer) = viewer else {
            return Err(Fail::new("a viewer"));
        };
        viewer.learn(&writer.tell());
        let seen = viewer.read(&rt)?;
        assert!(rt; are(&seen, 1, &graph));
        count = count.wrapping_add(1);
    }
    assert!(rt; count == 4);
    Ok(())
}

/// Publishes the graph again and again, and says whether there was memory.
fn commit_all<R: Wait + Copy>(writer: ViewWriter<R>, graph: &Graph) -> (ViewWriter<R>, bool)
    requires { writer.failed ≡ false }
{
    let mut writer = writer;
    for _ in 0..COMMITS {
        if writer.commit(graph).is_err() {
            return (writer, false);
        }
    }
    (writer, true)
}

/// Reads until all graphs were published, and says whether each graph that it read was the one that is published.
fn read_all<R: Wait>(rt: &R, viewer: Viewer, graph: &Graph) -> (Viewer, bool) {
    let mut viewer = viewer;
    for _ in 0..READS {
        let Ok(seen) = viewer.read(rt) else {
            break;
        };
        if seen.commits > 0 && !same(&seen.graph, graph) {
            break;
        }
        if seen.commits == COMMITS {
            return (viewer, true);
        }
        thread::yield_now();
    }
    (viewer, false)
}

/// What the writer and the reader say, each in a thread, and what is read once the reader was told.
fn at_once<R: Threads + Wait + Copy + Send + Sync>(
    rt: &R,
    writer: ViewWriter<R>,
    viewer: Viewer,
    graph: &Graph,
) -> Result<(bool, bool, bool), NoMemory>
    requires { writer.failed ≡ false }
{
    let ((mut writer, committed), (mut viewer, read)) = join(
        rt,
        || commit_all(writer, graph),
        || read_all(rt, viewer, graph),
    );
    viewer.learn(&writer.tell());
    Ok((
        committed,
        read,
        give(rt, &writer, &mut viewer, COMMITS, graph)?,
    ))
}

/// 2,000 graphs are published beside a reader, which comes to the last.
#[test]
fn beside_the_writer(rt: HostRuntime) -> Result<(), Fail> {
    let graph = one_sink(rt.alloc())?;
    let (writer, mut viewers) = Views::new(rt, rt.alloc(), 1)?;
    let Some(Some(viewer)) = viewers.pop() else {
        return Err(Fail::new("a viewer"));
    };
    let found = at_once(&rt, writer, viewer, &graph)?;
    assert!(rt; found == (true, true, true));
    Ok(())
}
