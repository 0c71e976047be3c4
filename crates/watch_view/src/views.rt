//! How a writer and its viewers are made.

ghost use Rattle.std.specs.Prelude.{◌≡◌, ◌<◌, ◌≤◌, false, length, [], All, IfOk, vec_capacity};
ghost use Rattle.watch_view.specs.Known.{IsNew};
ghost use Rattle.watch_lines.specs.Lists.{no_graph};

use crate::rule::GraphWriter;
use crate::{Seen, ViewWriter, Viewer};
use config_graph::{Graph, NoMemory};
use std::alloc::Global;
use std::sync::Wait;

/// Makes a writer and its viewers.
pub struct Views;

impl Views {
    /// A writer, and for each of so many observers a viewer, or `None` where there is none to be had. `rt` is what
    /// the writer waits by.
    pub fn new<R: Wait + Copy>(
        rt: R,
        alloc: Global,
        observers: u32,
    ) -> Result<(ViewWriter<R>, Vec<Option<Viewer>>), NoMemory>
        requires { (0 < observers) × (observers ≤ 4) }
        ensures count { IfOk result (λ r. length r.1.items ≡ observers) }
        ensures writer { IfOk result (λ r. r.0 ≡ record { list = []; failed = false }) }
        ensures viewers { IfOk result (λ r. All IsNew r.1.items) }
    {
        let count = observers as usize;
        let places = Vec::with_capacity(alloc, count)?;
        let copies: GraphWriter = GraphWriter::new(alloc, nothing(alloc)?, nothing(alloc)?, count)?;
        let viewers = list_viewers(&copies, places, count);
        Ok((ViewWriter::over(rt, copies), viewers))
    }
}

/// A viewer for each of so many observers, where there is one. There is room for them.
fn list_viewers(
    copies: &GraphWriter,
    places: Vec<Option<Viewer>>,
    observers: usize,
) -> Vec<Option<Viewer>>
    requires { (places.items ≡ []) × (observers ≤ vec_capacity places) }
    ensures count { length result.items ≡ observers }
    ensures viewers { All IsNew result.items }
{
    let mut viewers = places;
    for _ in 0..observers {
        viewers.push_reserved(new_viewer(copies));
    }
    viewers
}

/// A viewer, where a reader is to be had.
fn new_viewer(copies: &GraphWriter) -> Option<Viewer>
    ensures { IsNew result }
{
    copies.factory().reader().ok().map(Viewer::over)
}

/// What is seen before any graph was published.
fn nothing(alloc: Global) -> Result<Seen, NoMemory>
    ensures { IfOk result (λ s. (s.commits ≡ 0) × (s.graph ≡ no_graph)) }
{
    let graph = Graph::build(alloc, Vec::new(alloc), Vec::new(alloc))?;
    Ok(Seen { commits: 0, graph })
}
