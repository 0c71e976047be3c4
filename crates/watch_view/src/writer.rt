//! The one who publishes.

ghost use Rattle.std.specs.Prelude.{◌≡◌, ◌+◌, false, true, length, ◌++◌, ◌∷◌, [], drop, IfOk, IfErr};
ghost use Rattle.watch_view.specs.Known.{known_by};
ghost use Rattle.watch_lines.specs.Lists.{no_graph};
ghost use Rattle.watch_view.specs.Rule.{IsLast};

use crate::Seen;
use crate::rule::{GraphWriter, Publishing};
use config_graph::{Graph, NoMemory};
use core::mem::replace_with;
use std::alloc::AllocError;
use std::marker::Model;
use std::sync::Wait;

/// Publishes graphs. Contracts see the list of all that it published, and whether a commit found no memory. Its drop
/// waits for viewers that are reading.
pub struct ViewWriter<R: Wait + Copy> {
    rt: R,
    copies: GraphWriter,
    failed: bool,
}

impl<R: Wait + Copy> Model for ViewWriter<R> {
    ghost use Rattle.std.specs.Prelude.{◌≡◌, false, [], drop};
    ghost use Rattle.watch_view.specs.Known.{Writing, known_by};
    ghost use Rattle.watch_view.specs.Rule.{IsLast};

    ghost Value = { Writing };

    ghost view = { λ w. record { list = known_by w.copies.desk.place; failed = w.failed } };

    ghost invariant = { λ w. IsLast (known_by w.copies.desk.place) w.copies.desk.shown.value
        × (w.failed ≡ false → drop w.copies.behind w.copies.log.items ≡ []) };
}

impl<R: Wait + Copy> Drop for ViewWriter<R> {
    fn drop(self) {
        let ViewWriter {
            rt,
            copies,
            failed: _,
        } = self;
        drop(copies.take(&rt));
    }
}

/// What the writer tells its viewers: how many graphs it had published.
#[derive(Clone, Copy)]
pub struct Note {
    pub commits: u32,
}

impl<R: Wait + Copy> ViewWriter<R> {
    pub(crate) fn over(rt: R, copies: GraphWriter) -> ViewWriter<R>
        requires shown { (copies.desk.shown.value.commits ≡ 0) × (copies.desk.shown.value.graph ≡ no_graph) }
        requires new { (known_by copies.desk.place ≡ []) × (drop copies.behind copies.log.items ≡ []) }
        ensures { (result.list ≡ []) × (result.failed ≡ false) }
    {
        ViewWriter {
            rt,
            copies,
            failed: false,
        }
    }

    /// How many graphs were published, and the last of them.
    pub fn last(&self) -> Result<Seen, NoMemory>
        ensures { IfOk result (IsLast self.now.list) }
    {
        self.copies.published().try_clone()
    }

    /// Publishes a graph, and answers how many were published. It waits for viewers that still read the graph before
    /// the last one. Where memory runs out, or 2^32 - 1 graphs were published, the list is as before, and this writer
    /// publishes no more.
    pub fn commit(&mut self, graph: &Graph) -> Result<u32, NoMemory>
        requires { self.old.failed ≡ false }
        ensures number { IfOk result (λ n. n ≡ length self.new.list) }
        ensures published { IfOk result (λ _. self.new ≡ record { list = self.old.list ++ graph.now ∷ []; failed = false }) }
        ensures failed { IfErr result (λ _. self.new ≡ record { list = self.old.list; failed = true }) }
    {
        self.failed = true;
        let next = following(self.copies.published(), graph)?;
        let commits = next.commits;
        replace_with(&mut self.copies, &self.rt, |copies, rt| {
            publish(rt, copies, next)
        })?;
        self.failed = false;
        Ok(commits)
    }

    /// Tells how many graphs were published, for a viewer to learn.
    pub fn tell(&mut self) -> Note
        ensures note { result.commits ≡ length self.old.list }
        ensures same { self.new ≡ self.old }
    {
        Note {
            commits: self.copies.published().commits,
        }
    }
}

/// What is seen where this graph is published behind those.
fn following(shown: &Seen, graph: &Graph) -> Result<Seen, NoMemory>
    ensures { IfOk result (λ next. (next.commits ≡ shown.now.commits + 1) × (next.graph ≡ graph.now)) }
{
    let commits = shown.commits.checked_add(1).ok_or(AllocError)?;
    let graph = graph.try_clone()?;
    Ok(Seen { commits, graph })
}

/// Shows this to the viewers.
fn publish<R: Wait>(
    rt: &R,
    copies: GraphWriter,
    next: Seen,
) -> (GraphWriter, Result<(), AllocError>)
    requires last { IsLast (known_by copies.desk.place) copies.desk.shown.value }
    requires idle { drop copies.behind copies.log.items ≡ [] }
    requires next { next.commits ≡ copies.desk.shown.value.commits + 1 }
    ensures last { IsLast (known_by result.0.desk.place) result.0.desk.shown.value }
    ensures idle { IfOk result.1 (λ _. drop result.0.behind result.0.log.items ≡ []) }
    ensures added { IfOk result.1 (λ _. known_by result.0.desk.place ≡ known_by copies.desk.place ++ next.graph ∷ []) }
    ensures same { IfErr result.1 (λ _. known_by result.0.desk.place ≡ known_by copies.desk.place) }
{
    let mut copies = copies;
    if copies.append(next).is_err() {
        return (copies, Err(AllocError));
    }
    copies.publish_as::<Publishing, R>(rt)
}
