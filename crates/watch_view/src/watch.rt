//! A run that is watched.

ghost use Rattle.std.specs.Prelude.{◌≡◌, ◌≤◌, ◌∷◌, ◌++◌, [], length, is_some, nat_lt, All, IfOk, OnOk, List as Items};
ghost use Rattle.config_graph.specs.Graph.{Graph as Shape};
ghost use Rattle.watch_lines.specs.Sightings.{AreSightingsOf};
ghost use Rattle.watch_view.specs.Hearing.{ArePublished, HasHeard};

use crate::place::{Place, begin_all, end_all};
use crate::{Note, ViewWriter, Views};
use change_runner::Listener;
use config_graph::{Graph, List};
use std::alloc::Global;
use std::marker::Model;
use std::sync::Wait;
use std::sync::atomic::AtomicU32;
use std::thread::{Scope, Threads};
use watch_lines::{Counts, NoMemory, Sighting};

/// How many observers look on, and the greatest number of commits that one of them noted so far.
#[derive(Drop)]
pub struct Observers {
    pub count: u32,
    pub seen: AtomicU32,
}

impl Observers {
    pub fn new(count: u32) -> Observers
        ensures { result.count ≡ count }
    {
        Observers {
            count,
            seen: AtomicU32::new(0),
        }
    }
}

/// Publishes the graph of each commit to observers, and notes its counts. Once it is dropped all observers have ended.
pub struct Watch<R: Threads + Wait + Copy> {
    rt: R,
    places: Vec<Place<R>>,
    writer: Option<ViewWriter<R>>,
    counts: Counts,
}

impl<R: Threads + Wait + Copy> Model for Watch<R> {
    ghost use Rattle.watch_view.specs.Hearing.{Hearing};

    ghost Value = { Hearing };

    ghost view = { λ w. record { published = w.writer; counts = w.counts } };
}

impl<R: Threads + Wait + Copy> Drop for Watch<R> {
    fn drop(self) {
        let Watch {
            rt: _,
            places,
            writer,
            counts: _,
        } = self;
        // a viewer whose writer is gone looks for ever
        drop(places);
        drop(writer);
    }
}

impl<R: Threads + Wait + Copy> Listener for Watch<R> {
    ghost heard = { λ w graphs. HasHeard w graphs };

    fn committed(&mut self, graph: &Graph) -> Result<(), NoMemory>
        requires { (graphs : Items Shape) × HasHeard self.old graphs }
        ensures heard { OnOk result ((graphs : Items Shape)
            → HasHeard self.old graphs → HasHeard self.new (graphs ++ graph.now ∷ [])) }
        ensures published { is_some self.new.published ≡ is_some self.old.published }
    {
        publish(&mut self.writer, graph)?;
        self.counts.add(graph)
    }
}

impl<R: Threads + Wait + Copy + Send> Watch<R> {
    /// Begins with no commit. Where there are observers each commit is published. Each of them looks in a thread of its own,
    /// until this is ended or dropped.
    pub fn begin<'s, E>(
        scope: &Scope<'s, E>,
        rt: R,
        alloc: Global,
        observers: &'s Observers,
    ) -> Result<Watch<R>, NoMemory>
    where
        R: 's,
        requires { observers.now.count ≤ 4 }
        ensures heard { IfOk result (λ w. HasHeard w []) }
        ensures published { IfOk result (λ w. is_some w.published ≡ nat_lt 0 observers.now.count) }
    {
        let counts = Counts::new(alloc)?;
        if observers.count == 0 {
            return Ok(Watch {
                rt,
                places: Vec::new(alloc),
                writer: None,
                counts,
            });
        }
        let (writer, viewers) = Views::new(rt, alloc, observers.count)?;
        let places = begin_all(scope, rt, alloc, viewers, &observers.seen)?;
        Ok(Watch {
            rt,
            places,
            writer: Some(writer),
            counts,
        })
    }

    /// Ends all observers. Gives the lines of so many of them.
    pub fn end(self, alloc: Global, observers: u32) -> Result<Vec<List<Sighting>>, NoMemory>
        ensures count { IfOk result (λ lines. length lines.items ≡ observers) }
        ensures told { IfOk result (λ lines. (graphs : Items Shape)
            → HasHeard self graphs → All (AreSightingsOf graphs) lines.items) }
    {
        let Watch {
            rt,
            places,
            writer,
            counts,
        } = self;
        let mut writer = writer;
        let note = tell(&mut writer);
        end_all(&rt, alloc, places, observers, &note, &counts)
    }
}

/// Publishes the graph, where there is anyone to read it.
fn publish<R: Wait + Copy>(
    writer: &mut Option<ViewWriter<R>>,
    graph: &Graph,
) -> Result<(), NoMemory>
    requires { (graphs : Items Shape) × ArePublished graphs writer.old }
    ensures graphs { OnOk result ((graphs : Items Shape)
        → ArePublished graphs writer.old → ArePublished (graphs ++ graph.now ∷ []) writer.new) }
    ensures kept { is_some writer.new ≡ is_some writer.old }
{
    if let Some(writer) = writer {
        writer.commit(graph)?;
    }
    Ok(())
}

/// Tells how many graphs were published.
fn tell<R: Wait + Copy>(writer: &mut Option<ViewWriter<R>>) -> Note {
    match writer {
        Some(writer) => writer.tell(),
        None => Note { commits: 0 },
    }
}
