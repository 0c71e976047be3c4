//! Where an observer looks from.

ghost use Rattle.std.specs.Prelude.{◌≡◌, length, All, IfOk, List as Items};
ghost use Rattle.config_graph.specs.Graph.{Graph as Shape};
ghost use Rattle.watch_lines.specs.Counts.{AreCountsOf};
ghost use Rattle.watch_lines.specs.Sightings.{AreSightingsOf};

use crate::observer::Observer;
use crate::{Note, Viewer};
use config_graph::List;
use std::alloc::Global;
use std::sync::atomic::{AtomicBool, AtomicU32, Ordering};
use std::sync::{Arc, Wait};
use std::thread::{JoinHandle, Scope, Threads};
use watch_lines::{Counts, NoMemory, Sighting};

/// An observer that looks in a thread of its own. It is told to stop and has ended once this is dropped.
pub struct Looking<R: Threads + Copy> {
    rt: R,
    observer: JoinHandle<Observer>,
    stop: Arc<AtomicBool, Global>,
}

impl<R: Threads + Copy> Looking<R> {
    /// Tells it to stop, and takes it back.
    fn stop(self) -> Observer {
        let Looking { rt, observer, stop } = self;
        stop.store(true, Ordering::SeqCst);
        observer.join(&rt)
    }
}

impl<R: Threads + Copy> Drop for Looking<R> {
    fn drop(self) {
        drop(self.stop());
    }
}

/// Where an observer looks from.
#[derive(Drop)]
pub enum Place<R: Threads + Copy> {
    InThread(Looking<R>),
    /// No thread could be started: it looks at the stop alone.
    AtTheStop(Observer),
    /// There is no reader for it.
    Nowhere,
}

impl<R: Threads + Wait + Copy + Send> Place<R> {
    /// Has it look in a thread of its own, where there is a viewer and a thread can be started.
    pub fn begin<'s, E>(
        scope: &Scope<'s, E>,
        rt: R,
        alloc: Global,
        viewer: Option<Viewer>,
        seen: &'s AtomicU32,
    ) -> Result<Place<R>, NoMemory>
    where
        R: 's,
    {
        let Some(viewer) = viewer else {
            return Ok(Place::Nowhere);
        };
        let observer = Observer::new(alloc, viewer);
        let stop = Arc::new(alloc, AtomicBool::new(false))?;
        let told = Arc::try_clone(&stop)?;
        match scope.spawn(move || observer.look_on(&rt, &told, seen)) {
            Ok(observer) => Ok(Place::InThread(Looking { rt, observer, stop })),
            Err(refused) => {
                stop.store(true, Ordering::SeqCst);
                let look_on = refused.value;
                Ok(Place::AtTheStop(look_on()))
            }
        }
    }

    /// The lines of this observer, once it has stopped, learned this number and looked a last time.
    pub fn lines(
        self,
        rt: &R,
        alloc: Global,
        note: &Note,
        counts: &Counts,
    ) -> Result<List<Sighting>, NoMemory>
        ensures { IfOk result (λ lines. (graphs : Items Shape)
            → AreCountsOf graphs counts.now → AreSightingsOf graphs lines) }
    {
        let noted = match self {
            Place::InThread(looking) => looking.stop().finish(rt, note)?,
            Place::AtTheStop(observer) => observer.finish(rt, note)?,
            Place::Nowhere => Vec::new(alloc),
        };
        counts.lines(alloc, &noted)
    }
}

/// Has each observer look, in the order of their viewers.
pub fn begin_all<'s, E, R: Threads + Wait + Copy + Send + 's>(
    scope: &Scope<'s, E>,
    rt: R,
    alloc: Global,
    viewers: Vec<Option<Viewer>>,
    seen: &'s AtomicU32,
) -> Result<Vec<Place<R>>, NoMemory> {
    let mut places = Vec::new(alloc);
    for viewer in viewers {
        places.push(Place::begin(scope, rt, alloc, viewer, seen)?)?;
    }
    Ok(places)
}

/// The lines of so many observers.
pub fn end_all<R: Threads + Wait + Copy + Send>(
    rt: &R,
    alloc: Global,
    places: Vec<Place<R>>,
    observers: u32,
    note: &Note,
    counts: &Counts,
) -> Result<Vec<List<Sighting>>, NoMemory>
    ensures count { IfOk result (λ lines. length lines.items ≡ observers) }
    ensures told { IfOk result (λ lines. (graphs : Items Shape)
        → AreCountsOf graphs counts.now → All (AreSightingsOf graphs) lines.items) }
{
    let mut places = places.into_iter();
    let mut lines = Vec::new(alloc);
    for _ in 0..observers {
        let place = places.next().unwrap_or(Place::Nowhere);
        lines.push(place.lines(rt, alloc, note, counts)?)?;
    }
    Ok(lines)
}
