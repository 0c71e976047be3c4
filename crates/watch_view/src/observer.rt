//! One who looks, and notes what is new.

ghost use Rattle.std.specs.Prelude.{◌≡◌, [], IfOk, IfSome, OnOk, length, List as Items};
ghost use Rattle.config_graph.specs.Graph.{Graph as Shape};
ghost use Rattle.watch_view.specs.Noted.{AreNoted, AreNotedTo, EndAt, is_new, watching};
ghost use Rattle.watch_view.specs.Known.{Reads};
ghost use Rattle.watch_view.specs.Rule.{IsLast};

use crate::{Note, Seen, Viewer};
use std::alloc::Global;
use std::marker::Model;
use std::sync::Wait;
use std::sync::atomic::{AtomicBool, AtomicU32, Ordering};
use std::thread;
use watch_lines::{NoMemory, Sighting};

/// A viewer, and what it noted. Contracts see the list of published graphs as it was at the last look, the greatest number
/// of commits that was read or learned, and what was noted: sightings of that list, whose numbers rise.
#[derive(Drop)]
pub struct Observer {
    viewer: Viewer,
    noted: Vec<Sighting>,
}

impl Model for Observer {
    ghost use Rattle.watch_view.specs.Noted.{AreNoted, Observing};

    ghost Value = { Observing };

    ghost view = { λ o. record { list = o.viewer.list; seen = o.viewer.seen; noted = o.noted.items } };

    ghost invariant = { λ o. AreNoted o.viewer.list o.noted.items };
}

impl Observer {
    /// One that has noted nothing.
    pub fn new(alloc: Global, viewer: Viewer) -> Observer
        ensures { result ≡ record { list = viewer.list; seen = viewer.seen; noted = [] } }
    {
        let noted = Vec::new(alloc);
        Observer { viewer, noted }
    }

    /// Looks again and again until the flag is set, or there is no memory. The greatest number that it notes raises `seen`.
    pub fn look_on<R: Wait>(self, rt: &R, stop: &AtomicBool, seen: &AtomicU32) -> Observer {
        let mut observer = self;
        for _ in rt.forever() {
            if stop.load(Ordering::SeqCst) {
                break;
            }
            match observer.look(rt) {
                Ok(Some(commits)) => {
                    seen.fetch_max(commits, Ordering::SeqCst);
                }
                Ok(None) => thread::yield_now(),
                Err(_) => break,
            }
        }
        observer
    }

    /// What it noted, once it has learned this number and looked a last time.
    pub fn finish<R: Wait>(self, rt: &R, note: &Note) -> Result<Vec<Sighting>, NoMemory>
        ensures { IfOk result (λ noted. AreNotedTo note.now.commits noted.items) }
    {
        let mut observer = self;
        observer.viewer.learn(note);
        observer.look(rt)?;
        Ok(observer.noted)
    }

    /// Looks once, and notes what is seen where its number is new. That number is the answer.
    fn look<R: Wait>(&mut self, rt: &R) -> Result<Option<u32>, NoMemory>
        ensures reads { Reads (watching self.old) (watching self.new) }
        ensures number { IfOk result (λ told. IfSome told (λ commits. commits ≡ length self.new.list)) }
        ensures ends { OnOk result (EndAt self.new.list self.new.noted) }
    {
        let seen = self.viewer.read(rt)?;
        note(&mut self.noted, &seen)
    }
}

/// Notes what is seen, where its number is new. That number is the answer.
fn note(noted: &mut Vec<Sighting>, seen: &Seen) -> Result<Option<u32>, NoMemory>
    ensures kept { (list : Items Shape) → AreNoted list noted.old.items → IsLast list seen.now
        → AreNoted list noted.new.items }
    ensures ends { (list : Items Shape) → AreNoted list noted.old.items → IsLast list seen.now
        → OnOk result (EndAt list noted.new.items) }
    ensures number { IfOk result (λ told. IfSome told (λ commits. commits ≡ seen.now.commits)) }
{
    if !is_new(noted, seen.commits) {
        return Ok(None);
    }
    noted.push(Sighting::of(seen.commits, &seen.graph))?;
    Ok(Some(seen.commits))
}

/// Whether this number is above that of what was noted last.
fn is_new(noted: &[Sighting], commits: u32) -> bool
    ensures { result ≡ is_new noted.now commits }
{
    match noted.last() {
        Some(last) => last.commits < commits,
        None => true,
    }
}
