//! Up to which place of a history a close is left before the line that tells a root.

ghost use Rattle.std.specs.Prelude.{◌≡◌, ◌+◌, ◌<◌, [], length, take, IfOk, OnOk};
ghost use Rattle.report_check.specs.Ahead.{AreBounds, AreNoted, Updated, bound_of};

use config_graph::NoMemory;
use indexmap::IndexMap;
use report_types::HistoryLine;
use std::alloc::Global;
use std::marker::Model;

/// A root: its port and serial.
#[derive(Clone, Copy, PartialEq, Eq, Hash)]
pub struct Root {
    pub port: u32,
    pub serial: u32,
}

/// Of each root that is told, the place behind the last close before its last line. Contracts see the pairs.
#[derive(Drop)]
pub struct Closes {
    bounds: IndexMap<Root, usize>,
}

impl Model for Closes {
    ghost use Rattle.std.specs.Prelude.{ℕ, List};
    ghost use Rattle.report_check.specs.declared.closes.Root.{Root};

    ghost Value = { List (Root × ℕ) };

    ghost view = { λ c. c.bounds.entries };
}

impl Closes {
    fn new(alloc: Global) -> Closes
        ensures { result ≡ [] }
    {
        Closes {
            bounds: IndexMap::new(alloc),
        }
    }

    /// Up to where a close is left before the line that tells the root.
    pub fn bound(&self, root: Root) -> Option<usize>
        ensures { result ≡ bound_of self.now root }
    {
        self.bounds.get(&root).copied()
    }

    fn put(&mut self, root: Root, bound: usize) -> Result<(), NoMemory>
        ensures { OnOk result (Updated self.old self.new root bound) }
    {
        self.bounds.insert(root, bound)?;
        Ok(())
    }

    /// The table for a history.
    pub fn of(alloc: Global, history: &[HistoryLine]) -> Result<Closes, NoMemory>
        ensures { IfOk result (λ c. AreBounds c history.now) }
    {
        let mut closes = Closes::new(alloc);
        closes.note_all(history)?;
        Ok(closes)
    }

    /// Notes the line at a place, where those before it are noted, and answers the place behind the last close.
    fn note(
        &mut self,
        history: &[HistoryLine],
        place: usize,
        bound: usize,
    ) -> Result<usize, NoMemory>
        requires there { place < length history.now }
        requires noted { AreNoted self.old bound (take place history.now) }
        ensures { IfOk result (λ after. AreNoted self.new after (take (place + 1) history.now)) }
    {
        match &history[place] {
            HistoryLine::Close { .. } => Ok(place + 1),
            HistoryLine::Root { port, serial } => {
                let root = Root {
                    port: *port,
                    serial: *serial,
                };
                self.put(root, bound)?;
                Ok(bound)
            }
            _ => Ok(bound),
        }
    }

    fn note_all(&mut self, history: &[HistoryLine]) -> Result<(), NoMemory>
        requires { self.old ≡ [] }
        ensures { OnOk result (AreBounds self.new history.now) }
    {
        let mut bound = 0;
        for place in 0..history.len() {
            bound = self.note(history, place, bound)?;
        }
        Ok(())
    }
}
