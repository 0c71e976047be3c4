//! What is noted of a run itself.

ghost use Rattle.std.specs.Prelude.{◌≡◌, ◌∷◌, ◌++◌, [], List as Items, IfErr, IfOk, OnOk, slice_get, length, ◌-◌};
ghost use Rattle.std.specs.Option.{option_map_or};
ghost use Rattle.config_graph.specs.Graph.{Graph as Shape};
ghost use Rattle.watch_lines.specs.Counts.{AreCountsOf, before_all, is_next, is_counted, lines_of, lines_from};
ghost use Rattle.watch_lines.specs.Sightings.{AreSightingsOf};

use crate::Sighting;
use config_graph::{Graph, List, NoMemory};
use std::alloc::{AllocError, Global};
use std::marker::Model;

/// What stands before the first commit.
const BEFORE_ALL: Sighting = Sighting {
    commits: 0,
    nodes: 0,
    links: 0,
};

/// Of each number of commits of a run, from 0, how many nodes and links there are. Contracts see these in order.
#[derive(Drop)]
pub struct Counts {
    sightings: Vec<Sighting>,
}

impl Model for Counts {
    ghost use Rattle.std.specs.Prelude.{List};
    ghost use Rattle.watch_lines.specs.declared.sighting.Sighting.{Sighting as Noted};

    ghost Value = { List Noted };

    ghost view = { λ c. c.sightings.items };
}

impl Counts {
    /// Those of a run that committed nothing yet.
    pub fn new(alloc: Global) -> Result<Counts, NoMemory>
        ensures { IfOk result (AreCountsOf []) }
    {
        let mut sightings = Vec::new(alloc);
        sightings.push(BEFORE_ALL)?;
        Ok(Counts { sightings })
    }

    /// Notes a commit, behind which this graph stands. Where memory runs out, or 2^32 - 1 commits were noted, nothing
    /// is noted.
    pub fn add(&mut self, graph: &Graph) -> Result<(), NoMemory>
        ensures added { OnOk result ((graphs : Items Shape)
            → AreCountsOf graphs self.old → AreCountsOf (graphs ++ graph.now ∷ []) self.new) }
        ensures same { IfErr result (λ _. self.new ≡ self.old) }
    {
        let commits = u32::try_from(self.sightings.len()).map_err(|_| AllocError)?;
        self.sightings.push(Sighting::of(commits, graph))?;
        Ok(())
    }

    /// The lines of an observer who saw this: what was noted of the run too, where its number is above those before it
    /// and below that of all commits. Then follows what was noted last.
    pub fn lines(&self, alloc: Global, seen: &[Sighting]) -> Result<List<Sighting>, NoMemory>
        ensures lines { IfOk result (λ lines. lines ≡ lines_of self.now seen.now) }
        ensures told { IfOk result (λ lines. (graphs : Items Shape)
            → AreCountsOf graphs self.now → AreSightingsOf graphs lines) }
    {
        let lines = self.lines_up_to(alloc, self.last(), seen)?;
        Ok(List::of(lines))
    }

    /// The lines of an observer who saw this, of which this is the last.
    fn lines_up_to(
        &self,
        alloc: Global,
        last: Sighting,
        seen: &[Sighting],
    ) -> Result<Vec<Sighting>, NoMemory>
        ensures { IfOk result (λ lines. lines.items ≡ lines_from self.now last 0 seen.now) }
    {
        let mut lines = Vec::new(alloc);
        let mut next = 0;
        for sighting in seen {
            if self.is_next(last, next, *sighting) {
                lines.push(*sighting)?;
                next = sighting.commits + 1;
            }
        }
        lines.push(last)?;
        Ok(lines)
    }

    /// What was noted last.
    fn last(&self) -> Sighting
        ensures { result ≡ option_map_or (λ s. s) (slice_get self.now (length self.now - 1)) before_all }
    {
        match self.sightings.last() {
            Some(last) => *last,
            None => BEFORE_ALL,
        }
    }

    /// Whether this is written behind lines up to the next number, and before the last.
    fn is_next(&self, last: Sighting, next: u32, sighting: Sighting) -> bool
        ensures { result ≡ is_next self.now last next sighting }
    {
        next <= sighting.commits && sighting.commits < last.commits && self.is_counted(sighting)
    }

    /// Whether the same was noted of the run.
    fn is_counted(&self, sighting: Sighting) -> bool
        ensures { result ≡ is_counted self.now sighting }
    {
        match self.sightings.get(sighting.commits as usize) {
            Some(noted) => noted.nodes == sighting.nodes && noted.links == sighting.links,
            None => false,
        }
    }
}
