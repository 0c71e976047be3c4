//! What an observer notes.

ghost use Rattle.std.specs.Prelude.{◌≡◌};
ghost use Rattle.watch_lines.specs.Sightings.{CountsOf};

use config_graph::Graph;

/// A number of commits, and how many nodes and links the graph has that stands behind the last of them.
#[derive(Clone, Copy, PartialEq, Eq)]
pub struct Sighting {
    pub commits: u32,
    pub nodes: u32,
    pub links: usize,
}

impl Sighting {
    /// What is noted where this graph stands behind so many commits.
    pub fn of(commits: u32, graph: &Graph) -> Sighting
        ensures commits { result.commits ≡ commits }
        ensures counts { CountsOf result graph.now }
    {
        Sighting {
            commits,
            nodes: graph.node_count(),
            links: graph.links().len(),
        }
    }
}
