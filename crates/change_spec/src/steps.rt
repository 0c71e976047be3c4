//! What a script asks for, with the graphs and the plans that were made for it.

use change_plan::{Move, Plan};
use config_graph::{Graph, List, Text};

/// How a run begins: the component and its arguments, and its graph.
#[derive(Drop)]
pub struct Start {
    pub name: Text,
    pub args: List<i32>,
    pub graph: Graph,
}

/// A change to another component: its arguments and graph, and the plan from the graph that was named before it.
#[derive(Drop)]
pub struct Replacement {
    pub name: Text,
    pub args: List<i32>,
    pub graph: Graph,
    /// The states that are handed over, as they were asked for.
    pub moves: List<Move>,
    pub plan: Plan,
    /// How many rounds the ports have to drain.
    pub within: u32,
}

/// A statement behind the start.
#[derive(Drop)]
pub enum Step {
    /// Scans until so many transactions ended.
    Run { k: u32 },
    Change(Replacement),
    /// Scans until all is at rest, so many at most.
    Finish { n: u32 },
    /// The graph is told.
    Show,
}
