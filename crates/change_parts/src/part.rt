//! What a part of a change is made of.

use change_plan::{Move, Plan};
use config_graph::{Graph, List};

/// One of the parts of a change.
#[derive(Drop)]
pub struct Part {
    /// The graph after it.
    pub next: Graph,
    /// The plan to there from the graph before it.
    pub plan: Plan,
    /// The moves of the change that have their ends in this part.
    pub moves: List<Move>,
}
