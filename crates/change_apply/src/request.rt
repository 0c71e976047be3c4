//! What a session is asked for.

use change_plan::Plan;
use config_graph::{Graph, List, Text};

/// A component as it was called, and its graph.
#[derive(Drop)]
pub struct Called {
    pub name: Text,
    pub args: List<i32>,
    pub graph: Graph,
}

/// The change of a system from one component to another.
#[derive(Drop)]
pub struct Request {
    pub from: Called,
    pub to: Called,
    pub plan: Plan,
    /// In rounds: how long the ports have to drain.
    pub within: u32,
}
