//! What a plan is made of.

use config_graph::{Link, List, Port, Text};

/// The state of a node that is removed goes to one that is created. Both are named by their paths.
#[derive(Drop)]
pub struct Move {
    pub from: Text,
    pub to: Text,
}

/// A port of the old graph.
pub type OldPort = Port;

/// A move by the nodes' indexes, `old` in the old graph and `new` in the new one.
#[derive(Clone, Copy)]
pub struct Shift {
    pub old: u32,
    pub new: u32,
}

/// The steps from one graph to another. Indexes in `unlink`, `remove` and `freeze` are those of the old graph, in
/// `create` and `link` those of the new one. All are in the order of paths, and the ports of a node in that of its
/// kind.
#[derive(Drop)]
pub struct Plan {
    /// The ports of the old links that the new graph hasn't.
    pub unlink: List<OldPort>,
    /// The old nodes that the new graph hasn't.
    pub remove: List<u32>,
    /// The new nodes that the old graph hasn't.
    pub create: List<u32>,
    /// The new links that the old graph hasn't.
    pub link: List<Link>,
    /// The moves, in the order of the nodes that are created.
    pub moves: List<Shift>,
    /// The old nodes that are removed or get another target, and those with a port that reaches one of them.
    pub freeze: List<u32>,
}
