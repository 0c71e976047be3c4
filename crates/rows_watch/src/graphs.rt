//! The graph that is published.

use config_graph::{Graph, Kind, NoMemory, Node, Text};
use std::alloc::Global;

/// The graph of one node, a sink.
pub fn one_sink(alloc: Global) -> Result<Graph, NoMemory> {
    let mut nodes = Vec::new(alloc);
    nodes.push(Node {
        path: Text::from_bytes(alloc, b"t")?,
        kind: Kind::Sink,
        arg: None,
    })?;
    Graph::build(alloc, nodes, Vec::new(alloc))
}
