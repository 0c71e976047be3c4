//! Graphs: node kinds, nodes, links, and the graph text.
#![tactic(auto)]

mod cycles;
mod graph;
mod indexes;
mod kind;
mod laws;
mod node;
mod numbering;
mod writing;

pub use base::{List, NoMemory, Text};
pub use cycles::{first_on_cycle, has_cycle};
pub use graph::{Graph, same};
pub use kind::{Kind, kind_of};
pub use laws::{
    a_first_on_a_cycle_or_none, kinds_are_small, kinds_have_their_names, limits_of_one_run,
    one_graph, texts_tell_sound_graphs,
};
pub use node::{Link, Made, Node, Port, Target};
pub use writing::{graph_text, kind_text};

/// How many nodes one run makes at most.
pub const MAX_NODES: u32 = 1_023;

/// How many ports, the required services of nodes, one run makes at most.
pub const MAX_PORTS: u32 = 4_096;

/// Arguments of nodes, and the values of messages, are below this number.
pub const VALUE_LIMIT: u32 = 16_777_216;
