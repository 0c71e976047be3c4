//! Elaboration: from a description to its graph of nodes and links.
#![tactic(auto)]

mod building;
mod chains;
mod directory;
mod elaborating;
mod error;
mod growing;
mod instance;
mod laws;
mod links;
mod making;
mod nodes;
mod opening;
mod pairs;
mod path_index;
mod paths;
mod ports;

pub use elaborating::elaborate;
pub use error::ElabError;
pub use laws::{
    a_graph_or_a_fault, an_instance_is_told_by_its_path, each_instance_is_counted_once,
    instances_are_those_of_the_list, links_join_what_bindings_do, one_graph, one_provision,
    paths_are_words, texts_tell_graphs,
};
