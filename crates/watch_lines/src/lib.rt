//! What is written of observers of a run, behind its report: how many nodes and links stood at which commit.
#![tactic(auto)]

mod counts;
mod laws;
mod sighting;
mod writing;

pub use config_graph::{Graph, List, NoMemory};
pub use counts::Counts;
pub use laws::what_was_seen_is_told;
pub use sighting::Sighting;
pub use writing::push_watch_text;
