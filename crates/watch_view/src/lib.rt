//! Observers of the committed graph, in threads of their own: one list of published graphs, which only grows.
#![tactic(auto)]

mod observer;
mod place;
mod rule;
mod seen;
mod viewer;
mod views;
mod watch;
mod writer;

pub use config_graph::{Graph, List, NoMemory};
pub use seen::Seen;
pub use viewer::Viewer;
pub use views::Views;
pub use watch::{Observers, Watch};
pub use watch_lines::Sighting;
pub use writer::{Note, ViewWriter};
