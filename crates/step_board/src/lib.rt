//! The board that stands on the nodes of a system on one thread.
#![tactic(auto)]

mod adding;
mod changing;
mod collecting;
mod copying;
mod handed;
mod held;
mod laws;
mod making;
mod nodes;
mod reading;
mod reserving;
mod scanning;
mod standing;
mod table;
mod tables;
mod turning;

pub use handed::Handed;
pub use held::Held;
pub use laws::tables_show_worlds;
pub use nodes::Nodes;
pub use standing::StepBoard;
pub use table::NodeTable;
