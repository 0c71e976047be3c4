//! Scripts carried out: the statements of a script, one after the other, by the engine on any board.
#![tactic(auto)]

mod hearing;
mod replacing;
mod running;

pub use hearing::{Listener, NoOne};
pub use replacing::replace;
pub use running::run_statements;
