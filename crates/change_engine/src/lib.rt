//! Changes over any board: what a change does on it, and what its history tells of that.
#![tactic(auto)]

mod carrying;
mod draining;
mod ending;
mod engine;
mod finishing;
mod launching;
mod laws;
mod passivating;
mod preparing;
mod running;
mod stopping;
mod telling;

pub use change_lists::{Layout, layouts_tell_commits};
pub use draining::PassError;
pub use engine::{Change, Engine};
pub use finishing::finish;
pub use laws::{
    commits_have_room, looks_behind_closes_find_roots, passivated_ports_are_noted,
    plans_may_be_carried_out, starts_may_be_done,
};
pub use passivating::{LeftRoot, Waiting, passivate};
pub use stopping::stop;
