//! The kinds of the dining philosophers: philosopher, place and fork.
#![tactic(auto)]

mod fork;
mod philosopher;
mod place;

pub use fork::Fork;
pub use philosopher::Philosopher;
pub use place::Place;
