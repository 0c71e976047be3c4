//! Passive sets (Kramer and Magee 1990): which nodes have to be passive while a change unlinks, removes or links
//! others.
#![tactic(auto)]

mod marks;
mod passive;
mod port_set;

pub use passive::{direct, enlarged};
