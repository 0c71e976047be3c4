//! A gate at which a component begins transactions, by which a runtime outside keeps the premises on what may begin and
//! what is told: it holds back what would begin behind it, and tells when the last has ended.
#![tactic(auto)]

mod gate;

pub use gate::{Gate, MAX_ROOTS};
