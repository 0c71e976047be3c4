//! Nodes with their seats and logs, and their turns: the next move of a node, through any gate.
#![tactic(auto)]

mod acting;
mod beginning;
mod ending;
mod keeping;
mod node;
mod posting;
mod serving;
mod taking;
mod turning;

pub use node::{HostNode, Past};
pub use turning::Turn;
