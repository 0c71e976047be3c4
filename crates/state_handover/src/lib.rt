//! Nodes of any kind: how they are made, and how one takes over what another of its kind keeps.
#![tactic(auto)]

mod any_node;
mod handover;

pub use any_node::AnyNode;
pub use handover::{import, make};
