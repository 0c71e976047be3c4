//! Elaboration of one instance: what expressions are worth, and what an instance of a component reaches.
#![tactic(auto)]

mod environment;
mod fault;
mod instance;
mod keyed;
mod laws;
mod scope;
mod valuing;
mod walked;
mod walking;

pub use fault::{Fault, WalkError};
pub use instance::{parameters_of, walk};
pub use laws::{ranges_have_their_integers, what_is_reached};
pub use valuing::Variable;
pub use walked::{Binding, Child, End, Segment, Walked};
