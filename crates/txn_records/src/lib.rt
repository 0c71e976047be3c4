//! Records of what a change does and sees while nodes are at work: of which runs they are, which ports they note as
//! drained, and what a change may do by them.
#![tactic(auto)]

mod entry;
mod laws;
mod looking;

pub use entry::Entry;
pub use laws::{records_grow, records_tell_what_is_allowed};
pub use looking::Look;
