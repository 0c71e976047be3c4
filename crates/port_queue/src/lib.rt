//! Hints for nodes: which ports others have sent a message at. A hint may be stale; the gates alone decide.
#![tactic(auto)]

mod hints;
mod inbox;
mod plain;

pub use hints::{Full, Hints};
pub use plain::PlainHints;

/// How many hints one inbox holds at most.
pub const MAX_HINTS: u32 = 1_024;
