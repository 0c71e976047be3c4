//! What a change acts on: boards, and the one loop that does a prepared list of a change's events on any of them.
#![tactic(auto)]

mod board;
mod laws;
mod stepping;

pub use board::{Board, Collected, Scan};
pub use laws::{borne_histories_have_the_events, steps_may_be_done, what_is_seen_is_what_was_done};
pub use stepping::do_steps;
