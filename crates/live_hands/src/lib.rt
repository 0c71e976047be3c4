//! Inboxes of hints which threads share: each is a ruled queue, and each thread has its own way in to all of them.
#![tactic(auto)]

mod entry;
mod hand;
mod inbox;
mod inboxes;
mod known;

pub use hand::Hand;
pub use inboxes::Inboxes;
pub use known::Known;
