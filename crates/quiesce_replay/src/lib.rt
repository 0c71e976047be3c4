//! Events replayed over a system that was started with a graph: which of them is denied, or what is open and settled
//! after all.
#![tactic(auto)]

mod applying;
mod laws;
mod replaying;
mod settling;
mod writing;

pub use applying::{Denial, apply_all};
pub use laws::denied_or_replayed;
pub use replaying::{Outcome, replay};
