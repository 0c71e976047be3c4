//! A script carried out on threads: workers give nodes their turns and observers look on, while one thread changes the
//! system.
#![tactic(auto)]

mod due;
mod ending;
mod held;
mod running;
mod telling;
mod working;

pub use live_board::Turnstile;
pub use running::{Ran, run_on_threads};
pub use telling::lines_tell_what_was_seen;
pub use watch_view::Observers;
