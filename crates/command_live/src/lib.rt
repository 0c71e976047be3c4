//! All commands, those that run on one thread and the one that runs on threads.
#![tactic(auto)]

mod all_commands;
mod on_threads;
mod program;
mod running;

pub use all_commands::top;
pub use command_apply::{Status, prepare, still};
pub use live_board::Free;
pub use live_run::{Observers, Turnstile, run_on_threads};
pub use on_threads::live;
pub use program::run_program;
pub use watch_lines::Sighting;
