//! A change carried out on a system that runs elsewhere, by the lines that come from there.
#![tactic(auto)]

mod applying;
mod laws;
mod promises;
mod reading;
mod replying;
mod request;
mod said;
mod saying;
mod session;
mod telling;

pub use applying::apply;
pub use laws::{
    one_input_has_one_answer, sessions_commit_by_go, sessions_count_rounds,
    sessions_find_crowds_quiescent, sessions_find_nodes_quiescent, sessions_keep_their_course,
    sessions_write_their_run,
};
pub use promises::apply_promises;
pub use request::{Called, Request};
pub use said::{Answer, Ending, Phase, Said};
pub use saying::LINE_LIMIT;
pub use session::Session;
