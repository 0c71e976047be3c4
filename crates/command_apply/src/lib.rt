//! The command that carries a change out on a system that runs elsewhere: a description is fetched, the change planned,
//! and a session held over an input and a sink. With it come the commands that run on one thread, for the call of all.
#![tactic(auto)]

mod carrying;
mod laws;
mod requesting;
mod talking;

pub use carrying::carry_out;
pub use command_program::{
    Answer, Prepared, Status, Stop, answer_run, prepare, run_command, still, write_answer,
    write_no_memory, write_text, write_usage,
};
pub use laws::write_faults_of_sessions_are_failed_puts;
