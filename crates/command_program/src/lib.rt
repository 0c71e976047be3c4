//! The commands of the program: what each list of words asks for, and what it writes.
#![tactic(auto)]

mod answer;
mod answering;
mod change_lines;
mod changing;
mod commands;
mod describing;
mod description;
mod files;
mod judging;
mod places;
mod plans;
mod preparing;
mod replaying;
mod reports;
mod rolling;
mod taking;
mod way;
mod writing;

pub use answer::{Answer, Stop};
pub use change_lines::{Planned, prepare_change};
pub use command_answers::Status;
pub use commands::{run_command, still};
pub use describing::describe;
pub use description::{checked_of, graph_of, graph_of_call};
pub use files::{
    FileSort, fetch_file, read_description, read_events, read_report, read_script,
    refuse_description,
};
pub use judging::judge;
pub use preparing::{Prepared, prepare};
pub use reports::{answer_run, answer_summary, upgrade};
pub use writing::{write_answer, write_no_memory, write_text, write_usage};
