//! The lines of a report, from their texts.
#![tactic(auto)]

mod ends;
mod graph_lines;
mod history;
mod laws;
mod logs;
mod numbers;
mod parts;
mod verbs;

pub use ends::{status_line, unfinished_line};
pub use graph_lines::{is_graph_line, node_line, target_word};
pub use history::history_line;
pub use laws::{
    a_line_says_an_event_as_it_is_written, a_line_says_history_as_it_is_written,
    a_line_says_the_end_of_a_log_as_it_is_written,
};
pub use logs::{event_line, last_line};
