//! What the program answers: values with their statuses and texts, and the lines that refuse.
#![tactic(auto)]

mod error;
mod lines;
mod part_texts;
mod rendering;
mod status;
mod summary;

pub use error::DescriptionFault;
pub use lines::{
    denied_line, description_line, description_too_long_line, read_fault_line, report_line,
    script_line, script_too_long_line,
};
pub use part_texts::{parts_text, push_roll_end};
pub use status::Status;
pub use summary::summary_text;
