//! The text of a report, and the lines of events in it.
#![tactic(auto)]

mod events;
mod line_end;
mod room;
mod writing;

pub use writing::{push_line, report_text};
