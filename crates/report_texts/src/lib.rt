//! Reports, from their texts.
#![tactic(auto)]

mod ends;
mod error;
mod graph_texts;
mod graphs;
mod history;
mod laws;
mod limits;
mod logs;
mod readings;
mod rest;
mod texts;
mod version;

pub use error::ReportFault;
pub use graph_texts::{GraphFault, parse_graph};
pub use laws::{
    a_text_tells_its_report, a_written_report_is_read, lines_show_graphs_as_they_are_written,
    one_graph_or_one_fault, one_report_or_one_fault,
};
pub use texts::{MAX_REPORT, parse_report};
pub use version::Version;
