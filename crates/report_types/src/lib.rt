//! What a report of a run and a script of changes say: types alone.
#![tactic(auto)]

mod report;
mod script;

pub use report::{HistoryLine, Last, NodeLog, Report};
pub use script::{Body, Script, ScriptLine};
