//! What a change by a plan closes and does on a board, computed from what was made there; and what a start does.
#![tactic(auto)]

mod laws;
mod layout;
mod lists;
mod lookups;
mod plan_index;
mod starting;

pub use laws::layouts_tell_commits;
pub use layout::Layout;
pub use lists::Commit;
pub use plan_index::PlanIndex;
pub use starting::list_start;
