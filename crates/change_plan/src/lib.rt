//! Plans: which nodes and links a change takes away and makes, and which nodes it freezes meanwhile.
#![tactic(auto)]

mod differences;
mod error;
mod laws;
mod moving;
mod plan_data;
mod planning;
mod room;
mod touching;
mod writing;

pub use error::PlanError;
pub use laws::{
    a_plan_leads_to_the_new_graph, a_plan_or_a_refusal, a_state_goes_to_one_node_of_its_kind,
    only_what_is_frozen_or_created_is_linked_anew, texts_tell_plans, there_is_one_plan,
    what_is_not_frozen_keeps_its_links,
};
pub use plan_data::{Move, OldPort, Plan, Shift};
pub use planning::plan;
pub use room::require_room;
pub use writing::plan_text;
