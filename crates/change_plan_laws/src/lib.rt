//! Laws of plans that are carried out: once the gates that a plan freezes are closed and what was open there has
//! ended, its commit can't fail, and leaves exactly the new graph.
#![tactic(auto)]

mod committing;
mod room;
mod worked;

pub use committing::{
    commits_can_not_fail, commits_leave_the_new_graph, each_plan_may_commit, gates_are_open_again,
    touched_nodes_are_quiescent, what_is_frozen_may_be_closed, what_is_not_frozen_is_left,
};
pub use room::room_is_that_of_the_machine;
pub use worked::{
    a_change_may_commit, a_worked_commit, a_worked_handover, freezing_less_is_denied,
    others_may_work_meanwhile,
};
