//! Laws of runs of the change machine: why it is enough to close the gates of an enlarged passive set and to wait, in
//! which order the events of a transaction come, and how many events the open transactions of a system have left
//! (Kramer and Magee, The evolving philosophers problem: dynamic change management, 1990).
#![tactic(auto)]

mod bound;
mod changes;
mod commit_starts;
mod committing;
mod configurations;
mod consequents;
mod cycles;
mod draining;
mod ending;
mod ends;
mod falling;
mod nodes;
mod parts;
mod quiescence;
mod roots;
mod starting;
mod stepping;
mod swaps;
mod transactions;
mod turning;
mod worked;

pub use bound::{full_bounds_each_transaction, rest_bounds_all, rest_bounds_the_drain};
pub use changes::{changes_are_independent_of_nodes, closes_bar_begins};
pub use commit_starts::starts_can_not_fail;
pub use committing::commits_can_not_fail;
pub use configurations::{links_are_made_by_link_alone, nodes_and_ports_stay};
pub use consequents::consequents_belong_to_their_roots;
pub use cycles::{cycles_are_closed_walks, links_that_close_walks_are_denied, runs_close_no_walk};
pub use draining::{
    closed_ports_stay_closed, drained_ports_stay_drained, nodes_with_drained_ports_are_settled,
};
pub use ending::{
    abandons_leave_all_as_it_was, stops_leave_nothing_open, what_is_given_up_leaves_the_graph,
};
pub use ends::{
    none_is_open_where_none_can_advance, nothing_is_left_where_none_is_open, some_event_is_possible,
};
pub use falling::{rest_falls_by_steps, rest_falls_in_runs};
pub use nodes::nodes_are_independent;
pub use parts::{
    advances_are_of_what_is_open, belongings_are_found, part_falls_by_steps,
    part_of_one_falls_by_steps, what_is_left_is_of_what_is_open,
};
pub use quiescence::{
    changes_find_nodes_quiescent, less_than_settled_is_too_weak, settled_nodes_are_quiescent,
    settled_nodes_stay_settled,
};
pub use roots::{open_roots_are_seen, roots_at_closed_ports_are_old, transactions_have_one_root};
pub use starting::{started_systems_are_reached, started_systems_go_on_as_runs};
pub use stepping::{changes_can_not_fail, steps_are_allowed};
pub use swaps::independent_events_may_be_swapped;
pub use transactions::{
    ends_make_the_serial, open_transactions_are_seen, serials_never_fall,
    transactions_come_in_order, transactions_keep_their_course, two_logs_have_all,
    two_nodes_do_all,
};
pub use turning::gates_may_be_turned;
pub use worked::worked_drains;
