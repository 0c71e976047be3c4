//! What a script asks of a run, and what a report of it must be: definitions, and laws on them.
#![tactic(auto)]

mod laws;
mod steps;

pub use laws::{
    a_configuration_has_one_graph, a_first_number_is_one, a_moved_state_is_the_last_one,
    a_show_is_of_the_last_commit, changes_find_nodes_quiescent, lawful_reports_are_consistent,
    lawful_reports_are_found_by_tests, nothing_is_open_at_the_end,
    only_frozen_nodes_are_closed_before_the_stop, open_roots_stood_since_the_close,
    plans_and_graphs_are_found_by_tests, rounds_have_each_line, there_is_one_report_of_rounds,
    transactions_end_once,
};
pub use steps::{Replacement, Start, Step};
