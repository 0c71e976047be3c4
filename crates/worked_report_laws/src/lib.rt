//! Worked reports of runs with changes, each found lawful, and wrong ones, each refuted.
#![tactic(auto)]

mod misleading;
mod reports;
mod unlawful;
mod wrong;

pub use misleading::{lawful_reports_need_each_wait, rest_at_different_places_agrees_with_no_seat};
pub use reports::{
    a_balance_goes_on, a_balance_goes_on_twice, a_change_after_one_that_was_given_up_is_skipped,
    a_change_may_be_given_up, a_change_may_be_given_up_after_rounds, a_change_may_wait,
    a_change_that_changes_nothing_is_lawful, a_line_that_comes_to_rest_is_lawful,
    a_lone_source_ends_after_one_round, a_port_may_be_seen_drained_before_it_is_called,
    a_removed_node_is_not_named, a_root_may_end_before_it_is_said_to_be_open,
    a_run_may_end_with_more_or_fewer, a_run_of_a_lone_source_ends_after_one_round,
    a_script_says_its_statements, a_second_finish_makes_no_round,
    a_second_look_may_find_a_lower_port, a_second_run_counts_anew, a_shown_sink_is_lawful,
    a_sum_with_a_further_message_is_lawful, a_system_may_be_empty,
    rest_may_be_seen_at_different_places, what_a_looped_buffer_holds_goes_on,
    what_is_not_frozen_begins_nothing_in_a_wait, what_is_open_may_be_named_in_any_order,
};
pub use unlawful::wrong_reports_are_not_lawful;
pub use wrong::{
    wrong_changes_are_refuted, wrong_closings_are_refuted, wrong_ends_are_refuted,
    wrong_lines_are_refuted, wrong_logs_are_refuted, wrong_looks_are_refuted,
    wrong_runs_are_refuted, wrong_serials_are_refuted, wrong_sights_are_refuted,
    wrong_states_are_refuted, wrong_tellings_are_refuted,
};
