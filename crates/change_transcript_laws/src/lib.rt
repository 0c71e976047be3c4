//! What follows for the report of a run from what was done and told in it, on any board.
#![tactic(auto)]

mod laws;

pub use laws::{
    each_transaction_ends_once, early_finishes_leave_nothing_undone, graphs_are_those_described,
    joined_members_are_a_run, joined_members_make_a_report_lawful, logs_and_history_merge,
    logs_have_folds, nothing_is_undone_behind_rest, records_and_transcripts_join,
    records_bear_their_reports, reports_name_what_is_undone, reports_of_threads_are_lawful,
    runs_and_finishes_end_at_rest, runs_ended_as_many_as_they_tell,
    transcripts_follow_their_scripts, what_is_seen_twice_rests_at_once,
    what_is_told_as_drained_is_so, what_is_told_as_open_stood_open, what_is_touched_is_quiescent,
};
