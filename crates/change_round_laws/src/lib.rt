//! Laws of reports of rounds: what a script's statements are and its commits leave, that a report of rounds is lawful,
//! that each stop and each wait comes to an end, and so that a sound script has one.
#![tactic(auto)]

mod committing;
mod ending;
mod engaging;
mod folding;
mod planning;
mod rounds;
mod saying;
mod waiting;

pub use committing::{changes_are_a_run_by_themselves, commits_leave_the_described_graph};
pub use ending::{a_sound_script_has_a_report, stops_come_to_an_end};
pub use engaging::two_logs_have_each_transaction;
pub use folding::states_are_folds_of_own_events;
pub use planning::{a_sound_script_has_a_report_where_stops_end, sound_scripts_have_plans};
pub use rounds::{reports_of_rounds_are_lawful, runs_come_to_an_end};
pub use saying::{
    a_script_has_one_list_of_statements, sound_scripts_have_sound_statements,
    what_may_be_asked_has_sound_statements,
};
pub use waiting::{
    changes_drain_within_what_is_left, changes_in_a_row_drain_together,
    open_lines_name_what_the_last_look_saw, rounds_drain_what_is_left,
};
