//! What a run of the program is: courses of fetches and judgements, and what they come to.
#![tactic(auto)]

mod checking;
mod laws;
mod made;
mod promises;
mod query;
mod scripts;

pub use checking::a_check_of_what_was_run_is_consistent;
pub use laws::{
    a_course_ends_in_one_way, a_failed_fetch_is_the_last, checks_end_by_what_is_lawful,
    denials_are_of_first_events, descriptions_are_refused_for_faults_that_hold,
    lines_that_lead_on_are_statements, read_faults_are_failed_fetches, rolls_end_by_their_rounds,
    runs_answer_their_commands, runs_end_by_their_reports,
    scripts_are_refused_for_their_first_fault, usage_is_of_words_without_a_form,
    want_of_memory_has_its_line, what_bytes_give_is_one, what_is_not_refused_is_answered,
    what_is_prepared_is_run_or_judged, what_is_wanted_is_refused_or_answered,
    write_faults_are_failed_puts,
};
pub use made::{
    made_descriptions_are_checked, made_descriptions_have_no_fault, made_lines_are_not_refused,
    made_runs_are_not_refused,
};
pub use promises::{
    big_promises, check_promises, flat_promises, live_promises, own_texts_are_written,
    parts_promises, plan_promises, replay_promises, roll_promises, step_promises, upgrade_promises,
};
pub use query::Query;
pub use scripts::{
    a_script_has_a_report, a_script_has_one_run, changes_of_a_run_drain_in_time,
    lines_lead_or_are_refused, made_scripts_are_not_refused, made_scripts_are_scripts,
    three_things_are_asked_of_a_script,
};
