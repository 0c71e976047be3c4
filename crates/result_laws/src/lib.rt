//! What systems compute, in the reports that runs write.
#![tactic(auto)]

mod bank_laws;
mod come_laws;
mod flow_laws;
mod laws;
mod meal_laws;
mod roll_laws;
mod row_laws;
mod script_laws;
mod telling_laws;

pub use bank_laws::{banks_are_told_from_others, sums_are_kept, sums_are_kept_at_each_place};
pub use come_laws::{
    folds_go_on_by_events_of_their_nodes, nodes_agree_with_their_folds,
    reopens_find_a_described_graph,
};
pub use flow_laws::{
    flows_are_told_from_others, forks_are_held_once, items_are_kept, items_are_kept_at_each_place,
    places_are_told_from_others, weighed_items_are_kept,
};
pub use laws::{
    consistent_reports_keep_what_runs_keep, runs_keep_items_and_forks,
    runs_of_banks_keep_their_sums, runs_of_rows_have_their_items,
};
pub use meal_laws::meals_are_counted;
pub use roll_laws::{
    changes_at_once_are_there, rolls_are_told_from_others, rolls_commit_what_commits_at_once,
    rolls_keep_forks, rolls_keep_items, rolls_keep_sums,
};
pub use row_laws::{
    rows_are_told_from_others, rows_have_their_items, sources_alone_begin,
    sources_are_never_answered_0,
};
pub use script_laws::scripts_are_told_from_others;
pub use telling_laws::{
    checks_of_runs_are_consistent, last_states_fit, numbers_of_runs_fit, texts_tell_parts,
    texts_tell_the_reports_of_runs,
};
