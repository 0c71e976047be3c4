//! Laws of merges: for a history that tells of each close (`IsTold`), it and the nodes' logs are parts of one run in which
//! no root is begun where services call, exactly where a simulation ends with nothing left. In that each member comes as
//! soon as the machine's rules and a few guards let it. So whether there is such a run is found without a search: members
//! that may come next never bar each other, and either order comes to the same.
#![tactic(auto)]

mod deciding;
mod following;
mod going;
mod lawful;
mod merging;
mod needing;

pub use deciding::{
    consistent_reports_are_decided, lists_say_what_logs_say, removed_nodes_serve_nothing,
};
pub use following::{
    a_statement_has_one_front, changes_are_read_so, histories_tell_their_closes,
    looks_are_found_by_descents, readers_have_no_choice,
};
pub use going::{
    all_ways_end_where_one_does, guided_merges_are_found, some_way_goes_on_no_more, ways_are_merges,
};
pub use lawful::{lawful_lists_are_merges, lawful_reports_are_found};
pub use merging::{
    going_decides_merges, merges_are_one_up_to_exchanges, merges_meet_the_guards,
    roots_are_of_ports_that_no_service_calls,
};
pub use needing::each_guard_is_needed;
