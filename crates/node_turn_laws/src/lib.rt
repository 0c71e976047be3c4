//! Turns of nodes and rounds of a system on one thread: definitions, and laws on them. The event of a turn is allowed;
//! hints tell of the requests that wait, and of no others; so a world at rest stays as it is, and rounds move while a
//! transaction is open.
#![tactic(auto)]

mod agreeing;
mod allowing;
mod hinting;
mod moving;
mod reaching;
mod resting;
mod rounds;
mod staying;

pub use agreeing::agreements_are_kept;
pub use allowing::moves_of_agreeing_nodes_are_allowed;
pub use hinting::hints_are_those_of_requests;
pub use moving::{hints_are_posted_in_rounds, rounds_move_what_is_open};
pub use reaching::turns_are_allowed;
pub use resting::worlds_at_rest_stay;
pub use rounds::{
    a_line_comes_to_rest, a_round_without_a_move_changes_nothing, a_turn_is_one_event_at_most,
    sums_take_a_further_message,
};
pub use staying::still_rounds_stay;
