//! The board over the gates: what a change acts on while nodes take their turns in other threads.
#![tactic(auto)]

mod blank;
mod board;
mod collecting;
mod comparing;
mod ended;
mod ends;
mod heirs;
mod keeping;
mod laws;
mod looking;
mod making;
mod pacing;
mod partners;
mod reserving;
mod scanning;
mod seat_laws;
mod seeing;
mod signs;
mod stile;
mod turning;

pub use board::LiveBoard;
pub use ended::{boards_carry_out_on_threads, reports_agree_with_their_seat};
pub use laws::scripts_leave_all_taken_in;
pub use seat_laws::{
    done_nodes_are_seen_as_done, first_sights_are_of_own_lines, lines_have_folds,
    lines_share_no_node, live_nodes_end_their_lines, seats_tell_of_their_line,
};
pub use signs::Signs;
pub use stile::{Free, Turnstile};
