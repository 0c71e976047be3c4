//! A script carried out on nodes of one thread. The report is the one that rounds have: laws on boards of one thread,
//! and the call that they are for.
#![tactic(auto)]

mod laws;
mod rolling;
mod round_rolling;
mod running;

pub use laws::{
    changes_are_played, finishes_are_played, reports_are_those_of_rounds, runs_are_played,
    shows_are_played, starts_are_played, stops_are_played,
};
pub use rolling::{RollError, roll};
pub use round_rolling::{Roll, RollEnd, roll_in_rounds};
pub use running::run_in_rounds;
