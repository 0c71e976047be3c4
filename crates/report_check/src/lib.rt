//! Whether a report can be one of this machine for a script: its history follows the script, it is right by itself, and
//! its history and logs are parts of one run.
#![tactic(auto)]

mod ahead;
mod candidates;
mod checking;
mod closes;
mod deciding;
mod going;
mod guards;
mod laws;
mod leading;
mod logs;
mod opening;
mod showing;
mod tables;
mod way;

pub use checking::check_report;
pub use deciding::is_right_alone;
pub use going::leads_to_the_end;
pub use laws::consistent_reports_are_decided_so;
