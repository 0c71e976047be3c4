//! Whether a history follows a script, and the parts of a history, read from its front: a start, the opening and the ends of
//! a change, the lines of the other statements, and the stop. What is read is exact both ways: where the lines begin so
//! their rest is found, and where none is found they don't.
#![tactic(auto)]

mod following;
mod fronts;
mod laws;
mod reading;
mod testing;

pub use following::follows_so;
pub use laws::what_is_expected_may_be_read;
pub use reading::{
    after_committed, after_finish, after_given_up, after_opening, after_run, after_show,
    after_skipped, after_start, is_stop,
};
