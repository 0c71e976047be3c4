//! The hall: where nodes lie between their turns, a cell for each slot, which threads share by doors.
#![tactic(auto)]

mod boxed;
mod cell;
mod door;
mod guest;
mod guesting;
mod hall;
mod lock;
mod making;
mod place;
mod turning;

pub use boxed::{Berth, BoxedGuest};
pub use cell::Named;
pub use door::Door;
pub use guest::Guest;
pub use hall::Hall;
pub use place::Place;
pub use turning::turn_at_gates;
