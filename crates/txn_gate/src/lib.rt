//! Gates: an atomic word for each port and each slot, at which nodes and a change take their steps, from any number
//! of threads.
#![tactic(auto)]

mod answering;
mod change_calls;
mod change_seat;
mod change_steps;
mod gates;
mod message_calls;
mod node_calls;
mod node_seat;
mod plays;
mod port_notes;
mod record_calls;
mod record_tables;
mod seat_steps;
mod sight_calls;
mod steps;
mod table_gate;

pub use change_seat::ChangeSeat;
pub use gates::Gates;
pub use node_seat::NodeSeat;
pub use table_gate::{Makes, TableGate};
