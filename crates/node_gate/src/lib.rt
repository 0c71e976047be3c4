//! Gates: where a node does its events. A call of a gate is at most one event of the node at whose seat it is made.
#![tactic(auto)]

mod answers;
mod core_gate;
mod gate;
mod laws;
mod noting;

pub use answers::{BeginAnswer, CallAnswer, HearAnswer, SeeAnswer, TakeAnswer};
pub use core_gate::{CoreGate, CoreSeat};
pub use gate::{GateSeat, PortGate};
pub use laws::seats_of_live_nodes_fit;
pub use noting::{note, note_seen, unknown};
