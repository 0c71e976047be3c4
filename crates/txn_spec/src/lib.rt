//! The rule of the gates: the words of ports and slots, and what each seat knows, show one run of the change machine.
#![tactic(auto)]

mod laws;
mod prolonging;
mod rule;
mod view;

pub use laws::{gates_show_a_run, notes_tell_of_the_state};
pub use prolonging::{
    change_steps_prolong_the_run, node_steps_prolong_the_run, runs_open_and_go_on,
    seat_steps_prolong_the_run,
};
pub use rule::GateRule;
pub use view::{ChangeView, LoadKind, LoadStep, Loaded, NodeView, View};
