//! What nodes do: the machine of each kind, the state to which a node's own events lead it, and the calls of a
//! component that follows the machine of its kind.
#![tactic(auto)]

mod component;
mod following;
mod laws;
mod next;
mod serving;

pub use component::Component;
pub use config_graph::VALUE_LIMIT;
pub use following::follow;
pub use laws::{
    folds_keep_kind_and_argument, logs_are_bounded, logs_evaluate, services_are_bounded,
    what_is_wanted_stays, who_wants_asks_nothing,
};
pub use next::{Ask, Next};
pub use serving::{Serving, hand, reply, wait, waits};

/// Amounts that are paid are below this number, so that twice an amount and one is a value.
pub const AMOUNT_LIMIT: u32 = 8_388_608;
