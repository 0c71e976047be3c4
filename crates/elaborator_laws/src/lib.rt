//! Laws of descriptions in another order: it means nothing for whether they are accepted, and for the graph.
#![tactic(auto)]

mod laws;

pub use laws::{
    order_means_nothing, order_means_nothing_at_each_step, saying_the_same_is_an_equivalence,
};
