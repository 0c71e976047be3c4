//! The change machine: the events of a system that is changed while it runs, the rules by which they may happen, and
//! a state that is led through them. Transactions, passive and quiescent nodes are those of Kramer and Magee (The
//! evolving philosophers problem: dynamic change management, 1990).
#![tactic(auto)]

mod cloning;
mod configuration_laws;
mod denial;
mod effect;
mod error;
mod event;
mod knowledge_laws;
mod known;
mod laws;
mod links;
mod live;
mod machine;
mod making;
mod node_event;
mod open;
mod reach;
mod rest;
mod rules;
mod run_laws;
mod starting;
mod state;
mod step_laws;
mod tables;
mod words;

pub use configuration_laws::{
    changes_keep_configurations_sound, graphs_follow_events, graphs_of_runs, live_nodes_change,
    ports_are_numbered, sources_are_gone, targets_change, what_was_made_stays,
};
pub use error::CoreError;
pub use event::Event;
pub use knowledge_laws::{
    logs_tell, nodes_judge_rules, nodes_know, steps_keep_what_is_known, worked_runs,
};
pub use known::{Known, PortKnown, Served};
pub use laws::{
    a_started_system_has_its_graph, cycles_are_found, cycles_are_those_of_the_graph,
    cycles_deny_links, each_rule_holds, full_is_found, nodes_are_named, one_graph, reach_is_found,
    reach_is_that_of_the_graph, runs_are_consistent, runs_are_steps, runs_are_well_formed,
    started_systems_are_consistent, steps_keep_consistency,
};
pub use links::Links;
pub use machine::Core;
pub use node_event::{Deed, Message, NodeEvent};
pub use run_laws::{
    changes_are_of_no_node, changes_make_the_configuration, logs_grow, runs_grow,
    services_keep_their_bounds, transactions_engage_two_nodes, values_carry,
};
pub use state::{Exchange, Gate, OpenTxn, Phase, Service, Slot, Stage};
pub use step_laws::{
    busy_ports_are_linked_and_live, replies_stay, steps_alter, taken_ports_are_serviced,
    targets_stay,
};
pub use words::{
    unmade_words, words_fit, words_follow_events, words_follow_operations, words_judge_events,
    words_of_runs_decode, words_of_states_decode, words_tell_of_transactions,
};
