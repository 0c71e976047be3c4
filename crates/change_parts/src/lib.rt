//! A change in parts: the call that makes them.
#![tactic(auto)]

mod classes;
mod groups;
mod laws;
mod members;
mod part;
mod parting;
mod roll_laws;
mod staging;
mod ties;

pub use laws::{
    a_node_stands_in_one_part, a_part_freezes_what_the_whole_freezes, no_link_is_lost,
    parts_may_be_carried_out, stages_are_sound_and_lead_to_the_new_graph, stages_are_there,
    there_are_parts, there_is_one_list_of_parts,
};
pub use part::Part;
pub use parting::parts;
pub use roll_laws::{a_roll_drains_within_what_is_left, there_is_a_roll, there_is_one_roll};
