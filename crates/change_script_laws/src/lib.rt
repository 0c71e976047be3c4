//! Laws of the lines of event files: which forms they have, what is written, and what is passed over.
#![tactic(auto)]

mod laws;

pub use laws::{
    a_written_file_is_read, a_written_start_means_its_start,
    lines_say_what_is_between_their_margins, only_forms_mean, paths_of_nodes_are_paths,
};
