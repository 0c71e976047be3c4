//! What is wanted of one description.

use change_script::EventFile;
use command_words::TopCall;

/// What is wanted of a description.
#[derive(Drop)]
pub enum Query<'a> {
    Graph(TopCall<'a>),
    /// What events come to.
    Replay(EventFile),
}
