//! The words of a command line, the one command that they ask for, and the files of `big`.
#![tactic(auto)]

mod big_laws;
mod big_shelf;
mod big_texts;
mod calls;
mod help;
mod keywords;
mod laws;
mod reading;
mod sessions;
mod words;

pub use big_laws::limit_of_lanes;
pub use big_shelf::MadeFiles;
pub use big_texts::{MAX_LANES, SCRIPT_NAME};
pub use help::{VERSION, help_text, hint};
pub use keywords::Keyword;
pub use laws::{
    words_ask_for_a_command_or_a_session, words_ask_for_one_command, words_ask_for_one_session,
};
pub use reading::read_words;
pub use sessions::{SessionWords, read_session};
pub use words::{Change, Command, Cut, MAX_OBSERVERS, MAX_WORKERS, TopCall, USUAL_WORKERS, Word};
