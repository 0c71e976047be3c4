//! Scripts of changes and files of events: their lines, and what each line says; and the names of what reports are.
#![tactic(auto)]

mod arguments;
mod cuts;
mod error;
mod event_files;
mod event_lines;
mod laws;
mod lines;
mod numbers;
mod paths;
mod script_files;
mod script_laws;
mod script_lines;
mod script_words;
mod tokens;
mod verbs;

pub use cuts::cut;
pub use darwin_lexer::MAX_TEXT;
pub use error::ScriptError;
pub use event_files::{EventFile, parse_events};
pub use event_lines::Triple;
pub use laws::{
    a_written_line_means_its_event, names_are_those_of_the_language, one_file_or_one_fault,
    words_are_longest,
};
pub use lines::{is_statement, trimmed};
pub use numbers::{has_only_digits, value_within};
pub use report_types::{Body, HistoryLine, Last, NodeLog, Report, Script, ScriptLine};
pub use report_writing::report_text;
pub use script_files::{MAX_STATEMENTS, parse_script};
pub use script_laws::{
    a_written_statement_means_itself, lines_mean_what_their_forms_say, one_script_or_one_fault,
};
pub use verbs::{EventVerb, OwnerStep, Single, TargetStep, event_verb_named};
