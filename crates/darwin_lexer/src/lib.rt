//! Tokens of Darwin descriptions (Magee, Dulay, Eisenbach and Kramer 1995).
#![tactic(auto)]

mod front;
mod laws;
mod lexing;
mod naming;
mod place;
mod token;
mod words;

pub use laws::{fronts_as_spelled, limit_of_a_text, one_reading, tokens_in_order};
pub use lexing::{MAX_TEXT, lex};
pub use naming::is_name;
pub use token::{At, Keyword, LexError, Sign, Token, TokenKind};
