//! Words that are names.

ghost use Rattle.std.specs.Prelude.{IsTrue, ◌↔◌};
ghost use Rattle.darwin_lexer.specs.Naming.{IsName};

use crate::front::{Front, front_of};
use crate::token::TokenKind;

/// Whether the whole word is a name, and no keyword.
pub fn is_name(word: &[u8]) -> bool
    ensures { IsTrue result ↔ IsName word.now }
{
    front_of(word) == Front::Lexeme(TokenKind::Name, word.len())
}
