//! Places of faults of the grammar.

ghost use Rattle.std.specs.Prelude.{◌≡◌, ◌≤◌, length};
ghost use Rattle.command_spec.specs.Descriptions.{place_at};

use darwin_lexer::{At, MAX_TEXT, Token};

/// The place of a token by its number, or one past the last byte of the text where there is no such token.
pub fn place_at(text: &[u8], tokens: &[Token], number: u32) -> At
    requires { length text.now ≤ MAX_TEXT }
    ensures { result ≡ place_at text.now tokens.now number }
{
    match tokens.get(number as usize) {
        Some(token) => token.at,
        None => At::START.after(text),
    }
}
