//! From a text to its tokens.

ghost use Rattle.std.specs.Prelude.{◌≡◌, ◌≤◌, length, List, IfOk, IsOkAnd, IsErrOf, ◌⊎◌};
ghost use Rattle.darwin_lexer.specs.declared.token.Token.{Token};
ghost use Rattle.darwin_lexer.specs.Tokens.{IsTokens, RefusesExactly};

use crate::front::{Front, LexicalFault, front_of};
use crate::token::{At, LexError, Token};
use std::alloc::Global;

/// The most bytes of a text.
pub const MAX_TEXT: usize = 1_048_576;

/// The tokens of `text`, in order, or its first fault.
pub fn lex(alloc: Global, text: &[u8]) -> Result<Vec<Token>, LexError>
    requires { length text.now ≤ MAX_TEXT }
    ensures tokens { IfOk result (λ found. IsTokens text.now found.items) }
    ensures few { IfOk result (λ found. length found.items ≤ length text.now) }
    ensures whenever { (tokens : List Token) → IsTokens text.now tokens
        → IsOkAnd result (λ found. found.items ≡ tokens) ⊎ IsErrOf result LexError.NoMemory }

    ensures bad_byte { RefusesExactly text.now result LexicalFault.BadByte }
    ensures open_comment { RefusesExactly text.now result LexicalFault.OpenComment }
    ensures long_name { RefusesExactly text.now result LexicalFault.LongName }
    ensures big_number { RefusesExactly text.now result LexicalFault.BigNumber }
{
    let mut tokens = Vec::new(alloc);
    let mut at = At::START;
    let mut start = 0;
    'pieces: loop {
        let rest = &text[start..];
        let len = match front_of(rest) {
            Front::End => return Ok(tokens),
            Front::Gap(len) => len,
            Front::Lexeme(kind, len) => {
                tokens.push(Token {
                    kind,
                    start: start as u32,
                    end: (start + len) as u32,
                    at,
                })?;
                len
            }
            Front::Broken(fault) => return Err(fault.at(at)),
        };
        at = at.after(&rest[..len]);
        start += len;
    }
}
