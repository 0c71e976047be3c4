//! From the tokens of a text to its syntax tree.

ghost use Rattle.std.specs.Prelude.{◌≡◌, ℕ, ◌<◌, ◌^◌, length, IfOk, IsErrOf};
ghost use Rattle.darwin_parser.specs.Tree.{Tree, tree_of};
ghost use Rattle.darwin_parser.specs.Grammar.{IsUnit};
ghost use Rattle.darwin_parser.specs.Refusals.{IsUnexpected, IsTooNested, Gives};
ghost use Rattle.darwin_parser.specs.Views.{refusal_of};

use crate::cursor::{Stop, Tokens};
use crate::error::ParseError;
use crate::source::Source;
use crate::tree::Unit;
use darwin_lexer::Token;
use std::alloc::Global;

/// The syntax tree of a description, from the tokens of its text. It is read by descent with one
/// token of lookahead, and each token is taken once. A refusal names the first token that can't stand
/// where it does.
pub fn parse(alloc: Global, text: &[u8], tokens: &[Token]) -> Result<Unit, ParseError>
    requires few { length tokens.now < 2 ^ 32 }
    // What is read is a unit of the grammar, and each unit is read.
    ensures unit { IfOk result (λ u. IsUnit text.now tokens.now (tree_of u)) }
    ensures every_unit { (tree : Tree) → IsUnit text.now tokens.now tree → Gives result (Ok tree) }
    // A token is refused exactly where it can't stand.
    ensures unexpected { (n : ℕ) → IsErrOf result (ParseError.Expected n) → IsUnexpected text.now tokens.now n }
    ensures every_unexpected { (n : ℕ) → IsUnexpected text.now tokens.now n
        → Gives result (Err (ParseError.Expected n)) }
    // A token is too nested exactly where it opens one level too many.
    ensures too_nested { (n : ℕ) → IsErrOf result (ParseError.TooNested n) → IsTooNested text.now tokens.now n }
    ensures every_too_nested { (n : ℕ) → IsTooNested text.now tokens.now n
        → Gives result (Err (ParseError.TooNested n)) }
{
    let source = Source { alloc, text };
    match source.unit(&mut Tokens { rest: tokens }) {
        Ok(unit) => Ok(unit),
        Err(stop) => Err(numbered(tokens.len(), stop)),
    }
}

/// The refusal of a rule, with the token's number in place of what is left of this many tokens.
fn numbered(count: usize, stop: Stop) -> ParseError
    requires few { count < 2 ^ 32 }
    ensures { result ≡ refusal_of count stop }
{
    match stop {
        Stop::Expected(left) => ParseError::Expected(count.saturating_sub(left) as u32),
        Stop::TooNested(left) => ParseError::TooNested(count.saturating_sub(left) as u32),
        Stop::NoMemory => ParseError::NoMemory,
    }
}
