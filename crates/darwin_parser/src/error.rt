//! Why tokens are no unit.

ghost use Rattle.std.specs.Prelude.{◌≡◌};

use std::alloc::{AllocError, AllocFailed};

/// Why tokens are no unit of the grammar. Each number is that of a token, from 0.
#[derive(Drop)]
pub enum ParseError {
    /// The first token with which no unit begins that begins with the tokens before it, or the
    /// count of tokens where the text ends too soon.
    Expected(u32),
    /// The token that opens one level of nesting too many.
    TooNested(u32),
    NoMemory,
}

impl From<AllocError> for ParseError {
    ghost use Rattle.darwin_parser.specs.declared.error.ParseError.TheVariants.{NoMemory};

    ghost from_gives = { λ _ e. e ≡ NoMemory };

    fn from(_error: AllocError) -> ParseError {
        ParseError::NoMemory
    }
}

impl<T: Drop> From<AllocFailed<T>> for ParseError {
    ghost use Rattle.darwin_parser.specs.declared.error.ParseError.TheVariants.{NoMemory};

    ghost from_gives = { λ _ e. e ≡ NoMemory };

    fn from(_failed: AllocFailed<T>) -> ParseError {
        ParseError::NoMemory
    }
}
