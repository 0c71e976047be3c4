//! What a text of a description is made of.

use std::alloc::{AllocError, AllocFailed};

/// A place in a text. Lines and columns count from 1, columns in bytes; only a line feed ends a line.
#[derive(Clone, Copy, PartialEq, Eq)]
pub struct At {
    pub line: u32,
    pub column: u32,
}

/// A word that is no name.
#[derive(Clone, Copy, PartialEq, Eq)]
pub enum Keyword {
    Component,
    Provide,
    Require,
    Inst,
    Array,
    Bind,
    Forall,
    When,
    Int,
    And,
    Or,
}

/// A sign of one or two bytes.
#[derive(Clone, Copy, PartialEq, Eq)]
pub enum Sign {
    OpenBrace,
    CloseBrace,
    OpenParen,
    CloseParen,
    OpenBracket,
    CloseBracket,
    Semicolon,
    Colon,
    Comma,
    Dot,
    DotDot,
    DashDash,
    Less,
    Greater,
    LessEq,
    GreaterEq,
    EqEq,
    NotEq,
    Plus,
    Minus,
    Star,
    Slash,
    Percent,
}

/// What a token is. The bytes of a name are those of its span.
#[derive(Clone, Copy, PartialEq, Eq)]
pub enum TokenKind {
    Name,
    Number(u32),
    Word(Keyword),
    Sign(Sign),
}

/// A token, with its span in bytes, `start..end`, and the place of its first byte.
#[derive(Clone, Copy, PartialEq, Eq)]
pub struct Token {
    pub kind: TokenKind,
    pub start: u32,
    pub end: u32,
    pub at: At,
}

/// Why a text can't be parted into tokens: its first fault, with its place.
#[derive(Drop)]
pub enum LexError {
    /// No token begins with this byte.
    BadByte(At),
    /// A comment that begins here has no end.
    OpenComment(At),
    /// A name of more than 64 bytes begins here.
    LongName(At),
    /// A number above 2,147,483,647 begins here.
    BigNumber(At),
    NoMemory,
}

impl From<AllocError> for LexError {
    ghost use Rattle.std.specs.Prelude.{◌≡◌};
    ghost use Rattle.darwin_lexer.specs.declared.token.LexError.TheVariants.{NoMemory};

    ghost from_gives = { λ _ e. e ≡ NoMemory };

    fn from(_error: AllocError) -> LexError {
        LexError::NoMemory
    }
}

impl<T: Drop> From<AllocFailed<T>> for LexError {
    ghost use Rattle.std.specs.Prelude.{◌≡◌};
    ghost use Rattle.darwin_lexer.specs.declared.token.LexError.TheVariants.{NoMemory};

    ghost from_gives = { λ _ e. e ≡ NoMemory };

    fn from(_failed: AllocFailed<T>) -> LexError {
        LexError::NoMemory
    }
}
