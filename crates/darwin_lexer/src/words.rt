//! The keywords and the signs with their bytes.

ghost use Rattle.std.specs.Prelude.{◌≡◌, [], ◌∷◌};
ghost use Rattle.darwin_lexer.specs.Keywords.{keyword_bytes, keyword_of, one_byte_signs, sign_at, sign_bytes, sign_in, two_byte_signs, word_kind};

use crate::token::{Keyword, Sign, TokenKind};

const KEYWORDS: [Keyword; 11] = [
    Keyword::Component,
    Keyword::Provide,
    Keyword::Require,
    Keyword::Inst,
    Keyword::Array,
    Keyword::Bind,
    Keyword::Forall,
    Keyword::When,
    Keyword::Int,
    Keyword::And,
    Keyword::Or,
];

impl Keyword {
    /// The keyword's bytes.
    pub(crate) fn bytes(self) -> &'static [u8]
        ensures { result.now ≡ keyword_bytes self }
    {
        match self {
            Keyword::Component => b"component",
            Keyword::Provide => b"provide",
            Keyword::Require => b"require",
            Keyword::Inst => b"inst",
            Keyword::Array => b"array",
            Keyword::Bind => b"bind",
            Keyword::Forall => b"forall",
            Keyword::When => b"when",
            Keyword::Int => b"int",
            Keyword::And => b"and",
            Keyword::Or => b"or",
        }
    }
}

impl Sign {
    /// The sign's bytes.
    pub(crate) fn bytes(self) -> &'static [u8]
        ensures { result.now ≡ sign_bytes self }
    {
        match self {
            Sign::OpenBrace => b"{",
            Sign::CloseBrace => b"}",
            Sign::OpenParen => b"(",
            Sign::CloseParen => b")",
            Sign::OpenBracket => b"[",
            Sign::CloseBracket => b"]",
            Sign::Semicolon => b";",
            Sign::Colon => b":",
            Sign::Comma => b",",
            Sign::Dot => b".",
            Sign::DotDot => b"..",
            Sign::DashDash => b"--",
            Sign::Less => b"<",
            Sign::Greater => b">",
            Sign::LessEq => b"<=",
            Sign::GreaterEq => b">=",
            Sign::EqEq => b"==",
            Sign::NotEq => b"!=",
            Sign::Plus => b"+",
            Sign::Minus => b"-",
            Sign::Star => b"*",
            Sign::Slash => b"/",
            Sign::Percent => b"%",
        }
    }
}

/// The keyword with these bytes.
fn keyword_of(word: &[u8]) -> Option<Keyword>
    ensures { result ≡ keyword_of word.now }
{
    KEYWORDS
        .iter()
        .copied()
        .find(|keyword| keyword.bytes() == word)
}

/// What the letters of a name are: the keyword with these bytes, or else a name.
pub fn word_kind(word: &[u8]) -> TokenKind
    ensures { result ≡ word_kind word.now }
{
    match keyword_of(word) {
        Some(keyword) => TokenKind::Word(keyword),
        None => TokenKind::Name,
    }
}

/// The sign that two bytes are.
fn sign_of_two(first: u8, second: u8) -> Option<Sign>
    ensures { result ≡ sign_in (first ∷ second ∷ []) two_byte_signs }
{
    match (first, second) {
        (b'.', b'.') => Some(Sign::DotDot),
        (b'-', b'-') => Some(Sign::DashDash),
        (b'<', b'=') => Some(Sign::LessEq),
        (b'>', b'=') => Some(Sign::GreaterEq),
        (b'=', b'=') => Some(Sign::EqEq),
        (b'!', b'=') => Some(Sign::NotEq),
        _ => None,
    }
}

/// The sign that one byte is.
fn sign_of_one(byte: u8) -> Option<Sign>
    ensures { result ≡ sign_in (byte ∷ []) one_byte_signs }
{
    match byte {
        b'{' => Some(Sign::OpenBrace),
        b'}' => Some(Sign::CloseBrace),
        b'(' => Some(Sign::OpenParen),
        b')' => Some(Sign::CloseParen),
        b'[' => Some(Sign::OpenBracket),
        b']' => Some(Sign::CloseBracket),
        b';' => Some(Sign::Semicolon),
        b':' => Some(Sign::Colon),
        b',' => Some(Sign::Comma),
        b'.' => Some(Sign::Dot),
        b'<' => Some(Sign::Less),
        b'>' => Some(Sign::Greater),
        b'+' => Some(Sign::Plus),
        b'-' => Some(Sign::Minus),
        b'*' => Some(Sign::Star),
        b'/' => Some(Sign::Slash),
        b'%' => Some(Sign::Percent),
        _ => None,
    }
}

/// The sign at the front of `text`, the longest.
pub fn sign_at(text: &[u8]) -> Option<Sign>
    ensures { result ≡ sign_at text.now }
{
    match text {
        [] => None,
        [byte] => sign_of_one(*byte),
        [first, second, ..] => sign_of_two(*first, *second).or(sign_of_one(*first)),
    }
}
