//! Rows of `lex` and `is_name`: every token, the longest one taken, places, and each fault at its first unlawful value.

ghost use Rattle.std.specs.Prelude.{◌≤◌, length};

use crate::reading::tokens_of;
use darwin_lexer::{At, Keyword, LexError, MAX_TEXT, Sign, Token, TokenKind, is_name, lex};
use std::alloc::Global;
use std::process::Abort;
use std::test::Fail;

const NAME_64: &[u8] = b"a123456789_123456789_123456789_123456789_123456789_123456789_123";

const NAME_65_ON_LINE_2: &[u8] =
    b"\n a123456789_123456789_123456789_123456789_123456789_123456789_1234";

static KEYWORDS: [TokenKind; 11] = [
    TokenKind::Word(Keyword::Component),
    TokenKind::Word(Keyword::Provide),
    TokenKind::Word(Keyword::Require),
    TokenKind::Word(Keyword::Inst),
    TokenKind::Word(Keyword::Array),
    TokenKind::Word(Keyword::Bind),
    TokenKind::Word(Keyword::Forall),
    TokenKind::Word(Keyword::When),
    TokenKind::Word(Keyword::Int),
    TokenKind::Word(Keyword::And),
    TokenKind::Word(Keyword::Or),
];

static SIGNS: [TokenKind; 23] = [
    TokenKind::Sign(Sign::OpenBrace),
    TokenKind::Sign(Sign::CloseBrace),
    TokenKind::Sign(Sign::OpenParen),
    TokenKind::Sign(Sign::CloseParen),
    TokenKind::Sign(Sign::OpenBracket),
    TokenKind::Sign(Sign::CloseBracket),
    TokenKind::Sign(Sign::Semicolon),
    TokenKind::Sign(Sign::Colon),
    TokenKind::Sign(Sign::Comma),
    TokenKind::Sign(Sign::Dot),
    TokenKind::Sign(Sign::DotDot),
    TokenKind::Sign(Sign::DashDash),
    TokenKind::Sign(Sign::Less),
    TokenKind::Sign(Sign::Greater),
    TokenKind::Sign(Sign::LessEq),
    TokenKind::Sign(Sign::GreaterEq),
    TokenKind::Sign(Sign::EqEq),
    TokenKind::Sign(Sign::NotEq),
    TokenKind::Sign(Sign::Plus),
    TokenKind::Sign(Sign::Minus),
    TokenKind::Sign(Sign::Star),
    TokenKind::Sign(Sign::Slash),
    TokenKind::Sign(Sign::Percent),
];

/// A text and the kinds of its tokens.
type Lexed = (&'static [u8], &'static [TokenKind]);

static LONGEST: [Lexed; 11] = [
    (b"", &[]),
    (
        b"component X {",
        &[
            TokenKind::Word(Keyword::Component),
            TokenKind::Name,
            TokenKind::Sign(Sign::OpenBrace),
        ],
    ),
    (
        b"i--1",
        &[
            TokenKind::Name,
            TokenKind::Sign(Sign::DashDash),
            TokenKind::Number(1),
        ],
    ),
    (
        b"0..1",
        &[
            TokenKind::Number(0),
            TokenKind::Sign(Sign::DotDot),
            TokenKind::Number(1),
        ],
    ),
    (
        b"...",
        &[TokenKind::Sign(Sign::DotDot), TokenKind::Sign(Sign::Dot)],
    ),
    (b"12ab", &[TokenKind::Number(12), TokenKind::Name]),
    (
        b"components _int When a.b",
        &[
            TokenKind::Name,
            TokenKind::Name,
            TokenKind::Name,
            TokenKind::Name,
            TokenKind::Sign(Sign::Dot),
            TokenKind::Name,
        ],
    ),
    (
        b"a// $\nb/* $ **/c//",
        &[TokenKind::Name, TokenKind::Name, TokenKind::Name],
    ),
    (b"/**//*/\xff*/", &[]),
    (b"0002147483647", &[TokenKind::Number(2_147_483_647)]),
    (NAME_64, &[TokenKind::Name]),
];

/// Whether these are the kinds of the tokens.
fn are_kinds_of(tokens: &[Token], kinds: &[TokenKind]) -> bool {
    tokens.len() == kinds.len()
        && tokens
            .iter()
            .zip(kinds)
            .all(|(token, kind)| token.kind == *kind)
}

fn assert_kinds(rt: &impl Abort, alloc: Global, text: &[u8], wanted: &[TokenKind]) {
    let tokens = tokens_of(rt, alloc, text);
    assert!(rt; are_kinds_of(tokens.as_slice(), wanted));
}

#[test]
fn every_keyword_and_sign(rt: HostRuntime) {
    let words = b"component provide require inst array bind forall when int and or";
    assert_kinds(&rt, rt.alloc(), words, &KEYWORDS);
    let signs = b"{}()[];:, . ..--< ><=>===!=+ -*/%";
    assert_kinds(&rt, rt.alloc(), signs, &SIGNS);
}

#[test]
fn the_longest_token_is_taken(rt: HostRuntime) {
    for (text, wanted) in &LONGEST {
        assert_kinds(&rt, rt.alloc(), text, wanted);
    }
}

static PLACED: [Token; 3] = [
    Token {
        kind: TokenKind::Name,
        start: 1,
        end: 2,
        at: At { line: 1, column: 2 },
    },
    Token {
        kind: TokenKind::Sign(Sign::DotDot),
        start: 15,
        end: 17,
        at: At { line: 4, column: 5 },
    },
    Token {
        kind: TokenKind::Number(17),
        start: 18,
        end: 20,
        at: At { line: 4, column: 8 },
    },
];

#[test]
fn spans_and_places(rt: HostRuntime) {
    let tokens = tokens_of(&rt, rt.alloc(), b"\tX\r\n\n  /* \n */ .. 17");
    assert!(rt; tokens.as_slice() == PLACED.as_slice());
}

/// The name of a text's first fault, with its line and column.
fn fault(alloc: Global, text: &[u8]) -> (&'static str, u32, u32)
    requires { length text.now ≤ MAX_TEXT }
{
    match lex(alloc, text) {
        Ok(_) => ("", 0, 0),
        Err(LexError::BadByte(at)) => ("BadByte", at.line, at.column),
        Err(LexError::OpenComment(at)) => ("OpenComment", at.line, at.column),
        Err(LexError::LongName(at)) => ("LongName", at.line, at.column),
        Err(LexError::BigNumber(at)) => ("BigNumber", at.line, at.column),
        Err(LexError::NoMemory) => ("NoMemory", 0, 0),
    }
}

/// A text, the name of its first fault, and the fault's line and column.
type Faulty = (&'static [u8], &'static str, u32, u32);

static FAULTS: [Faulty; 7] = [
    (b"a !b", "BadByte", 1, 3),
    (b"a\r\xc3", "BadByte", 1, 3),
    (b"x\n$ /*", "BadByte", 2, 1),
    (b"// a\n x /*/", "OpenComment", 2, 4),
    (b"/* * / /", "OpenComment", 1, 1),
    (NAME_65_ON_LINE_2, "LongName", 2, 2),
    (b"/*\n*/2147483648", "BigNumber", 2, 3),
];

fn assert_fault(rt: &impl Abort, alloc: Global, (text, name, line, column): &Faulty) {
    assert!(rt; text.len() <= MAX_TEXT);
    let found = fault(alloc, text);
    assert!(rt; found.0 == *name);
    assert!(rt; found.1 == *line);
    assert!(rt; found.2 == *column);
}

#[test]
fn the_first_fault_with_its_place(rt: HostRuntime) {
    for row in &FAULTS {
        assert_fault(&rt, rt.alloc(), row);
    }
}

static NAMES: [(&[u8], bool); 5] = [
    (b"fork_1", true),
    (NAME_64, true),
    (b"when", false),
    (b"fork 1", false),
    (b"", false),
];

#[test]
fn a_name_stands_by_itself(rt: HostRuntime) {
    for (text, is_one) in &NAMES {
        assert!(rt; is_name(text) == *is_one);
    }
}
