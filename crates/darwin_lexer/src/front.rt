//! The one piece at the front of a text: a blank, a comment, a token, or what is wrong there.

ghost use Rattle.std.specs.Prelude.{◌≡◌, ◌≤◌, ◌==◌, length, not, take, IfSome};
ghost use Rattle.std.specs.Option.{SomeIff};
ghost use Rattle.std.specs.Str.Parse.{digits_value};
ghost use Rattle.std.specs.Char.{is_ascii_digit};
ghost use Rattle.std.specs.List.{AllPass, prefix_len};
ghost use Rattle.darwin_lexer.specs.Keywords.{is_blank, begins_name, continues_name};
ghost use Rattle.darwin_lexer.specs.Fronts as fronts;

use crate::token::{At, LexError, TokenKind};
use crate::words::{sign_at, word_kind};

/// The most bytes of a name.
pub const MAX_NAME: usize = 64;

/// The greatest number.
pub const MAX_NUMBER: u32 = 2_147_483_647;

/// What is wrong at the front of a text.
#[derive(Clone, Copy, PartialEq, Eq)]
pub enum LexicalFault {
    BadByte,
    OpenComment,
    LongName,
    BigNumber,
}

impl LexicalFault {
    ghost use Rattle.std.specs.Prelude.{◌≡◌};
    ghost use Rattle.darwin_lexer.specs.Tokens.{refusal};

    /// The refusal that names this fault and its place.
    pub fn at(self, at: At) -> LexError
        ensures { result ≡ refusal self at }
    {
        match self {
            LexicalFault::BadByte => LexError::BadByte(at),
            LexicalFault::OpenComment => LexError::OpenComment(at),
            LexicalFault::LongName => LexError::LongName(at),
            LexicalFault::BigNumber => LexError::BigNumber(at),
        }
    }
}

/// What stands at the front of a text, and how many bytes it has.
#[derive(Clone, Copy, PartialEq, Eq)]
pub enum Front {
    /// The text is at its end.
    End,
    /// A blank or a comment.
    Gap(usize),
    /// A token.
    Lexeme(TokenKind, usize),
    Broken(LexicalFault),
}

/// What stands at the front of `text`.
pub fn front_of(text: &[u8]) -> Front
    ensures front { result ≡ fronts.front_of text.now }
    ensures within { fronts.IsFrontWithin (length text.now) result }
{
    match text.first() {
        None => Front::End,
        Some(&first) => {
            if is_blank(first) {
                Front::Gap(1)
            } else if text.starts_with(b"//") {
                line_comment(text)
            } else if text.starts_with(b"/*") {
                block_comment(text)
            } else if begins_name(first) {
                name(text)
            } else if first.is_ascii_digit() {
                number(text)
            } else {
                sign(text)
            }
        }
    }
}

fn is_blank(byte: u8) -> bool
    ensures { result ≡ is_blank byte }
{
    byte == b' ' || byte == b'\t' || byte == b'\n' || byte == b'\r'
}

fn begins_name(byte: u8) -> bool
    ensures { result ≡ begins_name byte }
{
    byte.is_ascii_alphabetic() || byte == b'_'
}

fn continues_name(byte: u8) -> bool
    ensures { result ≡ continues_name byte }
{
    begins_name(byte) || byte.is_ascii_digit()
}

fn line_comment(text: &[u8]) -> Front
    ensures { result ≡ fronts.line_comment text.now }
{
    Front::Gap(line_len(text))
}

/// How many bytes stand before the first line feed.
fn line_len(text: &[u8]) -> usize
    ensures { result ≡ prefix_len (λ byte. not (byte == 10)) text.now }
{
    text.iter().take_while(|byte| **byte != b'\n').count()
}

fn block_comment(text: &[u8]) -> Front
    requires { 2 ≤ length text.now }
    ensures { result ≡ fronts.block_comment text.now }
{
    match through_close(&text[2..]) {
        Some(len) => Front::Gap(2 + len),
        None => Front::Broken(LexicalFault::OpenComment),
    }
}

/// How many bytes `text` has up to its first `*/` and with it.
fn through_close(text: &[u8]) -> Option<usize>
    ensures close { result ≡ fronts.through_close text.now }
    ensures within { IfSome result (λ n. n ≤ length text.now) }
{
    for i in 0..text.len() {
        if text[i..].starts_with(b"*/") {
            return Some(i + 2);
        }
    }
    None
}

fn name(text: &[u8]) -> Front
    ensures { result ≡ fronts.name text.now }
{
    let len = name_len(text);
    if len <= MAX_NAME {
        Front::Lexeme(word_kind(&text[..len]), len)
    } else {
        Front::Broken(LexicalFault::LongName)
    }
}

/// How many bytes at the front may go on with a name.
fn name_len(text: &[u8]) -> usize
    ensures { result ≡ prefix_len continues_name text.now }
{
    text.iter()
        .take_while(|byte| continues_name(**byte))
        .count()
}

fn number(text: &[u8]) -> Front
    ensures { result ≡ fronts.number text.now }
{
    let len = digits_len(text);
    match value_of(&text[..len]) {
        Some(value) => Front::Lexeme(TokenKind::Number(value), len),
        None => Front::Broken(LexicalFault::BigNumber),
    }
}

/// How many digits stand at the front.
fn digits_len(text: &[u8]) -> usize
    ensures within { result ≤ length text.now }
    ensures digits { result ≡ prefix_len is_ascii_digit text.now }
    ensures only { AllPass is_ascii_digit (take result text.now) }
{
    text.iter().take_while(|byte| byte.is_ascii_digit()).count()
}

/// The number that decimal digits write, if it is at most `MAX_NUMBER`.
fn value_of(digits: &[u8]) -> Option<u32>
    requires { AllPass is_ascii_digit digits.now }
    ensures { SomeIff result (digits_value 10 digits.now ≤ MAX_NUMBER) (digits_value 10 digits.now) }
{
    let mut value = 0u32;
    for digit in digits {
        let more = u64::from(value) * 10 + u64::from(*digit - b'0');
        if more > u64::from(MAX_NUMBER) {
            return None;
        }
        value = more as u32;
    }
    Some(value)
}

fn sign(text: &[u8]) -> Front
    ensures { result ≡ fronts.sign text.now }
{
    match sign_at(text) {
        Some(sign) => Front::Lexeme(TokenKind::Sign(sign), sign.bytes().len()),
        None => Front::Broken(LexicalFault::BadByte),
    }
}
