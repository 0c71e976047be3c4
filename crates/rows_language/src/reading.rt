//! How a description is read.

ghost use Rattle.std.specs.Prelude.{◌≤◌, length};
ghost use Rattle.darwin_lexer.specs.declared.lexing.TheConstants.{MAX_TEXT};

use darwin_lexer::{MAX_TEXT, Token, lex};
use darwin_parser::{Unit, parse};
use darwin_types::{Checked, check};
use std::alloc::Global;
use std::process::Abort;

/// The tokens of a text.
pub fn tokens_of(rt: &impl Abort, alloc: Global, text: &[u8]) -> Vec<Token>
    ensures { length result.items ≤ MAX_TEXT }
{
    assert!(rt; text.len() <= MAX_TEXT);
    match lex(alloc, text) {
        Ok(tokens) => tokens,
        Err(_) => panic!(rt; "a text isn't parted into tokens"),
    }
}

/// The tree of a description.
pub fn unit_of(rt: &impl Abort, alloc: Global, text: &[u8]) -> Unit {
    let tokens = tokens_of(rt, alloc, text);
    match parse(alloc, text, tokens.as_slice()) {
        Ok(unit) => unit,
        Err(_) => panic!(rt; "a description isn't parsed"),
    }
}

/// The description, checked.
pub fn checked_of(rt: &impl Abort, alloc: Global, text: &[u8]) -> Checked {
    match check(alloc, unit_of(rt, alloc, text)) {
        Ok(checked) => checked,
        Err(_) => panic!(rt; "a description has a fault"),
    }
}
