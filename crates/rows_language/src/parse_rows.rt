//! Rows of `parse`: the first token that can't stand, how deep levels may nest, and long chains.

use crate::reading::tokens_of;
use darwin_parser::{ParseError, parse};
use std::alloc::Global;
use std::process::Abort;
use std::test::Fail;

/// A text, and the number of the token that can't stand there.
type Refused = (&'static str, u32);

static IN_COMPONENTS: [Refused; 13] = [
    ("x", 0),
    ("component", 1),
    ("component component", 1),
    ("component X", 2),
    ("component X ;", 2),
    ("component X (", 3),
    ("component X (a", 3),
    ("component X (int a", 5),
    ("component X (int a int b", 5),
    ("component X (int a, )", 6),
    ("component X {", 3),
    ("component X { x", 3),
    ("component X { } x", 4),
];

static IN_PORTS: [Refused; 11] = [
    ("component X { provide ;", 4),
    ("component X { provide p", 5),
    ("component X { provide p q", 5),
    ("component X { provide p, ;", 6),
    ("component X { provide p[]", 6),
    ("component X { provide p[1;", 7),
    ("component X { provide p[1] q", 8),
    ("component X { provide p<>", 6),
    ("component X { provide p<1", 6),
    ("component X { provide p<a when", 7),
    ("component X { provide p<a, int", 9),
];

static IN_ARRAYS_AND_INSTANCES: [Refused; 18] = [
    ("component X { array ;", 4),
    ("component X { array a;", 5),
    ("component X { array a[1] c", 8),
    ("component X { array a[1];", 8),
    ("component X { array a[1]:;", 9),
    ("component X { array a[1]:c; 1", 11),
    ("component X { array a[1]:c(1,);", 13),
    ("component X { inst ;", 4),
    ("component X { inst a;", 5),
    ("component X { inst a:;", 6),
    ("component X { inst a:c(;", 8),
    ("component X { inst a:c; 1", 8),
    ("component X { inst a:c() x", 9),
    ("component X { inst a[1] x", 8),
    ("component X { inst a[1<2<3];", 9),
    ("component X { inst a[1+];", 8),
    ("component X { inst a[(1];", 8),
    ("component X { inst a[-];", 7),
];

static IN_BINDINGS_AND_BLOCKS: [Refused; 15] = [
    ("component X { bind a;", 5),
    ("component X { bind a.;", 6),
    ("component X { bind a.b.c", 7),
    ("component X { bind a--;", 6),
    ("component X { bind a--b", 7),
    ("component X { bind a--b; 1", 8),
    ("component X { bind a[1;", 7),
    ("component X { forall ;", 4),
    ("component X { forall i 0", 5),
    ("component X { forall i:0 1", 7),
    ("component X { forall i:0..1;", 9),
    ("component X { forall i:0..1 { x", 10),
    ("component X { when ;", 4),
    ("component X { when 1 provide", 5),
    ("component X { when 1 { } } }", 8),
];

/// What a parse answers: how many components there are, or the refusal.
#[derive(Clone, Copy, PartialEq, Eq)]
enum Answer {
    Parsed(usize),
    Expected(u32),
    TooNested(u32),
    NoMemory,
}

fn answer_to(rt: &impl Abort, alloc: Global, text: &str) -> Answer {
    let bytes = text.as_bytes();
    let tokens = tokens_of(rt, alloc, bytes);
    match parse(alloc, bytes, tokens.as_slice()) {
        Ok(unit) => Answer::Parsed(unit.components.len()),
        Err(ParseError::Expected(n)) => Answer::Expected(n),
        Err(ParseError::TooNested(n)) => Answer::TooNested(n),
        Err(ParseError::NoMemory) => Answer::NoMemory,
    }
}

fn assert_refused(rt: &impl Abort, alloc: Global, rows: &[Refused]) {
    for (text, token) in rows {
        let found = answer_to(rt, alloc, text);
        assert!(rt; found == Answer::Expected(*token), "{text}");
    }
}

#[test]
fn tokens_that_cant_stand_in_components(rt: HostRuntime) {
    assert_refused(&rt, rt.alloc(), &IN_COMPONENTS);
}

#[test]
fn tokens_that_cant_stand_in_ports(rt: HostRuntime) {
    assert_refused(&rt, rt.alloc(), &IN_PORTS);
}

#[test]
fn tokens_that_cant_stand_in_arrays_and_instances(rt: HostRuntime) {
    assert_refused(&rt, rt.alloc(), &IN_ARRAYS_AND_INSTANCES);
}

#[test]
fn tokens_that_cant_stand_in_bindings_and_blocks(rt: HostRuntime) {
    assert_refused(&rt, rt.alloc(), &IN_BINDINGS_AND_BLOCKS);
}

/// A text that begins so, goes on with a piece so many times, and ends so, and what it is answered.
type Nested = (&'static str, &'static str, usize, &'static str, Answer);

const ENTRY: &str = "inst a:sink; }";

static NESTED: [Nested; 12] = [
    ("component X { ", "when 1 ", 16, ENTRY, Answer::Parsed(1)),
    (
        "component X { ",
        "when 1 ",
        17,
        ENTRY,
        Answer::TooNested(35),
    ),
    ("component X { ", "when 1 { ", 17, "", Answer::TooNested(51)),
    (
        "component X { ",
        "forall i:0..1 ",
        17,
        ENTRY,
        Answer::TooNested(99),
    ),
    (
        "component X { when 1 ",
        "when 1 ",
        16,
        "{ } ]",
        Answer::TooNested(35),
    ),
    (
        "component X { inst a[",
        "- ",
        32,
        "1]; }",
        Answer::Parsed(1),
    ),
    ("component X { inst a[", "(", 33, "1", Answer::TooNested(38)),
    (
        "component X { inst a[",
        "- ",
        33,
        "1",
        Answer::TooNested(38),
    ),
    (
        "component X { inst a[-",
        "(",
        32,
        "1",
        Answer::TooNested(38),
    ),
    ("component X { inst a[", "(", 32, "]", Answer::Expected(38)),
    ("component X { ", "when 1 ", 16, "}", Answer::Expected(35)),
    (
        "component X { ] ",
        "when 1 ",
        17,
        ENTRY,
        Answer::Expected(3),
    ),
];

fn repeated(
    alloc: Global,
    front: &str,
    piece: &str,
    times: usize,
    end: &str,
) -> Result<String, Fail> {
    let mut text = String::from_str(alloc, front)?;
    for _ in 0..times {
        text.push_str(piece)?;
    }
    text.push_str(end)?;
    Ok(text)
}

fn assert_nested(
    rt: &impl Abort,
    alloc: Global,
    (front, piece, times, end, wanted): &Nested,
) -> Result<(), Fail> {
    let text = repeated(alloc, front, piece, *times, end)?;
    let found = answer_to(rt, alloc, text.as_str());
    assert!(rt; found == *wanted, "{}", text.as_str());
    Ok(())
}

#[test]
fn nesting_has_limits(rt: HostRuntime) -> Result<(), Fail> {
    for row in &NESTED {
        assert_nested(&rt, rt.alloc(), row)?;
    }
    Ok(())
}

#[test]
fn long_chains_take_no_stack(rt: HostRuntime) -> Result<(), Fail> {
    let row = (
        "component X { inst a[1",
        "+1",
        100_000,
        "]; }",
        Answer::Parsed(1),
    );
    assert_nested(&rt, rt.alloc(), &row)
}
