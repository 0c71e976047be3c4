//! Rows of descriptions as large as they may be: what the limits allow is answered with ample memory.

use crate::reading::checked_of;
use elaborator::{ElabError, elaborate};
use std::alloc::Global;
use std::process::Abort;
use std::test::Fail;

/// How many instances a description makes that counts for 65,536: a turn and an entry each.
const MOST_INSTANCES: i32 = 32_768;

/// An array of so many sinks.
const MANY: &str =
    "component sink { provide in; } component Many(int n) { array A[n]:sink; forall i:0..n-1 inst A[i]; }";

/// How many operations are made on the size of an array, which is 1 in the end.
const OPERATIONS: usize = 500_000;

/// How many components a description has, each with a sink of its own.
const COMPONENTS: usize = 20_000;

/// Stops the test where a description hasn't a graph of so many nodes, the last of which has this path.
fn assert_drawn(
    rt: &impl Abort,
    alloc: Global,
    (text, top, args): (&[u8], &str, &[i32]),
    (nodes, last): (usize, &[u8]),
) {
    let checked = checked_of(rt, alloc, text);
    match elaborate(alloc, &checked, top.as_bytes(), args) {
        Ok(graph) => {
            assert!(rt; graph.nodes().len() == nodes);
            assert!(rt; graph.index_of(last).is_some());
        }
        Err(_) => panic!(rt; "there is no graph"),
    }
}

#[test]
fn the_most_instances_are_made(rt: HostRuntime) {
    let text = MANY.as_bytes();
    let alloc = rt.alloc();
    assert_drawn(
        &rt,
        alloc,
        (text, "Many", &[MOST_INSTANCES]),
        (32_768, b"A[32767]"),
    );
    let checked = checked_of(&rt, alloc, text);
    let answer = elaborate(alloc, &checked, b"Many", &[MOST_INSTANCES + 1]);
    assert!(rt; matches!(answer, Err(ElabError::TooMany)));
}

#[test]
fn a_million_tokens_are_read(rt: HostRuntime) -> Result<(), Fail> {
    let alloc = rt.alloc();
    let mut text = String::from_str(
        alloc,
        "component sink { provide in; } component T { array a[1",
    )?;
    for _ in 0..OPERATIONS / 2 {
        text.push_str("-1+1")?;
    }
    text.push_str("]:sink; inst t:sink; }")?;
    let text = text.as_str().as_bytes();
    assert_drawn(&rt, alloc, (text, "T", &[]), (1, b"t"));
    Ok(())
}

#[test]
fn many_components_are_checked(rt: HostRuntime) -> Result<(), Fail> {
    let alloc = rt.alloc();
    let mut text = String::from_str(alloc, "component sink { provide in; }\n")?;
    for number in 0..COMPONENTS {
        let component = format!(in alloc; "component C{number} {{ inst t{number}:sink; }}\n")?;
        text.push_str(component.as_str())?;
    }
    let text = text.as_str().as_bytes();
    assert_drawn(&rt, alloc, (text, "C19999", &[]), (1, b"t19999"));
    Ok(())
}
