//! Rows of `parse`: each production with its tree.

use crate::reading::unit_of;
use crate::tree_text::printed;
use std::alloc::Global;
use std::process::Abort;
use std::test::Fail;

/// Texts, and their trees with all parentheses, and places as `@line:column`.
static TREES: [(&str, &str); 10] = [
    ("", ""),
    ("component X { }", "X@1:1{ }"),
    (
        "component X() { } component Y(int a, int b) { }",
        "X@1:1{ }Y@1:19 a b{ }",
    ),
    (
        "component X { provide p; require q[2]<int, x>, r; }",
        "X@1:1 +p@1:15 -q[2]|int|,|x@1:26 -r@1:26{ }",
    ),
    (
        "component X { array a[2]:c; b[n]:c(); d[1]:c(1,2); }",
        "X@1:1 a[2]:c@1:21 b[n]:c()@1:29 d[1]:c(1,2,)@1:39{ }",
    ),
    (
        "component X { inst a:c; b:c(1); d[0]; e[1]() ; }",
        "X@1:1{ a:c()@1:20 b:c(1,)@1:25 d[0]@1:33 e[1]()@1:39 }",
    ),
    (
        "component X { bind a.p--b[1].q[2]; p[0]--q; }",
        "X@1:1{ a.p--b[1].q[2]@1:20 p[0]--q@1:36 }",
    ),
    (
        "component X { forall i:0..n-1 when i<2 { inst a[i]; } when 1 { } }",
        "X@1:1{ i:0..(n-1)@1:15{ (i<2)@1:31{ a[i]@1:47 } } 1@1:55{ } }",
    ),
    (
        "component X { inst a[1 or 2 and 3 or 4 == 5 - 6 - 7 * 8 / -(9 + x)]; }",
        "X@1:1{ a[((1 or (2 and 3)) or (4==((5-6)-((7*8)/-(9+x)))))]@1:20 }",
    ),
    (
        "component X { inst a[1<2 and 3<=4 and 5==6 or 7!=8 and 9>=0 and 1>2]; }",
        "X@1:1{ a[((((1<2) and (3<=4)) and (5==6)) or (((7!=8) and (9>=0)) and (1>2)))]@1:20 }",
    ),
];

fn assert_tree(rt: &impl Abort, alloc: Global, text: &str, wanted: &str) -> Result<(), Fail> {
    let unit = unit_of(rt, alloc, text.as_bytes());
    let found = printed(alloc, &unit)?;
    assert!(rt; found.as_str() == wanted, "{text}");
    Ok(())
}

#[test]
fn trees_of_each_production(rt: HostRuntime) -> Result<(), Fail> {
    for (text, wanted) in &TREES {
        assert_tree(&rt, rt.alloc(), text, wanted)?;
    }
    Ok(())
}
