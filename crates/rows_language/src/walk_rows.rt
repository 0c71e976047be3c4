//! Rows of `walk`: values, and what an instance reaches.

use crate::reading::unit_of;
use darwin_walk::{Child, parameters_of, walk};
use std::alloc::{AllocError, Global};
use std::test::Fail;

const SIZES: &[u8] = b"component X(int n) {
  provide a[-2147483647 - 1], b[(-2147483647 - 1) % -1], c[n / 2], d[n % 2], e[7 % -2],
    f[0 and 1 / 0], g[5 or 1 / 0], h[n < 0 and not_there == 0];
}";

#[test]
fn sizes_have_their_values(rt: HostRuntime) -> Result<(), Fail> {
    let unit = unit_of(&rt, rt.alloc(), SIZES);
    let component = unit.components.first().ok_or("no component")?;
    let parameters = parameters_of(rt.alloc(), component, &[-7])?;
    let Ok(walked) = walk(rt.alloc(), component, &parameters, 0) else {
        return Err(Fail::new("a component isn't walked"));
    };
    let wanted = [-2147483648, 0, -3, -1, 1, 0, 1, 1].map(Some);
    assert!(rt; walked.port_sizes.as_slice() == wanted.as_slice());
    Ok(())
}

const ROW: &[u8] = b"component Row(int n) {
  array A[n]:sink(n * 2);
  forall i:0..n-1 {
    inst A[i];
    when i > 0 bind A[i-1].next -- A[i].in;
  }
  inst last:sink(n);
}";

/// An instance's index, first argument and line.
type Told = (Option<i32>, Option<i32>, u32);

static MADE: [Told; 4] = [
    (Some(0), Some(6), 4),
    (Some(1), Some(6), 4),
    (Some(2), Some(6), 4),
    (None, Some(3), 7),
];

fn told(alloc: Global, children: &[Child<'_>]) -> Result<Vec<Told>, AllocError> {
    let mut told = Vec::new(alloc);
    for child in children {
        told.push((
            child.segment.index,
            child.arguments.first().copied(),
            child.at.line,
        ))?;
    }
    Ok(told)
}

#[test]
fn a_component_is_walked(rt: HostRuntime) -> Result<(), Fail> {
    let unit = unit_of(&rt, rt.alloc(), ROW);
    let component = unit.components.first().ok_or("no component")?;
    let parameters = parameters_of(rt.alloc(), component, &[3])?;
    let Ok(walked) = walk(rt.alloc(), component, &parameters, 9) else {
        return Err(Fail::new("a component isn't walked"));
    };
    assert!(rt; walked.count == 9);
    let made = told(rt.alloc(), walked.children.as_slice())?;
    assert!(rt; made.as_slice() == MADE.as_slice());
    assert!(rt; walked.bindings.len() == 2);
    Ok(())
}
