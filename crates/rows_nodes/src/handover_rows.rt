//! Rows of what is handed over: a node's state goes on with another argument.

use crate::steps::{Does, Step, lead, node_of, shows};
use component_trait::{Ask, Component, VALUE_LIMIT};
use config_graph::Kind;
use state_handover::import;
use std::alloc::Global;
use std::process::Abort;
use std::test::Fail;

/// A node that does something, is handed over with another argument, and goes on.
struct Moved {
    kind: Kind,
    arg: u32,
    before: &'static [Step],
    new_arg: u32,
    numbers: &'static [u64],
    done: bool,
    wants: Option<Ask>,
    after: &'static [Step],
}

const SERVING: &[Moved] = &[
    Moved {
        kind: Kind::Place,
        arg: 0,
        before: &[
            (Does::Take, 3, 0),
            (Does::Call, 7, 1),
            (Does::End, 7, 0),
            (Does::Give, 3, 0),
        ],
        new_arg: 1,
        numbers: &[],
        done: true,
        wants: None,
        after: &[
            (Does::Take, 3, 0),
            (Does::Call, 8, 1),
            (Does::Miss, 8, 0),
            (Does::Give, 3, 0),
        ],
    },
    Moved {
        kind: Kind::Map,
        arg: 5,
        before: &[
            (Does::Take, 3, 7),
            (Does::Call, 7, 12),
            (Does::End, 7, 3),
            (Does::Give, 3, 3),
        ],
        new_arg: 9,
        numbers: &[],
        done: true,
        wants: None,
        after: &[(Does::Take, 3, 7), (Does::Call, 7, 16)],
    },
    Moved {
        kind: Kind::Account,
        arg: 100,
        before: &[(Does::Take, 3, 21), (Does::Give, 3, 1)],
        new_arg: 7,
        numbers: &[90],
        done: true,
        wants: None,
        after: &[
            (Does::Take, 3, 183),
            (Does::Give, 3, 0),
            (Does::Take, 3, 181),
            (Does::Give, 3, 1),
        ],
    },
    Moved {
        kind: Kind::Buffer,
        arg: 2,
        before: &[
            (Does::Take, 3, 5),
            (Does::Give, 3, 1),
            (Does::Take, 3, 6),
            (Does::Give, 3, 1),
        ],
        new_arg: 1,
        numbers: &[5, 6],
        done: false,
        wants: Some(Ask {
            require: 0,
            value: 5,
        }),
        after: &[
            (Does::Begin, 7, 5),
            (Does::End, 7, 1),
            (Does::Take, 3, 8),
            (Does::Give, 3, 0),
            (Does::Begin, 7, 6),
        ],
    },
];

const BEGINNING: &[Moved] = &[
    Moved {
        kind: Kind::Philosopher,
        arg: 2,
        before: &[(Does::Begin, 7, 0), (Does::End, 7, 1)],
        new_arg: 0,
        numbers: &[1],
        done: true,
        wants: None,
        after: &[],
    },
    Moved {
        kind: Kind::Source,
        arg: 1,
        before: &[(Does::Begin, 7, 1), (Does::End, 7, 1)],
        new_arg: 3,
        numbers: &[1],
        done: false,
        wants: Some(Ask {
            require: 0,
            value: 2,
        }),
        after: &[(Does::Begin, 7, 2), (Does::End, 7, 1), (Does::Begin, 7, 3)],
    },
    Moved {
        kind: Kind::Teller,
        arg: 1,
        before: &[(Does::Begin, 7, 1), (Does::End, 7, 0)],
        new_arg: 2,
        numbers: &[1],
        done: false,
        wants: Some(Ask {
            require: 0,
            value: 2,
        }),
        after: &[(Does::Begin, 7, 2), (Does::End, 7, 0)],
    },
    Moved {
        kind: Kind::Asker,
        arg: 9,
        before: &[(Does::Begin, 7, 1), (Does::End, 7, 5)],
        new_arg: 1,
        numbers: &[1, 5],
        done: true,
        wants: None,
        after: &[],
    },
];

/// The node is handed over with what it has, and goes on by its new argument.
fn goes_over(rt: &impl Abort, alloc: Global, row: &Moved) -> Result<(), Fail> {
    let mut node = node_of(rt, alloc, row.kind, Some(row.arg));
    assert!(rt; lead(rt, &mut node, row.before)? == row.before.len());
    assert!(rt; !node.in_service());
    assert!(rt; node.kind().has_arg());
    assert!(rt; row.new_arg < VALUE_LIMIT);
    let mut moved = import(node, Some(row.new_arg));
    assert!(rt; moved.kind() == row.kind);
    assert!(rt; moved.arg() == Some(row.new_arg));
    shows(rt, &moved, row.numbers);
    assert!(rt; moved.done() == row.done);
    assert!(rt; moved.wants() == row.wants);
    assert!(rt; lead(rt, &mut moved, row.after)? == row.after.len());
    Ok(())
}

#[test]
fn serving_nodes_go_over(rt: HostRuntime) -> Result<(), Fail> {
    for row in SERVING {
        goes_over(&rt, rt.alloc(), row)?;
    }
    Ok(())
}

#[test]
fn beginning_nodes_go_over(rt: HostRuntime) -> Result<(), Fail> {
    for row in BEGINNING {
        goes_over(&rt, rt.alloc(), row)?;
    }
    Ok(())
}
