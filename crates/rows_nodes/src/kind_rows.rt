//! Rows of each kind. The values were worked out by hand.

use crate::steps::{Does, Row, all_hold};
use config_graph::Kind;
use std::test::Fail;

const TABLE: &[Row] = &[
    (
        Kind::Philosopher,
        Some(1),
        &[(Does::Begin, 7, 0), (Does::Ask, 7, 0), (Does::End, 7, 1)],
        Some(&[1]),
    ),
    (
        Kind::Philosopher,
        Some(2),
        &[(Does::Begin, 7, 0), (Does::End, 7, 2), (Does::Begin, 7, 0)],
        Some(&[0]),
    ),
    (Kind::Philosopher, Some(0), &[(Does::Begin, 7, 0)], None),
    (
        Kind::Place,
        Some(1),
        &[
            (Does::Take, 3, 9),
            (Does::Call, 8, 1),
            (Does::End, 8, 1),
            (Does::Call, 7, 1),
            (Does::End, 7, 1),
            (Does::Call, 7, 0),
            (Does::End, 7, 0),
            (Does::Miss, 8, 0),
            (Does::Give, 3, 1),
        ],
        Some(&[]),
    ),
    (
        Kind::Place,
        Some(0),
        &[
            (Does::Take, 3, 0),
            (Does::Call, 7, 1),
            (Does::End, 7, 1),
            (Does::Call, 8, 1),
            (Does::End, 8, 0),
            (Does::Call, 7, 0),
            (Does::End, 7, 1),
            (Does::Give, 3, 0),
            (Does::Take, 4, 0),
            (Does::Miss, 7, 0),
            (Does::Give, 4, 0),
        ],
        Some(&[]),
    ),
    (
        Kind::Fork,
        None,
        &[
            (Does::Take, 3, 1),
            (Does::Give, 3, 1),
            (Does::Take, 4, 1),
            (Does::Give, 4, 0),
        ],
        Some(&[1]),
    ),
    (
        Kind::Fork,
        None,
        &[
            (Does::Take, 3, 0),
            (Does::Give, 3, 1),
            (Does::Take, 4, 7),
            (Does::Give, 4, 0),
        ],
        Some(&[0]),
    ),
    (
        Kind::Fork,
        None,
        &[(Does::Take, 3, 1), (Does::Take, 4, 1)],
        None,
    ),
];

const FLOWS: &[Row] = &[
    (
        Kind::Source,
        Some(2),
        &[
            (Does::Begin, 7, 1),
            (Does::End, 7, 0),
            (Does::Begin, 7, 1),
            (Does::End, 7, 5),
        ],
        Some(&[1]),
    ),
    (Kind::Source, Some(2), &[(Does::Begin, 7, 2)], None),
    (
        Kind::Map,
        Some(5),
        &[
            (Does::Take, 3, 16_777_214),
            (Does::Call, 7, 3),
            (Does::End, 7, 6),
            (Does::Give, 3, 6),
        ],
        Some(&[]),
    ),
    (
        Kind::Buffer,
        Some(2),
        &[
            (Does::Take, 3, 5),
            (Does::Begin, 7, 5),
            (Does::Give, 3, 1),
            (Does::Take, 3, 6),
            (Does::Give, 3, 1),
            (Does::Take, 3, 8),
            (Does::Give, 3, 0),
            (Does::End, 7, 0),
            (Does::Begin, 7, 5),
            (Does::End, 7, 1),
            (Does::Take, 3, 9),
            (Does::Give, 3, 1),
        ],
        Some(&[6, 9]),
    ),
    (
        Kind::Sink,
        None,
        &[
            (Does::Take, 3, 5),
            (Does::Give, 3, 1),
            (Does::Take, 4, 5),
            (Does::Give, 4, 1),
        ],
        Some(&[5, 5]),
    ),
];

const BANKS: &[Row] = &[
    (
        Kind::Teller,
        Some(1),
        &[(Does::Begin, 7, 1), (Does::End, 7, 0)],
        Some(&[1]),
    ),
    (
        Kind::Branch,
        None,
        &[
            (Does::Take, 3, 10),
            (Does::Call, 7, 21),
            (Does::End, 7, 1),
            (Does::Call, 8, 20),
            (Does::End, 8, 0),
            (Does::Give, 3, 1),
            (Does::Take, 3, 8_388_608),
            (Does::Give, 3, 0),
        ],
        Some(&[]),
    ),
    (
        Kind::Branch,
        None,
        &[
            (Does::Take, 3, 10),
            (Does::Call, 7, 21),
            (Does::End, 7, 0),
            (Does::Call, 8, 20),
        ],
        None,
    ),
    (
        Kind::Account,
        Some(100),
        &[
            (Does::Take, 3, 21),
            (Does::Give, 3, 1),
            (Does::Take, 3, 200),
            (Does::Give, 3, 1),
            (Does::Take, 3, 999),
            (Does::Give, 3, 0),
            (Does::Take, 3, 381),
            (Does::Give, 3, 1),
        ],
        Some(&[0]),
    ),
    (
        Kind::Asker,
        Some(2),
        &[
            (Does::Begin, 7, 1),
            (Does::Ask, 7, 1),
            (Does::End, 7, 16_777_215),
            (Does::Begin, 7, 2),
            (Does::Ask, 7, 2),
            (Does::End, 7, 4),
        ],
        Some(&[2, 3]),
    ),
    (
        Kind::Adder,
        None,
        &[
            (Does::Take, 3, 5),
            (Does::More, 3, 5),
            (Does::Hear, 3, 16_777_215),
            (Does::Give, 3, 4),
        ],
        Some(&[]),
    ),
    (
        Kind::Adder,
        None,
        &[(Does::Take, 3, 5), (Does::More, 3, 5), (Does::Give, 3, 5)],
        None,
    ),
];

#[test]
fn tables_hold(rt: HostRuntime) -> Result<(), Fail> {
    all_hold(&rt, rt.alloc(), TABLE)
}

#[test]
fn flows_hold(rt: HostRuntime) -> Result<(), Fail> {
    all_hold(&rt, rt.alloc(), FLOWS)
}

#[test]
fn banks_hold(rt: HostRuntime) -> Result<(), Fail> {
    all_hold(&rt, rt.alloc(), BANKS)
}
