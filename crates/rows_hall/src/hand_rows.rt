//! Rows of inboxes.

ghost use Rattle.std.specs.Prelude.{◌≤◌, IfOk, length};

use config_graph::NoMemory;
use live_hands::{Hand, Inboxes};
use port_queue::{Full, Hints};
use std::alloc::Global;
use std::sync::Wait;
use std::test::Fail;
use std::thread;
use std::thread::Threads;

/// How many hints each of two hands posts, and the node.
const HINTS: u32 = 1_000;

const NODE: u32 = 7;

/// How many hints an inbox holds. The number stands here once more, so that another limit fails.
const ROOM: u32 = 1_024;

/// How often a call that was refused is made again at most. So a row ends, and fails, where one refuses for good.
const TRIES: u32 = 10_000_000;

/// Posts a hint, again after Full.
fn post_one<R: Wait>(hand: &mut Hand<R>, port: u32) -> bool
    requires { port ≤ 4095 }
{
    for _ in 0..TRIES {
        if hand.post(NODE, port).is_ok() {
            return true;
        }
        thread::yield_now();
    }
    false
}

/// Posts the ports from this one on, in order.
fn post_all<R: Wait + Copy>(mut hand: Hand<R>, first: u32)
    requires { first ≤ 3000 }
{
    for port in first..first + HINTS {
        if !post_one(&mut hand, port) {
            return;
        }
    }
}

/// Takes a hint, again after None.
fn next_one<R: Wait>(hand: &mut Hand<R>) -> Option<u32> {
    for _ in 0..TRIES {
        let found = hand.next(NODE);
        if found.is_some() {
            return found;
        }
        thread::yield_now();
    }
    None
}

/// Takes so many hints, in order: fewer where one doesn't come.
fn read<R: Wait>(alloc: Global, hand: &mut Hand<R>, count: u32) -> Result<Vec<u32>, NoMemory> {
    let mut all = Vec::with_capacity(alloc, count as usize)?;
    for _ in 0..count {
        let Some(port) = next_one(hand) else {
            return Ok(all);
        };
        all.push(port)?;
    }
    Ok(all)
}

/// Whether what was read of the hand whose first port is this are all its hints, in its order.
fn is_in_order(read: &[u32], first: u32) -> bool {
    let mut next = first;
    for port in read {
        if *port / HINTS == first / HINTS {
            if *port != next {
                return false;
            }
            next = next.wrapping_add(1);
        }
    }
    next == first.wrapping_add(HINTS)
}

/// What a third hand reads while two others post, each in a thread.
fn at_once<R: Threads + Wait + Copy + Send + Sync>(
    rt: &R,
    alloc: Global,
    one: Hand<R>,
    two: Hand<R>,
    reader: Hand<R>,
) -> Result<Vec<u32>, NoMemory> {
    thread::scope(
        thread::scope_env(),
        rt,
        move |scope| -> Result<Vec<u32>, NoMemory> {
            let mut reader = reader;
            scope.spawn(move || post_all(one, 0))?;
            scope.spawn(move || post_all(two, HINTS))?;
            read(alloc, &mut reader, 2 * HINTS)
        },
    )
}

/// Each hand's 1,000 hints come once, in its order.
#[test]
fn two_hands(rt: HostRuntime) -> Result<(), Fail> {
    let alloc = rt.alloc();
    let mut hands = Inboxes::with_hands(rt, alloc, 3)?;
    let (Some(one), Some(two), Some(reader)) = (hands.pop(), hands.pop(), hands.pop()) else {
        return Err(Fail::new("three hands"));
    };
    let all = at_once(&rt, alloc, one, two, reader)?;
    assert!(rt; all.len() == 2_000);
    assert!(rt; is_in_order(&all, 0) && is_in_order(&all, HINTS));
    Ok(())
}

/// An inbox holds 1,024 hints, whichever hand posted them; then the first of them comes first, to another hand.
#[test]
fn full_for_all_hands(rt: HostRuntime) -> Result<(), Fail> {
    let mut hands = Inboxes::with_hands(rt, rt.alloc(), 2)?;
    let (Some(mut one), Some(mut two)) = (hands.pop(), hands.pop()) else {
        return Err(Fail::new("two hands"));
    };
    assert!(rt; two.next(NODE).is_none());
    for port in 0..ROOM {
        assert!(rt; one.post(NODE, port).is_ok());
    }
    assert!(rt; two.post(NODE, 5) == Err(Full));
    assert!(rt; two.post(NODE + 1, 5).is_ok());
    assert!(rt; two.next(NODE) == Some(0));
    assert!(rt; two.post(NODE, 5).is_ok());
    assert!(rt; one.next(NODE) == Some(1));
    assert!(rt; one.next(NODE + 1) == Some(5));
    assert!(rt; one.next(NODE + 1).is_none());
    Ok(())
}
