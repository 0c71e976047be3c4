//! Rows of the hall.

ghost use Rattle.std.specs.Prelude.{◌≡◌, ◌<◌};
ghost use Rattle.config_graph.specs.declared.TheConstants.{MAX_NODES};
ghost use Rattle.live_hall.specs.Houses.{IsAt};

use crate::guests::sink;
use config_graph::NoMemory;
use live_hall::{BoxedGuest, Door, Hall, Named};
use live_hands::Inboxes;
use node_host::Turn;
use std::alloc::Global;
use std::marker::Brand;
use std::process::Abort;
use std::sync::Wait;
use std::test::Fail;
use txn_gate::Gates;

/// A node is put by one door and taken by the other.
fn put_and_taken<J: Named, R: Wait + Copy + Abort>(
    rt: R,
    alloc: Global,
    gates: &Gates,
    guest: BoxedGuest,
) -> Result<(), NoMemory>
    requires named { J.gates ≡ gates.now.words.shared.table_id }
    requires slot { guest.node.slot ≡ 0 }
    requires gates { IsAt gates.now.words.shared.table_id guest }
{
    let _ = gates;

    let mut doors = Hall::with_doors::<J, R>(rt, alloc, 1)?;
    let mut door = doors.pop().expect(&rt, "a door");
    assert!(rt; door.take(0).is_none());
    door.put(guest);
    assert!(rt; door.take(1).is_none());
    let taken = door.take(0).expect(&rt, "the node that was put");
    assert!(rt; taken.guest().node.slot == 0);
    assert!(rt; door.take(0).is_none());
    Ok(())
}

#[test]
fn one_door(rt: HostRuntime) -> Result<(), Fail> {
    let alloc = rt.alloc();
    let (gates, mut change) = Gates::new(alloc)?;
    let guest = sink(alloc, &gates, &mut change)?;
    put_and_taken::<Brand, HostRuntime>(rt, alloc, &gates, guest)?;
    Ok(())
}

/// A node is put by one door, and taken by the other, where it has its turn. The first takes it after that.
fn turned_at_another<J: Named, R: Wait + Copy + Abort>(
    rt: R,
    alloc: Global,
    gates: &Gates,
    guest: BoxedGuest,
) -> Result<(), NoMemory>
    requires named { J.gates ≡ gates.now.words.shared.table_id }
    requires slot { guest.node.slot ≡ 0 }
    requires gates { IsAt gates.now.words.shared.table_id guest }
{
    let mut doors = Hall::with_doors::<J, R>(rt, alloc, 2)?;
    let mut hands = Inboxes::with_hands(rt, alloc, 1)?;
    let mut hand = hands.pop().expect(&rt, "a hand");
    let mut one = doors.pop().expect(&rt, "a door");
    let mut other = doors.pop().expect(&rt, "another door");
    one.put(guest);
    let mut taken = other.take(0).expect(&rt, "the node that was put");
    assert!(rt; one.take(0).is_none());
    let turn = taken.turn(gates, &mut hand, true)?;
    assert!(rt; matches!(turn, Turn::Still));
    other.put(taken);
    let back = one.take(0).expect(&rt, "the node behind its turn");
    assert!(rt; back.guest().node.slot == 0);
    assert!(rt; other.take(0).is_none());
    Ok(())
}

#[test]
fn two_doors(rt: HostRuntime) -> Result<(), Fail> {
    let alloc = rt.alloc();
    let (gates, mut change) = Gates::new(alloc)?;
    let guest = sink(alloc, &gates, &mut change)?;
    turned_at_another::<Brand, HostRuntime>(rt, alloc, &gates, guest)?;
    Ok(())
}
