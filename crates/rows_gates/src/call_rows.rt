//! Rows of a source, a map that calls, and a sink at the gates.

ghost use Rattle.std.specs.Prelude.{◌≡◌};
ghost use Rattle.txn_gate.specs.Seats.{IsSeatOf, table_of_node};

use crate::row_systems::{close, line, look};
use crate::seated::Seated;
use crate::unfit::Unfit;
use node_gate::{BeginAnswer, CallAnswer, SeeAnswer, TakeAnswer};
use std::process::Abort;
use std::test::Fail;
use txn_gate::Gates;
use txn_records::Look;

/// The source begins, and the map takes the request up and calls the sink in its service.
fn call_on(rt: &impl Abort, gates: &Gates, m: &mut Seated, s: &mut Seated) -> Result<(), Unfit>
    requires map { IsSeatOf m.old.seat gates.now }
    requires source { IsSeatOf s.old.seat gates.now }
    ensures map { table_of_node m.new.seat ≡ table_of_node m.old.seat }
    ensures source { table_of_node s.new.seat ≡ table_of_node s.old.seat }
{
    let begun = BeginAnswer::Begun {
        serial: 1,
        target: 0,
    };
    assert!(rt; s.begin(gates, 1, 1)? == begun);
    let taken = TakeAnswer::Taken {
        provide: 0,
        serial: 1,
        value: 1,
    };
    assert!(rt; m.take(gates, 1)? == taken);
    let called = CallAnswer::Called {
        serial: 1,
        target: 2,
    };
    assert!(rt; m.call(gates, 0, 11)? == called);
    Ok(())
}

/// The sink answers the map, and the map the source.
fn answer_back(
    rt: &impl Abort,
    gates: &Gates,
    m: &mut Seated,
    s: &mut Seated,
    t: &mut Seated,
) -> Result<(), Unfit>
    requires map { IsSeatOf m.old.seat gates.now }
    requires source { IsSeatOf s.old.seat gates.now }
    requires sink { IsSeatOf t.old.seat gates.now }
{
    let taken = TakeAnswer::Taken {
        provide: 0,
        serial: 1,
        value: 11,
    };
    assert!(rt; t.take(gates, 0)? == taken);
    t.give(gates, 0, 7)?;
    let answer = SeeAnswer::Answer { value: 7 };
    assert!(rt; m.see(gates, 0)? == answer);
    m.end(gates, 0)?;
    m.give(gates, 1, 7)?;
    assert!(rt; s.see(gates, 1)? == answer);
    s.end(gates, 1)
}

/// What is seen of a port that is drained, with or without a transaction of its own.
fn drained(idle: bool) -> Look {
    Look::Drained { serial: 1, idle }
}

#[test]
fn consequent_drained(rt: HostRuntime) -> Result<(), Fail> {
    let (gates, mut change) = Gates::new(rt.alloc())?;
    gates.reserve(&mut change, 3)?;
    let (mut m, mut s, mut t) = line(rt.alloc(), &gates, &mut change, true)?;
    call_on(&rt, &gates, &mut m, &mut s)?;
    close(&gates, &mut change, 0)?;
    close(&gates, &mut change, 1)?;
    assert!(rt; look(&gates, &mut change, 0)? == drained(false));
    let open = look(&gates, &mut change, 1)?;
    assert!(rt; matches!(open, Look::Busy { .. }));
    assert!(rt; !change.settled(0));
    answer_back(&rt, &gates, &mut m, &mut s, &mut t)?;
    assert!(rt; look(&gates, &mut change, 1)? == drained(true));
    assert!(rt; change.settled(0) && change.settled(1) && change.settled(2));
    Ok(())
}

#[test]
fn missed_call(rt: HostRuntime) -> Result<(), Fail> {
    let (gates, mut change) = Gates::new(rt.alloc())?;
    gates.reserve(&mut change, 3)?;
    let (mut m, mut s, _) = line(rt.alloc(), &gates, &mut change, false)?;
    s.begin(&gates, 1, 1)?;
    m.take(&gates, 1)?;
    let missed = CallAnswer::Missed {
        word: 0x8000_0000_0000_0000,
    };
    assert!(rt; m.call(&gates, 0, 11)? == missed);
    Ok(())
}
