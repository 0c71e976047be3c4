//! Rows of a source and a sink at the gates.

ghost use Rattle.std.specs.Prelude.{◌≡◌};
ghost use Rattle.txn_gate.specs.Seats.{IsSeatOf};

use crate::row_systems::{apart, close, look, make_later};
use crate::seated::Seated;
use crate::systems::{node, open_two, pipe, reopen};
use crate::unfit::Unfit;
use config_graph::Kind;
use node_gate::{BeginAnswer, SeeAnswer, TakeAnswer};
use std::process::Abort;
use std::test::Fail;
use txn_gate::Gates;
use txn_records::Look;

/// The word of a port that was never made, or never linked and reopened.
const CLOSED: u64 = 0x8000_0000_0000_0000;

#[test]
fn unlinked_source(rt: HostRuntime) -> Result<(), Fail> {
    let (gates, mut change) = Gates::new(rt.alloc())?;
    gates.reserve(&mut change, 2)?;
    let (mut s, _) = apart(rt.alloc(), &gates, &mut change)?;
    assert!(rt; s.begin(&gates, 0, 5)? == BeginAnswer::Closed { word: CLOSED });
    reopen(&gates, &mut change, 0)?;
    assert!(rt; s.begin(&gates, 0, 5)? == BeginAnswer::Unlinked { word: 0 });
    Ok(())
}

/// A transaction of the source and the sink, with what each sees of it.
fn exchange(rt: &impl Abort, gates: &Gates, s: &mut Seated, t: &mut Seated) -> Result<(), Unfit>
    requires source { IsSeatOf s.old.seat gates.now }
    requires sink { IsSeatOf t.old.seat gates.now }
{
    let begun = s.begin(gates, 0, 5)?;
    assert!(rt;
        begun
            == BeginAnswer::Begun {
                serial: 1,
                target: 1
            }
    );
    let asked = SeeAnswer::NotYet {
        word: 0x2008_0000_0100_0005,
    };
    assert!(rt; s.see(gates, 0)? == asked);
    let taken = t.take(gates, 0)?;
    assert!(rt;
        taken
            == TakeAnswer::Taken {
                provide: 0,
                serial: 1,
                value: 5
            }
    );
    assert!(rt; s.see(gates, 0)? == asked);
    t.give(gates, 0, 1)?;
    assert!(rt; s.see(gates, 0)? == SeeAnswer::Answer { value: 1 });
    let stale = TakeAnswer::Stale {
        word: 0x4008_0000_0100_0001,
    };
    assert!(rt; t.take(gates, 0)? == stale);
    s.end(gates, 0)?;
    let stale = TakeAnswer::Stale {
        word: 0x0008_0000_0100_0000,
    };
    assert!(rt; t.take(gates, 0)? == stale);
    Ok(())
}

#[test]
fn two_seats(rt: HostRuntime) -> Result<(), Fail> {
    let alloc = rt.alloc();
    let source = node(alloc, b"s", Kind::Source, Some(9))?;
    let sink = node(alloc, b"t", Kind::Sink, None)?;
    let later = node(alloc, b"u", Kind::Source, Some(9))?;
    let (gates, mut change) = Gates::new(alloc)?;
    gates.reserve(&mut change, 3)?;
    let (mut s, mut t) = open_two(&gates, &mut change, &source, &sink)?;
    exchange(&rt, &gates, &mut s, &mut t)?;
    let mut u = make_later(&gates, &mut change, &source, &sink, &later)?;
    assert!(rt; u.begin(&gates, 1, 5)? == BeginAnswer::Closed { word: CLOSED });
    Ok(())
}

#[test]
fn busy_then_drained(rt: HostRuntime) -> Result<(), Fail> {
    let (gates, mut change) = Gates::new(rt.alloc())?;
    gates.reserve(&mut change, 2)?;
    let (mut s, mut t) = pipe(rt.alloc(), &gates, &mut change)?;
    s.begin(&gates, 0, 5)?;
    close(&gates, &mut change, 0)?;
    let busy = Look::Busy {
        word: 0xa008_0000_0100_0005,
    };
    assert!(rt; look(&gates, &mut change, 0)? == busy);
    assert!(rt; !change.settled(0) && !change.settled(1));
    t.take(&gates, 0)?;
    t.give(&gates, 0, 1)?;
    s.see(&gates, 0)?;
    s.end(&gates, 0)?;
    let drained = Look::Drained {
        serial: 1,
        idle: true,
    };
    assert!(rt; look(&gates, &mut change, 0)? == drained);
    let closed = BeginAnswer::Closed {
        word: 0x8008_0000_0100_0000,
    };
    assert!(rt; s.begin(&gates, 0, 5)? == closed);
    assert!(rt; change.settled(0) && change.settled(1));
    reopen(&gates, &mut change, 0)?;
    assert!(rt; !change.settled(0) && !change.settled(1));
    Ok(())
}

/// Sights, marks and what the change learns leave what nodes know and what it tells: a transaction goes on over them.
#[test]
fn seen_on_the_way(rt: HostRuntime) -> Result<(), Fail> {
    let (gates, mut change) = Gates::new(rt.alloc())?;
    gates.reserve(&mut change, 2)?;
    let (mut s, mut t) = pipe(rt.alloc(), &gates, &mut change)?;
    s.begin(&gates, 0, 5)?;
    gates.sight_in(&mut change, &mut s.seat);
    gates.mark(&mut change, true, true);
    t.take(&gates, 0)?;
    gates.sight_in(&mut change, &mut t.seat);
    gates.learn(&mut change);
    t.give(&gates, 0, 1)?;
    assert!(rt; s.see(&gates, 0)? == SeeAnswer::Answer { value: 1 });
    s.end(&gates, 0)?;
    gates.mark(&mut change, false, false);
    assert!(rt; !change.is_noted(0));
    close(&gates, &mut change, 0)?;
    let drained = Look::Drained {
        serial: 1,
        idle: true,
    };
    assert!(rt; look(&gates, &mut change, 0)? == drained);
    gates.mark(&mut change, false, false);
    gates.sight_in(&mut change, &mut s.seat);
    assert!(rt; change.settled(0) && change.settled(1));
    assert!(rt; s.seat.slot() == 0 && t.seat.slot() == 1);
    Ok(())
}
