//! A source and a sink in threads of their own, while a third closes and opens the gate between them.

ghost use Rattle.std.specs.Prelude.{◌≡◌};
ghost use Rattle.txn_gate.specs.Seats.{IsChangeSeatOf, IsSeatOf, table_of_change, table_of_node};

use crate::exchanges::{Tally, initiate, serve};
use crate::row_systems::{close, finish_two, look};
use crate::seated::Seated;
use crate::systems::{pipe, reopen};
use crate::unfit::Unfit;
use std::sync::Wait;
use std::sync::atomic::{AtomicBool, Ordering};
use std::test::Fail;
use std::thread;
use std::thread::Threads;
use txn_gate::{ChangeSeat, Gates};
use txn_records::Look;

const TIMES: u32 = 100_000;

/// Closes the port, looks at it and opens it again until the source has done all. Returns how often that was. It
/// yields, so that all go on where there is one processor.
fn close_and_open<R: Wait>(
    rt: &R,
    gates: &Gates,
    change: &mut ChangeSeat,
    done: &AtomicBool,
) -> Result<u32, Unfit>
    requires here { IsChangeSeatOf change.old gates.now }
    ensures here { table_of_change change.new ≡ table_of_change change.old }
{
    let mut times = 0_u32;
    for _ in rt.forever() {
        close(gates, change, 0)?;
        look(gates, change, 0)?;
        reopen(gates, change, 0)?;
        times = times.wrapping_add(1);
        if done.load(Ordering::SeqCst) {
            break;
        }
        thread::yield_now();
    }
    Ok(times)
}

/// The source makes all its transactions, and tells that it did.
fn initiate_all<R: Wait>(
    rt: &R,
    gates: &Gates,
    source: &mut Seated,
    done: &AtomicBool,
) -> Result<Tally, Unfit>
    requires here { IsSeatOf source.old.seat gates.now }
    ensures here { table_of_node source.new.seat ≡ table_of_node source.old.seat }
{
    let tally = initiate(rt, gates, source, TIMES);
    done.store(true, Ordering::SeqCst);
    tally
}

/// All three at once: what the source and the sink got, and how often the gate was closed.
fn all_at_once<R: Threads + Wait + Sync>(
    rt: &R,
    gates: &Gates,
    mut source: Seated,
    mut sink: Seated,
    mut change: ChangeSeat,
) -> (
    (Seated, Result<Tally, Unfit>),
    (Seated, Result<Tally, Unfit>),
    (ChangeSeat, Result<u32, Unfit>),
)
    requires source { IsSeatOf source.seat gates.now }
    requires sink { IsSeatOf sink.seat gates.now }
    requires change { IsChangeSeatOf change gates.now }
    ensures source { IsSeatOf result.0.0.seat gates.now }
    ensures sink { IsSeatOf result.1.0.seat gates.now }
    ensures change { IsChangeSeatOf result.2.0 gates.now }
{
    let done = AtomicBool::new(false);
    let flag = &done;
    let (first, (second, third)) = thread::join(
        rt,
        move || -> (Seated, Result<Tally, Unfit>)
            requires { IsSeatOf source.seat gates.now }
            ensures { IsSeatOf result.0.seat gates.entry.now }
        {
            let tally = initiate_all(rt, gates, &mut source, flag);
            (source, tally)
        },
        move || -> (
            (Seated, Result<Tally, Unfit>),
            (ChangeSeat, Result<u32, Unfit>),
        )
            requires { (IsSeatOf sink.seat gates.now)
                × (IsChangeSeatOf change gates.now) }
            ensures { (IsSeatOf result.0.0.seat gates.entry.now)
                × (IsChangeSeatOf result.1.0 gates.entry.now) }
        {
            thread::join(
                rt,
                move || -> (Seated, Result<Tally, Unfit>)
                    requires { IsSeatOf sink.seat gates.now }
                    ensures { IsSeatOf result.0.seat gates.entry.now }
                {
                    let tally = serve(rt, gates, &mut sink, TIMES);
                    (sink, tally)
                },
                move || -> (ChangeSeat, Result<u32, Unfit>)
                    requires { IsChangeSeatOf change gates.now }
                    ensures { IsChangeSeatOf result.0 gates.entry.now }
                {
                    let times = close_and_open(rt, gates, &mut change, flag);
                    (change, times)
                },
            )
        },
    );
    (first, second, third)
}

/// Each of the values 0 to 99,999 was taken up once, and each answered by the next number; all of it and what the
/// change saw is one run.
#[test]
fn three_threads(rt: HostRuntime) -> Result<(), Fail> {
    let (gates, mut change) = Gates::new(rt.alloc())?;
    gates.reserve(&mut change, 2)?;
    let (source, sink) = pipe(rt.alloc(), &gates, &mut change)?;
    let ((source, got), (sink, took), (mut change, times)) = all_at_once(
        &rt, &gates, source, sink, change,
    );
    assert!(rt;
        took?
            == Tally {
                count: TIMES,
                sum: 4_999_950_000
            }
    );
    assert!(rt;
        got? == Tally {
            count: TIMES,
            sum: 5_000_050_000
        }
    );
    assert!(rt; times? > 0);
    close(&gates, &mut change, 0)?;
    let drained = Look::Drained {
        serial: TIMES,
        idle: true,
    };
    assert!(rt; look(&gates, &mut change, 0)? == drained);
    finish_two(&gates, &mut change, source, sink)?;
    Ok(())
}
