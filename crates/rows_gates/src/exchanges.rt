//! Transactions of a source and a sink that lead on from each other, in one thread or in two. Where a node may not
//! take its next step, they stop and answer `Unfit`.

ghost use Rattle.std.specs.Prelude.{◌≡◌};
ghost use Rattle.txn_gate.specs.Seats.{IsSeatOf, table_of_node};

use crate::seated::Seated;
use crate::unfit::Unfit;
use config_graph::VALUE_LIMIT;
use node_gate::{BeginAnswer, SeeAnswer, TakeAnswer};
use std::sync::Wait;
use std::thread;
use txn_gate::Gates;

/// How many transactions a node was in, and the sum of the values that it got in them.
#[derive(Clone, Copy, PartialEq, Eq)]
pub struct Tally {
    pub count: u32,
    pub sum: u64,
}

const NONE: Tally = Tally { count: 0, sum: 0 };

impl Tally {
    fn with(self, value: u32) -> Tally {
        Tally {
            count: self.count.wrapping_add(1),
            sum: self.sum.wrapping_add(u64::from(value)),
        }
    }
}

/// The value that the sink answers.
fn answer_to(value: u32) -> u32 {
    value.wrapping_add(1) % VALUE_LIMIT
}

/// The source begins a transaction at port 0, once the port is open.
fn begin<R: Wait>(rt: &R, gates: &Gates, source: &mut Seated, value: u32) -> Result<(), Unfit>
    requires here { IsSeatOf source.old.seat gates.now }
    ensures here { table_of_node source.new.seat ≡ table_of_node source.old.seat }
{
    for _ in rt.forever() {
        if let BeginAnswer::Begun { .. } = source.begin(gates, 0, value)? {
            return Ok(());
        }
        thread::yield_now();
    }
    Err(Unfit)
}

/// The source awaits the answer at port 0.
fn answer<R: Wait>(rt: &R, gates: &Gates, source: &mut Seated) -> Result<u32, Unfit>
    requires here { IsSeatOf source.old.seat gates.now }
    ensures here { table_of_node source.new.seat ≡ table_of_node source.old.seat }
{
    for _ in rt.forever() {
        if let SeeAnswer::Answer { value } = source.see(gates, 0)? {
            return Ok(value);
        }
        thread::yield_now();
    }
    Err(Unfit)
}

/// The sink takes a request up at port 0.
fn request<R: Wait>(rt: &R, gates: &Gates, sink: &mut Seated) -> Result<u32, Unfit>
    requires here { IsSeatOf sink.old.seat gates.now }
    ensures here { table_of_node sink.new.seat ≡ table_of_node sink.old.seat }
{
    for _ in rt.forever() {
        if let TakeAnswer::Taken { value, .. } = sink.take(gates, 0)? {
            return Ok(value);
        }
        thread::yield_now();
    }
    Err(Unfit)
}

/// The source makes so many transactions, with the values 0, 1 and on.
pub fn initiate<R: Wait>(
    rt: &R,
    gates: &Gates,
    source: &mut Seated,
    times: u32,
) -> Result<Tally, Unfit>
    requires here { IsSeatOf source.old.seat gates.now }
    ensures here { table_of_node source.new.seat ≡ table_of_node source.old.seat }
{
    let mut tally = NONE;
    for value in 0..times {
        begin(rt, gates, source, value)?;
        tally = tally.with(answer(rt, gates, source)?);
        source.end(gates, 0)?;
    }
    Ok(tally)
}

/// The sink answers so many transactions, each with a value that is one more.
pub fn serve<R: Wait>(rt: &R, gates: &Gates, sink: &mut Seated, times: u32) -> Result<Tally, Unfit>
    requires here { IsSeatOf sink.old.seat gates.now }
    ensures here { table_of_node sink.new.seat ≡ table_of_node sink.old.seat }
{
    let mut tally = NONE;
    for _ in 0..times {
        let value = request(rt, gates, sink)?;
        tally = tally.with(value);
        sink.give(gates, 0, answer_to(value))?;
    }
    Ok(tally)
}

/// Both make so many transactions in one thread.
pub fn alone<R: Wait>(
    rt: &R,
    gates: &Gates,
    source: &mut Seated,
    sink: &mut Seated,
    times: u32,
) -> Result<(), Unfit>
    requires source { IsSeatOf source.old.seat gates.now }
    requires sink { IsSeatOf sink.old.seat gates.now }
{
    for value in 0..times {
        begin(rt, gates, source, value % VALUE_LIMIT)?;
        let value = request(rt, gates, sink)?;
        sink.give(gates, 0, answer_to(value))?;
        answer(rt, gates, source)?;
        source.end(gates, 0)?;
    }
    Ok(())
}
