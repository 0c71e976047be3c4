//! Rows of an asker and an adder at the gates, and the calls by which messages within a transaction go to and fro.

ghost use Rattle.std.specs.Prelude.{◌≡◌, IfErr};
ghost use Rattle.txn_spec.specs.Views.{node_at};
ghost use Rattle.node_gate.specs.Seats.{MayAsk, MayHear, MaySendMore};
ghost use Rattle.txn_gate.specs.Seats.{IsSeatOf, node_in, table_of_node};

use crate::seated::Seated;
use crate::systems::{node, open_two};
use crate::unfit::Unfit;
use config_graph::{Kind, VALUE_LIMIT};
use node_gate::{HearAnswer, SeeAnswer, TakeAnswer};
use std::process::Abort;
use std::test::Fail;
use txn_gate::Gates;

impl Seated {
    /// The node sends an intermediate reply for the request that it services.
    fn more(&mut self, gates: &Gates, port: u32, value: u32) -> Result<(), Unfit>
        requires here { IsSeatOf self.old.seat gates.now }
        ensures here { table_of_node self.new.seat ≡ table_of_node self.old.seat }
        ensures unfit { IfErr result (λ _. (MaySendMore (node_at (node_in self.old.seat))
            self.old.seat.known port value → ⊥) × (self.new ≡ self.old)) }
    {
        let sent = self.seat.known.service.map_or(0, |served| served.mores);
        if !self.may_give(port, value) || sent >= self.kind.max_mores(0) {
            return Err(Unfit);
        }
        gates.more(&mut self.seat, port, value);
        Ok(())
    }

    /// The node replies to an intermediate reply that it saw.
    fn ask(&mut self, gates: &Gates, port: u32, value: u32) -> Result<(), Unfit>
        requires here { IsSeatOf self.old.seat gates.now }
        ensures here { table_of_node self.new.seat ≡ table_of_node self.old.seat }
        ensures unfit { IfErr result (λ _. (MayAsk (node_at (node_in self.old.seat)) self.old.seat.known
            port value → ⊥) × (self.new ≡ self.old)) }
    {
        let known = self.port_known(port)?;
        if known.seen.is_none() || !known.more || value >= VALUE_LIMIT {
            return Err(Unfit);
        }
        gates.ask(&mut self.seat, port, value);
        Ok(())
    }

    /// The node listens for the further message for which its service waits.
    fn hear(&mut self, gates: &Gates, port: u32) -> Result<HearAnswer, Unfit>
        requires here { IsSeatOf self.old.seat gates.now }
        ensures here { table_of_node self.new.seat ≡ table_of_node self.old.seat }
        ensures unfit { IfErr result (λ _. (MayHear self.old.seat.known port → ⊥) × (self.new ≡ self.old)) }
    {
        let Some(served) = self.seat.known.service else {
            return Err(Unfit);
        };
        if served.port != port || served.heard {
            return Err(Unfit);
        }
        Ok(gates.hear(&mut self.seat, port))
    }
}

/// The adder, asked with 5, sends 9, for which it gets 6.
fn go_on(rt: &impl Abort, gates: &Gates, a: &mut Seated, b: &mut Seated) -> Result<(), Unfit>
    requires asker { IsSeatOf a.old.seat gates.now }
    requires adder { IsSeatOf b.old.seat gates.now }
    ensures asker { table_of_node a.new.seat ≡ table_of_node a.old.seat }
    ensures adder { table_of_node b.new.seat ≡ table_of_node b.old.seat }
{
    a.begin(gates, 0, 5)?;
    b.take(gates, 0)?;
    b.more(gates, 0, 9)?;
    let in_more = HearAnswer::NotYet {
        word: 0x6008_0000_0100_0009,
    };
    assert!(rt; b.hear(gates, 0)? == in_more);
    assert!(rt; a.see(gates, 0)? == SeeAnswer::More { value: 9 });
    a.ask(gates, 0, 6)?;
    let asked = SeeAnswer::NotYet {
        word: 0x2008_0000_0100_0006,
    };
    assert!(rt; a.see(gates, 0)? == asked);
    assert!(rt; b.hear(gates, 0)? == HearAnswer::Heard { value: 6 });
    Ok(())
}

/// The adder answers 11, and the asker ends.
fn come_to_an_end(
    rt: &impl Abort,
    gates: &Gates,
    a: &mut Seated,
    b: &mut Seated,
) -> Result<(), Unfit>
    requires asker { IsSeatOf a.old.seat gates.now }
    requires adder { IsSeatOf b.old.seat gates.now }
{
    b.give(gates, 0, 11)?;
    let answered = TakeAnswer::Stale {
        word: 0x4008_0000_0100_000b,
    };
    assert!(rt; b.take(gates, 0)? == answered);
    assert!(rt; a.see(gates, 0)? == SeeAnswer::Answer { value: 11 });
    a.end(gates, 0)?;
    let ended = TakeAnswer::Stale {
        word: 0x0008_0000_0100_0000,
    };
    assert!(rt; b.take(gates, 0)? == ended);
    Ok(())
}

#[test]
fn further_messages(rt: HostRuntime) -> Result<(), Fail> {
    let alloc = rt.alloc();
    let asker = node(alloc, b"a", Kind::Asker, Some(1))?;
    let adder = node(alloc, b"b", Kind::Adder, None)?;
    let (gates, mut change) = Gates::new(alloc)?;
    gates.reserve(&mut change, 2)?;
    let (mut a, mut b) = open_two(&gates, &mut change, &asker, &adder)?;
    go_on(&rt, &gates, &mut a, &mut b)?;
    come_to_an_end(&rt, &gates, &mut a, &mut b)?;
    Ok(())
}
