//! A row in which the sink of a source is replaced by another, which takes over from it. The change makes each
//! of its calls at least once.

ghost use Rattle.std.specs.Prelude.{◌≡◌, ℕ, false, bytes_eq, IfOk, IsTrue};
ghost use Rattle.quiesce_laws.specs.Steps.{IsNoted};
ghost use Rattle.config_graph.specs.declared.kind.Kind.TheVariants as kind;
ghost use Rattle.txn_records.specs.Entries.{config_of};
ghost use Rattle.txn_records.specs.Notes.{is_noted};
ghost use Rattle.txn_spec.specs.Merging.{MergeIntoRun};
ghost use Rattle.txn_spec.specs.Views.{is_among};
ghost use Rattle.rows_gates.specs.Made.{closed_two, made_again, opened_two, removed_second};
ghost use Rattle.txn_gate.specs.Seats.{IsChangeSeatOf, IsSeatOf, collected_in, record_of, table_of_change, table_of_node};

use crate::row_systems::are_all_noted;
use crate::seated::Seated;
use crate::systems::{make, node, open_two, reopen};
use crate::unfit::Unfit;
use config_graph::{Kind, Node, Target};
use node_gate::{BeginAnswer, TakeAnswer};
use std::process::Abort;
use std::test::Fail;
use txn_gate::{ChangeSeat, Gates};

/// Closes the port between the two, and looks at it.
fn close_two(
    gates: &Gates,
    change: &mut ChangeSeat,
    first: &Node,
    second: &Node,
) -> Result<(), Unfit>
    requires here { IsChangeSeatOf change.old gates.now }
    requires opened { (n : ℕ) × (m : ℕ)
        × (record_of change.old ≡ opened_two n m first.now second.now) }
    ensures here { table_of_change change.new ≡ table_of_change change.old }
    ensures closed { IfOk result (λ _. (n : ℕ) × (m : ℕ) × (w : ℕ)
        × (record_of change.new ≡ closed_two n m w first.now second.now)) }
{
    let (_, _) = (first, second);
    if !change.is_live_port(0) || change.made().ports == 0 {
        return Err(Unfit);
    }
    gates.close(change, 0);
    gates.look(change, 0);
    Ok(())
}

/// The source leads nowhere then, and the sink is removed.
fn remove_second(
    rt: &impl Abort,
    gates: &Gates,
    change: &mut ChangeSeat,
    first: &Node,
    second: &Node,
)
    requires here { IsChangeSeatOf change.old gates.now }
    requires kinds { (first.now.kind ≡ kind.Source) × (second.now.kind ≡ kind.Sink) }
    requires closed { (n : ℕ) × (m : ℕ) × (w : ℕ)
        × (record_of change.old ≡ closed_two n m w first.now second.now) }
    ensures here { table_of_change change.new ≡ table_of_change change.old }
    ensures removed { (n : ℕ) × (m : ℕ) × (w : ℕ)
        × (record_of change.new ≡ removed_second n m w first.now second.now) }
{
    let (_, _) = (first, second);
    assert!(rt; change.settled(0));
    let led = Target {
        node: 1,
        provide: 0,
    };
    assert!(rt; change.target(0) == Some(led));
    gates.unlink(change, 0);
    assert!(rt; change.target(0) == None);
    assert!(rt; change.settled(1));
    gates.remove(change, 1);
    assert!(rt; change.is_live(0) && !change.is_live(1));
}

/// A sink is made that takes over from the removed one.
fn make_again(
    gates: &Gates,
    change: &mut ChangeSeat,
    first: &Node,
    second: &Node,
    third: &Node,
) -> Result<Seated, Unfit>
    requires here { IsChangeSeatOf change.old gates.now }
    requires kinds { (second.now.kind ≡ kind.Sink) × (third.now.kind ≡ kind.Sink) }
    requires paths { bytes_eq first.now.path third.now.path ≡ false }
    requires removed { (n : ℕ) × (m : ℕ) × (w : ℕ)
        × (record_of change.old ≡ removed_second n m w first.now second.now) }
    ensures here { table_of_change change.new ≡ table_of_change change.old }
    ensures seat { IfOk result (λ r. table_of_node r.seat ≡ table_of_change change.old) }
    ensures made { IfOk result (λ _. (n : ℕ) × (m : ℕ) × (w : ℕ) × (k : ℕ)
        × (record_of change.new ≡ made_again n m w k first.now second.now third.now)) }
{
    let (_, _) = (first, second);
    make(gates, change, third, Some(1))
}

/// The source, which is settled, leads to the new sink.
fn link_again(gates: &Gates, change: &mut ChangeSeat, first: &Node, second: &Node, third: &Node)
    requires here { IsChangeSeatOf change.old gates.now }
    requires kinds { (first.now.kind ≡ kind.Source) × (second.now.kind ≡ kind.Sink) × (third.now.kind ≡ kind.Sink) }
    requires made { (n : ℕ) × (m : ℕ) × (w : ℕ) × (k : ℕ)
        × (record_of change.old ≡ made_again n m w k first.now second.now third.now) }
    requires settled { IsNoted (is_noted (record_of change.old))
        (config_of (record_of change.old)) 0 }
    ensures here { table_of_change change.new ≡ table_of_change change.old }
{
    let (_, _, _) = (first, second, third);
    gates.link(change, 0, 2, 0);
}

/// The second node is replaced by the third, to which the first leads then by an open port.
fn replace(
    rt: &impl Abort,
    gates: &Gates,
    change: &mut ChangeSeat,
    first: &Node,
    second: &Node,
    third: &Node,
) -> Result<Seated, Unfit>
    requires here { IsChangeSeatOf change.old gates.now }
    requires kinds { (first.now.kind ≡ kind.Source) × (second.now.kind ≡ kind.Sink) × (third.now.kind ≡ kind.Sink) }
    requires opened { (n : ℕ) × (m : ℕ)
        × (record_of change.old ≡ opened_two n m first.now second.now) }
    ensures here { table_of_change change.new ≡ table_of_change change.old }
    ensures seat { IfOk result (λ r. table_of_node r.seat ≡ table_of_change change.old) }
{
    if first.path == third.path {
        return Err(Unfit);
    }
    close_two(gates, change, first, second)?;
    remove_second(rt, gates, change, first, second);
    let made = make_again(gates, change, first, second, third)?;
    assert!(rt; change.settled(0));
    link_again(gates, change, first, second, third);
    reopen(gates, change, 0)?;
    Ok(made)
}

/// A transaction of the source and the new sink.
fn exchange(rt: &impl Abort, gates: &Gates, s: &mut Seated, u: &mut Seated) -> Result<(), Unfit>
    requires source { IsSeatOf s.old.seat gates.now }
    requires sink { IsSeatOf u.old.seat gates.now }
    ensures source { table_of_node s.new.seat ≡ table_of_node s.old.seat }
    ensures sink { table_of_node u.new.seat ≡ table_of_node u.old.seat }
{
    let begun = BeginAnswer::Begun {
        serial: 1,
        target: 2,
    };
    assert!(rt; s.begin(gates, 0, 5)? == begun);
    let taken = TakeAnswer::Taken {
        provide: 0,
        serial: 1,
        value: 5,
    };
    assert!(rt; u.take(gates, 0)? == taken);
    u.give(gates, 0, 1)?;
    s.see(gates, 0)?;
    s.end(gates, 0)
}

/// The seat of the removed node is collected while the port is open. Then the port is closed and looked at.
fn collect_removed(gates: &Gates, change: &mut ChangeSeat, removed: Seated) -> Result<(), Unfit>
    requires here { IsChangeSeatOf change.old gates.now }
    requires seat { IsSeatOf removed.seat gates.now }
    ensures here { table_of_change change.new ≡ table_of_change change.old }
    ensures among { IfOk result (λ _. IsTrue (is_among (collected_in change.new) 1)) }
{
    if removed.seat.slot() != 1 || change.is_live(1) || !change.is_live_port(0) {
        return Err(Unfit);
    }
    gates.collect(change, removed.seat);
    gates.close(change, 0);
    if change.made().ports == 0 {
        return Err(Unfit);
    }
    gates.look(change, 0);
    Ok(())
}

/// The seats of the two others are collected, once all ports are drained, and all that was done and seen is merged
/// into one run.
fn finish_three(
    gates: &Gates,
    change: &mut ChangeSeat,
    first: Seated,
    third: Seated,
) -> Result<(), Unfit>
    requires here { IsChangeSeatOf change.old gates.now }
    requires seats { (IsSeatOf first.seat gates.now)
        × (IsSeatOf third.seat gates.now) }
    requires removed { IsTrue (is_among (collected_in change.old) 1) }
    ensures merged { IfOk result
        (λ _. MergeIntoRun (record_of change.new) (collected_in change.new)) }
{
    if change.made().nodes != 3 || first.seat.slot() != 0 || third.seat.slot() != 2 {
        return Err(Unfit);
    }
    if !are_all_noted(change) {
        return Err(Unfit);
    }
    gates.collect(change, first.seat);
    gates.collect(change, third.seat);
    gates.finish(change);
    Ok(())
}

#[test]
fn replaced(rt: HostRuntime) -> Result<(), Fail> {
    let alloc = rt.alloc();
    let source = node(alloc, b"s", Kind::Source, Some(9))?;
    let sink = node(alloc, b"t", Kind::Sink, None)?;
    let (gates, mut change) = Gates::new(alloc)?;
    gates.reserve(&mut change, 3)?;
    let (mut s, mut t) = open_two(&gates, &mut change, &source, &sink)?;
    let mut u = replace(&rt, &gates, &mut change, &source, &sink, &sink)?;
    gates.sight_in(&mut change, &mut t.seat);
    gates.sight_in(&mut change, &mut u.seat);
    exchange(&rt, &gates, &mut s, &mut u)?;
    collect_removed(&gates, &mut change, t)?;
    finish_three(&gates, &mut change, s, u)?;
    Ok(())
}
