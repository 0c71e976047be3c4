//! What the rows have of their own: systems, and calls of the change that test what they ask. Where it doesn't hold,
//! they answer `Unfit`.

ghost use Rattle.std.specs.Prelude.{◌≡◌, ◌≤◌, ◌↔◌, ℕ, [], false, length, IfOk, IfErr, IsTrue};
ghost use Rattle.config_graph.specs.declared.kind.Kind.TheVariants as kind;
ghost use Rattle.txn_records.specs.Entries.{config_of};
ghost use Rattle.txn_records.specs.Records.{AreAllNoted};
ghost use Rattle.txn_spec.specs.Merging.{MergeIntoRun};
ghost use Rattle.quiesce_core.specs.Rules.{is_live_port};
ghost use Rattle.rows_gates.specs.Made.{made_three, opened_two};
ghost use Rattle.txn_gate.specs.Seats.{IsChangeSeatOf, IsSeatOf, collected_in, node_in, record_of, table_of_change, table_of_node};

use crate::seated::Seated;
use crate::systems::{make, make_two, node, reopen};
use crate::unfit::{Unfit, Unmade};
use config_graph::{Kind, Node};
use std::alloc::Global;
use txn_gate::{ChangeSeat, Gates};
use txn_records::Look;

/// Makes the first three nodes.
fn make_three(
    gates: &Gates,
    change: &mut ChangeSeat,
    first: &Node,
    second: &Node,
    third: &Node,
) -> Result<(Seated, Seated, Seated), Unfit>
    requires here { IsChangeSeatOf change.old gates.now }
    requires fresh { record_of change.old ≡ [] }
    ensures here { table_of_change change.new ≡ table_of_change change.old }
    ensures seats { IfOk result (λ r. (table_of_node r.0.seat ≡ table_of_change change.old)
        × (table_of_node r.1.seat ≡ table_of_change change.old)
        × (table_of_node r.2.seat ≡ table_of_change change.old)) }
    ensures made { IfOk result (λ _. (n : ℕ) × (m : ℕ) × (k : ℕ)
        × (record_of change.new ≡ made_three n m k first.now second.now third.now)) }
{
    if first.path == third.path || second.path == third.path {
        return Err(Unfit);
    }
    let (one, two) = make_two(gates, change, first, second)?;
    let three = make(gates, change, third, None)?;
    Ok((one, two, three))
}

/// The change closes a live port.
pub fn close(gates: &Gates, change: &mut ChangeSeat, port: u32) -> Result<(), Unfit>
    requires here { IsChangeSeatOf change.old gates.now }
    ensures here { table_of_change change.new ≡ table_of_change change.old }
    ensures unfit { IfErr result (λ _. (is_live_port (config_of (record_of change.old))
        port ≡ false) × (change.new ≡ change.old)) }
{
    if !change.is_live_port(port) {
        return Err(Unfit);
    }
    gates.close(change, port);
    Ok(())
}

/// The change looks at a port that was made.
pub fn look(gates: &Gates, change: &mut ChangeSeat, port: u32) -> Result<Look, Unfit>
    requires here { IsChangeSeatOf change.old gates.now }
    ensures here { table_of_change change.new ≡ table_of_change change.old }
    ensures unfit { IfErr result (λ _. (length (config_of (record_of change.old)).gates ≤ port)
        × (change.new ≡ change.old)) }
{
    if port >= change.made().ports {
        return Err(Unfit);
    }
    Ok(gates.look(change, port))
}

/// Makes a third node then.
pub fn make_later(
    gates: &Gates,
    change: &mut ChangeSeat,
    first: &Node,
    second: &Node,
    later: &Node,
) -> Result<Seated, Unfit>
    requires here { IsChangeSeatOf change.old gates.now }
    requires opened { (n : ℕ) × (m : ℕ)
        × (record_of change.old ≡ opened_two n m first.now second.now) }
    ensures here { table_of_change change.new ≡ table_of_change change.old }
    ensures seat { IfOk result (λ r. table_of_node r.seat ≡ table_of_change change.old) }
{
    if first.path == later.path || second.path == later.path {
        return Err(Unfit);
    }
    make(gates, change, later, None)
}

/// The source in slot 0 with port 0, which is closed and leads nowhere, and the sink in slot 1.
pub fn apart(
    alloc: Global,
    gates: &Gates,
    change: &mut ChangeSeat,
) -> Result<(Seated, Seated), Unmade>
    requires here { IsChangeSeatOf change.old gates.now }
    requires fresh { record_of change.old ≡ [] }
    ensures here { table_of_change change.new ≡ table_of_change change.old }
    ensures seats { IfOk result (λ r. (table_of_node r.0.seat ≡ table_of_change change.old)
        × (table_of_node r.1.seat ≡ table_of_change change.old)) }
{
    let source = node(alloc, b"s", Kind::Source, Some(9))?;
    let sink = node(alloc, b"t", Kind::Sink, None)?;
    let made = make_two(gates, change, &source, &sink)?;
    Ok(made)
}

/// A map in slot 0 with port 0, a source in slot 1 with port 1, and a sink in slot 2. The source leads to the map,
/// and the map to the sink where `whole`; the ports that lead somewhere are open.
pub fn line(
    alloc: Global,
    gates: &Gates,
    change: &mut ChangeSeat,
    whole: bool,
) -> Result<(Seated, Seated, Seated), Unmade>
    requires here { IsChangeSeatOf change.old gates.now }
    requires fresh { record_of change.old ≡ [] }
    ensures here { table_of_change change.new ≡ table_of_change change.old }
    ensures seats { IfOk result (λ r. (table_of_node r.0.seat ≡ table_of_change change.old)
        × (table_of_node r.1.seat ≡ table_of_change change.old)
        × (table_of_node r.2.seat ≡ table_of_change change.old)) }
{
    let map = node(alloc, b"m", Kind::Map, Some(10))?;
    let source = node(alloc, b"s", Kind::Source, Some(3))?;
    let sink = node(alloc, b"t", Kind::Sink, None)?;
    let made = make_three(gates, change, &map, &source, &sink)?;
    link_three(gates, change, &map, &source, &sink, whole);
    reopen(gates, change, 1)?;
    if whole {
        reopen(gates, change, 0)?;
    }
    Ok(made)
}

/// The links of a line.
fn link_three(
    gates: &Gates,
    change: &mut ChangeSeat,
    first: &Node,
    second: &Node,
    third: &Node,
    whole: bool,
)
    requires here { IsChangeSeatOf change.old gates.now }
    requires kinds { (first.now.kind ≡ kind.Map) × (second.now.kind ≡ kind.Source) × (third.now.kind ≡ kind.Sink) }
    requires made { (n : ℕ) × (m : ℕ) × (k : ℕ)
        × (record_of change.old ≡ made_three n m k first.now second.now third.now) }
    ensures here { table_of_change change.new ≡ table_of_change change.old }
{
    let (_, _, _) = (first, second, third);
    if whole {
        gates.link(change, 0, 2, 0);
        gates.link(change, 1, 0, 0);
    } else {
        gates.link(change, 1, 0, 0);
    }
}

/// Whether each port of a live node is noted as drained.
pub fn are_all_noted(change: &ChangeSeat) -> bool
    ensures { IsTrue result ↔ AreAllNoted (record_of change.now) }
{
    for port in 0..change.made().ports {
        if change.is_live_port(port) && !change.is_noted(port) {
            return false;
        }
    }
    true
}

/// The seats of the only two nodes are collected, once all ports are drained, and all that was done and seen is
/// merged into one run.
pub fn finish_two(
    gates: &Gates,
    change: &mut ChangeSeat,
    first: Seated,
    second: Seated,
) -> Result<(), Unfit>
    requires here { IsChangeSeatOf change.old gates.now }
    requires seats { (IsSeatOf first.seat gates.now)
        × (IsSeatOf second.seat gates.now) }
    ensures merged { IfOk result
        (λ _. MergeIntoRun (record_of change.new) (collected_in change.new)) }
    ensures unfit { IfErr result (λ _. (length (config_of (record_of change.old)).slots ≡ 2
        → (node_in first.seat).slot ≡ 0
        → (node_in second.seat).slot ≡ 1 → AreAllNoted (record_of change.old)
        → ⊥) × (change.new ≡ change.old)) }
{
    if change.made().nodes != 2 || first.seat.slot() != 0 || second.seat.slot() != 1 {
        return Err(Unfit);
    }
    if !are_all_noted(change) {
        return Err(Unfit);
    }
    gates.collect(change, first.seat);
    gates.collect(change, second.seat);
    gates.finish(change);
    Ok(())
}
