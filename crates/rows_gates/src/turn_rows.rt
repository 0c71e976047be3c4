//! A row of turns: a source and the sink that it leads to take turns at the gates until neither moves.

ghost use Rattle.std.specs.Prelude.{◌≡◌, ◌≤◌, IfOk};
ghost use Rattle.txn_spec.specs.Views.{node_at};
ghost use Rattle.node_host.specs.Hosted.{node_of};
ghost use Rattle.rows_gates.specs.Made.{DidNothing};
ghost use Rattle.txn_gate.specs.Seats.{IsSeatOf, node_in, table_of_node};

use crate::seated::Seated;
use crate::systems::{node, open_two};
use component_trait::{Component, VALUE_LIMIT};
use config_graph::{Kind, NoMemory};
use live_hall::turn_at_gates;
use node_host::{HostNode, Turn};
use port_queue::PlainHints;
use quiesce_core::{Deed, NodeEvent};
use state_handover::{AnyNode, make};
use std::alloc::Global;
use std::process::Abort;
use std::test::Fail;
use txn_gate::{Gates, NodeSeat};

type Host = HostNode<AnyNode, NodeSeat>;

/// A node that did nothing, with its component.
fn hosted(rt: &impl Abort, alloc: Global, seated: Seated, arg: Option<u32>) -> Host
    requires fresh { DidNothing (node_in seated.seat) }
    ensures here { table_of_node result.seat ≡ table_of_node seated.seat }
    ensures node { node_at (node_in result.seat) ≡ node_of result.slot result.first_port
        (⟦<AnyNode as Component>⟧.state result.inner) }
{
    let Seated { kind, seat } = seated;
    assert!(rt; arg.is_some() == kind.has_arg());
    assert!(rt; arg.is_none_or(|arg| arg < VALUE_LIMIT));
    let (slot, first_port) = (seat.slot, seat.first_port);
    let inner = make(alloc, kind, arg);
    HostNode::host(alloc, slot, first_port, inner, seat, Vec::new(alloc))
}

/// Each of two nodes takes a turn; the answer says whether one of them moved.
fn round(
    gates: &Gates,
    hints: &mut PlainHints,
    a: &mut Host,
    b: &mut Host,
) -> Result<bool, NoMemory>
    requires here_a { IsSeatOf a.old.seat gates.now }
    requires node_a { node_at (node_in a.old.seat) ≡ node_of a.old.slot a.old.first_port
        (⟦<AnyNode as Component>⟧.state a.old.inner) }
    requires here_b { IsSeatOf b.old.seat gates.now }
    requires node_b { node_at (node_in b.old.seat) ≡ node_of b.old.slot b.old.first_port
        (⟦<AnyNode as Component>⟧.state b.old.inner) }
    ensures here_a { table_of_node a.new.seat ≡ table_of_node a.old.seat }
    ensures node_a { node_at (node_in a.new.seat) ≡ node_of a.new.slot a.new.first_port
        (⟦<AnyNode as Component>⟧.state a.new.inner) }
    ensures here_b { table_of_node b.new.seat ≡ table_of_node b.old.seat }
    ensures node_b { node_at (node_in b.new.seat) ≡ node_of b.new.slot b.new.first_port
        (⟦<AnyNode as Component>⟧.state b.new.inner) }
{
    let first = turn_at_gates(a, gates, hints, true)?;
    let second = turn_at_gates(b, gates, hints, true)?;
    Ok(matches!(first, Turn::Moved(_)) || matches!(second, Turn::Moved(_)))
}

/// Rounds, so many at most, until one in which neither moves. The answer is the number of those in which one moved.
fn rounds(
    gates: &Gates,
    hints: &mut PlainHints,
    a: &mut Host,
    b: &mut Host,
    most: u32,
) -> Result<u32, NoMemory>
    requires here_a { IsSeatOf a.old.seat gates.now }
    requires node_a { node_at (node_in a.old.seat) ≡ node_of a.old.slot a.old.first_port
        (⟦<AnyNode as Component>⟧.state a.old.inner) }
    requires here_b { IsSeatOf b.old.seat gates.now }
    requires node_b { node_at (node_in b.old.seat) ≡ node_of b.old.slot b.old.first_port
        (⟦<AnyNode as Component>⟧.state b.old.inner) }
    ensures few { IfOk result (λ n. n ≤ most) }
{
    if most == 0 || !round(gates, hints, a, b)? {
        return Ok(0);
    }
    let later = rounds(gates, hints, a, b, most - 1)?;
    Ok(later + 1)
}

/// What a node did, at which port, with which serial number and value.
type Told = (&'static str, u32, u32, u32);

fn told(event: &NodeEvent) -> Told {
    match event.deed() {
        Deed::Begin(it) => ("begin", it.port, it.serial, it.value),
        Deed::End(it) => ("end", it.port, it.serial, it.value),
        Deed::Take(it) => ("take", it.port, it.serial, it.value),
        Deed::Give(it) => ("give", it.port, it.serial, it.value),
        _ => ("", 0, 0, 0),
    }
}

fn assert_log(rt: &impl Abort, log: &[NodeEvent], wanted: &[Told]) {
    assert!(rt; log.len() == wanted.len());
    for (event, wanted) in log.iter().zip(wanted) {
        assert!(rt; told(event) == *wanted);
    }
}

/// The source has sent the numbers 1 and 2, each in a transaction that was accepted.
static SENT: [Told; 4] = [
    ("begin", 0, 1, 1),
    ("end", 0, 1, 1),
    ("begin", 0, 2, 2),
    ("end", 0, 2, 1),
];

/// The sink has got them.
static GOT: [Told; 4] = [
    ("take", 0, 1, 1),
    ("give", 0, 1, 1),
    ("take", 0, 2, 2),
    ("give", 0, 2, 1),
];

#[test]
fn nodes_take_turns_to_rest(rt: HostRuntime) -> Result<(), Fail> {
    let alloc = rt.alloc();
    let source = node(alloc, b"s", Kind::Source, Some(2))?;
    let sink = node(alloc, b"t", Kind::Sink, None)?;
    let (gates, mut change) = Gates::new(alloc)?;
    gates.reserve(&mut change, 2)?;
    let mut hints = PlainHints::new(alloc)?;
    let (source, sink) = open_two(&gates, &mut change, &source, &sink)?;
    let mut source = hosted(&rt, alloc, source, Some(2));
    let mut sink = hosted(&rt, alloc, sink, None);
    let moved = rounds(&gates, &mut hints, &mut source, &mut sink, 64)?;
    assert!(rt; moved == 6);
    assert!(rt; source.done() && sink.done());
    assert_log(&rt, source.log(), &SENT);
    assert_log(&rt, sink.log(), &GOT);
    Ok(())
}
