//! A row of turns: a source and the sink that it leads to take turns at the core's gate until neither moves.

ghost use Rattle.std.specs.Prelude.{◌≡◌, ◌≢◌, ◌≤◌, ℕ, true, false, IfOk, OnOk};
ghost use Rattle.node_host.specs.Hosted.{node_of};
ghost use Rattle.node_gate.specs.Core.{FitsCore, node_at};
ghost use Rattle.quiesce_core.specs.Knowledge.{nothing_known};
ghost use Rattle.quiesce_core.specs.Runs.{Step, is_doer};
ghost use Rattle.quiesce_core.specs.State.{is_live};
ghost use Rattle.quiesce_core.specs.Traffic.{IsConsistent};
ghost use Rattle.quiesce_core.specs.WellFormed.{IsWellFormed};
ghost use Rattle.quiesce_core.specs.declared.known.Known.{Known as Knows};

use crate::steps::shows;
use base::Text;
use component_trait::{Component, VALUE_LIMIT};
use config_graph::{Kind, NoMemory, Node};
use node_gate::{CoreGate, CoreSeat, seats_of_live_nodes_fit};
use node_host::{HostNode, Turn};
use port_queue::PlainHints;
use quiesce_core::{Core, Event};
use state_handover::{AnyNode, make};
use std::alloc::Global;
use std::process::Abort;
use std::test::Fail;

type Host = HostNode<AnyNode, CoreSeat>;

/// The event happens.
fn happens(rt: &impl Abort, core: &mut Core, event: &Event)
    ensures formed { IsWellFormed core.old.state }
    ensures consistent { IsConsistent core.old.state }
    ensures step { Step core.old.state event.now core.new.state }
{
    let _ = core.made();
    assert!(rt; core.apply(event) == Ok(()));
}

/// An event happens that no node does: seats of nodes that are live go on fitting.
fn changes(rt: &impl Abort, core: &mut Core, event: &Event)
    requires by_no_node { (n : ℕ) → is_doer core.old.state n event.now ≡ false }
    ensures others { (n : ℕ) (w : Knows) → FitsCore core.old.state n w → is_live core.new.state.config n ≡ true
        → FitsCore core.new.state n w }
{
    seats_of_live_nodes_fit();
    happens(rt, core, event);
}

/// A node is made in this slot, and its seat fits; so do those of nodes that are live.
fn make_node(rt: &impl Abort, core: &mut Core, slot: u32, node: Node)
    ensures fits { FitsCore core.new.state slot nothing_known }
    ensures others { (n : ℕ) (w : Knows) → FitsCore core.old.state n w → is_live core.new.state.config n ≡ true
        → FitsCore core.new.state n w }
{
    seats_of_live_nodes_fit();
    let event = Event::Make {
        slot,
        node,
        from: None,
    };
    happens(rt, core, &event);
}

/// The node in a slot is live.
fn lives(rt: &impl Abort, core: &Core, slot: u32)
    ensures { is_live core.now.state.config slot ≡ true }
{
    assert!(rt; core.is_live(slot) == true);
}

/// An event of the change happens, after which the two nodes are live: their seats, at which they did nothing, still
/// fit.
fn changes_both(rt: &impl Abort, core: &mut Core, event: &Event)
    requires by_no_node { (n : ℕ) → is_doer core.old.state n event.now ≡ false }
    requires left { FitsCore core.old.state 0 nothing_known }
    requires right { FitsCore core.old.state 1 nothing_known }
    ensures left { FitsCore core.new.state 0 nothing_known }
    ensures right { FitsCore core.new.state 1 nothing_known }
{
    changes(rt, core, event);
    lives(rt, core, 0);
    lives(rt, core, 1);
}

/// The port of the node in slot 0 leads to that in slot 1, and is open.
fn wire(rt: &impl Abort, core: &mut Core)
    requires left { FitsCore core.old.state 0 nothing_known }
    requires right { FitsCore core.old.state 1 nothing_known }
    ensures left { FitsCore core.new.state 0 nothing_known }
    ensures right { FitsCore core.new.state 1 nothing_known }
{
    let link = Event::Link {
        port: 0,
        node: 1,
        provide: 0,
    };
    changes_both(rt, core, &link);
    changes_both(rt, core, &Event::Reopen { port: 0 });
}

/// Two nodes in slots 0 and 1.
fn make_both(rt: &impl Abort, core: &mut Core, left: Node, right: Node)
    ensures left { FitsCore core.new.state 0 nothing_known }
    ensures right { FitsCore core.new.state 1 nothing_known }
{
    make_node(rt, core, 0, left);
    make_node(rt, core, 1, right);
    lives(rt, core, 0);
}

/// The machine with a source of two values in slot 0, whose port leads to the sink in slot 1.
fn system(rt: &impl Abort, alloc: Global) -> Result<CoreGate, Fail>
    ensures { IfOk result (λ g. FitsCore g.core.state 0 nothing_known × FitsCore g.core.state 1 nothing_known) }
{
    let mut core = Core::empty(alloc);
    let source = Node {
        path: Text::from_bytes(alloc, b"s")?,
        kind: Kind::Source,
        arg: Some(2),
    };
    let sink = Node {
        path: Text::from_bytes(alloc, b"t")?,
        kind: Kind::Sink,
        arg: None,
    };
    make_both(rt, &mut core, source, sink);
    wire(rt, &mut core);
    Ok(CoreGate::new(core))
}

/// The node in a slot, of this kind.
fn hosted(
    rt: &impl Abort,
    alloc: Global,
    gate: &CoreGate,
    slot: u32,
    kind: Kind,
    arg: Option<u32>,
) -> Host
    requires fits { FitsCore gate.now.core.state slot nothing_known }
    ensures fits { FitsCore gate.now.core.state result.seat.slot result.seat.known }
    ensures node { node_at gate.now.core.state.config result.seat.slot ≡ node_of result.slot result.first_port
        (⟦<AnyNode as Component>⟧.state result.inner) }
    ensures slot { (result.slot ≡ slot) × (result.seat.slot ≡ slot) }
{
    assert!(rt; arg.is_some() == kind.has_arg());
    assert!(rt; arg.is_none_or(|arg| arg < VALUE_LIMIT));
    let made = gate.core().slot(slot);
    assert!(rt; made.is_some_and(|made| made.node.kind == kind));
    let first_port = match made {
        Some(made) => made.first_port,
        None => 0,
    };
    let inner = make(alloc, kind, arg);
    HostNode::host(
        alloc,
        slot,
        first_port,
        inner,
        CoreSeat::new(slot),
        Vec::new(alloc),
    )
}

/// Each of two nodes takes a turn; the answer says whether one of them moved.
fn round(
    gate: &mut CoreGate,
    hints: &mut PlainHints,
    a: &mut Host,
    b: &mut Host,
) -> Result<bool, NoMemory>
    requires fits_a { FitsCore gate.old.core.state a.old.seat.slot a.old.seat.known }
    requires node_a { node_at gate.old.core.state.config a.old.seat.slot ≡ node_of a.old.slot a.old.first_port
        (⟦<AnyNode as Component>⟧.state a.old.inner) }
    requires fits_b { FitsCore gate.old.core.state b.old.seat.slot b.old.seat.known }
    requires node_b { node_at gate.old.core.state.config b.old.seat.slot ≡ node_of b.old.slot b.old.first_port
        (⟦<AnyNode as Component>⟧.state b.old.inner) }
    requires apart { a.old.slot ≢ b.old.slot }
    ensures fits_a { OnOk result (FitsCore gate.new.core.state a.new.seat.slot a.new.seat.known) }
    ensures node_a { OnOk result (node_at gate.new.core.state.config a.new.seat.slot ≡ node_of a.new.slot
        a.new.first_port (⟦<AnyNode as Component>⟧.state a.new.inner)) }
    ensures fits_b { OnOk result (FitsCore gate.new.core.state b.new.seat.slot b.new.seat.known) }
    ensures node_b { OnOk result (node_at gate.new.core.state.config b.new.seat.slot ≡ node_of b.new.slot
        b.new.first_port (⟦<AnyNode as Component>⟧.state b.new.inner)) }
    ensures slots { OnOk result ((a.new.slot ≡ a.old.slot) × (b.new.slot ≡ b.old.slot)) }
{
    let first = a.turn(gate, hints, true)?;
    let second = b.turn(gate, hints, true)?;
    Ok(matches!(first, Turn::Moved(_)) || matches!(second, Turn::Moved(_)))
}

/// Rounds, so many at most, until one in which neither moves. The answer is the number of those in which one moved.
fn rounds(
    gate: &mut CoreGate,
    hints: &mut PlainHints,
    a: &mut Host,
    b: &mut Host,
    most: u32,
) -> Result<u32, NoMemory>
    requires fits_a { FitsCore gate.old.core.state a.old.seat.slot a.old.seat.known }
    requires node_a { node_at gate.old.core.state.config a.old.seat.slot ≡ node_of a.old.slot a.old.first_port
        (⟦<AnyNode as Component>⟧.state a.old.inner) }
    requires fits_b { FitsCore gate.old.core.state b.old.seat.slot b.old.seat.known }
    requires node_b { node_at gate.old.core.state.config b.old.seat.slot ≡ node_of b.old.slot b.old.first_port
        (⟦<AnyNode as Component>⟧.state b.old.inner) }
    requires apart { a.old.slot ≢ b.old.slot }
    ensures few { IfOk result (λ n. n ≤ most) }
{
    if most == 0 || !round(gate, hints, a, b)? {
        return Ok(0);
    }
    let later = rounds(gate, hints, a, b, most - 1)?;
    Ok(later + 1)
}

#[test]
fn nodes_take_turns_to_rest(rt: HostRuntime) -> Result<(), Fail> {
    let alloc = rt.alloc();
    let mut gate = system(&rt, alloc)?;
    let mut hints = PlainHints::new(alloc)?;
    let mut source = hosted(&rt, alloc, &gate, 0, Kind::Source, Some(2));
    let mut sink = hosted(&rt, alloc, &gate, 1, Kind::Sink, None);
    let moved = rounds(&mut gate, &mut hints, &mut source, &mut sink, 64)?;
    assert!(rt; moved == 6);
    assert!(rt; source.done());
    assert!(rt; sink.done());
    assert!(rt; source.log().len() == 4);
    assert!(rt; sink.log().len() == 4);
    shows(&rt, sink.inner(), &[1, 2]);
    Ok(())
}
