//! Makes nodes, and hands over what they keep. Neither takes memory.

ghost use Rattle.std.specs.Prelude.{◌≡◌, None};
ghost use Rattle.component_trait.specs.Making.{handed_over, new_node};
ghost use Rattle.state_handover.specs.Making.{FitsKind};

use crate::any_node::AnyNode;
use component_trait::Component;
use config_graph::Kind;
use kinds_flow::{Account, Adder, Asker, Branch, Buffer, Map, Sink, Source, Teller};
use kinds_phil::{Fork, Philosopher, Place};
use std::alloc::Global;

/// A node of this kind, as its argument opens it.
pub fn make(alloc: Global, kind: Kind, arg: Option<u32>) -> AnyNode
    requires { FitsKind kind arg }
    ensures { ⟦<AnyNode as Component>⟧.state result ≡ new_node kind arg }
{
    let arg = arg.unwrap_or(0);
    match kind {
        Kind::Philosopher => AnyNode::Philosopher(Philosopher::new(arg)),
        Kind::Place => AnyNode::Place(Place::new(arg)),
        Kind::Fork => AnyNode::Fork(Fork::new()),
        Kind::Source => AnyNode::Source(Source::new(arg)),
        Kind::Map => AnyNode::Map(Map::new(arg)),
        Kind::Buffer => AnyNode::Buffer(Buffer::new(alloc, arg)),
        Kind::Sink => AnyNode::Sink(Sink::new(alloc)),
        Kind::Teller => AnyNode::Teller(Teller::new(arg)),
        Kind::Branch => AnyNode::Branch(Branch::new()),
        Kind::Account => AnyNode::Account(Account::new(arg)),
        Kind::Asker => AnyNode::Asker(Asker::new(arg)),
        Kind::Adder => AnyNode::Adder(Adder::new()),
    }
}

/// A node of the same kind that keeps what this one keeps, with the argument given.
pub fn import(old: AnyNode, arg: Option<u32>) -> AnyNode
    requires rests { (⟦<AnyNode as Component>⟧.state old).service ≡ None }
    requires fits { FitsKind (⟦<AnyNode as Component>⟧.state old).kind arg }
    ensures state { ⟦<AnyNode as Component>⟧.state result ≡
        handed_over (⟦<AnyNode as Component>⟧.state old).kind arg (⟦<AnyNode as Component>⟧.state old).kept }
    ensures room { ⟦<AnyNode as Component>⟧.has_room old → ⟦<AnyNode as Component>⟧.has_room result }
{
    let arg = arg.unwrap_or(0);
    match old {
        AnyNode::Philosopher(node) => AnyNode::Philosopher(node.with_arg(arg)),
        AnyNode::Place(node) => AnyNode::Place(node.with_arg(arg)),
        AnyNode::Fork(node) => AnyNode::Fork(node),
        AnyNode::Source(node) => AnyNode::Source(node.with_arg(arg)),
        AnyNode::Map(node) => AnyNode::Map(node.with_arg(arg)),
        AnyNode::Buffer(node) => AnyNode::Buffer(node.with_arg(arg)),
        AnyNode::Sink(node) => AnyNode::Sink(node),
        AnyNode::Teller(node) => AnyNode::Teller(node.with_arg(arg)),
        AnyNode::Branch(node) => AnyNode::Branch(node),
        AnyNode::Account(node) => AnyNode::Account(node.with_arg(arg)),
        AnyNode::Asker(node) => AnyNode::Asker(node.with_arg(arg)),
        AnyNode::Adder(node) => AnyNode::Adder(node),
    }
}
