//! A node of any kind.

ghost use Rattle.std.specs.Prelude.{⊤};
ghost use Rattle.kinds_flow.specs.Nodes as flow;
ghost use Rattle.kinds_phil.specs.Nodes as phil;
ghost use Rattle.state_handover.specs.declared.any_node.AnyNode.TheVariants as any;

use component_trait::{Ask, Component, Next};
use config_graph::{Kind, NoMemory};
use kinds_flow::{Account, Adder, Asker, Branch, Buffer, Map, Sink, Source, Teller};
use kinds_phil::{Fork, Philosopher, Place};

/// What the node itself says, at the kinds whose type has the call, and what holds of all nodes of the others.
macro_rules! by_kind {
    ($node:expr, $call:ident $values:tt; $($own:ident)*; $($other:ident)* => $answer:expr) => {
        match $node {
            $(AnyNode::$own(node) => node.$call $values,)*
            $(AnyNode::$other(_) => $answer,)*
        }
    };
}

/// A node, by its kind. Each call is that of the node's own type. One that its type lacks is answered here where the
/// answer is the same for all nodes of the kind (a fork is always done); else its condition is one that no node of the
/// kind meets, and its arm can't be reached.
#[derive(Drop)]
pub enum AnyNode {
    Philosopher(Philosopher),
    Place(Place),
    Fork(Fork),
    Source(Source),
    Map(Map),
    Buffer(Buffer),
    Sink(Sink),
    Teller(Teller),
    Branch(Branch),
    Account(Account),
    Asker(Asker),
    Adder(Adder),
}

impl Component for AnyNode {
    ghost state = { elim [
      | any.Philosopher s ↦ phil.philosopher_state s
      | any.Place s ↦ phil.place_state s
      | any.Fork s ↦ phil.fork_state s
      | any.Source s ↦ flow.source_state s
      | any.Map s ↦ flow.map_state s
      | any.Buffer s ↦ flow.buffer_state s
      | any.Sink s ↦ flow.sink_state s
      | any.Teller s ↦ flow.teller_state s
      | any.Branch s ↦ flow.branch_state s
      | any.Account s ↦ flow.account_state s
      | any.Asker s ↦ flow.asker_state s
      | any.Adder s ↦ flow.adder_state s
    ] };

    ghost has_room = { elim [
      | any.Philosopher s ↦ ⊤
      | any.Place s ↦ ⊤
      | any.Fork s ↦ ⊤
      | any.Source s ↦ ⊤
      | any.Map s ↦ ⊤
      | any.Buffer s ↦ flow.buffer_has_room s
      | any.Sink s ↦ flow.sink_has_room s
      | any.Teller s ↦ ⊤
      | any.Branch s ↦ ⊤
      | any.Account s ↦ ⊤
      | any.Asker s ↦ ⊤
      | any.Adder s ↦ ⊤
    ] };

    fn kind(&self) -> Kind {
        match self {
            AnyNode::Philosopher(_) => Kind::Philosopher,
            AnyNode::Place(_) => Kind::Place,
            AnyNode::Fork(_) => Kind::Fork,
            AnyNode::Source(_) => Kind::Source,
            AnyNode::Map(_) => Kind::Map,
            AnyNode::Buffer(_) => Kind::Buffer,
            AnyNode::Sink(_) => Kind::Sink,
            AnyNode::Teller(_) => Kind::Teller,
            AnyNode::Branch(_) => Kind::Branch,
            AnyNode::Account(_) => Kind::Account,
            AnyNode::Asker(_) => Kind::Asker,
            AnyNode::Adder(_) => Kind::Adder,
        }
    }

    fn arg(&self) -> Option<u32> {
        match self {
            AnyNode::Philosopher(node) => Some(node.arg()),
            AnyNode::Place(node) => Some(node.arg()),
            AnyNode::Source(node) => Some(node.arg()),
            AnyNode::Map(node) => Some(node.arg()),
            AnyNode::Buffer(node) => Some(node.arg()),
            AnyNode::Teller(node) => Some(node.arg()),
            AnyNode::Account(node) => Some(node.arg()),
            AnyNode::Asker(node) => Some(node.arg()),
            AnyNode::Fork(_) | AnyNode::Sink(_) | AnyNode::Branch(_) | AnyNode::Adder(_) => None,
        }
    }

    fn wants(&self) -> Option<Ask> {
        by_kind! { self, wants();
            Philosopher Source Buffer Teller Asker;
            Place Fork Map Sink Branch Account Adder => None
        }
    }

    fn ended(&mut self, _require: u32, value: u32) {
        by_kind! { self, ended(value);
            Philosopher Source Buffer Teller Asker;
            Place Fork Map Sink Branch Account Adder => unreachable!()
        }
    }

    fn room(&mut self) -> Result<(), NoMemory> {
        by_kind! { self, room();
            Buffer Sink;
            Philosopher Place Fork Source Map Teller Branch Account Asker Adder => Ok(())
        }
    }

    fn serve(&mut self, _provide: u32, value: u32) {
        by_kind! { self, serve(value);
            Place Fork Map Buffer Sink Branch Account Adder;
            Philosopher Source Teller Asker => unreachable!()
        }
    }

    fn next(&self) -> Next {
        by_kind! { self, next();
            Place Fork Map Buffer Sink Branch Account Adder;
            Philosopher Source Teller Asker => unreachable!()
        }
    }

    fn answered(&mut self, _require: u32, value: u32) {
        by_kind! { self, answered(value);
            Place Map Branch;
            Philosopher Fork Source Buffer Sink Teller Account Asker Adder => unreachable!()
        }
    }

    fn given(&mut self) {
        by_kind! { self, given();
            Place Fork Map Buffer Sink Branch Account Adder;
            Philosopher Source Teller Asker => unreachable!()
        }
    }

    fn more_given(&mut self) {
        by_kind! { self, more_given();
            Adder;
            Philosopher Place Fork Source Map Buffer Sink Teller Branch Account Asker => unreachable!()
        }
    }

    fn waits(&self) -> bool {
        by_kind! { self, waits();
            Adder;
            Philosopher Place Fork Source Map Buffer Sink Teller Branch Account Asker => false
        }
    }

    fn heard(&mut self, value: u32) {
        by_kind! { self, heard(value);
            Adder;
            Philosopher Place Fork Source Map Buffer Sink Teller Branch Account Asker => unreachable!()
        }
    }

    fn replies(&self, _require: u32) -> u32 {
        by_kind! { self, replies();
            Asker;
            Philosopher Place Fork Source Map Buffer Sink Teller Branch Account Adder => 0
        }
    }

    fn in_service(&self) -> bool {
        by_kind! { self, in_service();
            Place Fork Map Buffer Sink Branch Account Adder;
            Philosopher Source Teller Asker => false
        }
    }

    fn done(&self) -> bool {
        by_kind! { self, done();
            Philosopher Source Buffer Teller Asker;
            Place Fork Map Sink Branch Account Adder => true
        }
    }

    fn state_len(&self) -> usize {
        match self {
            AnyNode::Philosopher(_) => 1,
            AnyNode::Fork(_) => 1,
            AnyNode::Source(_) => 1,
            AnyNode::Buffer(node) => node.state_len(),
            AnyNode::Sink(node) => node.state_len(),
            AnyNode::Teller(_) => 1,
            AnyNode::Account(_) => 1,
            AnyNode::Asker(_) => 2,
            AnyNode::Place(_) | AnyNode::Map(_) | AnyNode::Branch(_) | AnyNode::Adder(_) => 0,
        }
    }

    fn state_word(&self, index: usize) -> u64 {
        by_kind! { self, state_word(index);
            Philosopher Fork Source Buffer Sink Teller Account Asker;
            Place Map Branch Adder => unreachable!()
        }
    }
}
