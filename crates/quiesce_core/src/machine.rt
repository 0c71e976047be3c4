//! The change machine: a state that events lead on, each where its rules hold.

ghost use Rattle.std.specs.Prelude.{◌≡◌, ◌+◌, ◌<◌, ◌≤◌, ◌↔◌, ◌-◌, ◌^◌, ℕ, min, false, true, length, option_map, IfOk, IsTrue, OnOk, OnErr, SomeIff};
ghost use Rattle.config_graph.specs.declared.TheConstants.{MAX_NODES, MAX_PORTS};
ghost use Rattle.config_graph.specs.Graph.{ports};
ghost use Rattle.config_graph.specs.Sound.{Sound};
ghost use Rattle.quiesce_core.specs.Start.{started};
ghost use Rattle.quiesce_core.specs.State as state;
ghost use Rattle.quiesce_core.specs.Rules.{denial, is_settled, last_serial};
ghost use Rattle.quiesce_core.specs.Settled.{Settled};
ghost use Rattle.quiesce_core.specs.Open.{open_txns};
ghost use Rattle.quiesce_core.specs.Live.{IsGraphOf};
ghost use Rattle.quiesce_core.specs.Rest.{rest};
ghost use Rattle.quiesce_core.specs.Words as words;
ghost use Rattle.quiesce_core.specs.Runs.{Step};
ghost use Rattle.quiesce_core.specs.Doers.{is_make};
ghost use Rattle.quiesce_core.specs.Named.{AreNamed};
ghost use Rattle.quiesce_core.specs.WellFormed.{IsWellFormed};
ghost use Rattle.quiesce_core.specs.Traffic.{IsConsistent};

use crate::error::CoreError;
use crate::event::Event;
use crate::state::{Exchange, Gate, OpenTxn, Service, Slot};
use crate::tables::Tables;
use config_graph::{Graph, Made, NoMemory, Node};
use quiesce_word::LAST_SERIAL;
use std::alloc::Global;
use std::marker::Model;

/// The state of a system that is changed while it runs. Contracts see the state, and for how many nodes memory is
/// reserved. The state of each is well formed and consistent, and its nodes are named apart: `made` tells it.
#[derive(Drop)]
pub struct Core {
    tables: Tables,
    spare: u32,
}

impl Model for Core {
    ghost use Rattle.quiesce_core.specs.CoreState.{CoreState};
    ghost use Rattle.quiesce_core.specs.Tables.{IsKept, state_of};

    ghost Value = { CoreState };

    ghost view = { λ c. record { state = state_of c.tables; spare = c.spare } };

    ghost invariant = { λ c. IsKept c.tables c.spare };
}

impl Core {
    /// Nothing is made.
    pub fn empty(alloc: Global) -> Core
        ensures { result ≡ record { state = state.empty; spare = 0 } }
    {
        Core {
            tables: Tables::new(alloc),
            spare: 0,
        }
    }

    /// The system that was started as the graph says: its nodes are in slots 0, 1 and on, their ports numbered in
    /// that order, linked, open and idle.
    pub fn of(alloc: Global, graph: &Graph) -> Result<Core, NoMemory>
        requires sound { Sound graph.now }
        requires few_nodes { length graph.now.nodes ≤ MAX_NODES }
        requires few_ports { length (ports graph.now.nodes) ≤ MAX_PORTS }
        ensures { IfOk result (λ c. c ≡ record { state = started graph.now; spare = 0 }) }
    {
        let tables = Tables::of(alloc, graph)?;
        Ok(Core { tables, spare: 0 })
    }

    /// Takes the memory for so many nodes more. Where that fails, room for some of them may stay reserved.
    pub fn reserve(&mut self, nodes: u32) -> Result<(), NoMemory>
        requires { length self.old.state.config.slots + nodes ≤ MAX_NODES }
        ensures ok { OnOk result (nodes ≤ self.new.spare) }
        ensures state { self.new.state ≡ self.old.state }
        ensures spare { self.old.spare ≤ self.new.spare }
    {
        if nodes <= self.spare {
            return Ok(());
        }
        self.tables.reserve(nodes as usize)?;
        self.spare = nodes;
        Ok(())
    }

    /// The event Make, in the next slot. It takes no memory.
    pub fn make(&mut self, node: Node, from: Option<u32>)
        requires spare { 0 < self.old.spare }
        requires allowed { denial self.old.state (Event.Make (length self.old.state.config.slots) node from) ≡ None }
        ensures step { Step self.old.state (Event.Make (length self.old.state.config.slots) node from) self.new.state }
        ensures spare { self.new.spare + 1 ≡ self.old.spare }
    {
        self.tables.add(node, from);
        self.spare -= 1;
    }

    /// The number of the first rule by which the event is denied, or `None` where each of its rules holds.
    pub fn denial(&self, event: &Event) -> Option<u32>
        ensures { result ≡ denial self.now.state event.now }
    {
        self.tables.denial(event)
    }

    /// Lets the event happen, which no rule denies. A node is made by `make`, in room that was reserved, or by `apply`.
    pub fn perform(&mut self, event: &Event)
        requires allowed { denial self.old.state event.now ≡ None }
        requires no_make { is_make event.now ≡ false }
        ensures step { Step self.old.state event.now self.new.state }
        ensures spare { self.new.spare ≡ self.old.spare }
    {
        self.tables.perform(event);
    }

    /// Lets the event happen where each of its rules holds. A refused event leaves the state as it is, and no room
    /// that was reserved is lost.
    ///
    /// The time of a make, link, unlink or remove grows with the number of nodes and ports made. That of the other
    /// events doesn't.
    pub fn apply(&mut self, event: &Event) -> Result<(), CoreError>
        ensures ok { OnOk result (Step self.old.state event.now self.new.state) }
        ensures denied { (rule : ℕ)
            → (result ≡ Err (CoreError.Denied rule)) ↔ (denial self.old.state event.now ≡ Some rule) }
        ensures no_memory { result ≡ Err CoreError.NoMemory → is_make event.now ≡ true }
        ensures refused { OnErr result (self.new.state ≡ self.old.state) }
        ensures spare { is_make event.now ≡ false → self.new.spare ≡ self.old.spare }
        ensures made { self.old.spare ≤ self.new.spare + 1 }
        ensures kept { OnErr result (self.old.spare ≤ self.new.spare) }
    {
        if let Some(rule) = self.denial(event) {
            return Err(CoreError::Denied { rule });
        }
        match event {
            Event::Make { node, from, .. } => {
                let node = node.try_clone()?;
                self.reserve(1)?;
                self.make(node, *from);
            }
            _ => self.perform(event),
        }
        Ok(())
    }

    /// How many nodes and how many ports were made. It tells too that the state of each machine is well formed and
    /// consistent, and its nodes named apart.
    pub fn made(&self) -> Made
        ensures nodes { result.nodes ≡ length self.now.state.config.slots }
        ensures ports { result.ports ≡ length self.now.state.config.gates }
        ensures well_formed { IsWellFormed self.now.state }
        ensures consistent { IsConsistent self.now.state }
        ensures named { AreNamed self.now.state.config }
    {
        Made {
            nodes: self.tables.links.slots.len() as u32,
            ports: self.tables.links.gates.len() as u32,
        }
    }

    /// The node that was made in a slot, whether it is live or was removed.
    pub fn node(&self, slot: u32) -> &Node
        requires { slot < length self.now.state.config.slots }
        ensures { option_map (λ m. m.node) (state.slot self.now.state.config slot) ≡ Some result.now }
    {
        &self.tables.links.slots[slot as usize].node
    }

    /// What was made in a slot: the node, its first port, where its state came from, and whether it is live.
    pub fn slot(&self, slot: u32) -> Option<&Slot>
        ensures { option_map (λ m. m.now) result ≡ state.slot self.now.state.config slot }
    {
        self.tables.links.slot(slot)
    }

    /// What the change has decided of a port. One that was never made is closed and unlinked.
    pub fn gate(&self, port: u32) -> Gate
        ensures { result ≡ state.gate self.now.state.config port }
    {
        self.tables.links.gate(port)
    }

    /// How far a port's transactions have come. One that was never made is idle, and had none.
    pub fn exchange(&self, port: u32) -> Exchange
        ensures { result ≡ state.exchange self.now.state port }
    {
        self.tables.exchange(port)
    }

    /// What a node services.
    pub fn service(&self, node: u32) -> Option<Service>
        ensures { result ≡ state.service self.now.state node }
    {
        self.tables.service(node)
    }

    /// Whether a node was made in this slot and not removed.
    pub fn is_live(&self, node: u32) -> bool
        ensures { result ≡ state.is_live self.now.state.config node }
    {
        self.tables.links.is_live(node)
    }

    /// Whether the node is settled: its ports and those that reach it are closed and idle, and it services nothing.
    /// What follows from that stands in the laws of runs.
    pub fn settled(&self, node: u32) -> bool
        requires { IsTrue (state.is_live self.now.state.config node) }
        ensures test { result ≡ is_settled self.now.state node }
        ensures settled { IsTrue result ↔ Settled self.now.state node }
    {
        self.tables.is_settled(node)
    }

    /// What gates keep of the port, in one number.
    pub fn word(&self, port: u32) -> u64
        requires { port < length self.now.state.config.gates }
        ensures { result ≡ words.word_of self.now.state port }
    {
        self.tables.word(port).pack()
    }

    /// The serial of the port's next transaction, or `None` where its transactions are spent.
    pub fn next_serial(&self, port: u32) -> Option<u32>
        requires { port < length self.now.state.config.gates }
        ensures { SomeIff result (¬ ((state.exchange self.now.state port).serial ≡ last_serial))
            ((state.exchange self.now.state port).serial + 1) }
    {
        let serial = self.tables.exchange(port).serial;
        if serial == LAST_SERIAL {
            return None;
        }
        Some(serial + 1)
    }

    /// The transactions that have not ended, by port.
    pub fn open_txns(&self) -> Result<Vec<OpenTxn>, NoMemory>
        ensures { IfOk result (λ v. v.items ≡ open_txns self.now.state) }
    {
        self.tables.open_txns()
    }

    /// The graph of the live nodes and their links. What was removed is not in it. A system can be started as it says.
    pub fn graph(&self) -> Result<Graph, NoMemory>
        ensures graph { IfOk result (IsGraphOf self.now.state.config) }
        ensures sound { IfOk result Sound }
        ensures few_nodes { IfOk result (λ g. length g.nodes ≤ MAX_NODES) }
        ensures few_ports { IfOk result (λ g. length (ports g.nodes) ≤ MAX_PORTS) }
    {
        self.tables.links.graph()
    }

    /// How many events can still happen, at most, of the open transactions and their consequents, until each has ended.
    /// It is the greatest number of 128 bits where it is more.
    pub fn rest(&self) -> u128
        ensures { result ≡ min (rest self.now.state) (2 ^ 128 - 1) }
    {
        self.tables.rest()
    }
}
