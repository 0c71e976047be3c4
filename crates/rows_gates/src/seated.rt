//! A node's seat at the gates beside the node's kind, and calls that test what they ask of the node. Where it
//! doesn't hold, they answer `Unfit` and do nothing.

ghost use Rattle.std.specs.Prelude.{◌≡◌, ◌<◌, ◌↔◌, IfOk, IfErr, IsTrue, slice_index_or};
ghost use Rattle.quiesce_core.specs.Knowledge.{port_at_start};
ghost use Rattle.txn_spec.specs.Views.{node_at};
ghost use Rattle.node_gate.specs.Seats as seats;
ghost use Rattle.node_gate.specs.Seats.{HasEndedCalls, IsOwn, MayBegin, MayCallAt, MayEnd, MayGive, MaySee, MayTake};
ghost use Rattle.txn_gate.specs.Seats.{IsSeatOf, node_in, table_of_node};

use crate::unfit::Unfit;
use config_graph::{Kind, MAX_PORTS, VALUE_LIMIT, kinds_are_small};
use node_gate::{BeginAnswer, CallAnswer, SeeAnswer, TakeAnswer};
use quiesce_core::{Known, PortKnown};
use txn_gate::{Gates, NodeSeat};

/// A node's seat, and its kind.
#[derive(Drop)]
pub struct Seated {
    pub kind: Kind,
    pub seat: NodeSeat,
    pub ghost kind_is: { (node_in seat).made.kind ≡ kind },
}

/// What is known of the port of this requirement.
fn known_at(known: Known, require: u32) -> PortKnown
    requires { require < 2 }
    ensures { result ≡ slice_index_or known.ports require port_at_start }
{
    known.ports[require as usize]
}

/// Whether each call of the node's service has ended.
fn has_ended_calls(known: &Known) -> bool
    ensures { IsTrue result ↔ HasEndedCalls known.now }
{
    known.ports.iter().all(|port| !port.consequent)
}

impl Seated {
    /// The node begins a transaction of its own, at an idle port of its own.
    pub fn begin(&mut self, gates: &Gates, port: u32, value: u32) -> Result<BeginAnswer, Unfit>
        requires here { IsSeatOf self.old.seat gates.now }
        ensures here { table_of_node self.new.seat ≡ table_of_node self.old.seat }
        ensures unfit { IfErr result (λ _. (MayBegin (node_at (node_in self.old.seat)) self.old.seat.known
            port value → ⊥) × (self.new ≡ self.old)) }
    {
        let known = self.port_known(port)?;
        if !known.idle || value >= VALUE_LIMIT {
            return Err(Unfit);
        }
        Ok(gates.begin(&mut self.seat, port, value))
    }

    /// What is known of a port of its own.
    pub(crate) fn port_known(&self, port: u32) -> Result<PortKnown, Unfit>
        ensures own { IfOk result (λ _. IsOwn (node_at (node_in self.now.seat)) port) }
        ensures known { IfOk result
            (λ k. k ≡ seats.port_known (node_at (node_in self.now.seat)) self.now.seat.known port) }
        ensures unfit { IfErr result (λ _. IsOwn (node_at (node_in self.now.seat)) port → ⊥) }
    {
        let first = self.seat.first_port();
        if port < first {
            return Err(Unfit);
        }
        kinds_are_small();
        let require = port - first;
        if require >= self.kind.requires_() {
            return Err(Unfit);
        }
        Ok(known_at(self.seat.known, require))
    }

    /// The node calls in its service, by a provision that depends on the idle port.
    pub fn call(&mut self, gates: &Gates, port: u32, value: u32) -> Result<CallAnswer, Unfit>
        requires here { IsSeatOf self.old.seat gates.now }
        ensures here { table_of_node self.new.seat ≡ table_of_node self.old.seat }
        ensures unfit { IfErr result (λ _. (MayCallAt (node_at (node_in self.old.seat)) self.old.seat.known
            port value → ⊥) × (self.new ≡ self.old)) }
    {
        let known = self.port_known(port)?;
        if !known.idle || value >= VALUE_LIMIT {
            return Err(Unfit);
        }
        if !self.kind.depends(0, port - self.seat.first_port()) {
            return Err(Unfit);
        }
        let Some(served) = self.seat.known.service else {
            return Err(Unfit);
        };
        if !served.heard || served.calls >= self.kind.max_calls(0) {
            return Err(Unfit);
        }
        Ok(gates.call(&mut self.seat, port, value))
    }

    /// The node, which services nothing, takes up what is asked of it at a port.
    pub fn take(&mut self, gates: &Gates, port: u32) -> Result<TakeAnswer, Unfit>
        requires here { IsSeatOf self.old.seat gates.now }
        ensures here { table_of_node self.new.seat ≡ table_of_node self.old.seat }
        ensures unfit { IfErr result (λ _. (MayTake self.old.seat.known port → ⊥) × (self.new ≡ self.old)) }
    {
        if self.seat.known.service.is_some() || port >= MAX_PORTS {
            return Err(Unfit);
        }
        Ok(gates.take(&mut self.seat, port))
    }

    /// Whether the node may answer the request that it services at a port.
    pub(crate) fn may_give(&self, port: u32, value: u32) -> bool
        ensures { IsTrue result ↔ MayGive self.now.seat.known port value }
    {
        let Some(served) = self.seat.known.service else {
            return false;
        };
        served.port == port
            && served.heard
            && has_ended_calls(&self.seat.known)
            && value < VALUE_LIMIT
    }

    /// The node answers the request that it services at a port.
    pub fn give(&mut self, gates: &Gates, port: u32, value: u32) -> Result<(), Unfit>
        requires here { IsSeatOf self.old.seat gates.now }
        ensures here { table_of_node self.new.seat ≡ table_of_node self.old.seat }
        ensures unfit { IfErr result (λ _. (MayGive self.old.seat.known port value → ⊥) × (self.new ≡ self.old)) }
    {
        if !self.may_give(port, value) {
            return Err(Unfit);
        }
        gates.give(&mut self.seat, port, value);
        Ok(())
    }

    /// The node looks for a reply at a port of its own that is in a transaction.
    pub fn see(&mut self, gates: &Gates, port: u32) -> Result<SeeAnswer, Unfit>
        requires here { IsSeatOf self.old.seat gates.now }
        ensures here { table_of_node self.new.seat ≡ table_of_node self.old.seat }
        ensures unfit { IfErr result (λ _. (MaySee (node_at (node_in self.old.seat)) self.old.seat.known
            port → ⊥) × (self.new ≡ self.old)) }
    {
        let known = self.port_known(port)?;
        if known.idle {
            return Err(Unfit);
        }
        Ok(gates.see(&mut self.seat, port))
    }

    /// The node ends the transaction whose answer it saw.
    pub fn end(&mut self, gates: &Gates, port: u32) -> Result<(), Unfit>
        requires here { IsSeatOf self.old.seat gates.now }
        ensures here { table_of_node self.new.seat ≡ table_of_node self.old.seat }
        ensures unfit { IfErr result (λ _. (MayEnd (node_at (node_in self.old.seat)) self.old.seat.known
            port → ⊥) × (self.new ≡ self.old)) }
    {
        let known = self.port_known(port)?;
        if known.seen.is_none() || known.more {
            return Err(Unfit);
        }
        gates.end(&mut self.seat, port);
        Ok(())
    }
}
