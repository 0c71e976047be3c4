//! The rules' tests.

ghost use Rattle.std.specs.Prelude.{◌≡◌, ◌<◌};
ghost use Rattle.quiesce_core.specs.State as state;
ghost use Rattle.quiesce_core.specs.Rules as rules;
ghost use Rattle.quiesce_core.specs.Links.{config_in};
ghost use Rattle.quiesce_core.specs.Tables.{state_of};

use crate::links::Links;
use crate::state::Service;
use crate::tables::Tables;
use config_graph::{Kind, MAX_NODES, MAX_PORTS, Node, VALUE_LIMIT};
use quiesce_word::LAST_SERIAL;

pub fn is_value(value: u32) -> bool
    ensures { result ≡ rules.is_value value }
{
    value < VALUE_LIMIT
}

pub fn was_heard(service: Option<Service>) -> bool
    ensures { result ≡ rules.was_heard service }
{
    match service {
        Some(service) => service.heard,
        None => false,
    }
}

pub fn has_its_argument(node: &Node) -> bool
    ensures { result ≡ rules.has_its_argument node.now }
{
    match node.arg {
        Some(arg) => node.kind.has_arg() && is_value(arg),
        None => !node.kind.has_arg(),
    }
}

/// The number of the first rule that fails.
pub fn first_failing(table: &[(u32, bool)]) -> Option<u32>
    ensures { result ≡ rules.first_failing table.now }
{
    for &(number, holds) in table {
        if !holds {
            return Some(number);
        }
    }
    None
}

impl Links {
    pub fn is_live_port(&self, port: u32) -> bool
        ensures { result ≡ rules.is_live_port (config_in self.now) port }
    {
        (port as usize) < self.gates.len() && self.is_live(self.gate(port).owner)
    }

    pub fn is_open(&self, port: u32) -> bool
        ensures { result ≡ rules.is_open (config_in self.now) port }
    {
        !self.gate(port).closed
    }

    pub fn is_linked(&self, port: u32) -> bool
        ensures { result ≡ rules.is_linked (config_in self.now) port }
    {
        self.gate(port).target.is_some()
    }

    /// Whether a service by a provision of the node depends on the port.
    pub fn depends(&self, node: u32, provide: u32, port: u32) -> bool
        ensures { result ≡ state.depends (config_in self.now) node provide port }
    {
        match self.kind(node) {
            Some(kind) => kind.depends(provide, self.gate(port).require),
            None => false,
        }
    }

    pub fn provision(&self, port: u32) -> u32
        ensures { result ≡ state.provision (config_in self.now) port }
    {
        match self.gate(port).target {
            Some(target) => target.provide,
            None => 0,
        }
    }

    pub fn calls_allowed(&self, node: u32, provide: u32) -> u32
        ensures { result ≡ state.calls_allowed (config_in self.now) node provide }
    {
        match self.kind(node) {
            Some(kind) => kind.max_calls(provide),
            None => 0,
        }
    }

    pub fn mores_allowed(&self, node: u32, provide: u32) -> u32
        ensures { result ≡ state.mores_allowed (config_in self.now) node provide }
    {
        match self.kind(node) {
            Some(kind) => kind.max_mores(provide),
            None => 0,
        }
    }

    pub fn has_room(&self, slot: u32, node: &Node) -> bool
        ensures { result ≡ rules.has_room (config_in self.now) slot node.now }
    {
        slot as usize == self.slots.len()
            && slot < MAX_NODES
            && self.gates.len() + node.kind.requires_() as usize <= MAX_PORTS as usize
    }

    pub fn is_path_taken(&self, path: &[u8]) -> bool
        ensures { result ≡ rules.is_path_taken (config_in self.now) path.now }
    {
        self.slots
            .iter()
            .any(|slot| slot.live && slot.node.path.as_bytes() == path)
    }

    pub fn was_moved(&self, node: u32) -> bool
        ensures { result ≡ rules.was_moved (config_in self.now) node }
    {
        self.slots.iter().any(|slot| slot.from == Some(node))
    }

    pub fn can_move(&self, node: u32, kind: Kind) -> bool
        ensures { result ≡ rules.can_move (config_in self.now) node kind }
    {
        let Some(slot) = self.slot(node) else {
            return false;
        };
        !slot.live && slot.node.kind.number() == kind.number() && !self.was_moved(node)
    }

    pub fn has_provision(&self, node: u32, provide: u32) -> bool
        ensures { result ≡ rules.has_provision (config_in self.now) node provide }
    {
        match self.slot(node) {
            Some(slot) => slot.live && provide < slot.node.kind.provides(),
            None => false,
        }
    }
}

impl Tables {
    pub fn is_next_serial(&self, port: u32, serial: u32) -> bool
        ensures { result ≡ rules.is_next_serial (state_of self.now) port serial }
    {
        serial <= LAST_SERIAL && serial > 0 && serial - 1 == self.exchange(port).serial
    }

    pub fn is_port_serial(&self, port: u32, serial: u32) -> bool
        ensures { result ≡ rules.is_port_serial (state_of self.now) port serial }
    {
        serial == self.exchange(port).serial
    }

    pub fn is_last_message(&self, port: u32, serial: u32, value: u32) -> bool
        ensures { result ≡ rules.is_last_message (state_of self.now) port serial value }
    {
        let exchange = self.exchange(port);
        serial == exchange.serial && value == exchange.value
    }

    pub fn is_missing(&self, port: u32) -> bool
        ensures { result ≡ rules.is_missing (state_of self.now) port }
    {
        self.links.gate(port).target.is_none() || self.exchange(port).serial == LAST_SERIAL
    }

    pub fn serves_through(&self, node: u32, port: u32) -> bool
        ensures { result ≡ rules.serves_through (state_of self.now) node port }
    {
        match self.service(node) {
            Some(service) => self
                .links
                .depends(node, self.links.provision(service.port), port),
            None => false,
        }
    }

    pub fn has_calls_left(&self, node: u32) -> bool
        ensures { result ≡ rules.has_calls_left (state_of self.now) node }
    {
        match self.service(node) {
            Some(service) => service.calls
                < self
                    .links
                    .calls_allowed(node, self.links.provision(service.port)),
            None => false,
        }
    }

    pub fn is_taken(&self, port: u32) -> bool
        ensures { result ≡ rules.is_taken (state_of self.now) port }
    {
        match self.target_service(port) {
            Some(service) => service.port == port,
            None => false,
        }
    }

    /// Whether the port has a transaction that belongs to a service of another port.
    pub fn is_called_within(&self, service: u32, port: u32) -> bool
        ensures { result ≡ rules.is_called_within (state_of self.now) service port }
    {
        match self.exchange(port).within {
            Some(within) => within == service,
            None => false,
        }
    }

    pub fn has_mores_left(&self, port: u32) -> bool
        ensures { result ≡ rules.has_mores_left (state_of self.now) port }
    {
        let Some(target) = self.links.gate(port).target else {
            return false;
        };
        match self.service(target.node) {
            Some(service) => service.mores < self.links.mores_allowed(target.node, target.provide),
            None => false,
        }
    }

    pub fn is_quiet(&self, port: u32) -> bool
        ensures { result ≡ rules.is_quiet (state_of self.now) port }
    {
        self.links.gate(port).closed && self.exchange(port).phase.is_idle()
    }
}
