//! The state in tables: of each slot its node and service, of each port its gate and exchange.

ghost use Rattle.std.specs.Prelude.{◌≡◌};
ghost use Rattle.quiesce_core.specs.State as state;
ghost use Rattle.quiesce_core.specs.Tables.{state_of};
ghost use Rattle.quiesce_core.specs.WellFormed.{IsWellFormed};
ghost use Rattle.quiesce_word.specs.Words.{FitsWord};
ghost use Rattle.quiesce_core.specs.Fields.{fields_of};

use crate::links::Links;
use crate::state::{Exchange, Phase, Service};
use config_graph::Target;
use quiesce_word::Word;
use std::alloc::Global;

/// What is done at a port at which nothing was ever done.
pub const FRESH_EXCHANGE: Exchange = Exchange {
    phase: Phase::Idle,
    serial: 0,
    value: 0,
    within: None,
};

/// The nodes and gates made, of each slot the service of its node, of each port made its exchange.
#[derive(Drop)]
pub struct Tables {
    pub links: Links,
    pub services: Vec<Option<Service>>,
    pub exchanges: Vec<Exchange>,
}

impl Tables {
    pub fn new(alloc: Global) -> Tables
        ensures state { state_of result ≡ state.empty }
    {
        Tables {
            links: Links::new(alloc),
            services: Vec::new(alloc),
            exchanges: Vec::new(alloc),
        }
    }

    pub fn exchange(&self, port: u32) -> Exchange
        ensures { result ≡ state.exchange (state_of self.now) port }
    {
        self.exchanges
            .get(port as usize)
            .copied()
            .unwrap_or(FRESH_EXCHANGE)
    }

    pub fn service(&self, node: u32) -> Option<Service>
        ensures { result ≡ state.service (state_of self.now) node }
    {
        self.services.get(node as usize).copied().flatten()
    }

    pub fn target_service(&self, port: u32) -> Option<Service>
        ensures { result ≡ state.target_service (state_of self.now) port }
    {
        let Target { node, .. } = self.links.gate(port).target?;
        self.service(node)
    }

    pub fn word(&self, port: u32) -> Word
        requires { IsWellFormed (state_of self.now) }
        ensures fields { result ≡ fields_of (state_of self.now) port }
        ensures fits { FitsWord result }
    {
        let gate = self.links.gate(port);
        let exchange = self.exchange(port);
        Word {
            closed: gate.closed,
            phase: exchange.phase,
            consequent: exchange.within.is_some(),
            target: gate.target,
            serial: exchange.serial,
            value: exchange.value,
        }
    }
}
