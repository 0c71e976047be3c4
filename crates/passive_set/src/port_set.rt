//! Sets of ports, by number, that keep the order in which the ports were added.

ghost use Rattle.std.specs.Prelude.{◌≡◌, ◌<◌, ◌^◌, [], slice_get, IfOk, IfSome, OnOk, All};
ghost use Rattle.passive_set.specs.Ports.{Adds};

use config_graph::NoMemory;
use std::alloc::Global;
use std::marker::Model;

/// A set of ports below a number, its room. A port is added, and found there, in constant time.
#[derive(Drop)]
pub(crate) struct PortSet {
    ports: Vec<u32>,
    has: Vec<bool>,
}

impl Model for PortSet {
    ghost use Rattle.passive_set.specs.Ports.{Ports};

    ghost Value = { Ports };

    ghost use Rattle.passive_set.specs.PortSets.{ports_in, IsPortSet};

    ghost view = { ports_in };

    ghost invariant = { IsPortSet };
}

impl PortSet {
    pub(crate) fn new(alloc: Global, room: u32) -> Result<PortSet, NoMemory>
        ensures { IfOk result (λ set. set ≡ record { room = room; ports = [] }) }
    {
        let has = vec![in alloc; false; room as usize]?;
        Ok(PortSet {
            ports: Vec::new(alloc),
            has,
        })
    }

    /// The ports, in the order in which they were added.
    pub(crate) fn ports(&self) -> &[u32]
        ensures ports { result.now ≡ self.now.ports }
        ensures below { All (λ p. p < self.now.room) self.now.ports }
    {
        self.ports.as_slice()
    }

    /// The port that was added after so many others, or `None` where there are no more.
    pub(crate) fn get(&self, index: u32) -> Option<u32>
        ensures port { result ≡ slice_get self.now.ports index }
        ensures below { IfSome result (λ p. p < self.now.room) }
        ensures few { IfSome result (λ _. index < self.now.room) }
        ensures room { self.now.room < 2 ^ 32 }
    {
        self.ports.get(index as usize).copied()
    }

    /// Adds a port, unless it is there.
    pub(crate) fn add(&mut self, port: u32) -> Result<(), NoMemory>
        requires { port < self.old.room }
        ensures room { OnOk result (self.new.room ≡ self.old.room) }
        ensures added { OnOk result (Adds self.old.ports self.new.ports (λ p. p ≡ port)) }
    {
        if !self.has[port as usize] {
            self.ports.push(port)?;
            self.has[port as usize] = true;
        }
        Ok(())
    }
}
