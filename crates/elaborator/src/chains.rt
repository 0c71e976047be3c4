//! Chains of bindings: where lists of them lead.

ghost use Rattle.std.specs.Prelude.{◌≡◌, [], IfOk, OnOk, None};
ghost use Rattle.elaborator.specs.PortIndex.{chain_target, chain_end, Updated};

use indexmap::IndexMap;
use std::alloc::{AllocError, Global};
use std::marker::Model;

/// A port of an instance: the number of the instance, the place of the port's declaration in the
/// instance's component, and the port's index where it has one.
#[derive(Clone, Copy, PartialEq, Eq, Hash)]
pub struct PortId {
    pub instance: u32,
    pub port: usize,
    pub index: Option<i32>,
}

/// More steps than any chain takes: the longest leads from a requirement of depth 32 outward to depth 1, across, and
/// inward again, in 63.
const CHAIN_STEPS: u32 = 68;

/// What each source is bound to. Contracts see the pairs of sources and targets.
#[derive(Drop)]
pub struct Targets {
    targets: IndexMap<PortId, PortId>,
}

impl Model for Targets {
    ghost use Rattle.std.specs.Prelude.{List};
    ghost use Rattle.elaborator.specs.declared.chains.PortId.{PortId};

    ghost Value = { List (PortId × PortId) };

    ghost view = { λ t. t.targets.entries };
}

impl Targets {
    /// Nothing is bound.
    pub fn new(alloc: Global) -> Targets
        ensures { result ≡ [] }
    {
        Targets {
            targets: IndexMap::new(alloc),
        }
    }

    /// What the source is bound to.
    pub fn get(&self, source: PortId) -> Option<PortId>
        ensures { result ≡ chain_target self.now source }
    {
        self.targets.get(&source).copied()
    }

    /// Binds a source to a target, and answers the target that it had before.
    pub fn bind(&mut self, source: PortId, target: PortId) -> Result<Option<PortId>, AllocError>
        ensures before { IfOk result (λ before. before ≡ chain_target self.old source) }
        ensures bound { OnOk result (Updated self.old self.new source target) }
    {
        Ok(self.targets.insert(source, target)?)
    }

    /// The last end of the chain that begins with this port: the port itself where it is no source.
    pub fn follow(&self, start: PortId) -> PortId
        ensures { result ≡ chain_end CHAIN_STEPS self.now start }
    {
        let mut end = start;
        for _ in 0..CHAIN_STEPS {
            match self.get(end) {
                Some(target) => end = target,
                None => break,
            }
        }
        end
    }
}
