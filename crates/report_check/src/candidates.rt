//! Chains of which the next member may have become one that may come. What is no candidate is found all the same, when
//! each chain is tried.

ghost use Rattle.std.specs.Prelude.{◌≡◌, ◌+◌, ◌≤◌, length, IfSome, OnOk};

use config_graph::NoMemory;
use std::alloc::Global;

/// The history, or the log of the node in a slot.
#[derive(Clone, Copy)]
pub enum Chain {
    History,
    Log(usize),
}

/// Chains to try, the last first. Each stands there once at most.
#[derive(Drop)]
pub struct Candidates {
    pub chains: Vec<Chain>,
    /// Whether the history is to be tried, and of each log whether it is.
    history: bool,
    logs: Vec<bool>,
}

impl Candidates {
    /// No candidates yet, at so many logs.
    pub fn new(alloc: Global, logs: usize) -> Result<Candidates, NoMemory> {
        let logs = vec![in alloc; false; logs]?;
        Ok(Candidates {
            chains: Vec::new(alloc),
            history: false,
            logs,
        })
    }

    /// Whether a chain is to be tried. What is no log's slot always is.
    fn stands(&self, chain: Chain) -> bool {
        match chain {
            Chain::History => self.history,
            Chain::Log(node) => self.logs.get(node).copied().unwrap_or(true),
        }
    }

    /// Notes whether a chain is to be tried.
    fn mark(&mut self, chain: Chain, stands: bool)
        ensures { self.new.chains ≡ self.old.chains }
    {
        match chain {
            Chain::History => self.history = stands,
            Chain::Log(node) => {
                if node < self.logs.len() {
                    self.logs[node] = stands;
                }
            }
        }
    }

    pub fn add(&mut self, chain: Chain) -> Result<(), NoMemory>
        ensures { OnOk result (length self.new.chains.items ≤ length self.old.chains.items + 1) }
    {
        if !self.stands(chain) {
            self.mark(chain, true);
            self.chains.push(chain)?;
        }
        Ok(())
    }

    /// The chain that is to be tried next.
    pub fn take(&mut self) -> Option<Chain>
        ensures { IfSome result (λ chain. length self.new.chains.items + 1 ≡ length self.old.chains.items) }
    {
        let chain = self.chains.pop()?;
        self.mark(chain, false);
        Some(chain)
    }
}
