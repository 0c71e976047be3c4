//! The transactions that have not ended.

ghost use Rattle.std.specs.Prelude.{◌≡◌, ◌≤◌, length, IfOk};
ghost use Rattle.config_graph.specs.declared.TheConstants.{MAX_PORTS};
ghost use Rattle.quiesce_core.specs.Open as open_;
ghost use Rattle.quiesce_core.specs.Rules as rules;
ghost use Rattle.quiesce_core.specs.State as state;
ghost use Rattle.quiesce_core.specs.Tables.{state_of};

use crate::state::{OpenTxn, Phase, Stage};
use crate::tables::Tables;
use config_graph::NoMemory;

impl Tables {
    /// How far the transaction of the port has come, or `None` where it has none.
    fn stage(&self, port: u32) -> Option<Stage>
        ensures { result ≡ open_.stage_of (state.exchange (state_of self.now) port).phase
            (rules.is_taken (state_of self.now) port) }
    {
        match self.exchange(port).phase {
            Phase::Idle => None,
            Phase::Asked if self.is_taken(port) => Some(Stage::Taken),
            Phase::Asked => Some(Stage::Waiting),
            Phase::Answered => Some(Stage::Answered),
            Phase::More => Some(Stage::Taken),
        }
    }

    fn open_txn(&self, port: u32) -> Option<OpenTxn>
        ensures { result ≡ open_.open_txn (state_of self.now) port }
    {
        let stage = self.stage(port)?;
        let exchange = self.exchange(port);
        Some(OpenTxn {
            port,
            serial: exchange.serial,
            root: exchange.within.is_none(),
            stage,
        })
    }

    /// The open transactions, by port.
    pub fn open_txns(&self) -> Result<Vec<OpenTxn>, NoMemory>
        requires { length (state_of self.now).config.gates ≤ MAX_PORTS }
        ensures { IfOk result (λ v. v.items ≡ open_.open_txns (state_of self.now)) }
    {
        let alloc = *self.links.gates.allocator();
        let ports = self.links.gates.len() as u32;
        (0..ports)
            .filter_map(|port| self.open_txn(port))
            .collect(alloc)
    }
}
