//! The seat of the change at the gates.

ghost use Rattle.std.specs.Prelude.{◌≡◌, ◌≤◌, ◌↔◌, IsTrue, length};
ghost use Rattle.quiesce_laws.specs.Steps.{IsNoted};
ghost use Rattle.config_graph.specs.declared.TheConstants.{MAX_PORTS};
ghost use Rattle.txn_records.specs.Entries.{config_of};
ghost use Rattle.txn_records.specs.Notes.{is_noted};
ghost use Rattle.txn_spec.specs.Steps.{IsChange};
ghost use Rattle.txn_spec.specs.Views.{change_of};
ghost use Rattle.quiesce_core.specs.Rules.{is_live_port};
ghost use Rattle.quiesce_core.specs.State.{is_live, target};
ghost use Rattle.txn_gate.specs.TablesOf.{IsTableOf};

use crate::record_tables::RecordTables;
use crate::steps::AnySeat;
use config_graph::{Made, Target};

/// The change's seat: its steps at the gates are the change's events, looks and sights. Contracts see its record of
/// them (`change_in`). Each node that was made got its seat.
#[derive(Drop)]
pub struct ChangeSeat {
    pub tables: RecordTables,
    pub spare: u32,
    pub seat: AnySeat,
    pub ghost is_change: { IsChange seat.me },
    pub ghost tables_are: { IsTableOf tables (change_of seat.me.0).entries },
    pub ghost seats_are: { (change_of seat.me.0).seats ≡ length (config_of (change_of seat.me.0).entries).slots },
    pub ghost ports_within: { length (config_of (change_of seat.me.0).entries).gates ≤ MAX_PORTS },
}

impl ChangeSeat {
    /// How many nodes and ports were made.
    pub fn made(&self) -> Made
        ensures nodes { result.nodes ≡ length (config_of (change_of self.now.seat.me.0).entries).slots }
        ensures ports { result.ports ≡ length (config_of (change_of self.now.seat.me.0).entries).gates }
    {
        self.tables.made()
    }

    /// For how many nodes more there is room.
    pub fn spare(&self) -> u32
        ensures { result ≡ self.now.spare }
    {
        self.spare
    }

    /// Whether the node was made and not removed.
    pub fn is_live(&self, node: u32) -> bool
        ensures { result ≡ is_live (config_of (change_of self.now.seat.me.0).entries) node }
    {
        self.tables.is_live(node)
    }

    /// Whether the port was made and its owner is live.
    pub fn is_live_port(&self, port: u32) -> bool
        ensures { result ≡ is_live_port (config_of (change_of self.now.seat.me.0).entries) port }
    {
        self.tables.is_live_port(port)
    }

    /// To what the port is linked.
    pub fn target(&self, port: u32) -> Option<Target>
        ensures { result ≡ target (config_of (change_of self.now.seat.me.0).entries) port }
    {
        self.tables.target(port)
    }

    /// Whether the port is noted: it was never reopened, be it made or not, or a look found it drained after it was
    /// last closed, and it wasn't reopened since.
    pub fn is_noted(&self, port: u32) -> bool
        ensures { result ≡ is_noted (change_of self.now.seat.me.0).entries port }
    {
        self.tables.is_noted(port)
    }

    /// Whether the node is live, and each port of it and each that reaches it is noted: then it is settled, and stays
    /// so until a port is reopened or linked, or it is removed (`notes_tell_of_the_state` of txn_spec).
    pub fn settled(&self, node: u32) -> bool
        ensures { IsTrue result ↔ IsNoted (is_noted (change_of self.now.seat.me.0).entries)
            (config_of (change_of self.now.seat.me.0).entries) node }
    {
        self.tables.settled(node)
    }
}
