//! What a run leaves behind: the history of its changes, the log of each node, and how it ended.

use config_graph::{Graph, List, Node, Text};
use quiesce_core::NodeEvent;

/// A report of a run, as its text says it.
#[derive(Drop)]
pub struct Report {
    /// What the change did, in order.
    pub history: List<HistoryLine>,
    /// What each node did, by its slot.
    pub logs: List<NodeLog>,
    /// The first slot whose node isn't done, where the script has a `finish`.
    pub unfinished: Option<u32>,
    /// The exit status of the run.
    pub status: u8,
}

/// A line of the history. Ports and slots are numbered from 0, in the order in which they were made.
#[derive(Drop)]
pub enum HistoryLine {
    /// A start begins: the component and its arguments.
    Start {
        name: Text,
        args: List<i32>,
    },
    /// A change begins: the component and its arguments.
    Change {
        name: Text,
        args: List<i32>,
    },
    /// A node comes to be, and takes over the state of the node in slot `from` where there is one.
    Make {
        slot: u32,
        node: Node,
        from: Option<u32>,
    },
    Link {
        port: u32,
        node: u32,
        provide: u32,
    },
    Unlink {
        port: u32,
    },
    Remove {
        node: u32,
    },
    Close {
        port: u32,
    },
    Reopen {
        port: u32,
    },
    /// A look found the port closed, and no transaction there that its owner began by itself. Its last serial is
    /// this; a call of a service may be under way.
    Drained {
        port: u32,
        serial: u32,
    },
    Commit,
    Abandon,
    /// A change wasn't tried, since one before it was abandoned.
    Skipped,
    /// After so many rounds a port still wasn't drained.
    Pending {
        rounds: u32,
    },
    /// A root that the last look before `Abandon` saw: the port's open transaction of this serial.
    Root {
        port: u32,
        serial: u32,
    },
    /// A `run` of `k` transactions ended so many.
    Run {
        k: u32,
        ended: u64,
    },
    /// A finish of at most `n` rounds took so many.
    Finish {
        n: u32,
        rounds: u32,
    },
    /// The graph of the nodes and links at this place.
    Show {
        graph: Graph,
    },
    /// The stop begins.
    Stop,
}

/// What the node in a slot did, in order, and what is left of it.
#[derive(Drop)]
pub struct NodeLog {
    pub slot: u32,
    pub events: List<NodeEvent>,
    pub last: Last,
}

/// The end of a node's log.
#[derive(Drop)]
pub enum Last {
    /// The numbers of its last state.
    State(List<u64>),
    /// Its state was handed over to the node in this slot.
    Moved(u32),
}
