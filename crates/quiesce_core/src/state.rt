//! What a state is made of: of each slot the node made there and what it services, of each port its gate and its
//! exchange.

use config_graph::{Node, Target};
pub use quiesce_word::Phase;

/// A node that was made, in its slot.
#[derive(Drop)]
pub struct Slot {
    pub node: Node,
    /// Its first port. Its ports are numbered in a row, in the order of its requirements.
    pub first_port: u32,
    /// The slot of the removed node whose state it took over.
    pub from: Option<u32>,
    /// Whether it hasn't been removed.
    pub live: bool,
}

/// What the change decides of a port: whose requirement it is, whether it is closed, and to what it is linked.
#[derive(Clone, Copy)]
pub struct Gate {
    pub owner: u32,
    pub require: u32,
    pub closed: bool,
    pub target: Option<Target>,
}

/// What the nodes do at a port: its last transaction, with the value of the last message.
#[derive(Clone, Copy)]
pub struct Exchange {
    pub phase: Phase,
    pub serial: u32,
    pub value: u32,
    /// Where the transaction is consequent, the port whose service it belongs to.
    pub within: Option<u32>,
}

/// The service that a node is in.
#[derive(Clone, Copy)]
pub struct Service {
    /// The port whose transaction it serves.
    pub port: u32,
    /// How many calls, missed ones among them, and how many intermediate replies it made.
    pub calls: u32,
    pub mores: u32,
    /// Whether the last message of the transaction was heard.
    pub heard: bool,
}

/// How far an open transaction has come.
#[derive(Clone, Copy)]
pub enum Stage {
    /// Its request isn't taken up.
    Waiting,
    /// Its target serves it, intermediate replies and further messages among it.
    Taken,
    /// Its answer is there.
    Answered,
}

/// A transaction that hasn't ended.
#[derive(Clone, Copy)]
pub struct OpenTxn {
    pub port: u32,
    pub serial: u32,
    /// Whether it was begun and not called.
    pub root: bool,
    pub stage: Stage,
}
