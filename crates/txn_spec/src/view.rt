//! What one seat at the gates knows. Views are what contracts see of seats: no value of these types is made.

use quiesce_core::{Event, Known};
use quiesce_word::SlotWord;
use std::collections::LinkedList;
use txn_records::Entry;

/// The word of an idle port that its owner loaded, to call there by it.
pub struct Loaded {
    pub port: u32,
    pub word: u64,
}

/// By what a node loads a port's word.
pub enum LoadKind {
    /// By `begin`, `call` or `see`, at a port of its own.
    Own,
    /// By the exchange of a `begin`, after its load.
    Exchange,
    Take,
    Hear,
}

/// A word that a node loaded.
pub struct LoadStep {
    pub kind: LoadKind,
    pub port: u32,
    pub word: u64,
    /// How many events the node had done then.
    pub done: u32,
}

/// What is known of a node by whoever has its seat.
pub struct NodeView {
    pub slot: u32,
    /// What its slot's word says of it.
    pub made: SlotWord,
    /// What it knows of itself, and what it has seen at its ports.
    pub known: Known,
    /// Its events, in order.
    pub log: LinkedList<Event>,
    /// The words that it loaded, in order.
    pub loads: LinkedList<LoadStep>,
    pub loaded: Option<Loaded>,
}

/// What the change knows: for how many of the nodes that it made, the first ones, the seats were given out; and what
/// it did and saw.
pub struct ChangeView {
    pub seats: u32,
    pub entries: LinkedList<Entry>,
}

/// The seat of a node has one node. The change's has those whose seats it took in.
pub struct View {
    pub nodes: LinkedList<NodeView>,
    pub change: Option<ChangeView>,
}
