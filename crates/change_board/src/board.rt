//! What a change acts on.

ghost use Rattle.std.specs.Prelude.{◌≡◌, ◌<◌, Bool, List, [], ◌∷◌, length, Option, IfOk, OnErr, OnOk, ◌≤◌, ◌+◌};
ghost use Rattle.config_graph.specs.declared.TheConstants.{MAX_NODES};
ghost use Rattle.quiesce_core.specs.declared.event.Event.{Event};
ghost use Rattle.quiesce_core.specs.declared.event.Event.TheVariants as event;
ghost use Rattle.change_board.specs.Collecting.{Collects};
ghost use Rattle.txn_records.specs.Entries.{config_of};
ghost use Rattle.txn_records.specs.declared.entry.Entry.{Entry};
ghost use Rattle.txn_records.specs.declared.entry.Entry.TheVariants.{Did};
ghost use Rattle.change_board.specs.Looking.{AddsLook};
ghost use Rattle.change_board.specs.Making.{Makes};
ghost use Rattle.txn_records.specs.Records.{Adds, AreAllNoted, IsRecord, IsRecordCut, May};
ghost use Rattle.change_board.specs.Scans.{AddsScan};
ghost use Rattle.change_board.specs.Steps.{HasRoomToMake, Room, less_one};

use config_graph::{List, NoMemory, Node};
use report_types::NodeLog;
use txn_records::Look;

/// What a scan found.
#[derive(Clone, Copy)]
pub struct Scan {
    /// Whether a turn that it gave moved.
    pub moved: bool,
    /// Whether it saw each live node done and each live port idle. Where nodes take turns elsewhere too, it says so only
    /// where the scan before it saw the same.
    pub done: bool,
    /// How many transactions had ended, by its looks at the ports.
    pub ended: u64,
}

/// What is left of the nodes of a board.
#[derive(Drop)]
pub struct Collected {
    /// What each node did, by its slot.
    pub logs: List<NodeLog>,
    /// The first slot whose node is live and isn't done.
    pub undone: Option<u32>,
}

/// What a change acts on: the gates and nodes of a system that runs. Contracts see for which records a board stands,
/// lists of what the change did and saw on it, in order. The conditions of its calls speak of records alone. Nodes
/// may go on while a change acts, and do so at least in scans.
pub trait Board {
    /// The board stands for this record.
    ghost stands_for: { Self → List Entry → Type 0 };

    /// For what it has memory.
    ghost room: { Self → Room };

    /// What each node did, by slot, once the board took it in.
    ghost taken: { Self → List (List Event) };

    /// A call broke off, for want of memory, on a board that stood for this record.
    ghost broke_off: { Self → List Entry → Type 0 };

    /// Nodes take turns in scans of this board and nowhere else.
    ghost alone: { Bool };

    /// Whether nodes take turns in scans of this board alone. Where it is true, a run and a finish end with a scan that
    /// moved nothing.
    fn is_alone(&self) -> bool
        ensures { result ≡ alone };

    /// Lets no node begin a transaction at the port any more.
    fn close(&mut self, port: u32)
        requires may { (r : List Entry) × stands_for self.old r × May r (event.Close port) }
        ensures board { Adds stands_for self.old self.new (Did (event.Close port) ∷ []) }
        ensures room { room self.new ≡ room self.old };

    fn reopen(&mut self, port: u32)
        requires may { (r : List Entry) × stands_for self.old r × May r (event.Reopen port) }
        ensures board { Adds stands_for self.old self.new (Did (event.Reopen port) ∷ []) }
        ensures room { room self.new ≡ room self.old };

    /// Looks at the port's word.
    fn look(&mut self, port: u32) -> Look
        requires made { (r : List Entry) × stands_for self.old r × (port < length (config_of r).gates) }
        ensures board { AddsLook stands_for self.old self.new port result }
        ensures room { room self.new ≡ room self.old };

    fn unlink(&mut self, port: u32)
        requires may { (r : List Entry) × stands_for self.old r × May r (event.Unlink port) }
        ensures board { Adds stands_for self.old self.new (Did (event.Unlink port) ∷ []) }
        ensures room { room self.new ≡ room self.old };

    fn link(&mut self, port: u32, node: u32, provide: u32)
        requires may { (r : List Entry) × stands_for self.old r × May r (event.Link port node provide) }
        ensures board { Adds stands_for self.old self.new (Did (event.Link port node provide) ∷ []) }
        ensures room { room self.new ≡ room self.old };

    fn remove(&mut self, slot: u32)
        requires may { (r : List Entry) × stands_for self.old r × May r (event.Remove slot) }
        ensures board { Adds stands_for self.old self.new (Did (event.Remove slot) ∷ []) }
        ensures room { room self.new ≡ room self.old };

    /// Takes the memory for so many nodes more, each of which may take over the state of one that was made so far.
    /// Where that fails, the board stands for the same records, and some of the memory may stay taken.
    fn reserve(&mut self, nodes: u32) -> Result<(), NoMemory>
        requires few { (r : List Entry) × stands_for self.old r × (length (config_of r).slots + nodes ≤ MAX_NODES) }
        ensures nodes { OnOk result (nodes ≤ (room self.new).nodes) }
        ensures sources { OnOk result
            ((r : List Entry) → stands_for self.old r → length (config_of r).slots ≤ (room self.new).sources) }
        ensures board { Adds stands_for self.old self.new [] }
        ensures kept_nodes { (room self.old).nodes ≤ (room self.new).nodes }
        ensures kept_sources { (room self.old).sources ≤ (room self.new).sources };

    /// Makes a node in the next slot, which takes over the state of the one in slot `from` where there is one. It takes
    /// no memory. A board may look at the nodes that it hands over, and sights of them are among the entries then.
    fn make(&mut self, node: Node, from: Option<u32>)
        requires may { (r : List Entry) × stands_for self.old r
            × May r (event.Make (length (config_of r).slots) node from) }
        requires room { HasRoomToMake (room self.old) from }
        ensures board { Makes stands_for self.old self.new node from }
        ensures room { room self.new ≡ less_one (room self.old) };

    /// Gives the live nodes that it gets a turn each, in the order of their slots, in which they may begin transactions
    /// or not. Then it looks at all nodes that it gets, and sights those that are done, with those whose state they
    /// took over, or all where nodes take turns in its scans alone; and it looks once at each port made.
    fn scan(&mut self, begins: bool) -> Result<Scan, NoMemory>
        ensures ok { IfOk result (AddsScan stands_for alone self.old self.new begins) }
        ensures room { OnOk result (room self.new ≡ room self.old) }
        ensures err { OnErr result ((r : List Entry) → stands_for self.old r → broke_off self.new r) };

    /// Takes in all nodes, and gives copies of their logs.
    fn collect(&mut self) -> Result<Collected, NoMemory>
        requires drained { (r : List Entry) × stands_for self.old r × AreAllNoted r }
        ensures ok { IfOk result (Collects stands_for self.old self.new (taken self.new)) }
        ensures err { OnErr result ((r : List Entry) → stands_for self.old r → broke_off self.new r) };

    /// A record for which a board stands is that of a run.
    ghost is_of_run: { (b : Self) (r : List Entry) → stands_for b r → IsRecord r };

    /// All records for which a board stands tell one configuration.
    ghost one_configuration: { (b : Self) (r q : List Entry) → stands_for b r → stands_for b q
        → config_of r ≡ config_of q };

    /// What was done until a call broke off is a run: that of the record, and behind it events of nodes.
    ghost is_of_run_cut: { (b : Self) (r : List Entry) → broke_off b r → IsRecordCut r };
}
