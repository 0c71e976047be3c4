//! Tables of a record: how the change knows what its record tells.

ghost use Rattle.std.specs.Prelude.{◌≡◌, ◌-◌, ◌<◌, ◌≤◌, ◌↔◌, ◌++◌, ◌∷◌, ◌||◌, not, ℕ, [], Some, List, IfOk, IsTrue, length};
ghost use Rattle.std.specs.List.{list_all, range_with_len};
ghost use Rattle.quiesce_laws.specs.Steps.{IsNoted};
ghost use Rattle.config_graph.specs.declared.TheConstants.{MAX_NODES, MAX_PORTS};
ghost use Rattle.txn_records.specs.Entries.{config_of};
ghost use Rattle.txn_records.specs.Notes.{is_noted};
ghost use Rattle.txn_records.specs.Records.{May};
ghost use Rattle.txn_records.specs.declared.entry.Entry.{Entry};
ghost use Rattle.txn_records.specs.declared.entry.Entry.TheVariants.{Did, Looked};
ghost use Rattle.quiesce_word.specs.Words.{FitsTarget};
ghost use Rattle.quiesce_core.specs.Links.{config_in};
ghost use Rattle.quiesce_core.specs.Reach.{reaches};
ghost use Rattle.quiesce_core.specs.Rules.{is_live_port};
ghost use Rattle.quiesce_core.specs.State.{is_live, target};
ghost use Rattle.quiesce_core.specs.WellFormed.{IsSound};
ghost use Rattle.quiesce_core.specs.declared.event.Event.TheVariants as event;
ghost use Rattle.txn_gate.specs.PortNotes.{noted_in};
ghost use Rattle.txn_gate.specs.Tabled.{are_all_noted, bare_node};
ghost use Rattle.txn_gate.specs.TablesOf.{IsTableOf};

use crate::port_notes::{PortNote, fresh_notes, note_at};
use config_graph::{Kind, MAX_PORTS, Made, NoMemory, Node, Target, Text};
use quiesce_core::Links;
use quiesce_word::Word;
use std::alloc::Global;
use std::marker::Model;
use std::ops::Range;

/// The nodes and ports that a record makes, where its ports lead, and which it notes as drained. Contracts see a
/// configuration and notes, and of which records they are (`IsTableOf`).
#[derive(Drop)]
pub struct RecordTables {
    links: Links,
    notes: Vec<PortNote>,
}

impl Model for RecordTables {
    ghost use Rattle.txn_gate.specs.TablesInside.{AreKept, tabled};
    ghost use Rattle.txn_gate.specs.Tabled.{Tabled};

    ghost Value = { Tabled };

    ghost view = { tabled };

    ghost invariant = { AreKept };
}

impl RecordTables {
    /// Nothing is made. All memory that the tables ever need is taken here.
    pub fn new(alloc: Global) -> Result<RecordTables, NoMemory>
        ensures { IfOk result (λ t. IsTableOf t []) }
    {
        let links = Links::with_room(alloc)?;
        let notes = fresh_notes(alloc, MAX_PORTS)?;
        Ok(RecordTables { links, notes })
    }

    /// How many nodes and ports were made.
    pub fn made(&self) -> Made
        ensures made { (r : List Entry) → IsTableOf self.now r
            → (result.nodes ≡ length (config_of r).slots) × (result.ports ≡ length (config_of r).gates) }
        ensures few { (result.nodes ≤ MAX_NODES) × (result.ports ≤ MAX_PORTS) }
    {
        Made {
            nodes: self.links.slots.len() as u32,
            ports: self.links.gates.len() as u32,
        }
    }

    pub fn is_live(&self, node: u32) -> bool
        ensures { (r : List Entry) → IsTableOf self.now r → result ≡ is_live (config_of r) node }
    {
        self.links.is_live(node)
    }

    /// Whether a port was made whose owner is live.
    pub fn is_live_port(&self, port: u32) -> bool
        ensures { (r : List Entry) → IsTableOf self.now r → result ≡ is_live_port (config_of r) port }
    {
        self.links.is_live_port(port)
    }

    /// To what the port is linked.
    pub fn target(&self, port: u32) -> Option<Target>
        ensures { (r : List Entry) → IsTableOf self.now r → result ≡ target (config_of r) port }
    {
        self.links.gate(port).target
    }

    /// Whether the port is noted as drained.
    pub fn is_noted(&self, port: u32) -> bool
        ensures { (r : List Entry) → IsTableOf self.now r → result ≡ is_noted r port }
    {
        note_at(self.notes.as_slice(), port).is_noted()
    }

    /// Whether the node is live, and all its ports and all that reach it are noted. Time grows with the ports that
    /// were made.
    pub fn settled(&self, node: u32) -> bool
        ensures { (r : List Entry) → IsTableOf self.now r → IsTrue result ↔ IsNoted (is_noted r) (config_of r) node }
    {
        are_all_noted(&self.links, self.notes.as_slice(), node)
    }

    /// The record has that a node is made.
    pub fn make(&mut self, node: &Node, from: Option<u32>)
        requires { (r : List Entry) × (n : ℕ) × IsTableOf self.old r × May r (event.Make n node.now from) }
        ensures { (r : List Entry) (n : ℕ) → IsTableOf self.old r
            → IsTableOf self.new (r ++ Did (event.Make n node.now from) ∷ []) }
    {
        let alloc = *self.links.slots.allocator();
        self.links.add(bare(alloc, node.kind), None);
    }

    /// The record has that a port is closed.
    pub fn close(&mut self, port: u32)
        requires { (r : List Entry) × IsTableOf self.old r × May r (event.Close port) }
        ensures { (r : List Entry) → IsTableOf self.old r → IsTableOf self.new (r ++ Did (event.Close port) ∷ []) }
    {
        self.links.set_closed(port, true);
        let note = note_at(self.notes.as_slice(), port);
        self.notes[port as usize] = note.closed();
    }

    /// The record has that a port is reopened.
    pub fn reopen(&mut self, port: u32)
        requires { (r : List Entry) × IsTableOf self.old r × May r (event.Reopen port) }
        ensures { (r : List Entry) → IsTableOf self.old r → IsTableOf self.new (r ++ Did (event.Reopen port) ∷ []) }
    {
        self.links.set_closed(port, false);
        let note = note_at(self.notes.as_slice(), port);
        self.notes[port as usize] = note.reopened();
    }

    /// The record has a look at a port, which loaded this word.
    pub fn look(&mut self, port: u32, word: u64)
        requires { port < MAX_PORTS }
        ensures { (r : List Entry) → IsTableOf self.old r → IsTableOf self.new (r ++ Looked port word ∷ []) }
    {
        let note = note_at(self.notes.as_slice(), port);
        self.notes[port as usize] = note.looked(Word::of(word).is_drained());
    }

    /// The record has that a port is linked.
    pub fn link(&mut self, port: u32, to: Target)
        requires { (r : List Entry) × IsTableOf self.old r × May r (event.Link port to.node to.provide) }
        ensures fits { FitsTarget to }
        ensures tables { (r : List Entry) → IsTableOf self.old r
            → IsTableOf self.new (r ++ Did (event.Link port to.node to.provide) ∷ []) }
    {
        self.links.set_target(port, Some(to));
    }

    /// The record has that a port is unlinked. Returns to what it was linked.
    pub fn unlink(&mut self, port: u32) -> Target
        requires { (r : List Entry) × IsTableOf self.old r × May r (event.Unlink port) }
        ensures was { (r : List Entry) → IsTableOf self.old r → target (config_of r) port ≡ Some result }
        ensures fits { FitsTarget result }
        ensures tables { (r : List Entry) → IsTableOf self.old r
            → IsTableOf self.new (r ++ Did (event.Unlink port) ∷ []) }
    {
        let was = self.links.gate(port).target;
        self.links.set_target(port, None);
        let Some(was) = was else { unreachable!() };
        was
    }

    /// The record has that a node is removed.
    pub fn remove(&mut self, node: u32)
        requires { (r : List Entry) × IsTableOf self.old r × May r (event.Remove node) }
        ensures { (r : List Entry) → IsTableOf self.old r → IsTableOf self.new (r ++ Did (event.Remove node) ∷ []) }
    {
        self.links.remove(node);
    }
}

/// A node of which nothing but the kind is kept. It takes no memory.
fn bare(alloc: Global, kind: Kind) -> Node
    ensures { result ≡ bare_node kind }
{
    Node {
        path: Text::of(Vec::new(alloc)),
        kind,
        arg: None,
    }
}

fn are_noted(notes: &[PortNote], ports: &Range<u32>) -> bool
    ensures { result ≡ list_all (noted_in notes.now)
        (range_with_len ports.now.start (ports.now.end - ports.now.start)) }
{
    (ports.start..ports.end).all(|port| note_at(notes, port).is_noted())
}

/// Whether each port that reaches the node is noted.
fn reaching_are_noted(links: &Links, notes: &[PortNote], node: u32) -> bool
    requires { IsSound (config_in links.now) }
    ensures { result ≡ list_all (λ p. noted_in notes.now p || not (reaches (config_in links.now) node p))
        (range_with_len 0 (length (config_in links.now).gates)) }
{
    links.all_reaching(node, |port| note_at(notes, port).is_noted())
}

/// Whether the node is live, and all its ports and all that reach it are noted.
fn are_all_noted(links: &Links, notes: &[PortNote], node: u32) -> bool
    requires { IsSound (config_in links.now) }
    ensures { result ≡ are_all_noted (noted_in notes.now) (config_in links.now) node }
{
    links.is_live(node)
        && are_noted(notes, &links.ports_of(node))
        && reaching_are_noted(links, notes, node)
}
