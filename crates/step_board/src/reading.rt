//! What a table tells of its nodes and ports.

ghost use Rattle.std.specs.Prelude.{◌≡◌, ◌<◌, ◌↔◌, ℕ, [], Some, None, length, IfSome, option_and_then, slice_index_or};
ghost use Rattle.quiesce_word.specs.Words.{FitsWord, unpack};
ghost use Rattle.quiesce_core.specs.Rules as rules;
ghost use Rattle.quiesce_core.specs.Runs.{done_by};
ghost use Rattle.quiesce_core.specs.State as state;
ghost use Rattle.quiesce_core.specs.Words.{word_of};
ghost use Rattle.quiesce_core.specs.declared.state.Slot.{Slot};
ghost use Rattle.node_turn_laws.specs.World.{World, state_of};
ghost use Rattle.step_board.specs.Entries.{gone, log_in};
ghost use Rattle.step_board.specs.Holding.{HasLog};
ghost use Rattle.step_board.specs.Seen.{component_state};
ghost use Rattle.step_board.specs.Table.{Shows, entries_of, logs_of, machine};

use crate::handed::Handed;
use crate::held::Held;
use crate::table::NodeTable;
use config_graph::Made;
use quiesce_core::NodeEvent;
use quiesce_word::Word;
use state_handover::AnyNode;

impl NodeTable {
    /// How many nodes and ports were made.
    pub fn made(&self) -> Made
        ensures nodes { result.nodes ≡ length (machine self.now).config.slots }
        ensures ports { result.ports ≡ length (machine self.now).config.gates }
    {
        self.gate.core.made()
    }

    /// Whether a node was made in this slot and not removed.
    pub fn is_live(&self, slot: u32) -> bool
        ensures { result ≡ state.is_live (machine self.now).config slot }
    {
        self.gate.core.is_live(slot)
    }

    /// Whether the port was made and its owner is live.
    pub fn is_live_port(&self, port: u32) -> bool
        ensures { result ≡ rules.is_live_port (machine self.now).config port }
    {
        port < self.made().ports && self.is_live(self.gate.core.gate(port).owner)
    }

    /// What gates keep of the port, in one number.
    pub fn word(&self, port: u32) -> u64
        requires made { port < length (machine self.now).config.gates }
        ensures { result ≡ word_of (machine self.now) port }
    {
        self.gate.core.word(port)
    }

    /// What that number spells.
    #[inline(always)]
    pub fn fields(&self, port: u32) -> Word
        ensures fields { result ≡ unpack (word_of (machine self.now) port) }
        ensures fits { FitsWord result }
    {
        // it tells that the state is well formed, so that its words spell it
        let _ = self.gate.core.made();
        self.gate.fields(port)
    }

    /// The slot of the node whose state the one in this slot took over.
    pub fn source(&self, slot: u32) -> Option<u32>
        ensures { result ≡ option_and_then (λ (m : Slot). m.from) (state.slot (machine self.now).config slot) }
    {
        match self.gate.core.slot(slot) {
            Some(made) => made.from,
            None => None,
        }
    }

    /// The log of a node that was handed over.
    fn past_log(&self, handed: Handed) -> &[NodeEvent]
        requires there { ∥ HasLog (entries_of self.now) self.now.line_ends.items handed ∥₁ }
        ensures { result.now ≡ log_in (entries_of self.now) self.now.line_ends.items (gone handed) }
    {
        let end = self.line_ends[handed.line as usize];
        match &self.nodes[end as usize] {
            Held::Node(node) => &node.past[handed.place].log,
            Held::Handed(_) => unreachable!(),
        }
    }

    /// All that the node in a slot did, whether it is live, was removed or handed its state over.
    pub fn log(&self, slot: u32) -> &[NodeEvent]
        requires made { slot < length (machine self.now).config.slots }
        requires some { ∥ ((w : World) × Shows self.now w) ∥₁ }
        ensures log { (w : World) → Shows self.now w
            → result.now ≡ done_by slot w.events }
        ensures by_slot { result.now ≡ slice_index_or (logs_of self.now) slot [] }
    {
        match &self.nodes[slot as usize] {
            Held::Node(node) => &node.log,
            Held::Handed(handed) => self.past_log(*handed),
        }
    }

    /// The component in a slot, in the state to which all that its node did has led it; none where another took its
    /// state over.
    pub fn component(&self, slot: u32) -> Option<&AnyNode>
        requires made { slot < length (machine self.now).config.slots }
        requires some { ∥ ((w : World) × Shows self.now w) ∥₁ }
        ensures state { (w : World) → Shows self.now w
            → IfSome result (λ node. state_of w slot ≡ Some (component_state node.now)) }
        ensures handed { (result ≡ None) ↔ ∥ ((n : ℕ) × (m : Slot) × (state.slot (machine self.now).config n ≡ Some m)
            × (m.from ≡ Some slot)) ∥₁ }
    {
        match &self.nodes[slot as usize] {
            Held::Node(node) => Some(&node.inner),
            Held::Handed(_) => None,
        }
    }
}
