//! The nodes of a system on one thread.

ghost use Rattle.std.specs.Prelude.{◌≡◌, ◌<◌, ◌≤◌, ◌+◌, List, [], Option, None, Some, IfOk, OnErr, OnOk, IsTrue, length, map, option_and_then, option_map, slice_index_or};
ghost use Rattle.std.specs.List.{range_with_len};
ghost use Rattle.change_board.specs.Collecting.{heir_of};
ghost use Rattle.change_board.specs.Steps.{HasRoomToMake, Room, less_one};
ghost use Rattle.component_trait.specs.Moves as moves;
ghost use Rattle.config_graph.specs.declared.TheConstants.{MAX_NODES};
ghost use Rattle.quiesce_word.specs.Words.{FitsWord, unpack};
ghost use Rattle.quiesce_core.specs.Rules as rules;
ghost use Rattle.quiesce_core.specs.Rules.{denial};
ghost use Rattle.quiesce_core.specs.Runs.{done_by};
ghost use Rattle.quiesce_core.specs.State as state;
ghost use Rattle.quiesce_core.specs.State.{State};
ghost use Rattle.quiesce_core.specs.Words.{word_of};
ghost use Rattle.quiesce_core.specs.declared.event.Event.{Event};
ghost use Rattle.quiesce_core.specs.declared.event.Event.TheVariants as event;
ghost use Rattle.quiesce_core.specs.declared.state.Slot.{Slot};
ghost use Rattle.step_board.specs.Going.{GaveTurn, ShowsSome};
ghost use Rattle.node_turn_laws.specs.Reached.{IsReached};
ghost use Rattle.node_turn_laws.specs.Round.{is_done};
ghost use Rattle.node_turn_laws.specs.World.{World, state_of, with_event};

use config_graph::{Made, NoMemory, Node};
use quiesce_core::NodeEvent;
use quiesce_word::Word;
use std::alloc::Global;

/// The nodes of a system on one thread, with the change machine that they share. Contracts see which worlds they are:
/// the machine's state, what each node has come to, the hints in the inboxes and those that wait, and all events so
/// far.
pub trait Nodes {
    /// All is as in this world.
    ghost shows: { Self → World → Type 0 };

    /// The machine's state.
    ghost machine: { Self → State };

    /// For what there is memory.
    ghost room: { Self → Room };

    /// What each node made did, by slot, removed ones among them.
    ghost logs: { Self → List (List Event) };

    /// How many nodes and ports were made.
    fn made(&self) -> Made
        ensures nodes { result.nodes ≡ length (machine self.now).config.slots }
        ensures ports { result.ports ≡ length (machine self.now).config.gates };

    fn is_live(&self, slot: u32) -> bool
        ensures { result ≡ state.is_live (machine self.now).config slot };

    /// Whether the port was made and its owner is live.
    fn is_live_port(&self, port: u32) -> bool
        ensures { result ≡ rules.is_live_port (machine self.now).config port };

    /// The word of a port.
    fn word(&self, port: u32) -> u64
        requires { port < length (machine self.now).config.gates }
        ensures { result ≡ word_of (machine self.now) port };

    /// What that number spells.
    fn fields(&self, port: u32) -> Word
        requires { port < length (machine self.now).config.gates }
        ensures fields { result ≡ unpack (word_of (machine self.now) port) }
        ensures fits { FitsWord result };

    /// The slot of the node whose state this one took over.
    fn source(&self, slot: u32) -> Option<u32>
        requires { slot < length (machine self.now).config.slots }
        ensures { result ≡ option_and_then (λ (m : Slot). m.from) (state.slot (machine self.now).config slot) };

    /// Whether a live node has done what it is made for.
    fn is_done(&self, slot: u32) -> bool
        requires live { IsTrue (state.is_live (machine self.now).config slot) }
        requires some { ShowsSome shows self.now }
        ensures { (w : World) → shows self.now w → result ≡ is_done w slot };

    /// What a node did so far.
    fn log(&self, slot: u32) -> &[NodeEvent]
        requires made { slot < length (machine self.now).config.slots }
        requires some { ShowsSome shows self.now }
        ensures { result.now ≡ slice_index_or (logs self.now) slot [] };

    /// The numbers of a node's state, which no other took over.
    fn numbers(&self, alloc: Global, slot: u32) -> Result<Vec<u64>, NoMemory>
        requires made { slot < length (machine self.now).config.slots }
        requires kept { heir_of (machine self.now).config slot ≡ None }
        requires some { ShowsSome shows self.now }
        ensures { IfOk result (λ xs. (w : World) → shows self.now w
            → option_map moves.numbers (state_of w slot) ≡ Some xs.items) };

    /// Gives a live node a turn, in which it may begin a transaction or not. Tells whether it moved. After want of
    /// memory all is as it was.
    fn turn(&mut self, slot: u32, begins: bool) -> Result<bool, NoMemory>
        requires live { IsTrue (state.is_live (machine self.old).config slot) }
        requires some { ShowsSome shows self.old }
        ensures ok { IfOk result (λ moved. GaveTurn shows self.old self.new begins slot moved) }
        ensures err { OnErr result ((w : World) → shows self.old w → shows self.new w) }
        ensures room { room self.new ≡ room self.old };

    fn close(&mut self, port: u32)
        requires { (w : World) × shows self.old w × (denial w.machine (event.Close port) ≡ None) }
        ensures shows { (w : World) → shows self.old w → shows self.new (with_event w (event.Close port)) }
        ensures room { room self.new ≡ room self.old };

    fn reopen(&mut self, port: u32)
        requires { (w : World) × shows self.old w × (denial w.machine (event.Reopen port) ≡ None) }
        ensures shows { (w : World) → shows self.old w → shows self.new (with_event w (event.Reopen port)) }
        ensures room { room self.new ≡ room self.old };

    fn unlink(&mut self, port: u32)
        requires { (w : World) × shows self.old w × (denial w.machine (event.Unlink port) ≡ None) }
        ensures shows { (w : World) → shows self.old w → shows self.new (with_event w (event.Unlink port)) }
        ensures room { room self.new ≡ room self.old };

    fn link(&mut self, port: u32, node: u32, provide: u32)
        requires { (w : World) × shows self.old w × (denial w.machine (event.Link port node provide) ≡ None) }
        ensures shows { (w : World) → shows self.old w → shows self.new (with_event w (event.Link port node provide)) }
        ensures room { room self.new ≡ room self.old };

    fn remove(&mut self, slot: u32)
        requires { (w : World) × shows self.old w × (denial w.machine (event.Remove slot) ≡ None) }
        ensures shows { (w : World) → shows self.old w → shows self.new (with_event w (event.Remove slot)) }
        ensures room { room self.new ≡ room self.old };

    /// Takes the memory for so many nodes more, each of which may take over the state of one that was made so far.
    /// Where that fails, all is as it was, and some of the memory may stay taken.
    fn reserve(&mut self, nodes: u32) -> Result<(), NoMemory>
        requires few { (w : World) × shows self.old w × (length w.machine.config.slots + nodes ≤ MAX_NODES) }
        ensures nodes { OnOk result (nodes ≤ (room self.new).nodes) }
        ensures sources { OnOk result (length (machine self.old).config.slots ≤ (room self.new).sources) }
        ensures shows { (w : World) → shows self.old w → shows self.new w }
        ensures kept_nodes { (room self.old).nodes ≤ (room self.new).nodes }
        ensures kept_sources { (room self.old).sources ≤ (room self.new).sources };

    /// Makes a node in the next slot, which takes over the state of the one in slot `from` where there is one. It takes
    /// no memory.
    fn make(&mut self, node: Node, from: Option<u32>)
        requires may { (w : World) × shows self.old w
            × (denial w.machine (event.Make (length w.machine.config.slots) node from) ≡ None) }
        requires room { HasRoomToMake (room self.old) from }
        ensures shows { (w : World) → shows self.old w
            → shows self.new (with_event w (event.Make (length w.machine.config.slots) node from)) }
        ensures room { room self.new ≡ less_one (room self.old) };

    /// A world that they show is reached by allowed events of the change and turns of nodes.
    ghost are_reached: { (b : Self) (w : World) → shows b w → IsReached w };

    /// Its machine's state is the one that they have.
    ghost machine_is: { (b : Self) (w : World) → shows b w → w.machine ≡ machine b };

    /// What each node did is what it does in the world's events.
    ghost logs_are: { (b : Self) (w : World) → shows b w
        → logs b ≡ map (λ n. done_by n w.events) (range_with_len 0 (length w.machine.config.slots)) };
}
