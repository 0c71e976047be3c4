//! A table of nodes on a board.

ghost use Rattle.std.specs.Prelude.{◌≡◌, IfOk, [], is_some};
ghost use Rattle.component_trait.specs.Moves as moves;
ghost use Rattle.step_board.specs.Table as table;
ghost use Rattle.step_board.specs.TableFacts as facts;

use crate::NodeTable;
use crate::nodes::Nodes;
use crate::standing::StepBoard;
use change_board::Board;
use component_trait::Component;
use config_graph::{Made, NoMemory, Node};
use node_host::Turn;
use port_queue::{Hints, PlainHints};
use quiesce_core::NodeEvent;
use quiesce_word::Word;
use state_handover::AnyNode;
use std::alloc::Global;

/// The numbers of a component's state.
fn numbers_of<C: Component>(alloc: Global, node: &C) -> Result<Vec<u64>, NoMemory>
    ensures { IfOk result (λ numbers. numbers.items ≡ moves.numbers (C.state node.now)) }
{
    let count = node.state_len();
    let mut numbers = Vec::with_capacity(alloc, count)?;
    for index in 0..count {
        numbers.push(node.state_word(index))?;
    }
    Ok(numbers)
}

/// Whether a turn moved.
fn has_moved(turn: &Turn) -> bool
    ensures { result ≡ is_some (facts.event_in turn.now) }
{
    matches!(turn, Turn::Moved(_))
}

impl Nodes for NodeTable {
    ghost shows = { λ t w. table.ShowsWorld ⟦<AnyNode as Component>⟧.state ⟦<PlainHints as Hints>⟧.tells t w };

    ghost machine = { table.machine };

    ghost room = { λ t. record { nodes = table.spare t; sources = table.sources t } };

    ghost logs = { λ t. table.logs ⟦<AnyNode as Component>⟧.state t };

    fn made(&self) -> Made {
        self.made()
    }

    fn is_live(&self, slot: u32) -> bool {
        self.is_live(slot)
    }

    fn is_live_port(&self, port: u32) -> bool {
        self.is_live_port(port)
    }

    fn word(&self, port: u32) -> u64 {
        self.word(port)
    }

    #[inline(always)]
    fn fields(&self, port: u32) -> Word {
        self.fields(port)
    }

    fn source(&self, slot: u32) -> Option<u32> {
        self.source(slot)
    }

    fn is_done(&self, slot: u32) -> bool {
        match self.component(slot) {
            Some(node) => node.done(),
            None => unreachable!(),
        }
    }

    fn log(&self, slot: u32) -> &[NodeEvent] {
        self.log(slot)
    }

    fn numbers(&self, alloc: Global, slot: u32) -> Result<Vec<u64>, NoMemory> {
        match self.component(slot) {
            Some(node) => numbers_of(alloc, node),
            None => unreachable!(),
        }
    }

    fn turn(&mut self, slot: u32, begins: bool) -> Result<bool, NoMemory> {
        let turn = self.turn(slot, begins)?;
        Ok(has_moved(&turn))
    }

    fn close(&mut self, port: u32) {
        self.close(port);
    }

    fn reopen(&mut self, port: u32) {
        self.reopen(port);
    }

    fn unlink(&mut self, port: u32) {
        self.unlink(port);
    }

    fn link(&mut self, port: u32, node: u32, provide: u32) {
        self.link(port, node, provide);
    }

    fn remove(&mut self, slot: u32) {
        self.remove(slot);
    }

    fn reserve(&mut self, nodes: u32) -> Result<(), NoMemory> {
        self.reserve(nodes)
    }

    fn make(&mut self, node: Node, from: Option<u32>) {
        self.make(node, from);
    }

    ghost are_reached = { λ t w h. facts.is_reached ⟦<AnyNode as Component>⟧.state ⟦<PlainHints as Hints>⟧.tells
        t w h };

    ghost machine_is = { λ t w h. facts.machine_is ⟦<AnyNode as Component>⟧.state ⟦<PlainHints as Hints>⟧.tells t w h };

    ghost logs_are = { λ t w h. facts.logs_are ⟦<AnyNode as Component>⟧.state ⟦<PlainHints as Hints>⟧.tells t w h };
}

impl StepBoard<NodeTable> {
    /// The board on which nothing is made.
    pub fn new(alloc: Global) -> Result<StepBoard<NodeTable>, NoMemory>
        ensures { IfOk result (λ b. ⟦<StepBoard<NodeTable> as Board>⟧.stands_for b []) }
    {
        let nodes = NodeTable::new(alloc)?;
        Ok(StepBoard::of(alloc, nodes))
    }
}
