//! The board that stands on nodes of one thread.

ghost use Rattle.std.specs.Prelude.{true, List, []};
ghost use Rattle.txn_records.specs.declared.entry.Entry.{Entry};
ghost use Rattle.step_board.specs.Going.{ShowsSome};
ghost use Rattle.step_board.specs.Standing.{AreOfRounds, AreParts, StandsBehindRounds, StandsFor};
ghost use Rattle.step_board.specs.Agreeing as agreeing;
ghost use Rattle.node_turn_laws.specs.World.{nowhere};

use crate::collecting::collect_logs;
use crate::nodes::Nodes;
use crate::scanning::{first_undone, give_turns, look_at_ports, rests};
use change_board::{Board, Collected, Scan};
use change_round_laws::states_are_folds_of_own_events;
use config_graph::{List, NoMemory, Node};
use std::alloc::Global;
use txn_records::Look;

/// A board that stands on nodes of one thread, and gets every one of them: in a scan each live node has one turn, in
/// the order of slots. It stands for a record where playing the record by such rounds leads to what the nodes are.
#[derive(Drop)]
pub struct StepBoard<N: Nodes + Drop> {
    alloc: Global,
    nodes: N,
    ghost some: { ShowsSome N.shows nodes },
}

impl<N: Nodes + Drop> StepBoard<N> {
    /// The board on nodes of which none was made.
    pub fn of(alloc: Global, nodes: N) -> StepBoard<N>
        requires { N.shows nodes nowhere }
        ensures { ⟦<StepBoard<N> as Board>⟧.stands_for result [] }
    {
        StepBoard { alloc, nodes }
    }

    /// Lets the board go. A record for which it stands, and the logs that it keeps, are parts of one run, in which
    /// nodes took turns in whole rounds alone, at the marks of scans.
    pub fn close_down(self)
        ensures merge { (r : List Entry) → ⟦<StepBoard<N> as Board>⟧.stands_for self r
            → AreParts r (⟦<StepBoard<N> as Board>⟧.taken self) }
        ensures rounds { (r : List Entry) → ⟦<StepBoard<N> as Board>⟧.stands_for self r
            → AreOfRounds r (⟦<StepBoard<N> as Board>⟧.taken self) }
    {
        let _ = self.alloc;
    }
}

impl<N: Nodes + Drop> Board for StepBoard<N> {
    ghost stands_for = { λ b r. StandsFor N.shows b.nodes r };

    ghost room = { λ b. N.room b.nodes };

    ghost taken = { λ b. N.logs b.nodes };

    ghost broke_off = { λ b r. StandsBehindRounds N.shows b.nodes r };

    ghost alone = { true };

    fn is_alone(&self) -> bool {
        true
    }

    fn close(&mut self, port: u32) {
        self.nodes.close(port);
    }

    fn reopen(&mut self, port: u32) {
        self.nodes.reopen(port);
    }

    fn look(&mut self, port: u32) -> Look {
        Look::of(self.nodes.word(port))
    }

    fn unlink(&mut self, port: u32) {
        self.nodes.unlink(port);
    }

    fn link(&mut self, port: u32, node: u32, provide: u32) {
        self.nodes.link(port, node, provide);
    }

    fn remove(&mut self, slot: u32) {
        self.nodes.remove(slot);
    }

    fn reserve(&mut self, nodes: u32) -> Result<(), NoMemory> {
        self.nodes.reserve(nodes)
    }

    fn make(&mut self, node: Node, from: Option<u32>) {
        self.nodes.make(node, from);
    }

    fn scan(&mut self, begins: bool) -> Result<Scan, NoMemory> {
        let moved = give_turns(&mut self.nodes, begins)?;
        let ports = look_at_ports(&self.nodes);
        let done = rests(&self.nodes, ports.idle);
        states_are_folds_of_own_events();
        Ok(Scan {
            moved,
            done,
            ended: ports.ended,
        })
    }

    fn collect(&mut self) -> Result<Collected, NoMemory> {
        let logs = collect_logs(self.alloc, &self.nodes)?;
        let undone = first_undone(&self.nodes);
        states_are_folds_of_own_events();
        Ok(Collected {
            logs: List::of(logs),
            undone,
        })
    }

    ghost is_of_run = { λ b r h. agreeing.is_of_run N.shows b.nodes r h };

    ghost one_configuration = { λ b r q h k. agreeing.one_configuration N.shows N.machine N.machine_is b.nodes
        r q h k };

    ghost is_of_run_cut = { λ b r h. agreeing.is_of_run_cut N.shows b.nodes r h };
}
