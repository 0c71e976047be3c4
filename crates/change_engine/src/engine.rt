//! A system on a board, between its start and its stop.

ghost use Rattle.std.specs.Prelude.{◌≡◌, ◌≤◌, [], length, List, IfErr, IfOk, OnErr};
ghost use Rattle.change_plan.specs.declared.plan_data.Move.{Move};
ghost use Rattle.config_graph.specs.Graph.{Graph, ports};
ghost use Rattle.config_graph.specs.Sound.{Sound};
ghost use Rattle.config_graph.specs.declared.TheConstants.{MAX_NODES, MAX_PORTS};
ghost use Rattle.txn_records.specs.Entries.{config_of};
ghost use Rattle.change_board.specs.Transcripts.{Item, entries};
ghost use Rattle.change_engine.specs.Calls.{Continues, HasAbandoned, HasBrokenOff, HasCommitted, HasFinished, HasLeft, HasPassivated, HasPrepared, HasRun, HasRunUntold, HasShown, HasSkipped, HasStarted, HasStopped};
ghost use Rattle.change_engine.specs.Draining.{WhereNoMemory, WherePending};
ghost use Rattle.change_engine.specs.Engines.{IsIdle, IsPlanned, IsPrepared, IsReadyToCommit, MayAbandon};
ghost use Rattle.change_engine.specs.Growing.{BrokeOff};

use crate::carrying::do_and_tell;
use crate::draining::PassError;
use crate::laws::{commits_have_room, plans_may_be_carried_out};
use crate::passivating::{Waiting, put};
use crate::preparing::{line_count, list_change};
use crate::{draining, ending, finishing, launching, running};
use change_board::Board;
use change_lists::Layout;
use change_plan::Plan;
use config_graph::{Graph, List, NoMemory, Text};
use quiesce_core::Event;
use quiesce_laws::started_systems_are_reached;
use report_types::{HistoryLine, Report};
use std::alloc::Global;
use std::mem;

/// All that a change will do, once it is prepared.
#[derive(Drop)]
pub struct Change {
    /// The ports that it closes.
    pub closed: Vec<u32>,
    /// What its commit does, and the lines that tell it.
    pub events: Vec<Event>,
    pub lines: Vec<HistoryLine>,
    /// What is done where it is given up, and the lines that tell it.
    pub reopens: Vec<Event>,
    pub reopen_lines: Vec<HistoryLine>,
    /// What is made on the board after the commit.
    pub next: Layout,
    /// Where its wait is kept.
    pub waiting: Waiting,
}

/// A system on a board, with the history of what its change did and saw.
#[derive(Drop)]
pub struct Engine<B> {
    pub board: B,
    pub history: Vec<HistoryLine>,
    /// The graph of the last commit.
    pub graph: Graph,
    /// What was made on the board.
    pub layout: Layout,
    /// The change that is open, from when it is prepared until it is committed or given up.
    pub change: Option<Change>,
}

impl<B: Board + Drop> Engine<B> {
    /// Makes, links and opens all of a graph on a board on which nothing was made.
    pub fn start(
        alloc: Global,
        board: B,
        name: Text,
        args: Vec<i32>,
        graph: Graph,
    ) -> Result<Engine<B>, NoMemory>
        requires sound { Sound graph }
        requires few_nodes { length graph.nodes ≤ MAX_NODES }
        requires few_ports { length (ports graph.nodes) ≤ MAX_PORTS }
        requires nothing_made { B.stands_for board [] }
        ensures { IfOk result (λ e. HasStarted B.Board e name args.items graph) }
    {
        started_systems_are_reached();
        let mut board = board;
        let begun = launching::begin(alloc, &mut board, name, args, &graph)?;
        Ok(Engine {
            board,
            history: begun.history,
            graph,
            layout: begun.layout,
            change: None,
        })
    }

    /// The graph of the last commit.
    pub fn graph(&self) -> &Graph
        ensures { result.now ≡ self.now.graph }
    {
        &self.graph
    }

    /// Scans until at least `k` transactions ended since the call, and gives how many did. It ends earlier where a scan
    /// moved nothing on a board on which nodes take turns in scans alone, and elsewhere where one saw all at rest.
    pub fn run(&mut self, k: u32) -> Result<u64, NoMemory>
        requires idle { (t : List Item) × IsIdle B.Board self.old t }
        ensures ok { IfOk result (λ ended. HasRun B.Board self.old self.new k ended) }
        ensures graph { self.new.graph ≡ self.old.graph }
        ensures untold { OnErr result (HasRunUntold B.Board self.old self.new) }
    {
        let shown = running::count_ended(&mut self.board, self.layout.port_count());
        let ended = running::scan_until(&mut self.board, shown, k)?;
        self.history.push(HistoryLine::Run { k, ended })?;
        Ok(ended)
    }

    /// Scans at most `n` times, and gives how many of the scans were rounds. It ends earlier where a scan saw all at
    /// rest, or moved nothing on a board on which nodes take turns in scans alone.
    pub fn finish(&mut self, n: u32) -> Result<u32, NoMemory>
        requires idle { (t : List Item) × IsIdle B.Board self.old t }
        ensures ok { IfOk result (λ rounds. HasFinished B.Board self.old self.new n rounds) }
        ensures graph { self.new.graph ≡ self.old.graph }
        ensures untold { OnErr result (HasRunUntold B.Board self.old self.new) }
    {
        finishing::finish(&mut self.board, &mut self.history, n)
    }

    /// Tells the graph of the last commit.
    pub fn show(&mut self) -> Result<(), NoMemory>
        requires idle { (t : List Item) × IsIdle B.Board self.old t }
        ensures ok { IfOk result (λ _. HasShown B.Board self.old self.new) }
        ensures graph { self.new.graph ≡ self.old.graph }
        ensures err { OnErr result (Continues B.Board self.old self.new []) }
    {
        let graph = self.graph.try_clone()?;
        self.history.push(HistoryLine::Show { graph })?;
        Ok(())
    }

    /// Tells of a change that isn't tried.
    pub fn skip(&mut self, name: Text, args: Vec<i32>) -> Result<(), NoMemory>
        requires idle { (t : List Item) × IsIdle B.Board self.old t }
        ensures ok { IfOk result (λ _. HasSkipped B.Board self.old self.new name args.items) }
        ensures graph { self.new.graph ≡ self.old.graph }
        ensures err { OnErr result (Continues B.Board self.old self.new []) }
    {
        self.history.reserve(2)?;
        put(
            &mut self.history,
            HistoryLine::Change {
                name,
                args: List::of(args),
            },
        );
        put(&mut self.history, HistoryLine::Skipped);
        Ok(())
    }

    /// Takes all memory of a change by this plan to this graph: its lists, its lines, and its nodes' on the board. Then
    /// tells that it begins. After want of memory nothing has changed, but that some memory may stay taken.
    pub fn prepare(
        &mut self,
        name: Text,
        args: Vec<i32>,
        plan: &Plan,
        new: &Graph,
    ) -> Result<(), NoMemory>
        requires planned { (t : List Item) × (moves : List Move) × IsIdle B.Board self.old t
            × IsPlanned self.old.graph new.now moves plan.now (config_of (entries t)) }
        ensures ok { IfOk result
            (λ _. HasPrepared B.Board self.old self.new name args.items plan.now new.now) }
        ensures err { OnErr result (Continues B.Board self.old self.new []) }
    {
        commits_have_room();
        let alloc = *self.history.allocator();
        let change = list_change(alloc, &self.layout, &self.graph, new, plan)?;
        self.history.reserve(line_count(&change))?;
        self.board.reserve(plan.create.items().len() as u32)?;
        put(
            &mut self.history,
            HistoryLine::Change {
                name,
                args: List::of(args),
            },
        );
        self.change = Some(change);
        Ok(())
    }

    /// Closes each port of the nodes that the plan freezes, and makes rounds until each was found drained, at most so
    /// many. Where roots are left then, it is answered which; the ports stay closed until the change is given up.
    /// Memory can be wanting in a scan alone; the ports stay closed then.
    pub fn passivate(&mut self, plan: &Plan, rounds: u32) -> Result<(), PassError>
        requires prepared { (t : List Item) × (moves : List Move) × (next : Graph)
            × IsPrepared B.Board self.old t moves plan.now next }
        ensures ok { IfOk result (λ _. HasPassivated B.Board self.old self.new plan.now rounds) }
        ensures pending { IfErr result (WherePending
            (λ k left. (k ≡ rounds) × HasLeft B.Board self.old self.new plan.now rounds left)) }
        ensures no_memory { IfErr result (WhereNoMemory
            (BrokeOff B.Board self.old.board self.new.board)) }
        ensures stays_closed { IfErr result (WhereNoMemory
            (HasBrokenOff B.Board self.old self.new plan.now rounds)) }
    {
        // Asked for by the contract alone, which speaks of it: what it closes was listed when it was prepared.
        let _ = plan;
        let alloc = *self.history.allocator();
        let Some(mut change) = self.change.take() else {
            unreachable!()
        };
        let drained = draining::drain(
            &mut self.board,
            &mut self.history,
            &change.closed,
            &mut change.waiting,
            rounds,
        );
        let left = mem::replace(&mut change.waiting.left, Vec::new(alloc));
        self.change = Some(change);
        drained?;
        draining::answer(rounds, left)
    }

    /// Carries the plan out. It can't fail, and takes no memory.
    pub fn commit(&mut self, plan: Plan, new: Graph)
        requires passive { (t : List Item) × (moves : List Move)
            × IsReadyToCommit B.Board self.old t moves plan new }
        ensures { HasCommitted B.Board self.old self.new plan new }
    {
        plans_may_be_carried_out();
        // Asked for by the contract alone, which speaks of it: what its commit does was listed when it was prepared.
        let _ = plan;
        let Some(change) = self.change.take() else {
            unreachable!()
        };
        let mut lines = change.lines;
        do_and_tell(
            &mut self.board,
            &mut self.history,
            change.events,
            &mut lines,
        );
        self.layout = change.next;
        self.graph = new;
    }

    /// Opens again what was closed for the plan. It can't fail, and takes no memory.
    pub fn abandon(&mut self, plan: Plan)
        requires pending { (t : List Item) × (moves : List Move) × (next : Graph)
            × MayAbandon B.Board self.old t moves plan next }
        ensures { HasAbandoned B.Board self.old self.new plan }
    {
        // Asked for by the contract alone, which speaks of it: what it reopens was listed when it was prepared.
        let _ = plan;
        let Some(change) = self.change.take() else {
            unreachable!()
        };
        let mut lines = change.reopen_lines;
        do_and_tell(
            &mut self.board,
            &mut self.history,
            change.reopens,
            &mut lines,
        );
    }

    /// Closes the ports of all live nodes, makes rounds until each was found drained, and takes all logs in. Gives the
    /// report and the board. Where 2^64 - 1 rounds leave a root, that is answered as want of memory.
    pub fn stop(self) -> Result<(Report, B), NoMemory>
        requires idle { (t : List Item) × IsIdle B.Board self t }
        ensures { IfOk result (λ x. HasStopped B.Board self x.0 x.1) }
    {
        let mut engine = self;
        let given = ending::take_logs(&mut engine.board, &mut engine.history, &engine.layout)?;
        let Engine {
            board,
            history,
            graph: _,
            layout: _,
            change: _,
        } = engine;
        Ok((ending::report_of(history, given), board))
    }
}
