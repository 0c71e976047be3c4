//! A way through a history and logs: how many members of each came, and what the machine is like behind them.

ghost use Rattle.std.specs.Prelude.{◌≡◌, ◌≤◌, ◌+◌, ◌↔◌, true, List, [], drop, length, slice_get, slice_index, slice_index_or, suc, IfOk, IsTrue, OnOk};
ghost use Rattle.std.specs.List.{list_all, range_with_len};
ghost use Rattle.quiesce_core.specs.Rules.{denial};
ghost use Rattle.merge_laws.specs.Guarded as guarded;
ghost use Rattle.merge_laws.specs.Guarded.{all_left, left};
ghost use Rattle.report_check.specs.Going as spec;
ghost use Rattle.report_check.specs.Ahead.{AreBounds, IsAhead};
ghost use Rattle.report_check.specs.Going.{IsPlaced, IsTried, events_of, is_allowed, left_behind, number_of};
ghost use Rattle.report_types.specs.declared.report.NodeLog.{NodeLog as NodeEvents};

use crate::ahead::Ahead;
use crate::candidates::{Candidates, Chain};
use crate::closes::{Closes, Root};
use crate::guards::{is_beyond, is_called_at, is_done_by, is_drained, is_met, is_of_change, tell};
use config_graph::NoMemory;
use quiesce_core::{Core, Event, NodeEvent};
use report_types::{HistoryLine, NodeLog};
use std::alloc::Global;

#[derive(Drop)]
pub struct Way {
    pub core: Core,
    /// The next line of the history.
    pub line: usize,
    /// Of each log the next event.
    pub places: Vec<usize>,
    pub ahead: Ahead,
    pub closes: Closes,
}

fn log_at(logs: &[NodeLog], node: usize) -> &[NodeEvent]
    ensures { result.now ≡ slice_index_or (events_of logs.now) node [] }
{
    match logs.get(node) {
        Some(log) => log.events.items(),
        None => &[],
    }
}

/// The port at which an event is.
fn port_of(event: &Event) -> Option<u32> {
    match event {
        Event::Begin { port, .. }
        | Event::Call { port, .. }
        | Event::Take { port, .. }
        | Event::Give { port, .. }
        | Event::End { port, .. }
        | Event::More { port, .. }
        | Event::Ask { port, .. }
        | Event::Hear { port, .. }
        | Event::Miss { port }
        | Event::Close { port }
        | Event::Reopen { port }
        | Event::Link { port, .. }
        | Event::Unlink { port } => Some(*port),
        Event::Make { .. } | Event::Remove { .. } => None,
    }
}

/// The port at whose ends more may come behind the line at a place: it is open again, or another line tells of it next.
fn line_port(history: &[HistoryLine], place: usize) -> Option<u32> {
    match history.get(place) {
        Some(HistoryLine::Reopen { port }) => Some(*port),
        Some(HistoryLine::Drained { port, .. }) => Some(*port),
        Some(HistoryLine::Root { port, .. }) => Some(*port),
        _ => None,
    }
}

impl Way {
    /// Nothing came yet.
    pub fn new(alloc: Global, history: &[HistoryLine], logs: &[NodeLog]) -> Result<Way, NoMemory>
        ensures left { IfOk result
            (λ way. left_behind way history.now logs.now ≡ all_left history.now (events_of logs.now)) }
        ensures placed { IfOk result (λ way. IsPlaced way history.now logs.now) }
    {
        let places = vec![in alloc; 0; logs.len()]?;
        let ahead = Ahead::of(alloc, history)?;
        let closes = Closes::of(alloc, history)?;
        Ok(Way {
            core: Core::empty(alloc),
            line: 0,
            places,
            ahead,
            closes,
        })
    }

    /// Whether a close is left before the line that tells this root.
    fn closes_before(&self, history: &[HistoryLine], root: Root) -> bool
        requires { AreBounds self.now.closes history.now }
        ensures { result ≡ guarded.closes_before root.port root.serial (drop self.now.line history.now) }
    {
        match self.closes.bound(root) {
            Some(bound) => self.line < bound,
            None => false,
        }
    }

    /// Whether an event, which no rule denies, has to wait for a line.
    fn waits(&self, history: &[HistoryLine], event: &Event) -> bool
        requires ahead { IsAhead self.now.ahead history.now self.now.line }
        requires closes { AreBounds self.now.closes history.now }
        requires allowed { denial self.now.core.state event.now ≡ None }
        ensures { result ≡ guarded.waits self.now.core.state (drop self.now.line history.now) event.now }
    {
        // it tells that the state is well formed, so that an allowed event or line is of a port that the tables have
        let _ = self.core.made();
        match event {
            Event::Begin { port, serial, .. } => {
                is_called_at(&self.core, *port)
                    || is_beyond(history, self.ahead.next_told(*port), *serial)
            }
            Event::Call { port, serial, .. } => {
                is_beyond(history, self.ahead.next_told(*port), *serial)
            }
            Event::End { port, serial, .. } => {
                let root = Root {
                    port: *port,
                    serial: *serial,
                };
                self.closes_before(history, root)
            }
            _ => false,
        }
    }

    /// Whether an event of a node's log may come.
    fn may_do(&self, history: &[HistoryLine], node: usize, event: &Event) -> bool
        requires ahead { IsAhead self.now.ahead history.now self.now.line }
        requires closes { AreBounds self.now.closes history.now }
        ensures { result ≡ guarded.may_do self.now.core.state (drop self.now.line history.now) node event.now }
    {
        if is_of_change(event) || !is_done_by(&self.core, node, event) {
            return false;
        }
        if self.core.denial(event).is_some() {
            return false;
        }
        !self.waits(history, event)
    }

    /// How many events of a node's log came.
    fn place_of(&self, node: usize) -> usize
        ensures { result ≡ slice_index self.now.places.items node }
    {
        self.places.get(node).copied().unwrap_or(0)
    }

    /// Lets the next event of a node's log come, where it may.
    fn do_next(&mut self, history: &[HistoryLine], logs: &[NodeLog], node: usize) -> bool
        requires { IsPlaced self.old history.now logs.now }
        ensures tried { IsTried (left_behind self.old history.now logs.now) (suc node) result
            (left_behind self.new history.now logs.now) }
        ensures placed { IsPlaced self.new history.now logs.now }
    {
        let log = log_at(logs, node);
        let place = self.place_of(node);
        let Some(event) = log.get(place) else {
            return false;
        };
        let event = event.event();
        if !self.may_do(history, node, &event) {
            return false;
        }
        self.core.perform(&event);
        self.places[node] = place + 1;
        true
    }

    /// Whether the next line has what it waits for, where no rule denies it.
    fn is_ready(&self, history: &[HistoryLine], line: &HistoryLine) -> bool
        requires next { slice_get history.now self.now.line ≡ Some line.now }
        requires ahead { IsAhead self.now.ahead history.now self.now.line }
        ensures { is_allowed self.now.core.state line.now ≡ true
            → result ≡ spec.is_ready self.now.core.state (drop (self.now.line + 1) history.now) line.now }
    {
        // it tells that the state is well formed, so that an allowed event or line is of a port that the tables have
        let _ = self.core.made();
        match line {
            HistoryLine::Close { port } => {
                is_met(&self.core, *port, history, self.ahead.next_told(*port))
            }
            HistoryLine::Drained { port, serial } => {
                is_drained(&self.core, *port) && self.core.exchange(*port).serial == *serial
            }
            HistoryLine::Root { port, .. } => {
                self.core.gate(*port).closed && !is_called_at(&self.core, *port)
            }
            _ => true,
        }
    }

    /// Lets the next line come, where it may.
    fn tell_next(&mut self, history: &[HistoryLine]) -> Result<bool, NoMemory>
        requires { IsAhead self.old.ahead history.now self.old.line }
        ensures tried { IfOk result (λ came. (logs : List NodeEvents)
            → IsTried (left_behind self.old history.now logs) 0 came (left_behind self.new history.now logs)) }
        ensures placed { OnOk result ((logs : List NodeEvents)
            → IsPlaced self.old history.now logs → IsPlaced self.new history.now logs) }
    {
        let Some(line) = history.get(self.line) else {
            return Ok(false);
        };
        if !self.is_ready(history, line) || !tell(&mut self.core, line)? {
            return Ok(false);
        }
        self.ahead.pass(history, self.line);
        self.line += 1;
        Ok(true)
    }

    /// Lets the next member of a chain come, where it may, and says whether it did.
    pub fn try_chain(
        &mut self,
        history: &[HistoryLine],
        logs: &[NodeLog],
        chain: Chain,
    ) -> Result<bool, NoMemory>
        requires { IsPlaced self.old history.now logs.now }
        ensures tried { IfOk result (λ came. IsTried (left_behind self.old history.now logs.now)
            (number_of chain) came (left_behind self.new history.now logs.now)) }
        ensures placed { OnOk result (IsPlaced self.new history.now logs.now) }
    {
        match chain {
            Chain::History => self.tell_next(history),
            Chain::Log(node) => Ok(self.do_next(history, logs, node)),
        }
    }

    /// The port of the last event that came of a log.
    fn last_port(&self, logs: &[NodeLog], node: usize) -> Option<u32> {
        let place = self.place_of(node).checked_sub(1)?;
        port_of(&log_at(logs, node).get(place)?.event())
    }

    /// Whether the next line waits for what is done at a port.
    fn waits_for(&self, history: &[HistoryLine], port: u32) -> bool {
        match history.get(self.line) {
            Some(HistoryLine::Close { port: next }) => *next == port,
            Some(HistoryLine::Drained { port: next, .. }) => *next == port,
            _ => false,
        }
    }

    /// Adds the logs of the nodes at the ends of a port.
    fn add_at(&self, port: u32, candidates: &mut Candidates) -> Result<(), NoMemory>
        ensures { OnOk result (length candidates.new.chains.items ≤ length candidates.old.chains.items + 2) }
    {
        let gate = self.core.gate(port);
        if let Some(target) = gate.target {
            candidates.add(Chain::Log(target.node as usize))?;
        }
        candidates.add(Chain::Log(gate.owner as usize))
    }

    /// Adds the chains that may go on behind the last line.
    fn add_behind_line(
        &self,
        history: &[HistoryLine],
        candidates: &mut Candidates,
    ) -> Result<(), NoMemory>
        ensures { OnOk result (length candidates.new.chains.items ≤ length candidates.old.chains.items + 3) }
    {
        candidates.add(Chain::History)?;
        match self.line.checked_sub(1) {
            Some(place) => match line_port(history, place) {
                Some(port) => self.add_at(port, candidates),
                None => Ok(()),
            },
            None => Ok(()),
        }
    }

    /// Adds the chains that may go on behind the last event of a log.
    fn add_behind_event(
        &self,
        history: &[HistoryLine],
        logs: &[NodeLog],
        node: usize,
        candidates: &mut Candidates,
    ) -> Result<(), NoMemory>
        ensures { OnOk result (length candidates.new.chains.items ≤ length candidates.old.chains.items + 3) }
    {
        let Some(port) = self.last_port(logs, node) else {
            return Ok(());
        };
        if self.waits_for(history, port) {
            candidates.add(Chain::History)?;
        }
        self.add_at(port, candidates)
    }

    /// Adds the chains that may go on behind the last member of a chain.
    pub fn add_behind(
        &self,
        history: &[HistoryLine],
        logs: &[NodeLog],
        chain: Chain,
        candidates: &mut Candidates,
    ) -> Result<(), NoMemory>
        ensures { OnOk result (length candidates.new.chains.items ≤ length candidates.old.chains.items + 3) }
    {
        match chain {
            Chain::History => self.add_behind_line(history, candidates),
            Chain::Log(node) => self.add_behind_event(history, logs, node, candidates),
        }
    }

    /// Whether nothing is left of the log of a node.
    fn is_at_end(&self, logs: &[NodeLog], node: usize) -> bool
        ensures { result ≡ spec.is_at_end self.now.places.items logs.now node }
    {
        self.place_of(node) >= log_at(logs, node).len()
    }

    fn are_at_end(&self, logs: &[NodeLog]) -> bool
        ensures { result ≡ list_all (spec.is_at_end self.now.places.items logs.now)
            (range_with_len 0 (length logs.now)) }
    {
        (0..logs.len()).all(|node| self.is_at_end(logs, node))
    }

    /// Whether nothing is left.
    pub fn has_ended(&self, history: &[HistoryLine], logs: &[NodeLog]) -> bool
        requires { IsPlaced self.now history.now logs.now }
        ensures { IsTrue result ↔ (left (left_behind self.now history.now logs.now) ≡ 0) }
    {
        self.line >= history.len() && self.are_at_end(logs)
    }
}
