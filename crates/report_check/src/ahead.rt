//! Which line of a history tells of a port next.

ghost use Rattle.std.specs.Prelude.{◌≡◌, ◌+◌, ◌<◌, Some, length, slice_get, slice_index, IfOk};
ghost use Rattle.config_graph.specs.declared.TheConstants.{MAX_PORTS};
ghost use Rattle.report_check.specs.Ahead as spec;
ghost use Rattle.report_check.specs.Ahead.{IsAhead};

use config_graph::{MAX_PORTS, NoMemory};
use report_types::HistoryLine;
use std::alloc::Global;

const PORTS: usize = MAX_PORTS as usize;

/// Places of lines: of each port the next that tells its serial, and of each line that does the next behind it of the
/// same port. A place that no line has says that there is none.
#[derive(Drop)]
pub struct Ahead {
    pub next: Vec<usize>,
    pub later: Vec<usize>,
}

/// The port of which a line tells the serial.
fn told_port(line: &HistoryLine) -> Option<u32>
    ensures { result ≡ spec.told_port line.now }
{
    match line {
        HistoryLine::Drained { port, .. } | HistoryLine::Root { port, .. } => Some(*port),
        _ => None,
    }
}

/// The same, of ports that a run can have.
fn known_port(line: &HistoryLine) -> Option<usize>
    ensures { result ≡ spec.known_port line.now }
{
    match told_port(line) {
        Some(port) if port < MAX_PORTS => Some(port as usize),
        _ => None,
    }
}

impl Ahead {
    /// The tables for the whole history, made from its end.
    pub fn of(alloc: Global, history: &[HistoryLine]) -> Result<Ahead, NoMemory>
        ensures { IfOk result (λ a. IsAhead a history.now 0) }
    {
        let next = vec![in alloc; history.len(); PORTS]?;
        let later = vec![in alloc; history.len(); history.len()]?;
        let mut ahead = Ahead { next, later };
        ahead.note_all(history);
        Ok(ahead)
    }

    fn note_all(&mut self, history: &[HistoryLine])
        requires { IsAhead self.old history.now (length history.now) }
        ensures { IsAhead self.new history.now 0 }
    {
        for place in (0..history.len()).rev() {
            self.note(history, place);
        }
    }

    /// Notes the line before those that are noted.
    fn note(&mut self, history: &[HistoryLine], place: usize)
        requires there { place < length history.now }
        requires ahead { IsAhead self.old history.now (place + 1) }
        ensures { IsAhead self.new history.now place }
    {
        if let Some(port) = known_port(&history[place]) {
            self.later[place] = self.next[port];
            self.next[port] = place;
        }
    }

    /// Passes a line.
    pub fn pass(&mut self, history: &[HistoryLine], place: usize)
        requires there { place < length history.now }
        requires ahead { IsAhead self.old history.now place }
        ensures { IsAhead self.new history.now (place + 1) }
    {
        if let Some(port) = known_port(&history[place]) {
            self.next[port] = self.later[place];
        }
    }

    /// The place of the line that tells of a port next.
    pub fn next_told(&self, port: u32) -> usize
        requires { length self.now.next.items ≡ MAX_PORTS }
        ensures { port < MAX_PORTS → result ≡ slice_index self.now.next.items port }
    {
        if port < MAX_PORTS {
            self.next[port as usize]
        } else {
            usize::MAX
        }
    }
}
