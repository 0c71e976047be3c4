//! Closing ports, and waiting until no transaction that their owners began is open there.

ghost use Rattle.std.specs.Prelude.{◌≡◌, ◌<◌, ◌≤◌, ◌+◌, ◌*◌, List, ◌∷◌, [], ◌++◌, length, map, IfOk, OnErr, OnOk, vec_capacity, vec_len};
ghost use Rattle.quiesce_core.specs.declared.event.Event.TheVariants as event;
ghost use Rattle.report_types.specs.declared.report.HistoryLine.{HistoryLine};
ghost use Rattle.report_types.specs.declared.report.HistoryLine.TheVariants as to;
ghost use Rattle.txn_records.specs.Entries.{config_of};
ghost use Rattle.txn_records.specs.declared.entry.Entry.{Entry};
ghost use Rattle.txn_records.specs.declared.entry.Entry.TheVariants.{Did};
ghost use Rattle.txn_records.specs.Records.{Adds};
ghost use Rattle.change_engine.specs.Breaking.{BrokeInRound, BrokeInScan};
ghost use Rattle.change_engine.specs.Growing.{telling};
ghost use Rattle.change_engine.specs.Passivating.{AreLivePorts, AreMadePorts, HasPlaceFor, Passed, Passivated, Rounded, lines_by, root_ports, roots_by};

use change_board::Board;
use config_graph::NoMemory;
use quiesce_word::Word;
use report_types::HistoryLine;
use std::alloc::Global;
use txn_records::Look;

/// A port with the serial of the transaction that its owner began and that a look saw there.
#[derive(Clone, Copy)]
pub struct LeftRoot {
    pub port: u32,
    pub serial: u32,
}

/// The lists that a wait is kept in. With place for all ports that are closed it takes no memory.
#[derive(Drop)]
pub struct Waiting {
    /// The ports that a round looks at.
    pub ports: Vec<u32>,
    /// The roots that the last look saw.
    pub left: Vec<LeftRoot>,
}

impl Waiting {
    /// With place for so many ports.
    pub fn with_capacity(alloc: Global, count: usize) -> Result<Waiting, NoMemory>
        ensures { IfOk result (λ waiting. HasPlaceFor waiting count) }
    {
        let ports = Vec::with_capacity(alloc, count)?;
        let left = Vec::with_capacity(alloc, count)?;
        Ok(Waiting { ports, left })
    }
}

/// Appends to a list that has place.
pub(crate) fn put<T: Drop>(list: &mut Vec<T>, item: T)
    requires place { vec_len list.old < vec_capacity list.old }
    ensures items { list.new.items ≡ list.old.items ++ item ∷ [] }
    ensures len { vec_len list.new ≡ vec_len list.old + 1 }
    ensures capacity { vec_capacity list.old ≤ vec_capacity list.new }
{
    list.push_reserved(item);
}

fn close_all<B: Board>(board: &mut B, history: &mut Vec<HistoryLine>, ports: &[u32])
    requires live { (r : List Entry) × B.stands_for board.old r × AreLivePorts (config_of r) ports.now }
    requires place { vec_len history.old + length ports.now ≤ vec_capacity history.old }
    ensures board { Adds B.stands_for board.old board.new (map (λ p. Did (event.Close p)) ports.now) }
    ensures lines { history.new.items ≡ history.old.items ++ map to.Close ports.now }
    ensures room { B.room board.new ≡ B.room board.old }
    ensures len { vec_len history.new ≡ vec_len history.old + length ports.now }
    ensures capacity { vec_capacity history.old ≤ vec_capacity history.new }
{
    for port in ports {
        put(history, HistoryLine::Close { port: *port });
        board.close(*port);
    }
}

/// Tells that a look found the port drained, or notes the root that it saw.
fn note_look(history: &mut Vec<HistoryLine>, left: &mut Vec<LeftRoot>, port: u32, look: Look)
    requires line_place { vec_len history.old < vec_capacity history.old }
    requires root_place { vec_len left.old < vec_capacity left.old }
    ensures lines { history.new.items ≡ history.old.items ++ lines_by port look }
    ensures left { left.new.items ≡ left.old.items ++ roots_by port look }
    ensures len { vec_len history.new + vec_len left.new ≡ vec_len history.old + vec_len left.old + 1 }
    ensures more_ { vec_len history.old ≤ vec_len history.new }
    ensures capacity { vec_capacity history.old ≤ vec_capacity history.new }
    ensures left_capacity { vec_capacity left.old ≤ vec_capacity left.new }
{
    match look {
        Look::Drained { serial, .. } => put(history, HistoryLine::Drained { port, serial }),
        Look::Busy { word } => put(
            left,
            LeftRoot {
                port,
                serial: Word::of(word).serial,
            },
        ),
    }
}

/// Looks once at each of these ports, and keeps the roots that it saw.
fn look_at<B: Board>(
    board: &mut B,
    history: &mut Vec<HistoryLine>,
    ports: &[u32],
    left: &mut Vec<LeftRoot>,
)
    requires made { (r : List Entry) × B.stands_for board.old r × AreMadePorts (config_of r) ports.now }
    requires line_place { vec_len history.old + length ports.now ≤ vec_capacity history.old }
    requires root_place { length ports.now ≤ vec_capacity left.old }
    ensures passed { Passed B.Board (telling board.old history.old.items)
        (telling board.new history.new.items) ports.now
        left.new.items }
    ensures room { B.room board.new ≡ B.room board.old }
    ensures len { vec_len history.new + vec_len left.new ≡ vec_len history.old + length ports.now }
    ensures few { vec_len left.new ≤ length ports.now }
    ensures capacity { vec_capacity history.old ≤ vec_capacity history.new }
    ensures left_capacity { vec_capacity left.old ≤ vec_capacity left.new }
{
    left.clear();
    for port in ports {
        let look = board.look(*port);
        note_look(history, left, *port, look);
    }
}

/// The ports of these roots.
fn list_ports(ports: &mut Vec<u32>, left: &[LeftRoot])
    requires place { length left.now ≤ vec_capacity ports.old }
    ensures items { ports.new.items ≡ root_ports left.now }
    ensures capacity { vec_capacity ports.old ≤ vec_capacity ports.new }
{
    ports.clear();
    for root in left {
        put(ports, root.port);
    }
}

/// A scan, in which no node begins a transaction, and a look at each port of the roots that the last look saw.
fn make_round<B: Board>(
    board: &mut B,
    history: &mut Vec<HistoryLine>,
    waiting: &mut Waiting,
) -> Result<(), NoMemory>
    requires made { (r : List Entry) × B.stands_for board.old r
        × AreMadePorts (config_of r) (root_ports waiting.old.left.items) }
    requires line_place { vec_len history.old + vec_len waiting.old.left ≤ vec_capacity history.old }
    requires place { HasPlaceFor waiting.old (vec_len waiting.old.left) }
    ensures ok { OnOk result (Rounded B.Board (telling board.old history.old.items)
        (telling board.new history.new.items)
        waiting.old.left.items waiting.new.left.items) }
    ensures room { OnOk result (B.room board.new ≡ B.room board.old) }
    ensures len { OnOk result
        (vec_len history.new + vec_len waiting.new.left ≡ vec_len history.old + vec_len waiting.old.left) }
    ensures few { OnOk result (vec_len waiting.new.left ≤ vec_len waiting.old.left) }
    ensures capacity { vec_capacity history.old ≤ vec_capacity history.new }
    ensures ports_capacity { vec_capacity waiting.old.ports ≤ vec_capacity waiting.new.ports }
    ensures left_capacity { vec_capacity waiting.old.left ≤ vec_capacity waiting.new.left }
    ensures err { OnErr result
        (BrokeInScan B.Board (telling board.old history.old.items) (telling board.new history.new.items)) }
{
    board.scan(false)?;
    list_ports(&mut waiting.ports, &waiting.left);
    look_at(board, history, &waiting.ports, &mut waiting.left);
    Ok(())
}

/// Closes these ports and looks at each. Then it makes at most so many rounds of a scan, in which no node begins a
/// transaction, and a look at each port that wasn't found drained yet. Keeps the roots that the last look saw. Only a
/// scan takes memory.
pub fn passivate<B: Board>(
    board: &mut B,
    history: &mut Vec<HistoryLine>,
    ports: &[u32],
    waiting: &mut Waiting,
    rounds: u64,
) -> Result<(), NoMemory>
    requires live { (r : List Entry) × B.stands_for board.old r × AreLivePorts (config_of r) ports.now }
    requires line_place { vec_len history.old + 2 * length ports.now ≤ vec_capacity history.old }
    requires place { HasPlaceFor waiting.old (length ports.now) }
    ensures ok { OnOk result (Passivated B.Board (telling board.old history.old.items)
        (telling board.new history.new.items) ports.now
        rounds waiting.new.left.items) }
    ensures room { OnOk result (B.room board.new ≡ B.room board.old) }
    ensures len { OnOk result
        (vec_len history.new + vec_len waiting.new.left ≡ vec_len history.old + 2 * length ports.now) }
    ensures capacity { vec_capacity history.old ≤ vec_capacity history.new }
    ensures err { OnErr result (BrokeInRound B.Board (telling board.old history.old.items)
        (telling board.new history.new.items) ports.now rounds) }
{
    close_all(board, history, ports);
    look_at(board, history, ports, &mut waiting.left);
    for _round in 0..rounds {
        if waiting.left.is_empty() {
            return Ok(());
        }
        make_round(board, history, waiting)?;
    }
    Ok(())
}
