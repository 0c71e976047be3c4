//! Rows of scans of the board over the gates, in one thread.

ghost use Rattle.std.specs.Prelude.{◌≡◌, [], List, IfOk, OnOk};
ghost use Rattle.change_board.specs.Transcripts.{Item};
ghost use Rattle.change_engine.specs.Engines.{IsIdle};
ghost use Rattle.change_spec.specs.Asked.{CanStart};
ghost use Rattle.live_hall.specs.Houses.{IsAt, tables_of};
ghost use Rattle.txn_gate.specs.Seats.{IsChangeSeatOf, change_in, collected_in};
ghost use Rattle.txn_spec.specs.Views.{nothing_done};

use crate::board_rows::SYSTEM;
use cfg_io::MemShelf;
use change_board::Board;
use change_engine::Engine;
use change_spec::Start;
use command_program::prepare;
use config_graph::NoMemory;
use live_board::{LiveBoard, Signs, Turnstile};
use live_hall::{BoxedGuest, Door, Hall, Named};
use live_hands::{Hand, Inboxes};
use node_host::Turn;
use std::alloc::Global;
use std::marker::Brand;
use std::process::Abort;
use std::sync::Wait;
use std::sync::atomic::{AtomicU32, Ordering};
use std::test::Fail;
use txn_gate::{ChangeSeat, Gates};

/// The slots of a buffer, the source before it, and the sink behind it, in the order of their paths.
const BUFFER: u32 = 0;

const SOURCE: u32 = 1;

/// Two turns in a scan that finds one of the three nodes elsewhere, and three in each other.
const TURNS: u32 = 2 + 2 + 3 * 4 + 3;

const SCRIPT: &str = "use system.dar
start Line(1,1)
end
";

/// Counts the turns that the thread of the change gives.
#[derive(Drop)]
struct Counting {
    turns: AtomicU32,
}

impl Counting {
    fn new() -> Counting {
        Counting {
            turns: AtomicU32::new(0),
        }
    }
}

impl Turnstile for Counting {
    fn before(&self, worker: u32, slot: u32) {
        let _ = slot;
        if worker == 0 {
            self.turns.fetch_add(1, Ordering::SeqCst);
        }
    }
}

/// A turn beside the board. Tells whether it moved.
fn moves<R: Wait>(
    gates: &Gates,
    hand: &mut Hand<R>,
    guest: &mut BoxedGuest,
) -> Result<bool, NoMemory>
    requires { IsAt gates.now.words.shared.table_id guest.old }
    ensures tables { tables_of guest.new ≡ tables_of guest.old }
    ensures slot { guest.new.node.slot ≡ guest.old.node.slot }
{
    let turn = guest.turn(gates, hand, true)?;
    Ok(!matches!(turn, Turn::Still))
}

/// An item goes from the source to the buffer, beside the board: one begins, the other takes and answers, the first ends.
/// Tells whether each of these turns moved.
fn fills<R: Wait>(
    gates: &Gates,
    hand: &mut Hand<R>,
    source: &mut BoxedGuest,
    buffer: &mut BoxedGuest,
) -> Result<bool, NoMemory>
    requires source { IsAt gates.now.words.shared.table_id source.old }
    requires buffer { IsAt gates.now.words.shared.table_id buffer.old }
    ensures source { tables_of source.new ≡ tables_of source.old }
    ensures buffer { tables_of buffer.new ≡ tables_of buffer.old }
    ensures slots { (source.new.node.slot ≡ source.old.node.slot) × (buffer.new.node.slot ≡ buffer.old.node.slot) }
{
    let began = moves(gates, hand, source)?;
    let took = moves(gates, hand, buffer)?;
    let answered = moves(gates, hand, buffer)?;
    let ended = moves(gates, hand, source)?;
    Ok(began && took && answered && ended)
}

/// Starts an engine, on which no change is open.
fn started<B: Board + Drop>(alloc: Global, board: B, start: Start) -> Result<Engine<B>, NoMemory>
    requires start { CanStart start }
    requires board { B.stands_for board [] }
    ensures { IfOk result (λ e. (t : List Item) × IsIdle B.Board e t) }
{
    let Start { name, args, graph } = start;
    Engine::start(alloc, board, name, args.into_vec(), graph)
}

/// Scans at most `n` times, and gives how many of the scans were rounds. No change is open behind it.
fn finish<B: Board + Drop>(engine: &mut Engine<B>, n: u32) -> Result<u32, NoMemory>
    requires { (t : List Item) × IsIdle B.Board engine.old t }
    ensures { OnOk result ((t : List Item) × IsIdle B.Board engine.new t) }
{
    engine.finish(n)
}

/// A scan sees the buffer empty while the source lies elsewhere. An item comes into it then, and another scan sees the
/// source done while the buffer lies elsewhere. Neither tells of rest.
fn seen_apart<J: Named, R: Wait + Copy + Abort, B: Board + Drop>(
    rt: R,
    gates: &Gates,
    engine: &mut Engine<B>,
    door: &mut Door<J, R>,
    hand: &mut Hand<R>,
) -> Result<(), NoMemory>
    requires named { J.gates ≡ gates.now.words.shared.table_id }
    requires idle { (t : List Item) × IsIdle B.Board engine.old t }
    ensures idle { OnOk result ((t : List Item) × IsIdle B.Board engine.new t) }
{
    let mut source = door.take(SOURCE).expect(&rt, "the source");
    assert!(rt; finish(engine, 1)? == 1);
    let mut buffer = door.take(BUFFER).expect(&rt, "the buffer");
    assert!(rt; fills(gates, hand, &mut source, &mut buffer)?);
    assert!(rt; source.guest().node.done() && !buffer.guest().node.done());
    door.put(source);
    assert!(rt; finish(engine, 1)? == 1);
    door.put(buffer);
    Ok(())
}

/// A buffer is seen empty while the source lies elsewhere. An item comes into it then, and the source is seen done while
/// the buffer lies elsewhere. So each node was done at its own sight, and each port idle at each look; and yet the scans
/// go on until the item is in the sink.
fn empty_then_full<J: Named, R: Wait + Copy + Abort>(
    rt: R,
    alloc: Global,
    gates: &Gates,
    seat: ChangeSeat,
    start: Start,
) -> Result<(), Fail>
    requires here { IsChangeSeatOf seat gates.now }
    requires named { J.gates ≡ gates.now.words.shared.table_id }
    requires fresh { (change_in seat ≡ nothing_done) × (collected_in seat ≡ []) × (seat.spare ≡ 0) }
    requires start { CanStart start }
{
    let mut doors = Hall::with_doors::<J, R>(rt, alloc, 2)?;
    let mut hands = Inboxes::with_hands(rt, alloc, 2)?;
    let (Some(door), Some(mut other)) = (doors.pop(), doors.pop()) else {
        return Err(Fail::new("two doors"));
    };
    let (Some(hand), Some(mut theirs)) = (hands.pop(), hands.pop()) else {
        return Err(Fail::new("two hands"));
    };
    let signs = Signs::new(alloc)?;
    let stile = Counting::new();
    let board = LiveBoard::new(rt, alloc, gates, seat, door, hand, &stile, &signs);
    let mut engine = started(alloc, board, start)?;
    seen_apart(rt, gates, &mut engine, &mut other, &mut theirs)?;
    assert!(rt; finish(&mut engine, 100)? == 3);
    assert!(rt; finish(&mut engine, 100)? == 0);
    assert!(rt; stile.turns.load(Ordering::SeqCst) == TURNS);
    let (report, board) = engine.stop()?;
    let _seat = board.into_seat();
    assert!(rt; report.status == 0);
    Ok(())
}

#[test]
fn empty_at_its_sight(rt: HostRuntime) -> Result<(), Fail> {
    let alloc = rt.alloc();
    let mut shelf = MemShelf::new(alloc);
    shelf.add("system.dar", SYSTEM.as_bytes())?;
    shelf.add("s.cfg", SCRIPT.as_bytes())?;
    let Ok(asked) = prepare(alloc, &mut shelf, "s.cfg") else {
        return Err(Fail::new("a script"));
    };
    let (gates, seat) = Gates::new(alloc)?;
    empty_then_full::<Brand, HostRuntime>(rt, alloc, &gates, seat, asked.start)
}

/// Where nothing was made the second scan sees all at rest. Once a worker found no memory, the next scan finds none.
fn no_nodes<J: Named, R: Wait + Copy + Abort>(
    rt: R,
    alloc: Global,
    gates: &Gates,
    seat: ChangeSeat,
) -> Result<(), NoMemory>
    requires here { IsChangeSeatOf seat gates.now }
    requires named { J.gates ≡ gates.now.words.shared.table_id }
    requires fresh { (change_in seat ≡ nothing_done) × (collected_in seat ≡ []) × (seat.spare ≡ 0) }
{
    let mut doors = Hall::with_doors::<J, R>(rt, alloc, 1)?;
    let mut hands = Inboxes::with_hands(rt, alloc, 1)?;
    let door = doors.pop().expect(&rt, "a door");
    let hand = hands.pop().expect(&rt, "a hand");
    let signs = Signs::new(alloc)?;
    let stile = Counting::new();
    let mut board = LiveBoard::new(rt, alloc, gates, seat, door, hand, &stile, &signs);
    assert!(rt; !board.scan(true)?.done);
    assert!(rt; board.scan(true)?.done);
    signs.tell_short();
    assert!(rt; board.scan(true).is_err());
    assert!(rt; board.scan(false).is_err());
    Ok(())
}

#[test]
fn short_of_memory(rt: HostRuntime) -> Result<(), Fail> {
    let alloc = rt.alloc();
    let (gates, seat) = Gates::new(alloc)?;
    no_nodes::<Brand, HostRuntime>(rt, alloc, &gates, seat)?;
    Ok(())
}
