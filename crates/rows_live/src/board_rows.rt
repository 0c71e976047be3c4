//! Rows of the board over the gates, in one thread: a script on it has the report that rounds have, but for the number of
//! rounds of a finish.

ghost use Rattle.std.specs.Prelude.{◌≡◌, [], IfOk};
ghost use Rattle.command_program.specs.Preparing.{CanRun};
ghost use Rattle.report_writing.specs.Reports.{LogsAreMade};
ghost use Rattle.txn_gate.specs.Seats.{IsChangeSeatOf, change_in, collected_in};
ghost use Rattle.txn_spec.specs.Views.{nothing_done};

use cfg_io::{MemShelf, MemSink};
use change_runner::{NoOne, run_statements};
use command_program::{Prepared, prepare, still};
use live_board::{Free, LiveBoard, Signs};
use live_hall::{Hall, Named};
use live_hands::Inboxes;
use report_types::Report;
use report_writing::report_text;
use std::alloc::Global;
use std::marker::Brand;
use std::process::Abort;
use std::sync::Wait;
use std::test::Fail;
use txn_gate::{ChangeSeat, Gates};

/// A teller that moves between two accounts, a source whose items go through a buffer, and one whose items go through four
/// maps, beside another that leads to a sink.
pub(crate) const SYSTEM: &str = "component teller(int n) { require move; }
component branch { provide move; require from, to; }
component account(int b) { provide post; }
component source(int n) { require out; }
component buffer(int cap) { provide in; require next; }
component map(int k) { provide in; require next; }
component sink { provide in; }
component Bank(int n, int x, int y) {
  inst a:account(x); b:account(y); r:branch; w:teller(n);
  bind w.move -- r.move; r.from -- a.post; r.to -- b.post;
}
component Line(int n, int cap) {
  inst s:source(n); q:buffer(cap); t:sink;
  bind s.out -- q.in; q.next -- t.in;
}
component Chain(int k) {
  inst a:source(2); b:sink; c:source(2); d:map(k); e:map(0); f:map(0); g:map(0); h:sink;
  bind a.out -- b.in;
       c.out -- d.in; d.next -- e.in; e.next -- f.in; f.next -- g.in; g.next -- h.in;
}
";

/// Two hand a state over, in one of them twice. In the third a chain is changed while the end of it has done nothing yet.
const SCRIPTS: [&str; 3] = [
    "use system.dar
start Bank(3,100,0)
run 2
change to Bank(3,7,0) within 10 moving a -> a
show
finish within 100
end
",
    "use system.dar
start Line(5,3)
run 3
change to Line(5,4) within 30 moving q -> q
run 2
change to Line(5,2) within 30 moving q -> q
finish within 100
end
",
    "use system.dar
start Chain(1)
run 1
change to Chain(2) within 30
finish within 100
end
",
];

/// The report of a script on the board over these gates and a hall, where no other thread gives turns.
fn live_report<J: Named, R: Wait + Copy>(
    rt: R,
    alloc: Global,
    gates: &Gates,
    seat: ChangeSeat,
    asked: Prepared,
) -> Result<Report, Fail>
    requires here { IsChangeSeatOf seat gates.now }
    requires named { J.gates ≡ gates.now.words.shared.table_id }
    requires fresh { (change_in seat ≡ nothing_done) × (collected_in seat ≡ []) × (seat.spare ≡ 0) }
    requires asked { CanRun asked }
    ensures logs { IfOk result LogsAreMade }
{
    let mut doors = Hall::with_doors::<J, R>(rt, alloc, 1)?;
    let mut hands = Inboxes::with_hands(rt, alloc, 1)?;
    let (Some(door), Some(hand)) = (doors.pop(), hands.pop()) else {
        return Err(Fail::new("a door and a hand"));
    };
    let signs = Signs::new(alloc)?;
    let board = LiveBoard::new(rt, alloc, gates, seat, door, hand, &Free, &signs);
    let (report, board, _listener) = run_statements(alloc, board, asked.start, asked.steps, NoOne)?;
    let _seat = board.into_seat();
    Ok(report)
}

/// The same on gates of its own.
fn report_on_gates<R: Wait + Copy>(rt: R, alloc: Global, asked: Prepared) -> Result<Report, Fail>
    requires { CanRun asked }
    ensures { IfOk result LogsAreMade }
{
    let (gates, seat) = Gates::new(alloc)?;
    live_report::<Brand, R>(rt, alloc, &gates, seat, asked)
}

/// Whether a line may differ: a finish may have more rounds, since two scans must see that all is at rest.
fn is_free(line: &[u8]) -> bool {
    line.starts_with(b"finish ")
}

/// How many lines of two texts are the same in place; none where they differ in another line than a finish, or in how many
/// there are.
fn same_lines(one: &[u8], other: &[u8]) -> Option<u32> {
    let mut theirs = other.split(|byte| *byte == b'\n');
    let mut count = 0_u32;
    for line in one.split(|byte| *byte == b'\n') {
        let against = theirs.next()?;
        if line != against && !(is_free(line) && is_free(against)) {
            return None;
        }
        count = count.wrapping_add(1);
    }
    match theirs.next() {
        Some(_) => None,
        None => Some(count),
    }
}

/// Runs a script both ways. Each of its changes is committed.
fn run_both<R: Wait + Abort + Copy>(rt: R, alloc: Global, script: &str) -> Result<(), Fail> {
    let mut shelf = MemShelf::new(alloc);
    shelf.add("system.dar", SYSTEM.as_bytes())?;
    shelf.add("s.cfg", script.as_bytes())?;
    let mut sink = MemSink::new(alloc, 8_192)?;
    let words = [
        String::from_str(alloc, "step")?,
        String::from_str(alloc, "s.cfg")?,
    ];
    let status = still(alloc, &words, &mut shelf, &mut sink);
    let Ok(asked) = prepare(alloc, &mut shelf, "s.cfg") else {
        return Err(Fail::new("a script"));
    };
    let report = report_on_gates(rt, alloc, asked)?;
    let text = report_text(alloc, &report)?;
    assert!(rt; status.number() == 0);
    assert!(rt; report.status == 0);
    assert!(rt; same_lines(text.as_slice(), sink.bytes()).is_some());
    Ok(())
}

#[test]
fn as_in_rounds(rt: HostRuntime) -> Result<(), Fail> {
    for script in SCRIPTS {
        run_both(rt, rt.alloc(), script)?;
    }
    Ok(())
}
