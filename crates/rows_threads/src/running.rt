//! How a script is run on threads, and its report judged.

ghost use Rattle.std.specs.Prelude.{◌≡◌, ◌≤◌, []};
ghost use Rattle.txn_gate.specs.Seats.{IsChangeSeatOf, change_in, collected_in};
ghost use Rattle.txn_spec.specs.Views.{nothing_done};

use cfg_io::{MemShelf, MemSink, Shelf};
use command_live::{
    Free, Observers, Sighting, Status, Turnstile, live, prepare, run_on_threads, still,
};
use config_graph::List;
use std::alloc::Global;
use std::process::Abort;
use std::sync::Wait;
use std::test::Fail;
use std::thread::Threads;
use txn_gate::{ChangeSeat, Gates};

/// Room for the text of a report. Places ask for their forks again and again, so it may be long where a thread stands
/// still that holds one.
const ROOM: usize = 16_777_216;

/// A script, the file that it uses, and the words behind its name.
#[derive(Drop)]
pub struct Row<'a> {
    pub file: &'a str,
    pub description: &'a str,
    pub script: &'a str,
    pub options: &'a [&'a str],
}

/// A shelf with a row's files.
fn shelf_of(alloc: Global, row: &Row<'_>) -> Result<MemShelf, Fail> {
    let mut shelf = MemShelf::new(alloc);
    shelf.add(row.file, row.description.as_bytes())?;
    shelf.add("s.cfg", row.script.as_bytes())?;
    Ok(shelf)
}

/// The words of a command line.
fn words_of(alloc: Global, words: &[&str]) -> Result<Vec<String>, Fail> {
    let mut given = Vec::new(alloc);
    for word in words {
        given.push(String::from_str(alloc, word)?)?;
    }
    Ok(given)
}

/// Runs a row on these gates, and gives the status and what was written. The test fails where no seat comes back.
pub fn run_row<R, T>(
    rt: R,
    alloc: Global,
    row: &Row<'_>,
    stile: &T,
    gates: &Gates,
    seat: ChangeSeat,
) -> Result<(Status, MemSink), Fail>
where
    R: Threads + Wait + Abort + Copy + Send + Sync,
    T: Turnstile + Sync,
    requires here { IsChangeSeatOf seat gates.now }
    requires fresh { (change_in seat ≡ nothing_done) × (collected_in seat ≡ []) × (seat.spare ≡ 0) }
{
    let (status, is_back, sink) = run_words(rt, alloc, row, stile, gates, seat)?;
    // each alone, so that a test that fails tells memory from room for the text
    assert!(rt; !matches!(status, Status::NoMemory));
    assert!(rt; !matches!(status, Status::WriteFault));
    assert!(rt; is_back);
    Ok((status, sink))
}

/// Runs a row on these gates, and gives the status, whether a seat came back, and what was written.
pub fn run_words<R, T>(
    rt: R,
    alloc: Global,
    row: &Row<'_>,
    stile: &T,
    gates: &Gates,
    seat: ChangeSeat,
) -> Result<(Status, bool, MemSink), Fail>
where
    R: Threads + Wait + Abort + Copy + Send + Sync,
    T: Turnstile + Sync,
    requires here { IsChangeSeatOf seat gates.now }
    requires fresh { (change_in seat ≡ nothing_done) × (collected_in seat ≡ []) × (seat.spare ≡ 0) }
{
    let mut shelf = shelf_of(alloc, row)?;
    run_over(rt, alloc, row, &mut shelf, stile, gates, seat)
}

/// Runs a row on gates of its own, where the fetch of this number fails, counted from 0. Gives the same. The test fails
/// where the run makes other than so many fetches.
pub fn run_failing<R>(
    rt: R,
    alloc: Global,
    row: &Row<'_>,
    fetch: u32,
    fetches: u32,
) -> Result<(Status, bool, MemSink), Fail>
where
    R: Threads + Wait + Abort + Copy + Send + Sync,
{
    let mut shelf = shelf_of(alloc, row)?;
    shelf.fail_at(fetch)?;
    shelf.fail_at(fetches)?;
    let (gates, seat) = Gates::new(alloc)?;
    let ran = run_over(rt, alloc, row, &mut shelf, &Free, &gates, seat)?;
    // the fetch behind those of the run fails
    assert!(rt; shelf.fetch(row.file, 65_536).is_err());
    Ok(ran)
}

/// Runs a row's words over a shelf.
fn run_over<R, T>(
    rt: R,
    alloc: Global,
    row: &Row<'_>,
    shelf: &mut MemShelf,
    stile: &T,
    gates: &Gates,
    seat: ChangeSeat,
) -> Result<(Status, bool, MemSink), Fail>
where
    R: Threads + Wait + Abort + Copy + Send + Sync,
    T: Turnstile + Sync,
    requires here { IsChangeSeatOf seat gates.now }
    requires fresh { (change_in seat ≡ nothing_done) × (collected_in seat ≡ []) × (seat.spare ≡ 0) }
{
    let mut sink = MemSink::new(alloc, ROOM)?;
    let mut words = words_of(alloc, &["live", "s.cfg"])?;
    for option in row.options {
        words.push(String::from_str(alloc, option)?)?;
    }
    let (status, back) = live(
        rt,
        alloc,
        words.as_slice(),
        shelf,
        &mut sink,
        stile,
        gates,
        seat,
    );
    Ok((status, back.is_some(), sink))
}

/// Stops the test where a report can't be one of the row's script.
pub fn judge_report(
    rt: &impl Abort,
    alloc: Global,
    row: &Row<'_>,
    report: &[u8],
) -> Result<(), Fail> {
    let mut shelf = shelf_of(alloc, row)?;
    shelf.add("r.txt", report)?;
    let mut sink = MemSink::new(alloc, 64)?;
    let words = words_of(alloc, &["check", "s.cfg", "r.txt"])?;
    let status = still(alloc, words.as_slice(), &mut shelf, &mut sink);
    assert!(rt; sink.bytes() == "consistent\n".as_bytes());
    assert!(rt; status == Status::Ok);
    Ok(())
}

/// Runs a row's script with two workers beside observers, and gives the report's status and the lines of each observer.
pub fn run_beside<R, T>(
    rt: R,
    alloc: Global,
    row: &Row<'_>,
    stile: &T,
    observers: &Observers,
) -> Result<(u8, Vec<List<Sighting>>), Fail>
where
    R: Threads + Wait + Copy + Send + Sync,
    T: Turnstile + Sync,
    requires { observers.now.count ≤ 4 }
{
    let mut shelf = shelf_of(alloc, row)?;
    let Ok(asked) = prepare(alloc, &mut shelf, "s.cfg") else {
        return Err(Fail::new("a script"));
    };
    let (gates, seat) = Gates::new(alloc)?;
    let (report, lines, _seat) = run_on_threads(
        rt,
        alloc,
        &gates,
        seat,
        stile,
        2,
        observers,
        asked.start,
        asked.steps,
    )?;
    Ok((report.status, lines))
}
