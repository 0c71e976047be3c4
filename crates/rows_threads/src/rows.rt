//! The rows.

use crate::coming::Coming;
use crate::counting::{Counting, ITEMS};
use crate::held::Held;
use crate::looking_on::LookingOn;
use crate::meeting::Meeting;
use crate::running::{Row, judge_report, run_beside, run_failing, run_row, run_words};
use command_live::{Free, Observers, Sighting, Status};
use std::alloc::Global;
use std::process::Abort;
use std::str::from_utf8;
use std::sync::Wait;
use std::test::Fail;
use std::thread::Threads;
use txn_gate::Gates;

const TABLE: &str = "component philosopher(int meals) { require dine; }
component place(int first) { provide dine; require left, right; }
component fork { provide hold; }
component Table(int n, int meals, int skip) {
  array ph[n]:philosopher(meals); pl[n]:place; f[n]:fork;
  forall i:0..n-1 {
    inst ph[i]; pl[i](i == 0);
    bind ph[i].dine -- pl[i].dine;
    when i != skip {
      inst f[i];
      bind pl[i].left -- f[i].hold;
           pl[(i+n-1) % n].right -- f[i].hold;
    }
  }
}
";

const LINES: &str = "component source(int n) { require out; }
component map(int k) { provide in; require next; }
component sink { provide in; }
component Line(int n, int k) {
  inst s:source(n); m:map(k); t:sink;
  bind s.out -- m.in; m.next -- t.in;
}
component Lines(int k) {
  inst a:source(3); b:map(k); c:sink; d:source(3); e:map(1); f:sink;
  bind a.out -- b.in; b.next -- c.in; d.out -- e.in; e.next -- f.in;
  array g[3]:sink;
  forall i:0..2 inst g[i];
}
component Sources(int n) {
  inst a:sink; b:sink; c:source(n); d:source(n); e:sink;
  bind c.out -- e.in; d.out -- e.in;
}
component One {
  inst a:sink;
}
component Crowd(int n, int items) {
  array a[n]:sink;
  forall i:0..n-1 inst a[i];
  inst s:source(items); m:map(1); t:sink;
  bind s.out -- m.in; m.next -- t.in;
}
component Either(int k) {
  inst s:source(3); a:sink; b:sink;
  when k == 0 bind s.out -- a.in;
  when k == 1 bind s.out -- b.in;
}
";

/// The text between two lines, the first of which begins so.
fn between<'a>(text: &'a str, from: &str, to: &str) -> Option<&'a str> {
    let (_, behind) = text.split_once(from)?;
    let (found, _) = behind.split_once(to)?;
    Some(found)
}

/// How many lines begin so.
fn count_lines(text: &str, start: &str) -> u32 {
    let mut count = 0_u32;
    for line in text.lines() {
        if line.starts_with(start) {
            count = count.wrapping_add(1);
        }
    }
    count
}

/// How many events of sources and sinks stand in logs.
fn count_events(text: &str) -> u32 {
    let mut count = 0_u32;
    for start in ["begin ", "end ", "take ", "give "] {
        count = count.wrapping_add(count_lines(text, start));
    }
    count
}

/// Whether a `finish within 1000000` ended before its last scan.
fn comes_to_rest(text: &str) -> bool {
    count_lines(text, "finish 1000000 ") == 1 && count_lines(text, "finish 1000000 1000000") == 0
}

/// Whether each log of a node of this name ends with this line.
fn all_end_so(text: &str, name: &str, end: &str) -> bool {
    let mut of_name = false;
    for line in text.lines() {
        if line.starts_with("log ") {
            of_name = line.contains(name);
        }
        if of_name && line.starts_with("state") && line != end {
            return false;
        }
    }
    true
}

#[test]
fn live_dine(rt: HostRuntime) -> Result<(), Fail> {
    let row = Row {
        file: "table.dar",
        description: TABLE,
        script: "use table.dar\nstart Table(5,3,9)\nrun 10\nchange to Table(6,3,9) within 1000000\nshow\nfinish within 1000000\nend\n",
        options: &["--workers", "4"],
    };
    let (gates, seat) = Gates::new(rt.alloc())?;
    let (status, sink) = run_row(rt, rt.alloc(), &row, &Free, &gates, seat)?;
    assert!(rt; status == Status::Ok);
    judge_report(&rt, rt.alloc(), &row, sink.bytes())?;
    let Ok(text) = from_utf8(sink.bytes()) else {
        return Err(Fail::new("a text"));
    };
    assert!(rt; count_lines(text, "make ") == 18);
    let change = between(text, "change Table(6,3,9)\n", "commit\n").unwrap_or("");
    // ph[4].dine, pl[4].left and pl[4].right
    assert!(rt; change.starts_with("close 4\nclose 13\nclose 14\n"));
    assert!(rt; count_lines(change, "close ") == 3);
    assert!(rt; all_end_so(text, " ph[", "state 3"));
    assert!(rt; all_end_so(text, " f[", "state 0"));
    assert!(rt; comes_to_rest(text));
    Ok(())
}

/// Each of so many workers holds a node before a turn until all of them do.
fn meet<R>(rt: R, alloc: Global, row: &Row<'_>, workers: u32) -> Result<(), Fail>
where
    R: Threads + Wait + Abort + Copy + Send + Sync,
{
    let (gates, seat) = Gates::new(alloc)?;
    let meeting = Meeting::of(workers);
    let (status, _sink) = run_row(rt, alloc, row, &meeting, &gates, seat)?;
    assert!(rt; status == Status::Ok);
    assert!(rt; meeting.is_held());
    Ok(())
}

#[test]
fn two_workers(rt: HostRuntime) -> Result<(), Fail> {
    let row = Row {
        file: "line.dar",
        description: LINES,
        script: "use line.dar\nstart Line(3,10)\nfinish within 1000000\nend\n",
        options: &["--workers", "2"],
    };
    meet(rt, rt.alloc(), &row, 2)
}

#[test]
fn eight_workers(rt: HostRuntime) -> Result<(), Fail> {
    let row = Row {
        file: "line.dar",
        description: LINES,
        // of nine nodes, since the thread of the change may hold one too
        script: "use line.dar\nstart Lines(10)\nfinish within 1000000\nend\n",
        options: &["--workers", "8"],
    };
    meet(rt, rt.alloc(), &row, 8)
}

#[test]
fn outside_goes_on(rt: HostRuntime) -> Result<(), Fail> {
    let row = Row {
        file: "line.dar",
        description: LINES,
        script: "use line.dar\nstart Lines(1)\nrun 1\nchange to Lines(2) within 3\nfinish within 1000000\nend\n",
        options: &["--workers", "3"],
    };
    let (gates, seat) = Gates::new(rt.alloc())?;
    let held = Held::new(&gates);
    let (status, sink) = run_row(rt, rt.alloc(), &row, &held, &gates, seat)?;
    assert!(rt; status == Status::Pending);
    assert!(rt; held.is_held());
    let Ok(text) = from_utf8(sink.bytes()) else {
        return Err(Fail::new("a text"));
    };
    // transactions of the other line ended, while the source of this one waits for its map
    assert!(rt; count_lines(text, "run 1 0") == 0);
    assert!(rt; text.contains("pending 3\nopen 0 1\n"));
    Ok(())
}

#[test]
fn each_turn_is_announced(rt: HostRuntime) -> Result<(), Fail> {
    let row = Row {
        file: "line.dar",
        description: LINES,
        script: "use line.dar\nstart Sources(3)\nfinish within 1000000\nend\n",
        options: &["--workers", "1"],
    };
    let (gates, seat) = Gates::new(rt.alloc())?;
    let counting = Counting::new(&gates);
    let (status, sink) = run_row(rt, rt.alloc(), &row, &counting, &gates, seat)?;
    assert!(rt; status == Status::Ok);
    let Ok(text) = from_utf8(sink.bytes()) else {
        return Err(Fail::new("a text"));
    };
    let events = count_events(text);
    // of each source's items
    assert!(rt; events == 2 * ITEMS * 4);
    // one event a turn at most
    let Some(turns) = counting.turns() else {
        return Err(Fail::new("calls before turns"));
    };
    assert!(rt; turns >= events);
    // two of the nodes did nothing
    assert!(rt; comes_to_rest(text));
    Ok(())
}

#[test]
fn workers_come_to_new_nodes(rt: HostRuntime) -> Result<(), Fail> {
    let row = Row {
        file: "line.dar",
        description: LINES,
        script: "use line.dar\nstart Sources(1)\nrun 1\nchange to Sources(3) within 1000000\nfinish within 1000000\nend\n",
        options: &["--workers", "1"],
    };
    let (gates, seat) = Gates::new(rt.alloc())?;
    let coming = Coming::new(&gates);
    let (status, _sink) = run_row(rt, rt.alloc(), &row, &coming, &gates, seat)?;
    assert!(rt; status == Status::Ok);
    assert!(rt; coming.is_held());
    Ok(())
}

/// Each node is found at the end, also those in the last slots, which have the line.
#[test]
fn as_many_nodes_as_can_be(rt: HostRuntime) -> Result<(), Fail> {
    let row = Row {
        file: "line.dar",
        description: LINES,
        script: "use line.dar\nstart Crowd(1020,50)\nfinish within 1000000\nend\n",
        options: &["--workers", "2"],
    };
    let (gates, seat) = Gates::new(rt.alloc())?;
    let (status, sink) = run_row(rt, rt.alloc(), &row, &Free, &gates, seat)?;
    assert!(rt; status == Status::Ok);
    let Ok(text) = from_utf8(sink.bytes()) else {
        return Err(Fail::new("a text"));
    };
    assert!(rt; count_lines(text, "log ") == 1_023);
    assert!(rt; count_lines(text, "end ") == 100);
    assert!(rt; comes_to_rest(text));
    Ok(())
}

/// A change that makes no node and removes none.
#[test]
fn links_alone_change(rt: HostRuntime) -> Result<(), Fail> {
    let row = Row {
        file: "line.dar",
        description: LINES,
        script: "use line.dar\nstart Either(0)\nchange to Either(1) within 1000000\nfinish within 1000000\nend\n",
        options: &["--workers", "1"],
    };
    let (gates, seat) = Gates::new(rt.alloc())?;
    let (status, sink) = run_row(rt, rt.alloc(), &row, &Free, &gates, seat)?;
    assert!(rt; status == Status::Ok);
    let Ok(text) = from_utf8(sink.bytes()) else {
        return Err(Fail::new("a text"));
    };
    assert!(rt; count_lines(text, "link ") == 2);
    assert!(rt; count_lines(text, "make ") == 3);
    assert!(rt; comes_to_rest(text));
    Ok(())
}

/// A line that is changed once.
fn changed_line<'a>(options: &'a [&'a str]) -> Row<'a> {
    Row {
        file: "line.dar",
        description: LINES,
        script: "use line.dar\nstart Line(3,10)\nchange to Line(3,20) within 1000000\nfinish within 1000000\nend\n",
        options,
    }
}

#[test]
fn watch_line(rt: HostRuntime) -> Result<(), Fail> {
    let row = changed_line(&["--workers", "2", "--watch", "1"]);
    let (gates, seat) = Gates::new(rt.alloc())?;
    let (status, sink) = run_row(rt, rt.alloc(), &row, &Free, &gates, seat)?;
    assert!(rt; status == Status::Ok);
    let Ok(text) = from_utf8(sink.bytes()) else {
        return Err(Fail::new("a text"));
    };
    assert!(rt; text.contains("\nstatus 0\nseen 0 "));
    // a node was removed that none took over from
    assert!(rt; comes_to_rest(text));
    assert!(rt; text.ends_with("\nseen 0 2 3 2\n"));
    Ok(())
}

#[test]
fn four_observers(rt: HostRuntime) -> Result<(), Fail> {
    let row = changed_line(&["--workers", "1", "--watch", "04"]);
    let (gates, seat) = Gates::new(rt.alloc())?;
    let (status, sink) = run_row(rt, rt.alloc(), &row, &Free, &gates, seat)?;
    assert!(rt; status == Status::Ok);
    let Ok(text) = from_utf8(sink.bytes()) else {
        return Err(Fail::new("a text"));
    };
    for observer in ["seen 0", "seen 1", "seen 2", "seen 3"] {
        let last = format!(in rt.alloc(); "\n{observer} 2 3 2\n")?;
        assert!(rt; text.contains(last.as_str()));
    }
    Ok(())
}

/// Words behind the script that are no options of a run.
static NO_OPTIONS: [&[&str]; 8] = [
    &["--workers", "2", "--watch", "0"],
    &["--workers", "2", "--watch", "5"],
    &["--workers", "2", "--watch", "-1"],
    &["--workers", "2", "--watch"],
    &["--watch", "1", "--workers", "2"],
    &["--watch", "1"],
    &["--workers", "2", "--watch", "1", "--watch", "1"],
    &["--workers", "2", "--watch", "1", "1"],
];

#[test]
fn no_options(rt: HostRuntime) -> Result<(), Fail> {
    for options in &NO_OPTIONS {
        let row = changed_line(options);
        let (gates, seat) = Gates::new(rt.alloc())?;
        let (status, is_back, sink) = run_words(rt, rt.alloc(), &row, &Free, &gates, seat)?;
        assert!(rt; status == Status::Usage);
        assert!(rt; !is_back);
        assert!(rt; sink.bytes() == "usage\n".as_bytes());
    }
    Ok(())
}

/// Which fetch fails, counted from 0, how many there are, the status, and what is written.
static FETCHES: [(u32, u32, u8, &str); 3] = [
    (0, 1, 4, "read fault s.cfg\n"),
    (1, 2, 4, "read fault line.dar\n"),
    (
        2,
        2,
        0,
        "report 2\nstart One()\nmake 0 a sink()\ncommit\nstop\nlog 0 a\nstate\nstatus 0\n",
    ),
];

/// The script is fetched, and what it uses, and nothing else is.
#[test]
fn each_file_is_fetched_once(rt: HostRuntime) -> Result<(), Fail> {
    let row = Row {
        file: "line.dar",
        description: LINES,
        script: "use line.dar\nstart One()\nend\n",
        options: &[],
    };
    for (fetch, fetches, wanted, written) in &FETCHES {
        let (status, is_back, sink) = run_failing(rt, rt.alloc(), &row, *fetch, *fetches)?;
        assert!(rt; status.number() == *wanted);
        assert!(rt; is_back == (*wanted == 0));
        assert!(rt; sink.bytes() == written.as_bytes());
    }
    Ok(())
}

/// What an observer notes of a line behind so many commits.
fn line_at(commits: u32) -> Sighting {
    Sighting {
        commits,
        nodes: 3,
        links: 2,
    }
}

#[test]
fn an_observer_reads(rt: HostRuntime) -> Result<(), Fail> {
    // nothing is changed before a transaction ended, and none begins before the observer noted the start
    let row = Row {
        file: "line.dar",
        description: LINES,
        script: "use line.dar\nstart Line(3,10)\nrun 1\nchange to Line(3,20) within 1000000\nfinish within 1000000\nend\n",
        options: &[],
    };
    let observers = Observers::new(1);
    let looking_on = LookingOn::new(&observers);
    let (status, seen) = run_beside(rt, rt.alloc(), &row, &looking_on, &observers)?;
    assert!(rt; status == 0);
    assert!(rt; looking_on.is_held());
    let Some(lines) = seen.first() else {
        return Err(Fail::new("lines"));
    };
    assert!(rt; lines.items().ends_with(&[line_at(1), line_at(2)]));
    Ok(())
}
