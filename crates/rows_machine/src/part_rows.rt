//! Rows of `parts`: which nodes change together, which parts that makes, and the moves of each.

ghost use Rattle.config_graph.specs.Sound.{Sound};
ghost use Rattle.change_parts.specs.Parts.{ArePlansWithin};

use crate::plan_rows::{Planned, planned, push_moves, refusal};
use crate::systems::{LINE, graph_after};
use change_parts::{Part, parts};
use change_plan::Move;
use config_graph::{Graph, Made, NoMemory, same};
use std::alloc::Global;
use std::process::Abort;
use std::test::Fail;

/// Two maps, each between a source and a sink.
const PAIR: &str = "make 0 a source(2)
make 1 b map(1)
make 2 c sink()
make 3 d source(2)
make 4 e map(1)
make 5 f sink()
link 0 1 0
link 1 2 0
link 2 4 0
link 3 5 0
";

const OTHER_PAIR: &str = "make 0 a source(2)
make 1 b map(2)
make 2 c sink()
make 3 d source(2)
make 4 e map(3)
make 5 f sink()
link 0 1 0
link 1 2 0
link 2 4 0
link 3 5 0
";

/// The first of two maps leads to the second, or the second to the first; and a source to one of two sinks.
const TURN: &str = "make 0 a map(1)
make 1 b map(1)
make 2 c source(1)
make 3 d sink()
make 4 e sink()
";

const TURNED: &str = "link 0 1 0\nlink 2 4 0\n";

const NOT_TURNED: &str = "link 1 0 0\nlink 2 3 0\n";

static PAIRS: [Planned; 6] = [
    (
        &[PAIR],
        &[OTHER_PAIR],
        &[],
        (6, 4),
        "part 1\nfreeze a\nfreeze b\nunlink a.out\nunlink b.next\nremove b\ncreate b map(2)\nlink a.out b.in\nlink b.next c.in\npart 2\nfreeze d\nfreeze e\nunlink d.out\nunlink e.next\nremove e\ncreate e map(3)\nlink d.out e.in\nlink e.next f.in\n",
    ),
    (
        &[PAIR],
        &[OTHER_PAIR],
        &[("e", "e"), ("b", "b")],
        (6, 4),
        "part 1\nfreeze a\nfreeze b\nunlink a.out\nunlink b.next\nremove b\ncreate b map(2)\nlink a.out b.in\nlink b.next c.in\nmove 1 1\npart 2\nfreeze d\nfreeze e\nunlink d.out\nunlink e.next\nremove e\ncreate e map(3)\nlink d.out e.in\nlink e.next f.in\nmove 4 4\n",
    ),
    (
        &[PAIR],
        &[OTHER_PAIR],
        &[("b", "e")],
        (6, 4),
        "part 1\nfreeze a\nfreeze b\nfreeze d\nfreeze e\nunlink a.out\nunlink b.next\nunlink d.out\nunlink e.next\nremove b\nremove e\ncreate b map(2)\ncreate e map(3)\nlink a.out b.in\nlink b.next c.in\nlink d.out e.in\nlink e.next f.in\nmove 1 4\n",
    ),
    (
        &[TURN, NOT_TURNED],
        &[TURN, TURNED],
        &[],
        (5, 3),
        "part 1\nfreeze a\nfreeze b\nunlink b.next\nlink a.next b.in\npart 2\nfreeze c\nunlink c.out\nlink c.out e.in\n",
    ),
    (&[LINE], &[LINE], &[], (1023, 4096), ""),
    (
        &[],
        &[LINE],
        &[],
        (0, 0),
        "part 1\ncreate m map(10)\ncreate s source(3)\ncreate t sink()\nlink m.next t.in\nlink s.out m.in\n",
    ),
];

static REFUSALS: [Planned; 3] = [
    (
        &[PAIR],
        &[OTHER_PAIR],
        &[("a", "b")],
        (6, 4),
        "NotRemoved a",
    ),
    (
        &[PAIR],
        &[OTHER_PAIR],
        &[("b", "e"), ("e", "e")],
        (6, 4),
        "MovedTwice e",
    ),
    (&[PAIR], &[OTHER_PAIR], &[], (1022, 4), "NodesFull 1022 2"),
];

/// A line with the number of each part, and the text of its plan.
fn push_parts(alloc: Global, out: &mut String, old: &Graph, parts: &[Part]) -> Result<(), NoMemory>
    requires { ArePlansWithin old.now parts.now }
{
    let mut before = old;
    for index in 0..parts.len() {
        let part = &parts[index];
        let line = format!(in alloc; "part {}\n", index + 1)?;
        out.push_str(line.as_str())?;
        let text = planned(alloc, before, &part.next, &part.plan)?;
        out.push_str(text.as_str())?;
        before = &part.next;
    }
    Ok(())
}

/// The text of all parts, or the refusal.
fn outcome(
    alloc: Global,
    old: &Graph,
    new: &Graph,
    moves: &[Move],
    made: Made,
) -> Result<String, NoMemory>
    requires old { Sound old.now }
    requires new { Sound new.now }
{
    match parts(alloc, old, new, moves, made) {
        Ok(parts) => {
            let mut out = String::new(alloc);
            push_parts(alloc, &mut out, old, parts.items())?;
            Ok(out)
        }
        Err(error) => refusal(alloc, &error),
    }
}

fn assert_between(
    rt: &impl Abort,
    alloc: Global,
    old: &Graph,
    new: &Graph,
    row: &Planned,
) -> Result<(), NoMemory>
    requires old { Sound old.now }
    requires new { Sound new.now }
{
    let (_, _, pairs, (nodes, ports), wanted) = row;
    let mut moves = Vec::new(alloc);
    push_moves(alloc, &mut moves, pairs)?;
    let made = Made {
        nodes: *nodes,
        ports: *ports,
    };
    let found = outcome(alloc, old, new, &moves, made)?;
    assert!(rt; found.as_str() == *wanted);
    Ok(())
}

fn assert_outcome(rt: &impl Abort, alloc: Global, row: &Planned) -> Result<(), Fail> {
    let old = graph_after(rt, alloc, row.0)?;
    let new = graph_after(rt, alloc, row.1)?;
    assert_between(rt, alloc, &old, &new, row)?;
    Ok(())
}

fn assert_outcomes(rt: &impl Abort, alloc: Global, rows: &[Planned]) -> Result<(), Fail> {
    for row in rows {
        assert_outcome(rt, alloc, row)?;
    }
    Ok(())
}

#[test]
fn parts_between_systems(rt: HostRuntime) -> Result<(), Fail> {
    assert_outcomes(&rt, rt.alloc(), &PAIRS)
}

#[test]
fn parts_are_refused(rt: HostRuntime) -> Result<(), Fail> {
    assert_outcomes(&rt, rt.alloc(), &REFUSALS)
}

/// So many sources with two sinks are as many nodes as one run makes at most.
const SOURCES: u32 = 1021;

/// Sources, each linked to one of two sinks behind them.
fn fan(alloc: Global, sink: u32) -> Result<String, NoMemory> {
    let mut text = String::new(alloc);
    for number in 0..SOURCES {
        let line = format!(in alloc; "make {number} s{number:04} source(1)\n")?;
        text.push_str(line.as_str())?;
    }
    let line = format!(in alloc;
        "make {} x sink()\nmake {} y sink()\n",
        SOURCES,
        SOURCES + 1
    )?;
    text.push_str(line.as_str())?;
    for number in 0..SOURCES {
        let line = format!(in alloc; "link {number} {sink} 0\n")?;
        text.push_str(line.as_str())?;
    }
    Ok(text)
}

/// Each source gets the other sink in a part of its own.
fn assert_fan(rt: &impl Abort, alloc: Global) -> Result<(), Fail> {
    let old = graph_after(rt, alloc, &[fan(alloc, SOURCES)?.as_str()])?;
    let new = graph_after(rt, alloc, &[fan(alloc, SOURCES + 1)?.as_str()])?;
    assert_count(rt, alloc, &old, &new, SOURCES)
}

/// There are so many parts, and the last leads to the new graph.
fn assert_count(
    rt: &impl Abort,
    alloc: Global,
    old: &Graph,
    new: &Graph,
    count: u32,
) -> Result<(), Fail>
    requires old { Sound old.now }
    requires new { Sound new.now }
{
    let made = Made {
        nodes: 1023,
        ports: 1021,
    };
    match parts(alloc, old, new, &[], made) {
        Ok(parts) => {
            assert!(rt; parts.items().len() == count as usize);
            match parts.items().last() {
                Some(part) => assert!(rt; same(&part.next, new)),
                None => assert!(rt; count == 0),
            }
        }
        Err(_) => assert!(rt; false),
    }
    Ok(())
}

#[test]
fn a_part_for_each_of_many_groups(rt: HostRuntime) -> Result<(), Fail> {
    assert_fan(&rt, rt.alloc())
}
