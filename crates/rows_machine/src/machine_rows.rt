//! Rows of the change machine's state: words, what is left to happen, nodes made in reserve, and the graph of what is
//! live.

ghost use Rattle.std.specs.Prelude.{◌≡◌, None};
ghost use Rattle.quiesce_core.specs.declared.event.Event.TheVariants as event;

use crate::systems::{BANK, LINE, TWO, WITHOUT_SINK, core_after, graph_after};
use config_graph::{Graph, Kind, Link, Made, NoMemory, Node, Text, same};
use quiesce_core::{Core, Event, OpenTxn, Stage};
use std::alloc::Global;
use std::process::Abort;
use std::test::Fail;

/// Events of the line, a port, its word and its next serial, and how much is left to happen.
type Worded = (&'static str, u32, u64, u32, u128);

static WORDED: [Worded; 2] = [
    ("begin 1 1 1", 1, 0x2004_0000_0100_0001, 2, 7),
    (
        "begin 1 1 1\ntake 1 1 1\ncall 0 1 11",
        0,
        0x300c_0000_0100_000b,
        2,
        5,
    ),
];

fn is_worded(core: &Core, (_, port, word, serial, rest): &Worded) -> bool {
    core.made().ports == 2
        && *port < 2
        && core.word(*port) == *word
        && core.next_serial(*port) == Some(*serial)
        && core.rest() == *rest
}

fn assert_worded(rt: &impl Abort, alloc: Global, row: &Worded) -> Result<(), Fail> {
    let core = core_after(rt, alloc, &[LINE, row.0])?;
    assert!(rt; is_worded(&core, row), "{}", row.0);
    Ok(())
}

#[test]
fn words_and_rests(rt: HostRuntime) -> Result<(), Fail> {
    for row in &WORDED {
        assert_worded(&rt, rt.alloc(), row)?;
    }
    Ok(())
}

/// The root transaction of port 0, with serial number 1, is taken.
fn is_taken(open: &OpenTxn) -> bool {
    open.port == 0 && open.serial == 1 && open.root && matches!(open.stage, Stage::Taken)
}

fn is_open(core: &Core) -> Result<bool, NoMemory> {
    let open = core.open_txns()?;
    Ok(open.len() == 1 && open.iter().all(is_taken))
}

/// Slots, and whether what was made there is live.
static LIVE: [(u32, bool); 4] = [(0, true), (1, true), (2, false), (3, false)];

/// Where it is live, it is settled.
fn assert_live(rt: &impl Abort, core: &Core, (slot, is_live): &(u32, bool)) {
    let found = core.is_live(*slot);
    assert!(rt; found == *is_live, "{slot}");
    if found {
        assert!(rt; core.settled(*slot), "{slot}");
    }
}

fn assert_all_live(rt: &impl Abort, core: &Core) {
    for row in &LIVE {
        assert_live(rt, core, row);
    }
}

fn assert_open(rt: &impl Abort, core: &Core) -> Result<(), Fail> {
    assert!(rt; is_open(core)?);
    assert!(rt; core.rest() == 4);
    Ok(())
}

#[test]
fn what_is_open_and_settled(rt: HostRuntime) -> Result<(), Fail> {
    let steps = "begin 0 1 5\ntake 0 1 5\nmore 0 1 5\nclose 0";
    let open = core_after(&rt, rt.alloc(), &[TWO, steps])?;
    assert_open(&rt, &open)?;
    let apart = core_after(&rt, rt.alloc(), &[LINE, WITHOUT_SINK])?;
    assert_all_live(&rt, &apart);
    Ok(())
}

/// Makes the node as the event says, which no rule denies.
fn make_reserved(rt: &impl Abort, core: &mut Core, making: &Event, node: Node)
    requires { making.now ≡ event.Make 3 node None }
{
    assert!(rt; core.made() == Made { nodes: 3, ports: 2 });
    assert!(rt; core.reserve(2).is_ok());
    assert!(rt; core.denial(making).is_none());
    core.make(node, None);
}

fn assert_made(rt: &impl Abort, core: &Core) {
    assert!(rt; core.made() == Made { nodes: 4, ports: 3 });
    assert!(rt; core.is_live(3));
    assert!(rt; core.node(3).path.as_bytes() == b"t".as_slice());
}

fn assert_makes(rt: &impl Abort, core: &mut Core, node: Node) -> Result<(), NoMemory> {
    let event = Event::Make {
        slot: 3,
        node: node.try_clone()?,
        from: None,
    };
    make_reserved(rt, core, &event, node);
    assert_made(rt, core);
    Ok(())
}

fn map_named(alloc: Global, path: &[u8]) -> Result<Node, NoMemory> {
    Ok(Node {
        path: Text::from_bytes(alloc, path)?,
        kind: Kind::Map,
        arg: Some(7),
    })
}

#[test]
fn makes_in_reserve(rt: HostRuntime) -> Result<(), Fail> {
    let map = map_named(rt.alloc(), b"t")?;
    let mut core = core_after(&rt, rt.alloc(), &[LINE, WITHOUT_SINK])?;
    assert_makes(&rt, &mut core, map)?;
    Ok(())
}

/// Paths of the bank, and their places in its graph.
static PATHS: [(&[u8], u32); 4] = [(b"a", 0), (b"r", 1), (b"w", 2), (b"x", 3)];

static LINKS: [Link; 4] = [
    Link {
        from: 1,
        require: 0,
        to: 0,
        provide: 0,
    },
    Link {
        from: 1,
        require: 1,
        to: 0,
        provide: 0,
    },
    Link {
        from: 2,
        require: 0,
        to: 1,
        provide: 0,
    },
    Link {
        from: 3,
        require: 0,
        to: 0,
        provide: 0,
    },
];

fn assert_in_order(rt: &impl Abort, graph: &Graph) {
    for (path, index) in &PATHS {
        assert!(rt; graph.index_of(path) == Some(*index), "{index}");
    }
    assert!(rt; graph.links() == LINKS.as_slice());
}

#[test]
fn a_graph_is_in_order(rt: HostRuntime) -> Result<(), Fail> {
    let graph = graph_after(&rt, rt.alloc(), &[BANK])?;
    assert_in_order(&rt, &graph);
    Ok(())
}

fn has_graph(core: &Core, graph: &Graph) -> Result<bool, NoMemory> {
    let found = core.graph()?;
    Ok(same(&found, graph))
}

/// Whether a system that is started from the graph of this one has the same.
fn starts_again(alloc: Global, core: &Core) -> Result<bool, NoMemory> {
    let graph = core.graph()?;
    let started = Core::of(alloc, &graph)?;
    has_graph(&started, &graph)
}

#[test]
fn a_started_system_has_its_graph(rt: HostRuntime) -> Result<(), Fail> {
    let core = core_after(&rt, rt.alloc(), &[BANK])?;
    assert!(rt; starts_again(rt.alloc(), &core)?);
    Ok(())
}

/// The event happens.
fn happens(rt: &impl Abort, core: &mut Core, event: &Event) {
    assert!(rt; core.apply(event) == Ok(()));
}

fn links(rt: &impl Abort, core: &mut Core, port: u32, node: u32) {
    let event = Event::Link {
        port,
        node,
        provide: 0,
    };
    happens(rt, core, &event);
}

fn node_of(alloc: Global, slot: u32, kind: Kind, arg: Option<u32>) -> Result<Node, NoMemory> {
    let path = format!(in alloc; "n[{slot}]")?;
    let path = Text::from_bytes(alloc, path.as_str().as_bytes())?;
    Ok(Node { path, kind, arg })
}

fn makes(
    rt: &impl Abort,
    alloc: Global,
    core: &mut Core,
    slot: u32,
    kind: Kind,
    arg: Option<u32>,
) -> Result<(), NoMemory> {
    let event = Event::Make {
        slot,
        node: node_of(alloc, slot, kind, arg)?,
        from: None,
    };
    happens(rt, core, &event);
    Ok(())
}

/// So many branches, and a teller.
fn make_all(rt: &impl Abort, alloc: Global, core: &mut Core, places: u32) -> Result<(), NoMemory> {
    for slot in 0..places {
        makes(rt, alloc, core, slot, Kind::Branch, None)?;
    }
    makes(rt, alloc, core, places, Kind::Teller, Some(1))
}

/// Both ways of each branch lead to the next.
fn link_all(rt: &impl Abort, core: &mut Core, places: u8) {
    for node in 1..places as u32 {
        links(rt, core, 2 * node - 2, node);
        links(rt, core, 2 * node - 1, node);
    }
}

/// So many branches, both ways of each of which lead to the next, and above them a teller whose port is open.
fn ladder(rt: &impl Abort, alloc: Global, places: u8) -> Result<Core, NoMemory> {
    let mut core = Core::empty(alloc);
    make_all(rt, alloc, &mut core, places as u32)?;
    link_all(rt, &mut core, places);
    let port = 2 * places as u32;
    links(rt, &mut core, port, 0);
    happens(rt, &mut core, &Event::Reopen { port });
    Ok(core)
}

/// The teller of a ladder of so many places begins.
fn begins(rt: &impl Abort, core: &mut Core, places: u8) {
    let begin = Event::Begin {
        port: 2 * places as u32,
        serial: 1,
        value: 1,
    };
    happens(rt, core, &begin);
}

/// A map above a ladder of 60 branches and a teller is settled; then its port is linked, and the teller begins.
fn assert_searched(rt: &impl Abort, core: &mut Core) {
    let is_live = core.is_live(61);
    assert!(rt; is_live);
    if is_live {
        assert!(rt; core.settled(61));
    }
    links(rt, core, 121, 0);
    begins(rt, core, 60);
    assert!(rt; core.rest() == 5_764_607_523_034_234_875);
}

/// A search that went each way of a ladder, of which there are 2^59, would not end.
#[test]
fn a_ladder_is_searched_once(rt: HostRuntime) -> Result<(), Fail> {
    let mut core = ladder(&rt, rt.alloc(), 60)?;
    makes(&rt, rt.alloc(), &mut core, 61, Kind::Map, Some(0))?;
    assert_searched(&rt, &mut core);
    Ok(())
}

/// Places of a ladder whose teller began, and how much is left to happen.
static RESTS: [(u8, u128); 2] = [
    (125, 212_676_479_325_586_539_664_609_129_644_855_132_155),
    (126, 340_282_366_920_938_463_463_374_607_431_768_211_455),
];

fn assert_rest(
    rt: &impl Abort,
    alloc: Global,
    (places, rest): &(u8, u128),
) -> Result<(), NoMemory> {
    let mut core = ladder(rt, alloc, *places)?;
    begins(rt, &mut core, *places);
    assert!(rt; core.rest() == *rest, "{places}");
    Ok(())
}

#[test]
fn rest_stands_still_at_128_bits(rt: HostRuntime) -> Result<(), Fail> {
    for row in &RESTS {
        assert_rest(&rt, rt.alloc(), row)?;
    }
    Ok(())
}
