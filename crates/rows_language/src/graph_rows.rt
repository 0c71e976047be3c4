//! Rows of graphs: the table of kinds, a graph of three nodes with its look-ups and text, and circles.

ghost use Rattle.std.specs.Prelude.{◌≡◌, ◌⊎◌, IfOk};

use base::{NoMemory, Text};
use config_graph::{
    Graph, Kind, Link, Node, Port, Target, first_on_cycle, graph_text, has_cycle, kind_of, same,
};
use std::alloc::Global;
use std::test::Fail;

/// A kind's number, name, provided and required services, whether it has an argument, and the calls and intermediate
/// replies of one service.
type Columns = (u32, &'static str, u32, u32, bool, u32, u32);

static KINDS: [Columns; 12] = [
    (0, "philosopher", 0, 1, true, 0, 0),
    (1, "place", 1, 2, true, 4, 0),
    (2, "fork", 1, 0, false, 0, 0),
    (3, "source", 0, 1, true, 0, 0),
    (4, "map", 1, 1, true, 1, 0),
    (5, "buffer", 1, 1, true, 0, 0),
    (6, "sink", 1, 0, false, 0, 0),
    (7, "teller", 0, 1, true, 0, 0),
    (8, "branch", 1, 2, false, 2, 0),
    (9, "account", 1, 0, true, 0, 0),
    (10, "asker", 0, 1, true, 0, 0),
    (11, "adder", 1, 0, false, 0, 1),
];

/// Whether a kind of this name has these columns.
fn has_columns((number, name, provides, requires_, has_arg, calls, mores): &Columns) -> bool {
    let Some(kind) = kind_of(name.as_bytes()) else {
        return false;
    };
    kind.name() == *name
        && kind.number() == *number
        && kind.provides() == *provides
        && kind.requires_() == *requires_
        && kind.has_arg() == *has_arg
        && kind.max_calls(0) == *calls
        && kind.max_mores(0) == *mores
        && kind.depends(0, 0) == (*calls > 0)
}

#[test]
fn kinds_have_their_columns(rt: HostRuntime) {
    for columns in &KINDS {
        assert!(rt; has_columns(columns), "{}", columns.1);
    }
}

#[test]
fn services_have_names(rt: HostRuntime) {
    assert!(rt; kind_of(b"forks").is_none());
    assert!(rt; Kind::Branch.require_name(1) == "to");
    assert!(rt; Kind::Place.provide_name(0) == "dine");
}

fn node(alloc: Global, path: &[u8], kind: Kind, arg: Option<u32>) -> Result<Node, NoMemory>
    ensures { IfOk result (λ n. n ≡ record { path = path.now; kind = kind; arg = arg }) }
{
    let path = Text::from_bytes(alloc, path)?;
    Ok(Node { path, kind, arg })
}

/// A map that is not linked, a source that is linked to it, and a sink.
fn three_nodes(alloc: Global) -> Result<Graph, NoMemory> {
    let m = node(alloc, b"m", Kind::Map, Some(10))?;
    let s = node(alloc, b"s", Kind::Source, Some(3))?;
    let t = node(alloc, b"t", Kind::Sink, None)?;
    let link = Link {
        from: 1,
        require: 0,
        to: 0,
        provide: 0,
    };
    let nodes = vec![in alloc; m, s, t]?;
    let links = vec![in alloc; link]?;
    Graph::build(alloc, nodes, links)
}

/// One node whose port is linked to its own provision.
fn linked_to_itself(alloc: Global, kind: Kind) -> Result<Graph, NoMemory>
    requires { (kind ≡ Kind.Map) ⊎ (kind ≡ Kind.Buffer) }
{
    let own = node(alloc, b"m", kind, Some(1))?;
    let link = Link {
        from: 0,
        require: 0,
        to: 0,
        provide: 0,
    };
    let nodes = vec![in alloc; own]?;
    let links = vec![in alloc; link]?;
    Graph::build(alloc, nodes, links)
}

/// What each port is linked to, by the port's number.
fn targets(alloc: Global, graph: &Graph) -> Result<Vec<Option<Target>>, NoMemory> {
    let mut targets = Vec::new(alloc);
    for number in 0..graph.port_count() {
        let Port { node, require } = graph.port(number);
        targets.push(graph.target(node, require))?;
    }
    Ok(targets)
}

/// How many ports are linked to each node.
fn counts(alloc: Global, graph: &Graph) -> Result<Vec<usize>, NoMemory> {
    let mut counts = Vec::new(alloc);
    for index in 0..graph.node_count() {
        if graph.node(index).kind.provides() > 0 {
            counts.push(graph.incoming(index, 0).len())?;
        }
    }
    Ok(counts)
}

#[test]
fn three_nodes_are_linked(rt: HostRuntime) -> Result<(), Fail> {
    let graph = three_nodes(rt.alloc())?;
    let target = Target {
        node: 0,
        provide: 0,
    };
    let targets = targets(rt.alloc(), &graph)?;
    assert!(rt; targets.as_slice() == [None, Some(target)].as_slice());
    let counts = counts(rt.alloc(), &graph)?;
    assert!(rt; counts.as_slice() == [1, 0].as_slice());
    Ok(())
}

#[test]
fn three_nodes_are_found(rt: HostRuntime) -> Result<(), Fail> {
    let graph = three_nodes(rt.alloc())?;
    assert!(rt; graph.index_of(b"t") == Some(2));
    assert!(rt; graph.index_of(b"u") == None);
    Ok(())
}

#[test]
fn a_copy_is_the_same(rt: HostRuntime) -> Result<(), Fail> {
    let graph = three_nodes(rt.alloc())?;
    let copy = graph.try_clone()?;
    assert!(rt; same(&graph, &copy));
    assert!(rt; first_on_cycle(rt.alloc(), &copy)? == None);
    Ok(())
}

#[test]
fn three_nodes_have_their_text(rt: HostRuntime) -> Result<(), Fail> {
    let graph = three_nodes(rt.alloc())?;
    let text = graph_text(rt.alloc(), &graph)?;
    let expected =
        "node m map(10)\nport m.next -\nnode s source(3)\nport s.out m.in\nnode t sink()\n";
    assert!(rt; text.as_slice() == expected.as_bytes());
    Ok(())
}

#[test]
fn a_map_in_a_circle_is_on_a_cycle_and_a_buffer_is_not(rt: HostRuntime) -> Result<(), Fail> {
    let map = linked_to_itself(rt.alloc(), Kind::Map)?;
    assert!(rt; first_on_cycle(rt.alloc(), &map)? == Some(0));
    assert!(rt; has_cycle(rt.alloc(), &map)?);
    let buffer = linked_to_itself(rt.alloc(), Kind::Buffer)?;
    assert!(rt; first_on_cycle(rt.alloc(), &buffer)? == None);
    assert!(rt; !has_cycle(rt.alloc(), &buffer)?);
    Ok(())
}
