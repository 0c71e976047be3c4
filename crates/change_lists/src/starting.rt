//! What a start does and tells.

ghost use Rattle.std.specs.Prelude.{◌≡◌, ◌<◌, ◌++◌, map, filter_map, option_to_list, IfOk, OnOk};
ghost use Rattle.std.specs.List.{enumerate_from};
ghost use Rattle.config_graph.specs.Graph.{ports, requires_at};
ghost use Rattle.quiesce_laws.specs.Starts.{link_of, make_of, reopen_of, start_of};

use config_graph::{Graph, NoMemory, Port};
use quiesce_core::Event;
use std::alloc::Global;

fn push_makes(events: &mut Vec<Event>, graph: &Graph) -> Result<(), NoMemory>
    ensures { OnOk result (events.new.items
        ≡ events.old.items ++ map make_of (enumerate_from 0 graph.now.nodes)) }
{
    for slot in 0..graph.node_count() {
        let node = graph.node(slot).try_clone()?;
        events.push(Event::Make {
            slot,
            node,
            from: None,
        })?;
    }
    Ok(())
}

/// Links a port as it is in the graph, if it is.
fn push_link(events: &mut Vec<Event>, graph: &Graph, port: u32, owned: Port) -> Result<(), NoMemory>
    requires { owned.require < requires_at graph.now.nodes owned.node }
    ensures { OnOk result (events.new.items ≡ events.old.items ++ option_to_list (link_of graph.now (port, owned))) }
{
    if let Some(target) = graph.target(owned.node, owned.require) {
        events.push(Event::Link {
            port,
            node: target.node,
            provide: target.provide,
        })?;
    }
    Ok(())
}

fn push_links(events: &mut Vec<Event>, graph: &Graph) -> Result<(), NoMemory>
    ensures { OnOk result (events.new.items
        ≡ events.old.items ++ filter_map (link_of graph.now) (enumerate_from 0 (ports graph.now.nodes))) }
{
    for port in 0..graph.port_count() {
        push_link(events, graph, port, graph.port(port))?;
    }
    Ok(())
}

fn push_reopens(events: &mut Vec<Event>, graph: &Graph) -> Result<(), NoMemory>
    ensures { OnOk result (events.new.items
        ≡ events.old.items ++ map reopen_of (enumerate_from 0 (ports graph.now.nodes))) }
{
    for port in 0..graph.port_count() {
        events.push(Event::Reopen { port })?;
    }
    Ok(())
}

/// The events of a graph's start, in order.
pub fn list_start(alloc: Global, graph: &Graph) -> Result<Vec<Event>, NoMemory>
    ensures { IfOk result (λ events. events.items ≡ start_of graph.now) }
{
    let mut events = Vec::new(alloc);
    push_makes(&mut events, graph)?;
    push_links(&mut events, graph)?;
    push_reopens(&mut events, graph)?;
    Ok(events)
}
