//! Where the nodes of a graph stand on a board, and whose requirements its ports are.

ghost use Rattle.std.specs.Prelude.{◌≡◌, ◌^◌, ◌<◌, ◌++◌, ◌∷◌, [], filter, length, map, Some, IfOk, OnOk};
ghost use Rattle.std.specs.List.{range_with_len};
ghost use Rattle.config_graph.specs.Graph.{ports};
ghost use Rattle.change_lists.specs.Layouts.{is_live_at, live_at, place_at};

use config_graph::{Graph, NoMemory, Port};
use std::alloc::Global;

/// The slots and the ports that were made on a board, by their numbers.
#[derive(Drop)]
pub struct Layout {
    /// For each slot the place of its node in the graph, where that is live.
    pub places: Vec<Option<u32>>,
    /// For each port the slot of its node, and which requirement it is.
    pub ports: Vec<Port>,
}

fn list_places(alloc: Global, count: u32) -> Result<Vec<Option<u32>>, NoMemory>
    ensures { IfOk result (λ places. places.items ≡ map Some (range_with_len 0 count)) }
{
    let mut places = Vec::with_capacity(alloc, count as usize)?;
    for place in 0..count {
        places.push(Some(place))?;
    }
    Ok(places)
}

fn list_ports(alloc: Global, graph: &Graph) -> Result<Vec<Port>, NoMemory>
    ensures { IfOk result (λ list. list.items ≡ ports graph.now.nodes) }
{
    let mut ports = Vec::with_capacity(alloc, graph.port_count() as usize)?;
    for number in 0..graph.port_count() {
        ports.push(graph.port(number))?;
    }
    Ok(ports)
}

impl Layout {
    /// That of a board on which a graph was started.
    pub fn of(alloc: Global, graph: &Graph) -> Result<Layout, NoMemory>
        ensures places { IfOk result
            (λ l. l.places.items ≡ map Some (range_with_len 0 (length graph.now.nodes))) }
        ensures ports { IfOk result (λ l. l.ports.items ≡ ports graph.now.nodes) }
    {
        let places = list_places(alloc, graph.node_count())?;
        let ports = list_ports(alloc, graph)?;
        Ok(Layout { places, ports })
    }

    /// How many ports there are.
    pub fn port_count(&self) -> u32
        requires few { length self.now.ports.items < 2 ^ 32 }
        ensures { result ≡ length self.now.ports.items }
    {
        self.ports.len() as u32
    }

    /// The place of the node in a slot, where that is live.
    pub fn place(&self, slot: u32) -> Option<u32>
        ensures { result ≡ place_at self.now.places.items slot }
    {
        match self.places.get(slot as usize) {
            Some(place) => *place,
            None => None,
        }
    }

    /// Whether the owner of a port is live.
    pub fn is_live_port(&self, port: u32) -> bool
        ensures { result ≡ is_live_at self.now.places.items self.now.ports.items port }
    {
        match self.ports.get(port as usize) {
            Some(made) => self.place(made.node).is_some(),
            None => false,
        }
    }

    /// Adds the port where its owner is live.
    fn push_if_live(&self, live: &mut Vec<u32>, port: u32) -> Result<(), NoMemory>
        ensures { OnOk result (live.new.items
            ≡ live.old.items ++ filter (is_live_at self.now.places.items self.now.ports.items) (port ∷ [])) }
    {
        if self.is_live_port(port) {
            live.push(port)?;
        }
        Ok(())
    }

    /// The ports of all live nodes, in order.
    pub fn live_ports(&self, alloc: Global) -> Result<Vec<u32>, NoMemory>
        requires few { length self.now.ports.items < 2 ^ 32 }
        ensures { IfOk result (λ list. list.items ≡ live_at self.now.places.items self.now.ports.items) }
    {
        let mut live = Vec::new(alloc);
        for port in 0..self.port_count() {
            self.push_if_live(&mut live, port)?;
        }
        Ok(live)
    }
}
