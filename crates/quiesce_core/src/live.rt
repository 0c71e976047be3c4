//! The graph of what is live.

ghost use Rattle.std.specs.Prelude.{◌≡◌, ◌≤◌, None, length, filter, filter_map, slice_index_or, IfOk};
ghost use Rattle.std.specs.List.{range_with_len};
ghost use Rattle.std.specs.Ordering.{nat_cmp};
ghost use Rattle.std.specs.Cmp.Lexicographic.{slice_cmp};
ghost use Rattle.config_graph.specs.declared.TheConstants.{MAX_NODES, MAX_PORTS};
ghost use Rattle.config_graph.specs.Graph.{ports};
ghost use Rattle.config_graph.specs.Sound.{Sound};
ghost use Rattle.quiesce_core.specs.State as state;
ghost use Rattle.quiesce_core.specs.WellFormed.{IsSound};
ghost use Rattle.quiesce_core.specs.Named.{AreNamed};
ghost use Rattle.quiesce_core.specs.Live.{IsGraphOf};
ghost use Rattle.quiesce_core.specs.Listed.{path_at, InPathOrder, ArePlaces, AreNodesOf, link_in};
ghost use Rattle.quiesce_core.specs.Links.{config_in};

use crate::links::Links;
use config_graph::{Graph, Link, NoMemory, Node};
use std::cmp::Ordering;

impl Links {
    /// The path of the node made in a slot.
    fn path(&self, slot: u32) -> &[u8]
        ensures { result.now ≡ path_at (config_in self.now) slot }
    {
        match self.slots.get(slot as usize) {
            Some(slot) => slot.node.path.as_bytes(),
            None => &[],
        }
    }

    /// How the nodes of two slots stand in the order of their paths.
    fn by_path(&self, slot: u32, other: u32) -> Ordering
        ensures { result ≡ slice_cmp nat_cmp (path_at (config_in self.now) slot)
            (path_at (config_in self.now) other) }
    {
        self.path(slot).cmp(self.path(other))
    }

    fn live_slots(&self) -> Result<Vec<u32>, NoMemory>
        requires { length (config_in self.now).slots ≤ MAX_NODES }
        ensures { IfOk result (λ v. v.items ≡ filter (state.is_live (config_in self.now))
            (range_with_len 0 (length (config_in self.now).slots))) }
    {
        let alloc = *self.slots.allocator();
        let slots = self.slots.len() as u32;
        (0..slots).filter(|slot| self.is_live(*slot)).collect(alloc)
    }

    /// The slots of the live nodes, in the order of their paths.
    fn in_path_order(&self) -> Result<Vec<u32>, NoMemory>
        requires few { length (config_in self.now).slots ≤ MAX_NODES }
        requires named { AreNamed (config_in self.now) }
        ensures { IfOk result (λ order. InPathOrder (config_in self.now) order.items) }
    {
        let mut order = self.live_slots()?;
        order.sort_by(|slot, other| self.by_path(*slot, *other))?;
        Ok(order)
    }

    /// Of each slot its place in the order, where it has one.
    fn places_in(&self, order: &[u32]) -> Result<Vec<Option<u32>>, NoMemory>
        requires few { length (config_in self.now).slots ≤ MAX_NODES }
        requires order { InPathOrder (config_in self.now) order.now }
        ensures { IfOk result (λ places. ArePlaces order.now (length order.now) places.items) }
    {
        let alloc = *self.slots.allocator();
        let mut places = vec![in alloc; None; self.slots.len()]?;
        for place in 0..order.len() {
            places[order[place] as usize] = Some(place as u32);
        }
        Ok(places)
    }

    /// Copies of the nodes in these slots.
    fn nodes_in(&self, order: &[u32]) -> Result<Vec<Node>, NoMemory>
        requires order { InPathOrder (config_in self.now) order.now }
        ensures { IfOk result
            (λ nodes. AreNodesOf (config_in self.now) order.now (length order.now) nodes.items) }
    {
        let alloc = *self.slots.allocator();
        let mut nodes = Vec::with_capacity(alloc, order.len())?;
        for slot in order {
            nodes.push(self.slots[*slot as usize].node.try_clone()?)?;
        }
        Ok(nodes)
    }

    /// The link of a port, between the places of its owner and its target.
    fn link(&self, port: u32, places: &[Option<u32>]) -> Option<Link>
        ensures { result ≡ link_in (config_in self.now) places.now port }
    {
        let gate = self.gate(port);
        let target = gate.target?;
        let from = place_of(places, gate.owner)?;
        let to = place_of(places, target.node)?;
        Some(Link {
            from,
            require: gate.require,
            to,
            provide: target.provide,
        })
    }

    fn links_in(&self, places: &[Option<u32>]) -> Result<Vec<Link>, NoMemory>
        requires { length (config_in self.now).gates ≤ MAX_PORTS }
        ensures { IfOk result (λ links. links.items ≡ filter_map (link_in (config_in self.now) places.now)
            (range_with_len 0 (length (config_in self.now).gates))) }
    {
        let alloc = *self.gates.allocator();
        let ports = self.gates.len() as u32;
        (0..ports)
            .filter_map(|port| self.link(port, places))
            .collect(alloc)
    }

    /// The graph of the live nodes and their links. Time grows with the number of nodes and ports, and for the order
    /// of the paths with that of the nodes times its logarithm.
    pub fn graph(&self) -> Result<Graph, NoMemory>
        requires sound { IsSound (config_in self.now) }
        requires named { AreNamed (config_in self.now) }
        ensures graph { IfOk result (IsGraphOf (config_in self.now)) }
        ensures sound { IfOk result Sound }
        ensures few_nodes { IfOk result (λ g. length g.nodes ≤ MAX_NODES) }
        ensures few_ports { IfOk result (λ g. length (ports g.nodes) ≤ MAX_PORTS) }
    {
        let order = self.in_path_order()?;
        let places = self.places_in(&order)?;
        let nodes = self.nodes_in(&order)?;
        let links = self.links_in(&places)?;
        Graph::build(*self.slots.allocator(), nodes, links)
    }
}

/// The place of a slot, where it has one.
fn place_of(places: &[Option<u32>], slot: u32) -> Option<u32>
    ensures { result ≡ slice_index_or places.now slot None }
{
    places.get(slot as usize).copied().flatten()
}
