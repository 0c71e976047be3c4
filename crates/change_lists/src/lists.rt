//! The lists of a plan on a board: what is closed for it, what its commit does, and what is made after it.

ghost use Rattle.std.specs.Prelude.{◌≡◌, ◌^◌, ◌<◌, ◌+◌, ◌++◌, ◌∷◌, [], filter, find, length, map, nat_lt, option_and_then, option_to_list, true, All, IfOk, IsTrue, OnOk};
ghost use Rattle.std.specs.List.{range_with_len};
ghost use Rattle.std.specs.Option.{option_map_or};
ghost use Rattle.change_lists.specs.Layouts.{is_among, place_at};
ghost use Rattle.change_lists.specs.Lists as lists;
ghost use Rattle.config_graph.specs.Kinds.{row};
ghost use Rattle.change_plan_laws.specs.Commit.{node_path};
ghost use Rattle.quiesce_core.specs.declared.event.Event.TheVariants as event;

use crate::layout::Layout;
use crate::lookups::SlotIndex;
use crate::plan_index::PlanIndex;
use config_graph::{Graph, Kind, Link, NoMemory, Port};
use quiesce_core::Event;
use std::alloc::Global;

/// The link that a port gets, to the slot of the node at which it ends.
fn link_to(slots: &SlotIndex<'_>, port: u32, link: Link) -> Option<Event>
    ensures { result ≡ lists.link_to slots.now port link }
{
    match slots.slot(link.to) {
        Some(node) => Some(Event::Link {
            port,
            node,
            provide: link.provide,
        }),
        None => None,
    }
}

/// The path of the node at a place of a graph.
fn path_of(graph: &Graph, place: u32) -> &[u8]
    ensures { result.now ≡ node_path graph.now place }
{
    match graph.nodes().get(place as usize) {
        Some(node) => node.path.as_bytes(),
        None => &[],
    }
}

/// The slot of the node whose state the one at a place of the new graph takes over.
fn source(slots: &SlotIndex<'_>, plan: &PlanIndex<'_>, place: u32) -> Option<u32>
    ensures { result ≡ lists.source_by slots.now plan.now.moves place }
{
    match plan.source(place) {
        Some(old) => slots.slot(old),
        None => None,
    }
}

/// Where the node at a place of the old graph stands in the new one, while it isn't removed.
fn place_after(old: &Graph, new: &Graph, plan: &PlanIndex<'_>, place: Option<u32>) -> Option<u32>
    ensures { result ≡ lists.place_after old.now new.now plan.now.remove place }
{
    let stood = place?;
    if plan.removes(place) {
        return None;
    }
    new.index_of(path_of(old, stood))
}

/// Adds the ports of a node of a kind in a slot.
fn push_ports(ports: &mut Vec<Port>, node: u32, kind: Kind) -> Result<(), NoMemory>
    ensures { OnOk result (ports.new.items ≡ ports.old.items
        ++ map (λ r. record { node = node; require = r }) (range_with_len 0 (length (row kind).requires_))) }
{
    for require in 0..kind.requires_() {
        ports.push(Port { node, require })?;
    }
    Ok(())
}

/// What the commit of a plan does, and what is made on the board after it.
#[derive(Drop)]
pub struct Commit {
    pub events: Vec<Event>,
    pub next: Layout,
}

impl Layout {
    /// The place of the owner of a port, where that is live.
    fn owner_place(&self, port: u32) -> Option<u32>
        ensures { result ≡ lists.owner_place self.now.places.items self.now.ports.items port }
    {
        let made = self.ports.get(port as usize)?;
        self.place(made.node)
    }

    /// Adds the port where its owner is frozen.
    fn push_if_frozen(
        &self,
        ports: &mut Vec<u32>,
        plan: &PlanIndex<'_>,
        port: u32,
    ) -> Result<(), NoMemory>
        ensures { OnOk result (ports.new.items ≡ ports.old.items
            ++ filter (λ p. is_among plan.now.freeze (lists.owner_place self.now.places.items self.now.ports.items p))
            (port ∷ [])) }
    {
        if plan.freezes(self.owner_place(port)) {
            ports.push(port)?;
        }
        Ok(())
    }

    /// The ports of the nodes that a plan freezes, in order.
    pub fn list_closed(&self, alloc: Global, plan: &PlanIndex<'_>) -> Result<Vec<u32>, NoMemory>
        requires few { length self.now.ports.items < 2 ^ 32 }
        ensures { IfOk result
            (λ list. list.items ≡ lists.closed_by self.now.places.items self.now.ports.items plan.now.freeze) }
    {
        let mut ports = Vec::new(alloc);
        for port in 0..self.port_count() {
            self.push_if_frozen(&mut ports, plan, port)?;
        }
        Ok(ports)
    }

    /// Whether a port is one that a plan unlinks.
    fn is_unlinked(&self, plan: &PlanIndex<'_>, port: u32) -> bool
        ensures { result ≡ lists.is_unlinked_at self.now.places.items self.now.ports.items plan.now.unlink port }
    {
        match self.ports.get(port as usize) {
            Some(made) => plan.unlinks(self.place(made.node), *made),
            None => false,
        }
    }

    fn push_if_unlinked(
        &self,
        events: &mut Vec<Event>,
        plan: &PlanIndex<'_>,
        port: u32,
    ) -> Result<(), NoMemory>
        ensures { OnOk result (events.new.items ≡ events.old.items ++ map event.Unlink
            (filter (lists.is_unlinked_at self.now.places.items self.now.ports.items plan.now.unlink) (port ∷ []))) }
    {
        if self.is_unlinked(plan, port) {
            events.push(Event::Unlink { port })?;
        }
        Ok(())
    }

    fn push_unlinks(&self, events: &mut Vec<Event>, plan: &PlanIndex<'_>) -> Result<(), NoMemory>
        requires few { length self.now.ports.items < 2 ^ 32 }
        ensures { OnOk result (events.new.items ≡ events.old.items
            ++ map event.Unlink (lists.unlinks_by self.now.places.items self.now.ports.items plan.now.unlink)) }
    {
        for port in 0..self.port_count() {
            self.push_if_unlinked(events, plan, port)?;
        }
        Ok(())
    }

    /// How many slots there are.
    fn slot_count(&self) -> u32
        requires few { length self.now.places.items < 2 ^ 32 }
        ensures { result ≡ length self.now.places.items }
    {
        self.places.len() as u32
    }

    fn push_if_removed(
        &self,
        events: &mut Vec<Event>,
        plan: &PlanIndex<'_>,
        node: u32,
    ) -> Result<(), NoMemory>
        ensures { OnOk result (events.new.items ≡ events.old.items ++ map event.Remove
            (filter (λ n. is_among plan.now.remove (place_at self.now.places.items n)) (node ∷ []))) }
    {
        if plan.removes(self.place(node)) {
            events.push(Event::Remove { node })?;
        }
        Ok(())
    }

    fn push_removes(&self, events: &mut Vec<Event>, plan: &PlanIndex<'_>) -> Result<(), NoMemory>
        requires few { length self.now.places.items < 2 ^ 32 }
        ensures { OnOk result (events.new.items ≡ events.old.items
            ++ map event.Remove (lists.removes_by self.now.places.items plan.now.remove)) }
    {
        for node in 0..self.slot_count() {
            self.push_if_removed(events, plan, node)?;
        }
        Ok(())
    }

    fn push_makes(
        &self,
        events: &mut Vec<Event>,
        slots: &SlotIndex<'_>,
        new: &Graph,
        plan: &PlanIndex<'_>,
    ) -> Result<(), NoMemory>
        requires few { length self.now.places.items + length plan.now.create < 2 ^ 32 }
        requires within { All (λ j. j < length new.now.nodes) plan.now.create }
        ensures { OnOk result (events.new.items ≡ events.old.items
            ++ lists.makes_by slots.now plan.now.moves new.now (length self.now.places.items) plan.now.create) }
    {
        let create = plan.create();
        for index in 0..create.len() {
            let place = create[index];
            events.push(Event::Make {
                slot: self.slot_count() + index as u32,
                node: new.node(place).try_clone()?,
                from: source(slots, plan, place),
            })?;
        }
        Ok(())
    }

    fn push_all_makes(
        &self,
        events: &mut Vec<Event>,
        count: u32,
        new: &Graph,
        plan: &PlanIndex<'_>,
    ) -> Result<(), NoMemory>
        requires few { length self.now.places.items + length plan.now.create < 2 ^ 32 }
        requires within { All (λ j. j < length new.now.nodes) plan.now.create }
        requires places { All (λ place. IsTrue (option_map_or (λ i. nat_lt i count) place true)) self.now.places.items }
        ensures { OnOk result (events.new.items ≡ events.old.items
            ++ lists.makes_by self.now.places.items plan.now.moves new.now (length self.now.places.items)
            plan.now.create) }
    {
        let slots = SlotIndex::of(*events.allocator(), count, &self.places)?;
        self.push_makes(events, &slots, new, plan)
    }

    /// The link that begins at a port.
    fn link_at(&self, slots: &SlotIndex<'_>, plan: &PlanIndex<'_>, port: u32) -> Option<Event>
        requires { slots.now ≡ self.now.places.items }
        ensures { result ≡ lists.link_at self.now.places.items self.now.ports.items plan.now.link port }
    {
        match self.ports.get(port as usize) {
            Some(made) => self.link_of(slots, plan, *made, port),
            None => None,
        }
    }

    fn link_of(
        &self,
        slots: &SlotIndex<'_>,
        plan: &PlanIndex<'_>,
        made: Port,
        port: u32,
    ) -> Option<Event>
        requires { slots.now ≡ self.now.places.items }
        ensures { result ≡ option_and_then (lists.link_to self.now.places.items port)
            (find (lists.is_link_at (place_at self.now.places.items made.node) made) plan.now.link) }
    {
        match plan.link(self.place(made.node), made) {
            Some(found) => link_to(slots, port, found),
            None => None,
        }
    }

    fn push_link_at(
        &self,
        events: &mut Vec<Event>,
        slots: &SlotIndex<'_>,
        plan: &PlanIndex<'_>,
        port: u32,
    ) -> Result<(), NoMemory>
        requires { slots.now ≡ self.now.places.items }
        ensures { OnOk result (events.new.items ≡ events.old.items
            ++ option_to_list (lists.link_at self.now.places.items self.now.ports.items plan.now.link port)) }
    {
        if let Some(event) = self.link_at(slots, plan, port) {
            events.push(event)?;
        }
        Ok(())
    }

    fn push_links(
        &self,
        events: &mut Vec<Event>,
        slots: &SlotIndex<'_>,
        plan: &PlanIndex<'_>,
    ) -> Result<(), NoMemory>
        requires slots { slots.now ≡ self.now.places.items }
        requires few_ports { length self.now.ports.items < 2 ^ 32 }
        ensures { OnOk result (events.new.items ≡ events.old.items
            ++ lists.links_by self.now.places.items self.now.ports.items plan.now.link) }
    {
        for port in 0..self.port_count() {
            self.push_link_at(events, slots, plan, port)?;
        }
        Ok(())
    }

    fn push_all_links(
        &self,
        events: &mut Vec<Event>,
        count: u32,
        plan: &PlanIndex<'_>,
    ) -> Result<(), NoMemory>
        requires few { length self.now.places.items < 2 ^ 32 }
        requires few_ports { length self.now.ports.items < 2 ^ 32 }
        requires places { All (λ place. IsTrue (option_map_or (λ i. nat_lt i count) place true)) self.now.places.items }
        ensures { OnOk result (events.new.items ≡ events.old.items
            ++ lists.links_by self.now.places.items self.now.ports.items plan.now.link) }
    {
        let slots = SlotIndex::of(*events.allocator(), count, &self.places)?;
        self.push_links(events, &slots, plan)
    }

    /// Whether a port is reopened by the commit.
    fn is_reopened(&self, plan: &PlanIndex<'_>, port: u32) -> bool
        ensures { result ≡ lists.is_reopened_at self.now.places.items self.now.ports.items plan.now port }
    {
        if port as usize >= self.ports.len() {
            return true;
        }
        let place = self.owner_place(port);
        plan.freezes(place) && !plan.removes(place)
    }

    fn push_if_reopened(
        &self,
        events: &mut Vec<Event>,
        plan: &PlanIndex<'_>,
        port: u32,
    ) -> Result<(), NoMemory>
        ensures { OnOk result (events.new.items ≡ events.old.items ++ map event.Reopen
            (filter (lists.is_reopened_at self.now.places.items self.now.ports.items plan.now) (port ∷ []))) }
    {
        if self.is_reopened(plan, port) {
            events.push(Event::Reopen { port })?;
        }
        Ok(())
    }

    fn push_reopens(
        &self,
        events: &mut Vec<Event>,
        plan: &PlanIndex<'_>,
        count: u32,
    ) -> Result<(), NoMemory>
        ensures { OnOk result (events.new.items ≡ events.old.items
            ++ map event.Reopen (lists.reopens_by self.now.places.items self.now.ports.items plan.now count)) }
    {
        for port in 0..count {
            self.push_if_reopened(events, plan, port)?;
        }
        Ok(())
    }

    /// The places of the nodes after a commit.
    fn places_after(
        &self,
        alloc: Global,
        old: &Graph,
        new: &Graph,
        plan: &PlanIndex<'_>,
    ) -> Result<Vec<Option<u32>>, NoMemory>
        ensures { IfOk result
            (λ places. places.items ≡ lists.places_after old.now new.now plan.now self.now.places.items) }
    {
        let mut places = Vec::with_capacity(alloc, self.places.len())?;
        for place in &self.places {
            places.push(place_after(old, new, plan, *place))?;
        }
        for place in plan.create() {
            places.push(Some(*place))?;
        }
        Ok(places)
    }

    fn ports_after(
        &self,
        alloc: Global,
        new: &Graph,
        plan: &PlanIndex<'_>,
    ) -> Result<Vec<Port>, NoMemory>
        requires few { length self.now.places.items + length plan.now.create < 2 ^ 32 }
        requires within { All (λ j. j < length new.now.nodes) plan.now.create }
        ensures { IfOk result
            (λ ports. ports.items ≡ lists.ports_after new.now plan.now self.now.places.items self.now.ports.items) }
    {
        let mut ports = Vec::with_capacity(alloc, self.ports.len())?;
        ports.extend_from_slice(&self.ports)?;
        let create = plan.create();
        for index in 0..create.len() {
            let kind = new.node(create[index]).kind;
            push_ports(&mut ports, self.slot_count() + index as u32, kind)?;
        }
        Ok(ports)
    }

    /// What is made on the board after a commit.
    fn after(
        &self,
        alloc: Global,
        old: &Graph,
        new: &Graph,
        plan: &PlanIndex<'_>,
    ) -> Result<Layout, NoMemory>
        requires few { length self.now.places.items + length plan.now.create < 2 ^ 32 }
        requires within { All (λ j. j < length new.now.nodes) plan.now.create }
        ensures places { IfOk result
            (λ l. l.places.items ≡ lists.places_after old.now new.now plan.now self.now.places.items) }
        ensures ports { IfOk result
            (λ l. l.ports.items ≡ lists.ports_after new.now plan.now self.now.places.items self.now.ports.items) }
    {
        let places = self.places_after(alloc, old, new, plan)?;
        let ports = self.ports_after(alloc, new, plan)?;
        Ok(Layout { places, ports })
    }

    /// What the commit of a plan does, and what is made on the board after it. The plan leads from the old graph, to
    /// which the layout belongs, to the new one.
    pub fn list_commit(
        &self,
        alloc: Global,
        old: &Graph,
        new: &Graph,
        plan: &PlanIndex<'_>,
    ) -> Result<Commit, NoMemory>
        requires few { length self.now.places.items + length plan.now.create < 2 ^ 32 }
        requires few_ports { length (lists.ports_after new.now plan.now self.now.places.items self.now.ports.items)
            < 2 ^ 32 }
        requires within { All (λ j. j < length new.now.nodes) plan.now.create }
        requires places { All (λ place. IsTrue (option_map_or (λ i. nat_lt i (length old.now.nodes)) place true))
            self.now.places.items }
        ensures events { IfOk result (λ x. x.events.items
            ≡ lists.commit_by old.now new.now plan.now self.now.places.items self.now.ports.items) }
        ensures places { IfOk result
            (λ x. x.next.places.items ≡ lists.places_after old.now new.now plan.now self.now.places.items) }
        ensures ports { IfOk result
            (λ x. x.next.ports.items ≡ lists.ports_after new.now plan.now self.now.places.items self.now.ports.items) }
    {
        let next = self.after(alloc, old, new, plan)?;
        let mut events = Vec::new(alloc);
        self.push_unlinks(&mut events, plan)?;
        self.push_removes(&mut events, plan)?;
        self.push_all_makes(&mut events, old.node_count(), new, plan)?;
        next.push_all_links(&mut events, new.node_count(), plan)?;
        self.push_reopens(&mut events, plan, next.port_count())?;
        Ok(Commit { events, next })
    }
}
