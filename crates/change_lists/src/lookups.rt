//! Look-ups in a plan's lists and in a layout, by the places of nodes: each is filled once, and then answers in
//! constant time.

ghost use Rattle.std.specs.Prelude.{◌≡◌, ◌^◌, ◌<◌, ◌==◌, ◌&&◌, ℕ, None, Some, false, find, length, nat_lt, option_map, slice_index_or, true, All, IfOk, IsTrue, if◌then◌else◌};
ghost use Rattle.std.specs.List.{list_any};
ghost use Rattle.std.specs.Option.{option_map_or, option_or};
ghost use Rattle.change_lists.specs.Layouts.{is_among, is_place};
ghost use Rattle.change_lists.specs.Lists.{is_link_at, is_port_at, slot_of};
ghost use Rattle.std.specs.HashMap as hash;
ghost use Rattle.std.specs.HashSet as bag;
ghost use Rattle.config_graph.specs.declared.node.Link.{Link as PureLink};
ghost use Rattle.config_graph.specs.declared.node.Port.{Port as PurePort};
ghost use Rattle.change_plan.specs.declared.plan_data.Shift.{Shift as PureShift};

use change_plan::Shift;
use config_graph::{Link, NoMemory, Port};
use std::alloc::Global;
use std::collections::{HashMap, HashSet};
use std::marker::Model;

/// Some places. Contracts see their list.
#[derive(Drop)]
pub(crate) struct PlaceSet<'a> {
    places: &'a [u32],
    marks: Vec<bool>,
}

impl<'a> Model for PlaceSet<'a> {
    ghost use Rattle.std.specs.Prelude.{◌≡◌, ◌==◌, ℕ, List, false, slice_index_or};
    ghost use Rattle.std.specs.List.{list_any};

    ghost Value = { List ℕ };

    ghost view = { λ s. s.places.now };

    ghost invariant = { λ s. (i : ℕ) → slice_index_or s.marks.items i false ≡ list_any (λ j. i == j) s.places.now };
}

impl<'a> PlaceSet<'a> {
    pub(crate) fn of(alloc: Global, count: u32, places: &'a [u32]) -> Result<PlaceSet<'a>, NoMemory>
        requires { All (λ i. i < count) places.now }
        ensures { IfOk result (λ s. s ≡ places.now) }
    {
        let marks = mark_places(alloc, count, places)?;
        Ok(PlaceSet { places, marks })
    }

    /// Whether a place is one of them.
    pub(crate) fn has(&self, place: Option<u32>) -> bool
        ensures { result ≡ is_among self.now place }
    {
        is_marked(&self.marks, place)
    }
}

/// Marks these places, of so many.
fn mark_places(alloc: Global, count: u32, places: &[u32]) -> Result<Vec<bool>, NoMemory>
    requires { All (λ i. i < count) places.now }
    ensures { IfOk result (λ marks. (i : ℕ) → slice_index_or marks.items i false ≡ list_any (λ j. i == j) places.now) }
{
    let mut marks = vec![in alloc; false; count as usize]?;
    for place in places {
        marks[*place as usize] = true;
    }
    Ok(marks)
}

fn is_marked(marks: &[bool], place: Option<u32>) -> bool
    ensures { result ≡ option_map_or (λ i. slice_index_or marks.now i false) place false }
{
    match place {
        Some(place) => marks.get(place as usize).copied().unwrap_or(false),
        None => false,
    }
}

/// Slots, by the places of their nodes. Contracts see the place of each slot.
#[derive(Drop)]
pub(crate) struct SlotIndex<'a> {
    places: &'a [Option<u32>],
    slots: Vec<Option<u32>>,
}

impl<'a> Model for SlotIndex<'a> {
    ghost use Rattle.std.specs.Prelude.{◌≡◌, ℕ, List, Option, None, slice_index_or};
    ghost use Rattle.change_lists.specs.Lists.{slot_of};

    ghost Value = { List (Option ℕ) };

    ghost view = { λ s. s.places.now };

    ghost invariant = { λ s. (i : ℕ) → slice_index_or s.slots.items i None ≡ slot_of s.places.now i };
}

impl<'a> SlotIndex<'a> {
    pub(crate) fn of(
        alloc: Global,
        count: u32,
        places: &'a [Option<u32>],
    ) -> Result<SlotIndex<'a>, NoMemory>
        requires few { length places.now < 2 ^ 32 }
        requires within { All (λ place. IsTrue (option_map_or (λ i. nat_lt i count) place true)) places.now }
        ensures { IfOk result (λ s. s ≡ places.now) }
    {
        let slots = list_slots(alloc, count, places)?;
        Ok(SlotIndex { places, slots })
    }

    /// The first slot whose node is at a place.
    pub(crate) fn slot(&self, place: u32) -> Option<u32>
        ensures { result ≡ slot_of self.now place }
    {
        noted_at(&self.slots, place)
    }
}

/// What is noted at a place.
fn noted_at(notes: &[Option<u32>], place: u32) -> Option<u32>
    ensures { result ≡ slice_index_or notes.now place None }
{
    match notes.get(place as usize) {
        Some(noted) => *noted,
        None => None,
    }
}

/// Notes something at a place, where nothing is noted yet.
fn note_first(notes: &mut Vec<Option<u32>>, place: u32, value: u32)
    requires { place < length notes.old.items }
    ensures count { length notes.new.items ≡ length notes.old.items }
    ensures noted { (i : ℕ) → slice_index_or notes.new.items i None
        ≡ option_or (slice_index_or notes.old.items i None) (if place == i then Some value else None) }
{
    let first = notes[place as usize].unwrap_or(value);
    notes[place as usize] = Some(first);
}

/// Notes a slot at a place, if it is one and nothing is noted there yet.
fn note_slot(slots: &mut Vec<Option<u32>>, place: Option<u32>, slot: u32)
    requires { IsTrue (option_map_or (λ i. nat_lt i (length slots.old.items)) place true) }
    ensures count { length slots.new.items ≡ length slots.old.items }
    ensures noted { (i : ℕ) → slice_index_or slots.new.items i None
        ≡ option_or (slice_index_or slots.old.items i None) (if is_place i place then Some slot else None) }
{
    if let Some(place) = place {
        note_first(slots, place, slot);
    }
}

/// For each of so many places the first slot that has it.
fn list_slots(
    alloc: Global,
    count: u32,
    places: &[Option<u32>],
) -> Result<Vec<Option<u32>>, NoMemory>
    requires few { length places.now < 2 ^ 32 }
    requires within { All (λ place. IsTrue (option_map_or (λ i. nat_lt i count) place true)) places.now }
    ensures { IfOk result (λ slots. (i : ℕ) → slice_index_or slots.items i None ≡ slot_of places.now i) }
{
    let mut slots = vec![in alloc; None; count as usize]?;
    for (slot, place) in places.iter().enumerate() {
        note_slot(&mut slots, *place, slot as u32);
    }
    Ok(slots)
}

/// Moves, by the places to which they lead. Contracts see their list.
#[derive(Drop)]
pub(crate) struct MoveIndex<'a> {
    moves: &'a [Shift],
    sources: Vec<Option<u32>>,
}

impl<'a> Model for MoveIndex<'a> {
    ghost use Rattle.std.specs.Prelude.{◌≡◌, ◌==◌, ℕ, List, None, find, option_map, slice_index_or};
    ghost use Rattle.change_plan.specs.declared.plan_data.Shift.{Shift};

    ghost Value = { List Shift };

    ghost view = { λ m. m.moves.now };

    ghost invariant = { λ m. (j : ℕ) → slice_index_or m.sources.items j None
        ≡ option_map (λ (s : Shift). s.old) (find (λ (s : Shift). s.new == j) m.moves.now) };
}

impl<'a> MoveIndex<'a> {
    pub(crate) fn of(
        alloc: Global,
        count: u32,
        moves: &'a [Shift],
    ) -> Result<MoveIndex<'a>, NoMemory>
        requires { All (λ (s : PureShift). s.new < count) moves.now }
        ensures { IfOk result (λ m. m ≡ moves.now) }
    {
        let sources = list_sources(alloc, count, moves)?;
        Ok(MoveIndex { moves, sources })
    }

    /// From where the first move leads to a place.
    pub(crate) fn source(&self, place: u32) -> Option<u32>
        ensures { result ≡ option_map (λ (s : PureShift). s.old) (find (λ (s : PureShift). s.new == place) self.now) }
    {
        noted_at(&self.sources, place)
    }
}

/// For each of so many places from where the first move leads there.
fn list_sources(alloc: Global, count: u32, moves: &[Shift]) -> Result<Vec<Option<u32>>, NoMemory>
    requires { All (λ (s : PureShift). s.new < count) moves.now }
    ensures { IfOk result (λ sources. (j : ℕ) → slice_index_or sources.items j None
        ≡ option_map (λ (s : PureShift). s.old) (find (λ (s : PureShift). s.new == j) moves.now)) }
{
    let mut sources = vec![in alloc; None; count as usize]?;
    for shift in moves {
        note_first(&mut sources, shift.new, shift.old);
    }
    Ok(sources)
}

/// Ports of nodes, by place and requirement. Contracts see their list.
#[derive(Drop)]
pub(crate) struct PortSet<'a> {
    ports: &'a [Port],
    keys: HashSet<(u32, u32)>,
}

impl<'a> Model for PortSet<'a> {
    ghost use Rattle.std.specs.Prelude.{◌≡◌, ◌==◌, ◌&&◌, ℕ, List};
    ghost use Rattle.std.specs.List.{list_any};
    ghost use Rattle.std.specs.HashSet.{contains};
    ghost use Rattle.config_graph.specs.declared.node.Port.{Port};

    ghost Value = { List Port };

    ghost view = { λ s. s.ports.now };

    ghost invariant = { λ s. (i r : ℕ)
        → contains (λ (a : ℕ × ℕ) (b : ℕ × ℕ). (a.0 == b.0) && (a.1 == b.1)) s.keys (i, r)
        ≡ list_any (λ (q : Port). (i == q.node) && (r == q.require)) s.ports.now };
}

impl<'a> PortSet<'a> {
    pub(crate) fn of(alloc: Global, ports: &'a [Port]) -> Result<PortSet<'a>, NoMemory>
        ensures { IfOk result (λ s. s ≡ ports.now) }
    {
        let keys = list_keys(alloc, ports)?;
        Ok(PortSet { ports, keys })
    }

    /// Whether a requirement of the node at this place is one of them.
    pub(crate) fn has(&self, place: Option<u32>, made: Port) -> bool
        ensures { result ≡ list_any (is_port_at place made) self.now }
    {
        match place {
            Some(place) => self.keys.contains(&(place, made.require)),
            None => false,
        }
    }
}

fn list_keys(alloc: Global, ports: &[Port]) -> Result<HashSet<(u32, u32)>, NoMemory>
    ensures { IfOk result (λ s. (i r : ℕ)
        → bag.contains (λ (a : ℕ × ℕ) (b : ℕ × ℕ). (a.0 == b.0) && (a.1 == b.1)) s (i, r)
        ≡ list_any (λ (q : PurePort). (i == q.node) && (r == q.require)) ports.now) }
{
    let mut keys = HashSet::new(alloc);
    for port in ports {
        keys.insert((port.node, port.require))?;
    }
    Ok(keys)
}

/// Links, by where they begin. Contracts see their list.
#[derive(Drop)]
pub(crate) struct LinkIndex<'a> {
    links: &'a [Link],
    by_start: HashMap<(u32, u32), Link>,
}

impl<'a> Model for LinkIndex<'a> {
    ghost use Rattle.std.specs.Prelude.{◌≡◌, ◌==◌, ◌&&◌, ℕ, List, find};
    ghost use Rattle.std.specs.HashMap.{get};
    ghost use Rattle.config_graph.specs.declared.node.Link.{Link};

    ghost Value = { List Link };

    ghost view = { λ x. x.links.now };

    ghost invariant = { λ x. (i r : ℕ) → get (λ (a : ℕ × ℕ) (b : ℕ × ℕ). (a.0 == b.0) && (a.1 == b.1)) x.by_start (i, r)
        ≡ find (λ (l : Link). (i == l.from) && (r == l.require)) x.links.now };
}

impl<'a> LinkIndex<'a> {
    pub(crate) fn of(alloc: Global, links: &'a [Link]) -> Result<LinkIndex<'a>, NoMemory>
        ensures { IfOk result (λ x. x ≡ links.now) }
    {
        let by_start = map_links(alloc, links)?;
        Ok(LinkIndex { links, by_start })
    }

    /// The first link that begins at this requirement of the node at this place.
    pub(crate) fn link(&self, place: Option<u32>, made: Port) -> Option<Link>
        ensures { result ≡ find (is_link_at place made) self.now }
    {
        match place {
            Some(place) => self.by_start.get(&(place, made.require)).copied(),
            None => None,
        }
    }
}

fn map_links(alloc: Global, links: &[Link]) -> Result<HashMap<(u32, u32), Link>, NoMemory>
    ensures { IfOk result (λ m. (i r : ℕ) → hash.get (λ (a : ℕ × ℕ) (b : ℕ × ℕ). (a.0 == b.0) && (a.1 == b.1)) m (i, r)
        ≡ find (λ (l : PureLink). (i == l.from) && (r == l.require)) links.now) }
{
    let mut by_start = HashMap::new(alloc);
    // From the last to the first: an insert replaces, so of links that begin at one requirement the first stays.
    for behind in 0..links.len() {
        let link = links[links.len() - 1 - behind];
        by_start.insert((link.from, link.require), link)?;
    }
    Ok(by_start)
}
