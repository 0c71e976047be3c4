//! A plan with look-ups by the places of nodes.

ghost use Rattle.std.specs.Prelude.{◌≡◌, ◌<◌, ◌==◌, find, option_map, All, IfOk};
ghost use Rattle.std.specs.List.{list_any};
ghost use Rattle.change_plan.specs.declared.plan_data.Shift.{Shift as PureShift};
ghost use Rattle.change_lists.specs.Layouts.{is_among};
ghost use Rattle.change_lists.specs.Lists.{is_link_at, is_port_at};

use crate::lookups::{LinkIndex, MoveIndex, PlaceSet, PortSet};
use change_plan::Plan;
use config_graph::{Link, NoMemory, Port};
use std::alloc::Global;
use std::marker::Model;

/// A plan, whose lists answer in constant time. Contracts see the plan.
#[derive(Drop)]
pub struct PlanIndex<'a> {
    plan: &'a Plan,
    freeze: PlaceSet<'a>,
    unlink: PortSet<'a>,
    remove: PlaceSet<'a>,
    moves: MoveIndex<'a>,
    link: LinkIndex<'a>,
}

impl<'a> Model for PlanIndex<'a> {
    ghost use Rattle.std.specs.Prelude.{◌≡◌};
    ghost use Rattle.change_plan.specs.declared.plan_data.Plan.{Plan};

    ghost Value = { Plan };

    ghost view = { λ x. x.plan.now };

    ghost invariant = { λ x. (x.freeze ≡ x.plan.now.freeze) × (x.unlink ≡ x.plan.now.unlink)
        × (x.remove ≡ x.plan.now.remove) × (x.moves ≡ x.plan.now.moves) × (x.link ≡ x.plan.now.link) };
}

impl<'a> PlanIndex<'a> {
    /// A plan from a graph with so many nodes to one with so many.
    pub fn of(
        alloc: Global,
        old_count: u32,
        new_count: u32,
        plan: &'a Plan,
    ) -> Result<PlanIndex<'a>, NoMemory>
        requires freeze { All (λ i. i < old_count) plan.now.freeze }
        requires remove { All (λ i. i < old_count) plan.now.remove }
        requires moves { All (λ (s : PureShift). s.new < new_count) plan.now.moves }
        ensures { IfOk result (λ x. x ≡ plan.now) }
    {
        let freeze = PlaceSet::of(alloc, old_count, plan.freeze.items())?;
        let unlink = PortSet::of(alloc, plan.unlink.items())?;
        let remove = PlaceSet::of(alloc, old_count, plan.remove.items())?;
        let moves = MoveIndex::of(alloc, new_count, plan.moves.items())?;
        let link = LinkIndex::of(alloc, plan.link.items())?;
        Ok(PlanIndex {
            plan,
            freeze,
            unlink,
            remove,
            moves,
            link,
        })
    }

    /// Whether the node at a place is frozen.
    pub fn freezes(&self, place: Option<u32>) -> bool
        ensures { result ≡ is_among self.now.freeze place }
    {
        self.freeze.has(place)
    }

    /// Whether a requirement of the node at a place is unlinked.
    pub fn unlinks(&self, place: Option<u32>, made: Port) -> bool
        ensures { result ≡ list_any (is_port_at place made) self.now.unlink }
    {
        self.unlink.has(place, made)
    }

    /// Whether the node at a place is removed.
    pub fn removes(&self, place: Option<u32>) -> bool
        ensures { result ≡ is_among self.now.remove place }
    {
        self.remove.has(place)
    }

    /// The places of the new graph at which nodes are created.
    pub fn create(&self) -> &[u32]
        ensures { result.now ≡ self.now.create }
    {
        self.plan.create.items()
    }

    /// The place of the old graph from which a node's state is moved to a place of the new one.
    pub fn source(&self, place: u32) -> Option<u32>
        ensures { result ≡ option_map (λ (s : PureShift). s.old)
            (find (λ (s : PureShift). s.new == place) self.now.moves) }
    {
        self.moves.source(place)
    }

    /// The link that begins at a requirement of the node at a place.
    pub fn link(&self, place: Option<u32>, made: Port) -> Option<Link>
        ensures { result ≡ find (is_link_at place made) self.now.link }
    {
        self.link.link(place, made)
    }
}
