//! A cell of the hall: a ruled queue with one place.

ghost use Rattle.std.specs.Prelude.{◌≡◌, ℕ, IfErr, IfOk, MatchOption};
ghost use Rattle.crossbeam_queue.specs.Fifo.{Held};
ghost use Rattle.crossbeam_queue.specs.Passes.{IsPassOf, IsSamePass, ruled_capacity, view};
ghost use Rattle.live_hall.specs.Houses.{FitsCell, HousedFor, IsAt, place};

use crate::boxed::BoxedGuest;
use crate::place::Place;
use config_graph::NoMemory;
use crossbeam_queue::protocol::{Lesson, Outcome, Protocol, Split};
use crossbeam_queue::{Pass, RuledArrayQueue};
use std::alloc::Global;
use std::marker::{Brand, PhantomData};
use std::sync::Wait;

/// Names the gates of which all seats in a hall are.
pub trait Named {
    ghost use Rattle.atomic_table.specs.Seated.{TableId};

    ghost gates: { TableId };
}

/// A call that passes `Brand` picks the gates that it names; these are never meant.
impl Named for Brand {
    ghost use Rattle.live_hall.specs.Houses.{no_table};

    ghost gates = { no_table };
}

/// Names a slot.
pub trait Numbered {
    ghost slot: { ℕ };
}

/// A call that passes `Brand` picks the slot; this one is never meant.
impl Numbered for Brand {
    ghost slot = { 0 };
}

/// The rule of a cell: a node in it has the cell's slot, and it and its line are of the hall's gates.
pub struct Housed<J> {
    of: PhantomData<J>,
}

impl<J: Named> Protocol<BoxedGuest, Place> for Housed<J> {
    ghost use Rattle.live_hall.specs.Houses.{Houses, unnamed};

    ghost holds = { Houses J.gates };

    ghost first = { unnamed };
}

/// A cell gets the slot that `S` names.
pub struct Names<S> {
    of: PhantomData<S>,
}

impl<S: Numbered> Split<Place> for Names<S> {
    ghost use Rattle.live_hall.specs.Houses.{place};

    ghost left = { λ v. place S.slot };

    ghost right = { λ v. place S.slot };
}

/// Another key, which knows what the first knows.
pub struct Twin;

impl Split<Place> for Twin {
    ghost left = { λ v. v };

    ghost right = { λ v. v };
}

/// A node is put in.
pub struct Puts<J> {
    of: PhantomData<J>,
}

impl<J: Named> Outcome<BoxedGuest, Place> for Puts<J> {
    ghost then = { λ v x w. w ≡ v };
}

impl<J: Named> Lesson<BoxedGuest, Place> for Puts<J> {
    ghost use Rattle.live_hall.specs.Houses.{HousedFor};

    ghost fact = { HousedFor J.gates };
}

/// A node is taken.
pub struct Takes<J> {
    of: PhantomData<J>,
}

impl<J: Named> Outcome<BoxedGuest, Place> for Takes<J> {
    ghost use Rattle.live_hall.specs.Houses.{FitsCell};

    ghost then = { λ v x w. (w ≡ v) × FitsCell J.gates v.slot x };
}

impl<J: Named> Lesson<BoxedGuest, Place> for Takes<J> {
    ghost use Rattle.live_hall.specs.Houses.{HousedFor};

    ghost fact = { HousedFor J.gates };
}

pub type Cell<J> = RuledArrayQueue<BoxedGuest, Place, Housed<J>>;

/// A way in to a cell. It has no bytes.
pub type Key = Pass<BoxedGuest, Place>;

/// The empty cell of the slot that `S` names.
fn picked<J: Named, S: Numbered>(alloc: Global, slot: u32) -> Result<(Cell<J>, Key), NoMemory>
    requires { S.slot ≡ slot }
    ensures { IfOk result (λ r. (ruled_capacity r.0 ≡ 1) × IsPassOf r.0 r.1 × (view r.1 ≡ place slot)) }
{
    let (cell, mut key) = Cell::<J>::ruled(alloc, 1)?;
    cell.another::<Names<S>>(&mut key);
    Ok((cell, key))
}

/// The empty cell of a slot, and the first key to it.
pub fn cell<J: Named>(alloc: Global, slot: u32) -> Result<(Cell<J>, Key), NoMemory>
    ensures { IfOk result (λ r. (ruled_capacity r.0 ≡ 1) × IsPassOf r.0 r.1 × (view r.1 ≡ place slot)) }
{
    picked::<J, Brand>(alloc, slot)
}

/// A second key to the cell.
pub fn second_key<J: Named>(cell: &Cell<J>, key: &mut Key) -> Key
    requires here { IsPassOf cell.now key.old }
    requires named { (slot : ℕ) × (view key.old ≡ place slot) }
    ensures here { IsSamePass key.old key.new × IsPassOf cell.now result }
    ensures named { (view key.new ≡ view key.old) × (view result ≡ view key.old) }
{
    cell.another::<Twin>(key)
}

/// Puts the node in. It comes back only where the place is taken.
pub fn put<J: Named, R: Wait>(
    rt: &R,
    cell: &Cell<J>,
    key: &mut Key,
    node: BoxedGuest,
) -> Result<(), BoxedGuest>
    requires here { IsPassOf cell.now key.old }
    requires fits { (view key.old ≡ place node.node.slot) × IsAt J.gates node }
    ensures here { IsSamePass key.old key.new × (view key.new ≡ view key.old) }
    ensures back { IfErr result (λ x. x ≡ node) }
{
    cell.push_as::<Puts<J>, R>(rt, key, node)
}

/// Takes the node. There is none only where the place was empty.
pub fn take<J: Named, R: Wait>(rt: &R, cell: &Cell<J>, key: &mut Key) -> Option<BoxedGuest>
    requires here { IsPassOf cell.now key.old }
    requires named { (slot : ℕ) × (view key.old ≡ place slot) }
    ensures here { IsSamePass key.old key.new × (view key.new ≡ view key.old) }
    ensures fits { MatchOption result (Held 0 (HousedFor J.gates (view key.old)))
        (λ node. FitsCell J.gates (view key.old).slot node) }
{
    cell.pop_as::<Takes<J>, R>(rt, key)
}
