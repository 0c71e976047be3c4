//! The ports that ends of bindings name.

ghost use Rattle.std.specs.Prelude.{◌≡◌, ◌<◌, ◌↔◌, [], ◌∷◌, length, option_map, position, bytes_eq, slice_get, IfOk, IsTrue, Some, if◌then◌else◌};
ghost use Rattle.darwin_lexer.specs.declared.token.At.{At as Place};
ghost use Rattle.darwin_parser.specs.Tree.{component_of, port_of, tree_of};
ghost use Rattle.darwin_types.specs.Scope.{component_named};
ghost use Rattle.darwin_walk.specs.Walked.{segment_of, walked_end};
ghost use Rattle.darwin_walk.specs.declared.fault.Fault.TheVariants.{BadIndex};
ghost use Rattle.elaborator.specs.Instances.{Instance};
ghost use Rattle.elaborator.specs.Bindings.{resolve};
ghost use Rattle.elaborator.specs.Numbering.{Numbered};
ghost use Rattle.elaborator.specs.Expansion.{expanded_of, IsNumbering};
ghost use Rattle.elaborator.specs.Faults.{named_index_faults};
ghost use Rattle.elaborator.specs.Ports.{Standing, ResolvesTo, place_of};

use crate::chains::PortId;
use crate::directory::Directory;
use crate::instance::Expansion;
use crate::paths::path_within;
use binding_forms::is_form;
use darwin_parser::{Component, PortDecl};
use darwin_walk::{End, Segment};
use std::alloc::{AllocError, Global};

/// So many ports are looked through one after another, which takes less time than two hashes.
const FEW_PORTS: usize = 8;

/// The port that an end of a binding names.
#[derive(Clone, Copy)]
pub struct Named<'a> {
    /// Whether it is a port of an instance within.
    pub is_inner: bool,
    pub id: PortId,
    pub decl: &'a PortDecl,
}

/// The number of the instance in which the port of an end stands: one right within this instance, or
/// this one.
fn instance_at(
    alloc: Global,
    expansion: &Expansion,
    number: u32,
    inner: Option<Segment>,
) -> Result<Option<u32>, AllocError>
    requires within { number < length (expanded_of expansion.now).made }
    requires kept { IsNumbering expansion.now }
    ensures { (i : Instance) → Numbered (expanded_of expansion.now) number i
        → IfOk result (Standing (expanded_of expansion.now) number i (option_map segment_of inner.entry)) }
{
    match inner {
        None => Ok(Some(number)),
        Some(segment) => {
            let path = path_within(alloc, expansion.instance(number).path.as_bytes(), segment)?;
            Ok(expansion.child(number, path.as_slice()))
        }
    }
}

/// What an end of a binding of this instance names.
pub fn find_named<'a>(
    alloc: Global,
    expansion: &Expansion<'a>,
    number: u32,
    end: End<'a>,
) -> Result<Option<Named<'a>>, AllocError>
    requires within { number < length (expanded_of expansion.now).made }
    requires kept { IsNumbering expansion.now }
    ensures { (i : Instance) → Numbered (expanded_of expansion.now) number i
        → IfOk result (ResolvesTo (expanded_of expansion.now) number
        (resolve (expanded_of expansion.now).tree i (walked_end end.entry))) }
{
    let Some(instance) = instance_at(alloc, expansion, number, end.inner)? else {
        return Ok(None);
    };
    let component = expansion.instance(instance).component;
    let Some(port) = place_in(&expansion.directory, component, end.port.as_bytes()) else {
        return Ok(None);
    };
    Ok(Some(Named {
        is_inner: end.inner.is_some(),
        id: PortId {
            instance,
            port,
            index: end.index,
        },
        decl: &component.ports[port],
    }))
}

/// The place of the first port with the name in a component of the description.
fn place_in(directory: &Directory, component: &Component, name: &[u8]) -> Option<usize>
    requires { component_named (tree_of directory.now.unit.now) component.now.name ≡ Some (component_of component.now) }
    ensures { result ≡ place_of name.now (component_of component.now).ports }
{
    if component.ports.len() <= FEW_PORTS {
        port_place(component.ports.as_slice(), name)
    } else {
        directory.port_place(component.name.as_bytes(), name)
    }
}

/// The place of the first port with the name.
pub fn port_place(ports: &[PortDecl], name: &[u8]) -> Option<usize>
    ensures { result ≡ position (λ p. bytes_eq name.now p.name) ports.now }
{
    ports.iter().position(|port| name == port.name.as_bytes())
}

impl Named<'_> {
    ghost use Rattle.elaborator.specs.Bindings.{is_indexed, may_lead};
    ghost use Rattle.elaborator.specs.Ports.{named_of, sized_fault, NotesDifferIn};

    /// An index stands exactly where the port has a size.
    fn is_indexed(&self) -> bool
        ensures { (i : Instance) → result ≡ is_indexed (named_of i self.now) }
    {
        self.decl.size.is_some() == self.id.index.is_some()
    }

    /// Whether this port may be bound to that one as their source.
    pub fn may_lead(&self, target: &Named) -> bool
        ensures { (i j : Instance) → result ≡ may_lead (named_of i self.now) (named_of j target.now) }
    {
        self.is_indexed()
            && target.is_indexed()
            && is_form(
                self.is_inner,
                self.decl.side,
                target.is_inner,
                target.decl.side,
            )
    }

    /// Whether the index isn't from 0 to the size less 1.
    pub fn has_bad_index(&self, expansion: &Expansion) -> bool
        requires within { self.now.id.instance < length (expanded_of expansion.now).made }
        requires kept { IsNumbering expansion.now }
        ensures { (i : Instance) → Numbered (expanded_of expansion.now) self.now.id.instance i
            → slice_get i.component.ports self.now.id.port ≡ Some (port_of self.now.decl.now)
            → (at : Place) → named_index_faults at (named_of i self.now) ≡ (if result then BadIndex at ∷ [] else []) }
    {
        let Some(index) = self.id.index else {
            return false;
        };
        match self.size(expansion) {
            Some(size) => !(0 <= index && index < size),
            None => false,
        }
    }

    /// The size of the port, where it has one.
    fn size(&self, expansion: &Expansion) -> Option<i32>
        requires within { self.now.id.instance < length (expanded_of expansion.now).made }
        requires kept { IsNumbering expansion.now }
        ensures { (i : Instance) → Numbered (expanded_of expansion.now) self.now.id.instance i
            → slice_get i.component.ports self.now.id.port ≡ Some (port_of self.now.decl.now)
            → (at : Place) → named_index_faults at (named_of i self.now) ≡ sized_fault at result self.now.id.index }
    {
        expansion.instance(self.id.instance).port_size(self.id.port)
    }

    /// Whether both ports have a note and the notes differ.
    pub fn differs_in_note(&self, other: &Named) -> bool
        ensures { IsTrue result ↔ NotesDifferIn (port_of self.now.decl.now) (port_of other.now.decl.now) }
    {
        match (&self.decl.note, &other.decl.note) {
            (Some(note), Some(others)) => note != others,
            _ => false,
        }
    }
}
