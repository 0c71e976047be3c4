//! The instances of a component, each with its component's name.

ghost use Rattle.std.specs.Prelude.{◌≡◌, ◌++◌, [], ◌∷◌, IfOk, OnOk, map, option_map, bytes_eq};
ghost use Rattle.std.specs.Map.{lookup};
ghost use Rattle.std.specs.List.{flat_map};
ghost use Rattle.darwin_parser.specs.Tree.{component_of, entry_of};
ghost use Rattle.darwin_types.specs.Scope.{entries_of, single_of};
ghost use Rattle.darwin_types.specs.Check.{SameLookups, FindsInstances};

use darwin_parser::{ArrayDecl, Component, InstEntry};
use indexmap::IndexMap;
use std::alloc::{AllocError, Global};
use std::marker::Model;

/// Names of instances and the names of their components. Contracts see the list of these pairs.
#[derive(Drop)]
pub struct Instances<'a> {
    components: IndexMap<&'a [u8], &'a [u8]>,
}

impl<'a> Model for Instances<'a> {
    ghost use Rattle.std.specs.Prelude.{List, ℕ, map};

    ghost Value = { List (List ℕ × List ℕ) };

    ghost view = { λ n. map (λ e. (e.0.now, e.1.now)) n.components.entries };
}

impl<'a> Instances<'a> {
    /// No instances.
    pub fn new(alloc: Global) -> Instances<'a>
        ensures { result ≡ [] }
    {
        Instances {
            components: IndexMap::new(alloc),
        }
    }

    /// The component of the instance with this name.
    pub fn component_of(&self, name: &[u8]) -> Option<&'a [u8]>
        ensures { option_map (λ k. k.now) result ≡ lookup (bytes_eq name.now) self.now }
    {
        self.components.get(name).copied()
    }

    /// Adds an instance; one that is there stays as it is.
    pub fn declare(&mut self, name: &'a [u8], component: &'a [u8]) -> Result<(), AllocError>
        ensures { OnOk result (SameLookups self.new (self.old ++ (name.now, component.now) ∷ [])) }
    {
        if self.component_of(name).is_none() {
            self.components.insert(name, component)?;
        }
        Ok(())
    }
}

/// The instances of a component, whose entries are these: its arrays, and its single instances.
pub fn instances_of<'a>(
    alloc: Global,
    component: &'a Component,
    entries: &[&'a InstEntry],
) -> Result<Instances<'a>, AllocError>
    requires { map (λ e. entry_of e.now) entries.now ≡ entries_of (component_of component.now).body }
    ensures { IfOk result (λ n. FindsInstances n component.now) }
{
    let mut instances = Instances::new(alloc);
    declare_arrays(&mut instances, component.arrays.as_slice())?;
    declare_entries(&mut instances, entries)?;
    Ok(instances)
}

fn declare_arrays<'a>(
    instances: &mut Instances<'a>,
    arrays: &'a [ArrayDecl],
) -> Result<(), AllocError>
    ensures { OnOk result (SameLookups instances.new (instances.old ++ map (λ a. (a.name, a.component)) arrays.now)) }
{
    for array in arrays {
        instances.declare(array.name.as_bytes(), array.component.as_bytes())?;
    }
    Ok(())
}

fn declare_entries<'a>(
    instances: &mut Instances<'a>,
    entries: &[&'a InstEntry],
) -> Result<(), AllocError>
    ensures { OnOk result (SameLookups instances.new
        (instances.old ++ flat_map single_of (map (λ e. entry_of e.now) entries.now))) }
{
    for entry in entries {
        declare_entry(instances, entry)?;
    }
    Ok(())
}

/// An element declares no instance, since its array does.
fn declare_entry<'a>(instances: &mut Instances<'a>, entry: &'a InstEntry) -> Result<(), AllocError>
    ensures { OnOk result (SameLookups instances.new (instances.old ++ single_of (entry_of entry.now))) }
{
    match entry {
        InstEntry::Single {
            name,
            component,
            ..
        } => { instances.declare(name.as_bytes(), component.as_bytes()) }
        InstEntry::Element { .. } => Ok(()),
    }
}
