//! The check of a description.

ghost use Rattle.std.specs.Prelude.{◌≡◌, IfOk, IfErr, map};
ghost use Rattle.std.specs.List.{flat_map};
ghost use Rattle.base.specs.Answers.{Refuses};
ghost use Rattle.darwin_parser.specs.Tree.{component_of, tree_of};
ghost use Rattle.darwin_types.specs.declared.error.TypeError.TheVariants.{NoMemory};
ghost use Rattle.darwin_types.specs.Faults.{HasFault, NoFault};
ghost use Rattle.darwin_types.specs.Checked.{description, Takes};
ghost use Rattle.darwin_types.specs.Check.{Judges, components_of, unit_faults, component_faults, param_faults, array_name_faults, names_of_arrays, names_of_components, names_of_ports, names_in_component};
ghost use Rattle.darwin_types.specs.Scope.{is_primitive};

use crate::TypeError;
use crate::checked::Checked;
use crate::declared::Declared;
use crate::directory::Directory;
use crate::entries::add_entries;
use crate::instances::instances_of;
use crate::names::{Names, distinct};
use darwin_parser::{Component, Unit};
use std::alloc::Global;

/// Checks a description, and takes it where it has no fault. Time grows with the length of the
/// description, where hashes don't collide. A refused description is gone.
///
/// # Errors
///
/// A fault that stands; where several stand any one may be named.
pub fn check(alloc: Global, unit: Unit) -> Result<Checked, TypeError>
    // What is taken is this description, no fault stands in it, and each description without one is taken.
    ensures unit { IfOk result (λ c. description c ≡ tree_of unit) }
    ensures no_fault { IfOk result (λ c. NoFault (tree_of unit)) }
    ensures every_unit { NoFault (tree_of unit) → Takes result (tree_of unit) }
    // A fault that is named stands.
    ensures fault { IfErr result (Refuses NoMemory (HasFault (tree_of unit))) }
{
    let index = check_components(alloc, unit.components.as_slice())?;
    let ComponentIndex {
        names,
        ports,
        primitive,
    } = index;
    Ok(Checked {
        unit,
        names,
        ports,
        primitive,
    })
}

/// The names of the components of a description, those of the ports of each, and which of them are primitive.
#[derive(Drop)]
struct ComponentIndex {
    names: Names,
    ports: Vec<Names>,
    primitive: Vec<bool>,
}

fn check_components(alloc: Global, components: &[Component]) -> Result<ComponentIndex, TypeError>
    ensures judged { Judges (unit_faults (components_of components.now)) result }
    ensures names { IfOk result (λ index. index.names ≡ names_of_components components.now) }
    ensures ports { IfOk result (λ index. index.ports.items ≡ names_of_ports components.now) }
    ensures primitive { IfOk result (λ index. index.primitive.items ≡ map is_primitive (components_of components.now)) }
{
    let directory = Directory::of(alloc, components)?;
    let primitive = check_each(alloc, &directory)?;
    let Directory { names, ports, .. } = directory;
    Ok(ComponentIndex {
        names,
        ports,
        primitive,
    })
}

/// Checks the components one by one, and says of each whether it is primitive.
fn check_each(alloc: Global, directory: &Directory) -> Result<Vec<bool>, TypeError>
    ensures judged { Judges
        (flat_map (component_faults (components_of directory.now.components.now))
        (components_of directory.now.components.now))
        result }
    ensures primitive { IfOk result
        (λ noted. noted.items ≡ map is_primitive (components_of directory.now.components.now)) }
{
    let mut primitive = Vec::new(alloc);
    for index in 0..directory.components.len() {
        let component = &directory.components[index];
        let noted = check_component(alloc, directory, component, &directory.ports[index])?;
        primitive.push(noted)?;
    }
    Ok(primitive)
}

/// A component, whose ports are indexed. It is said whether it is primitive.
fn check_component<'d, 'a>(
    alloc: Global,
    directory: &'d Directory<'a>,
    component: &'a Component,
    ports: &'d Names,
) -> Result<bool, TypeError>
    requires { ports.now ≡ names_in_component component.now }
    ensures judged { Judges
        (component_faults (components_of directory.now.components.now) (component_of component.now))
        result }
    ensures primitive { IfOk result (λ primitive. primitive ≡ is_primitive (component_of component.now)) }
{
    let mut scope = params_of(alloc, component)?;
    let arrays = arrays_of(alloc, component)?;
    let mut entries = Vec::new(alloc);
    add_entries(&mut entries, component.body.as_slice())?;
    let instances = instances_of(alloc, component, entries.as_slice())?;
    let declared = Declared {
        alloc,
        directory,
        component,
        ports,
        arrays,
        instances,
    };
    let is_primitive = entries.is_empty();
    declared.check(&mut scope, is_primitive)?;
    Ok(is_primitive)
}

/// The parameters of a component by name.
fn params_of(alloc: Global, component: &Component) -> Result<Names, TypeError>
    ensures judged { Judges (param_faults (component_of component.now)) result }
    ensures names { IfOk result (λ n. n ≡ (component_of component.now).params) }
{
    distinct(alloc, Some(&component.name), component.params.as_slice())
}

/// The arrays of a component by name.
fn arrays_of(alloc: Global, component: &Component) -> Result<Names, TypeError>
    ensures judged { Judges (array_name_faults (component_of component.now)) result }
    ensures names { IfOk result (λ n. n ≡ names_of_arrays component.now) }
{
    distinct(alloc, Some(&component.name), component.arrays.as_slice())
}
