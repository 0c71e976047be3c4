//! The components of a description by name.

ghost use Rattle.std.specs.Prelude.{◌≡◌, None, Some, MatchOption, map};
ghost use Rattle.darwin_parser.specs.Tree.{Component as PureComponent, tree_of};
ghost use Rattle.darwin_types.specs.Checked.{description};
ghost use Rattle.darwin_types.specs.Faults.{NoFault};
ghost use Rattle.darwin_types.specs.Scope.{component_named, is_primitive};
ghost use Rattle.elaborator.specs.Naming.{IsEntry, port_names};
ghost use Rattle.elaborator.specs.Ports.{place_of};

use darwin_parser::{Component, Unit};
use darwin_types::Checked;

/// The components of a checked description, with its tree in sight.
#[derive(Clone, Copy)]
pub struct Directory<'a> {
    pub unit: &'a Unit,
    checked: &'a Checked,
    ghost no_fault: { NoFault (tree_of unit.now) },
    ghost same_names: { map (λ c. c.name) (description checked.now) ≡ map (λ c. c.name) (tree_of unit.now) },
    ghost same_kinds: { map is_primitive (description checked.now) ≡ map is_primitive (tree_of unit.now) },
    ghost same_ports: { map port_names (description checked.now) ≡ map port_names (tree_of unit.now) },
}

/// A component of a description.
#[derive(Clone, Copy)]
pub struct Entry<'a> {
    pub component: &'a Component,
    pub is_primitive: bool,
}

impl<'a> Directory<'a> {
    /// The directory of a description.
    pub fn of(checked: &'a Checked) -> Directory<'a>
        ensures tree { tree_of result.unit.now ≡ description checked.now }
        ensures no_fault { NoFault (tree_of result.unit.now) }
    {
        Directory {
            unit: checked.unit(),
            checked,
        }
    }

    /// The component with the name.
    pub fn find(&self, name: &[u8]) -> Option<Entry<'a>>
        ensures { MatchOption result (component_named (tree_of self.now.unit.now) name.now ≡ None)
            (IsEntry (tree_of self.now.unit.now) name.now) }
    {
        let place = self.checked.component(name)?;
        let is_primitive = self.checked.is_primitive(place);
        Some(Entry {
            component: &self.unit.components[place],
            is_primitive,
        })
    }

    /// The place of the port with the name in the component of a name.
    pub fn port_place(&self, component: &[u8], name: &[u8]) -> Option<usize>
        ensures { (c : PureComponent) → component_named (tree_of self.now.unit.now) component.now ≡ Some c
            → result ≡ place_of name.now c.ports }
    {
        let place = self.checked.component(component)?;
        self.checked.port(place, name)
    }
}
