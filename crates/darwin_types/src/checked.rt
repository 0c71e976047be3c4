//! A description that was checked.

ghost use Rattle.std.specs.Prelude.{◌≡◌, map};
ghost use Rattle.darwin_parser.specs.Tree.{tree_of};
ghost use Rattle.darwin_types.specs.Faults.{NoFault};
ghost use Rattle.darwin_types.specs.Check.{names_of_components, names_of_ports};
ghost use Rattle.darwin_types.specs.Scope.{is_primitive};

use crate::names::Names;
use darwin_parser::Unit;

/// A description without a fault, with its components by name, and of each its ports by name and whether it is
/// primitive.
#[derive(Drop)]
pub struct Checked {
    pub(crate) unit: Unit,
    pub(crate) names: Names,
    pub(crate) ports: Vec<Names>,
    pub(crate) primitive: Vec<bool>,
    ghost no_fault: { NoFault (tree_of unit) },
    ghost named: { names ≡ names_of_components unit.components.items },
    ghost with_ports: { ports.items ≡ names_of_ports unit.components.items },
    ghost noted: { primitive.items ≡ map is_primitive (tree_of unit) },
}

impl Checked {
    ghost use Rattle.std.specs.Prelude.{◌<◌, length, position, bytes_eq, slice_get, option_map, IfSome, Some};
    ghost use Rattle.darwin_types.specs.Checked.{description};

    /// The syntax tree, in which no fault stands.
    pub fn unit(&self) -> &Unit
        ensures unit { tree_of result.now ≡ description self.now }
        ensures no_fault { NoFault (description self.now) }
    {
        &self.unit
    }

    /// The place of the first component with the name.
    pub fn component(&self, name: &[u8]) -> Option<usize>
        ensures place { result ≡ position (λ c. bytes_eq name.now c.name) (description self.now) }
        ensures within { IfSome result (λ place. place < length (description self.now)) }
    {
        self.names.position(name)
    }

    /// The place of the port with the name in the component at this place.
    pub fn port(&self, place: usize, name: &[u8]) -> Option<usize>
        requires { place < length (description self.now) }
        ensures { option_map (λ c. position (λ p. bytes_eq name.now p.name) c.ports)
            (slice_get (description self.now) place)
            ≡ Some result }
    {
        self.ports[place].position(name)
    }

    /// Whether the component at this place is primitive.
    pub fn is_primitive(&self, place: usize) -> bool
        requires { place < length (description self.now) }
        ensures { option_map is_primitive (slice_get (description self.now) place) ≡ Some result }
    {
        self.primitive[place]
    }
}
