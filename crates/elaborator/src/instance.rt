//! The instances of an elaboration, by number.

ghost use Rattle.std.specs.Prelude.{◌≡◌, ◌<◌, length, map, slice_get, Some};
ghost use Rattle.std.specs.Option.{option_flatten};
ghost use Rattle.elaborator.specs.Numbering.{IsChild};

use crate::directory::Directory;
use crate::path_index::PathIndex;
use config_graph::Text;
use darwin_parser::Component;
use darwin_walk::{Binding, Variable};

/// An instance of the elaboration.
#[derive(Drop)]
pub struct Instance<'a> {
    pub path: Text,
    /// How many instances it lies within.
    pub depth: u32,
    /// The number of the instance in which it was made; the top has none.
    pub maker: Option<u32>,
    pub component: &'a Component,
    /// Whether the component is primitive, so that the instance is a node.
    pub is_primitive: bool,
    /// The values of its parameters.
    pub env: Vec<Variable<'a>>,
    /// The bindings that are reached in it.
    pub bindings: Vec<Binding<'a>>,
    /// The sizes of its ports, in order; none before it is opened, and of a node.
    pub port_sizes: Vec<Option<i32>>,
}

impl Instance<'_> {
    /// The size of the port at a place, where it is kept.
    pub fn port_size(&self, port: usize) -> Option<i32>
        ensures { result ≡ option_flatten (slice_get self.now.port_sizes.items port) }
    {
        match self.port_sizes.get(port) {
            Some(size) => *size,
            None => None,
        }
    }
}

/// All instances of an elaboration, the top first.
#[derive(Drop)]
pub struct Expansion<'a> {
    pub directory: Directory<'a>,
    pub instances: Vec<Instance<'a>>,
    /// The numbers of all but the top, by the paths that stand there.
    pub numbers: PathIndex,
}

impl<'a> Expansion<'a> {
    ghost use Rattle.darwin_parser.specs.Tree.{component_of};
    ghost use Rattle.darwin_types.specs.Scope.{is_primitive};
    ghost use Rattle.elaborator.specs.Bindings.{bindings_in};
    ghost use Rattle.elaborator.specs.Expansion.{expanded_of, made_of, instance_in, AreSizes, IsNumbering};
    ghost use Rattle.darwin_walk.specs.Walked.{binding_of};

    /// How many instances there are.
    pub fn len(&self) -> u32
        requires { IsNumbering self.now }
        ensures { result ≡ length (expanded_of self.now).made }
    {
        self.instances.len() as u32
    }

    /// The instance of this number.
    pub fn instance(&self, number: u32) -> &Instance<'a>
        requires within { number < length (expanded_of self.now).made }
        requires kept { IsNumbering self.now }
        ensures made { slice_get (expanded_of self.now).made number ≡ Some (made_of result.now) }
        ensures bindings { map binding_of result.now.bindings.items ≡ bindings_in (instance_in result.now) }
        ensures sizes { AreSizes (instance_in result.now) result.now.port_sizes.items }
        ensures primitive { result.now.is_primitive ≡ is_primitive (component_of result.now.component.now) }
    {
        &self.instances[number as usize]
    }

    /// The number of the instance of this path among those made in an instance.
    pub fn child(&self, maker: u32, path: &[u8]) -> Option<u32>
        requires { IsNumbering self.now }
        ensures { IsChild (expanded_of self.now) maker path.now result }
    {
        let last = self.numbers.last_like(path);
        let number = self
            .numbers
            .find_from(last, self.instances.as_slice(), path)?;
        if self.instances[number as usize].maker == Some(maker) {
            Some(number)
        } else {
            None
        }
    }
}
