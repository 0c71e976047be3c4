//! The components of a description by name.

ghost use Rattle.std.specs.Prelude.{◌≡◌, IfOk};
ghost use Rattle.darwin_types.specs.Scope.{params_of_named, lacks_port};
ghost use Rattle.darwin_types.specs.Check.{Judges, components_of, directory_faults, port_faults, names_of_components, names_of_ports, names_in_component};
ghost use Rattle.darwin_parser.specs.Tree.{component_of};

use crate::TypeError;
use crate::names::{Names, distinct};
use darwin_parser::Component;
use std::alloc::Global;

/// The components of a description by name, and the ports of each by name.
#[derive(Drop)]
pub struct Directory<'a> {
    pub components: &'a [Component],
    pub names: Names,
    pub ports: Vec<Names>,
    ghost named: { names ≡ names_of_components components.now },
    ghost with_ports: { ports.items ≡ names_of_ports components.now },
}

impl<'a> Directory<'a> {
    /// Indexes the components, whose names have to differ, and their ports, whose names have to
    /// differ within each component.
    pub fn of(alloc: Global, components: &'a [Component]) -> Result<Directory<'a>, TypeError>
        ensures judged { Judges (directory_faults (components_of components.now)) result }
        ensures components { IfOk result (λ d. d.components.now ≡ components.now) }
    {
        let names = distinct(alloc, None, components)?;
        let mut ports = Vec::new(alloc);
        for component in components {
            ports.push(ports_of(alloc, component)?)?;
        }
        Ok(Directory {
            components,
            names,
            ports,
        })
    }

    /// The number of parameters of the component with this name.
    pub fn params_of(&self, name: &[u8]) -> Option<usize>
        ensures { result ≡ params_of_named (components_of self.now.components.now) name.now }
    {
        let index = self.names.position(name)?;
        Some(self.components[index].params.len())
    }

    /// Whether there is a component with this name that lacks the port.
    pub fn lacks_port(&self, component: &[u8], port: &[u8]) -> bool
        ensures { result ≡ lacks_port (components_of self.now.components.now) component.now port.now }
    {
        match self.names.position(component) {
            None => false,
            Some(index) => !self.ports[index].contains(port),
        }
    }
}

/// The ports of a component by name.
fn ports_of(alloc: Global, component: &Component) -> Result<Names, TypeError>
    ensures judged { Judges (port_faults (component_of component.now)) result }
    ensures names { IfOk result (λ n. n ≡ names_in_component component.now) }
{
    distinct(alloc, Some(&component.name), component.ports.as_slice())
}
