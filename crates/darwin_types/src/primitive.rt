//! Primitive components against the node kinds whose names they have.

ghost use Rattle.std.specs.Prelude.{◌≡◌, ◌<◌, length, map, slice_get, Some};
ghost use Rattle.std.specs.List.{list_all};
ghost use Rattle.darwin_parser.specs.Tree.{component_of, port_of, stmts_of};
ghost use Rattle.darwin_types.specs.Primitive.{ports_of_kind, is_port, has_port, is_port_of, is_end, is_bare, has_ports_of, is_like_kind};
ghost use Rattle.darwin_types.specs.Scope.{has};
ghost use Rattle.darwin_types.specs.Check.{Judges, primitive_faults};

use crate::{TypeError, refusal};
use base::Text;
use config_graph::{Kind, kind_of};
use darwin_parser::{Component, PortDecl, Side, Stmt};

/// A primitive component is declared as the kind whose name it has.
pub fn check_primitive(component: &Component) -> Result<(), TypeError>
    ensures { Judges (primitive_faults (component_of component.now)) result }
{
    match kind_of(component.name.as_bytes()) {
        None => refusal::unknown_kind(&component.name),
        Some(kind) => {
            if is_like_kind(component, kind) {
                Ok(())
            } else {
                refusal::kind_ports(&component.name)
            }
        }
    }
}

fn is_like_kind(component: &Component, kind: Kind) -> bool
    ensures { result ≡ is_like_kind kind (component_of component.now) }
{
    is_bare(component, kind) && has_ports_of(component, kind)
}

/// Whether the component has the kind's number of parameters, and neither an array nor a statement.
fn is_bare(component: &Component, kind: Kind) -> bool
    ensures { result ≡ is_bare kind (component_of component.now) }
{
    component.params.len() == usize::from(kind.has_arg())
        && component.arrays.is_empty()
        && has_no_statement(component.body.as_slice())
}

fn has_no_statement(body: &[Stmt]) -> bool
    ensures { result ≡ is_end (stmts_of body.now) }
{
    body.is_empty()
}

/// Whether the component has the kind's ports, whatever their order and their notes.
fn has_ports_of(component: &Component, kind: Kind) -> bool
    ensures { result ≡ has_ports_of kind (component_of component.now) }
{
    let ports = component.ports.as_slice();
    has_only_ports_of(kind, ports)
        && has_ports_on(Side::Provide, kind, ports)
        && has_ports_on(Side::Require, kind, ports)
}

/// Whether each of these ports is one of the kind's, and no port array.
fn has_only_ports_of(kind: Kind, ports: &[PortDecl]) -> bool
    ensures { result ≡ list_all (is_port_of kind) (map port_of ports.now) }
{
    for port in ports {
        if !is_port_of(kind, port) {
            return false;
        }
    }
    true
}

/// Whether the port is one of the kind's, and no port array.
fn is_port_of(kind: Kind, port: &PortDecl) -> bool
    ensures { result ≡ is_port_of kind (port_of port.now) }
{
    port.size.is_none() && kind_has_port(kind, port.side, &port.name)
}

/// Whether the kind has a port of this name on this side.
fn kind_has_port(kind: Kind, side: Side, name: &Text) -> bool
    ensures { result ≡ has (ports_of_kind kind side) name.now }
{
    for index in 0..port_count(kind, side) {
        if name.as_bytes() == port_name(kind, side, index).as_bytes() {
            return true;
        }
    }
    false
}

/// Whether each port that the kind has on this side is one of these.
fn has_ports_on(side: Side, kind: Kind, ports: &[PortDecl]) -> bool
    ensures { result ≡ list_all (has_port (map port_of ports.now) side) (ports_of_kind kind side) }
{
    for index in 0..port_count(kind, side) {
        if !has_port(ports, side, port_name(kind, side, index).as_bytes()) {
            return false;
        }
    }
    true
}

/// Whether one of the ports is on this side and has this name.
fn has_port(ports: &[PortDecl], side: Side, name: &[u8]) -> bool
    ensures { result ≡ has_port (map port_of ports.now) side name.now }
{
    for port in ports {
        if is_port(side, name, port) {
            return true;
        }
    }
    false
}

fn is_port(side: Side, name: &[u8], port: &PortDecl) -> bool
    ensures { result ≡ is_port side name.now (port_of port.now) }
{
    port.side == side && port.name.as_bytes() == name
}

/// The number of ports that the kind has on this side.
fn port_count(kind: Kind, side: Side) -> u32
    ensures { result ≡ length (ports_of_kind kind side) }
{
    match side {
        Side::Provide => kind.provides(),
        Side::Require => kind.requires_(),
    }
}

/// The name of a port that the kind has on this side.
fn port_name(kind: Kind, side: Side, index: u32) -> &'static str
    requires { index < length (ports_of_kind kind side) }
    ensures { slice_get (ports_of_kind kind side) index ≡ Some result.now }
{
    match side {
        Side::Provide => kind.provide_name(index),
        Side::Require => kind.require_name(index),
    }
}
