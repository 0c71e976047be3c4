//! The walk of an instance.

ghost use Rattle.std.specs.Prelude.{◌≡◌, ◌<◌, [], Some, map, All, IfOk, Contains};
ghost use Rattle.darwin_parser.specs.Tree.{component_of, array_of, port_of};
ghost use Rattle.darwin_walk.specs.Value.{parameters};
ghost use Rattle.darwin_walk.specs.Spine.{env_of};
ghost use Rattle.darwin_walk.specs.Environment.{env_at};
ghost use Rattle.darwin_walk.specs.Reached.{count};
ghost use Rattle.darwin_walk.specs.Instance.{index_value, port_sizes, children, bindings, instance_faults};
ghost use Rattle.darwin_walk.specs.Walked.{JudgesPart, IsWalked};
ghost use Rattle.darwin_walk.specs.Scope.{HasSize, array_size_faults, port_size_faults};
ghost use Rattle.darwin_walk.specs.declared.fault.Fault.{Fault as ShownFault};

use crate::environment::Environment;
use crate::keyed::by_name;
use crate::scope::{Array, Scope, index_at, value_at};
use crate::valuing::Variable;
use crate::walked::{Binding, Walked};
use crate::walking::statements;
use crate::{Fault, WalkError};
use darwin_parser::{ArrayDecl, Component, PortDecl, Stmt};
use std::alloc::{AllocError, Global};

/// Walks an instance of the component whose parameters have these values: values all that is reached in
/// it, and lists the instances that it makes and its bindings. It goes on while no more turns and entries
/// are counted than there is room for; a `forall` over more integers is refused before its first turn.
pub fn walk<'a>(
    alloc: Global,
    component: &'a Component,
    parameters: &[Variable<'a>],
    room: u64,
) -> Result<Walked<'a>, WalkError>
    ensures no_fault { IfOk result (λ _. instance_faults (component_of component.now) (env_of parameters.now) ≡ []) }
    ensures walked { IfOk result (IsWalked (component_of component.now) (env_of parameters.now) room) }

    // The fault that is named is one of the instance's, and all else that is refused is too much.
    ensures fault { (f : ShownFault) → result ≡ Err (WalkError.Fault f)
        → Contains (instance_faults (component_of component.now) (env_of parameters.now)) f }
    ensures too_many { result ≡ Err WalkError.TooMany
        → room < count (component_of component.now) (env_of parameters.now) }
{
    walk_with(alloc, component, parameters, room)
}

/// What a walk tells.
fn walk_with<'a>(
    alloc: Global,
    component: &'a Component,
    parameters: &[Variable<'a>],
    room: u64,
) -> Result<Walked<'a>, WalkError>
    ensures { JudgesPart (instance_faults (component_of component.now) (env_of parameters.now))
        (room < count (component_of component.now) (env_of parameters.now))
        (IsWalked (component_of component.now) (env_of parameters.now) room) result }
{
    let index = by_name(alloc, parameters)?;
    let env = Environment {
        parameters,
        by_name: &index,
        variables: &[],
    };
    walk_within(alloc, component, &env, room)
}

/// What a walk tells where the parameters are indexed.
fn walk_within<'a>(
    alloc: Global,
    component: &'a Component,
    env: &Environment<'a, '_>,
    room: u64,
) -> Result<Walked<'a>, WalkError>
    ensures { JudgesPart (instance_faults (component_of component.now) (env_at env.now))
        (room < count (component_of component.now) (env_at env.now))
        (IsWalked (component_of component.now) (env_at env.now) room) result }
{
    let port_sizes = port_sizes_of(alloc, &component.ports, env)?;
    let arrays = arrays_with_sizes(alloc, &component.arrays, env)?;
    let arrays_by_name = by_name(alloc, &arrays)?;
    let scope = Scope {
        alloc,
        component,
        parameters: env,
        arrays: &arrays_by_name,
        room,
    };
    let bindings = room_for_bindings(alloc, &component.body)?;
    let mut walked = Walked {
        port_sizes,
        children: Vec::new(alloc),
        bindings,
        count: 0,
    };
    statements(&scope, env, &mut walked, &component.body)?;
    Ok(walked)
}

/// No bindings, with room for those that stand right in the body, each of which is reached. They are kept
/// while the description is elaborated.
fn room_for_bindings<'a>(alloc: Global, body: &[Stmt]) -> Result<Vec<Binding<'a>>, AllocError>
    ensures { IfOk result (λ bindings. bindings.items ≡ []) }
{
    let count = body
        .iter()
        .filter(|stmt| matches!(stmt, Stmt::Bind(_)))
        .count();
    Vec::with_capacity(alloc, count)
}

/// The parameters of a component, with the values of the arguments.
pub fn parameters_of<'a>(
    alloc: Global,
    component: &'a Component,
    arguments: &[i32],
) -> Result<Vec<Variable<'a>>, AllocError>
    ensures { IfOk result (λ vs. env_of vs.items ≡ parameters (component_of component.now) arguments.now) }
{
    let mut variables = Vec::with_capacity(alloc, component.params.len())?;
    for (name, value) in component.params.iter().zip(arguments) {
        variables.push(Variable {
            name,
            value: *value,
        })?;
    }
    Ok(variables)
}

/// The sizes of the ports that have one.
fn port_sizes_of(
    alloc: Global,
    ports: &[PortDecl],
    env: &Environment,
) -> Result<Vec<Option<i32>>, WalkError>
    ensures { JudgesPart (port_size_faults (env_at env.now) (map port_of ports.now)) ⊥ (λ sizes.
        map Some sizes.items ≡ map (λ p. index_value p.size (env_at env.now)) (map port_of ports.now)) result }
{
    let mut sizes = Vec::with_capacity(alloc, ports.len())?;
    for port in ports {
        sizes.push(index_at(alloc, &port.size, env, port.at)?)?;
    }
    Ok(sizes)
}

/// The arrays with their sizes.
fn arrays_with_sizes<'a>(
    alloc: Global,
    arrays: &'a [ArrayDecl],
    env: &Environment,
) -> Result<Vec<Array<'a>>, WalkError>
    ensures { JudgesPart (array_size_faults (env_at env.now) (map array_of arrays.now))
        ⊥ (λ xs. (map (λ a. array_of a.decl.now) xs.items ≡ map array_of arrays.now)
        × All (HasSize (env_at env.now)) xs.items) result }
{
    let mut with_sizes = Vec::new(alloc);
    for decl in arrays {
        let size = value_at(alloc, &decl.size, env, decl.at)?;
        with_sizes.push(Array { decl, size })?;
    }
    Ok(with_sizes)
}
