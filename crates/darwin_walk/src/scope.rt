//! What the statements of an instance see, and what their expressions and indexes are worth there.

ghost use Rattle.std.specs.Prelude.{◌≡◌, MatchOption, FitsSigned, int_le, int_lt, pos, ◌&&◌, [], option_map};
ghost use Rattle.std.specs.Option.{option_map_or};
ghost use Rattle.std.specs.List.{flat_map};
ghost use Rattle.std.specs.Int.{w32};
ghost use Rattle.darwin_parser.specs.Tree.{expr_of, component_of, end_of as ref_of};
ghost use Rattle.darwin_types.specs.Scope.{array_named};
ghost use Rattle.darwin_walk.specs.Value.{value as value_of, integer};
ghost use Rattle.darwin_walk.specs.Environment.{env_at};
ghost use Rattle.darwin_walk.specs.Instance.{values as values_of, integers, value_fault, element_index_faults, inner_index_faults, inner_value, index_value, end_index_faults, end_value};
ghost use Rattle.darwin_walk.specs.Walked.{JudgesPart, segment_of, walked_end};
ghost use Rattle.darwin_walk.specs.Scope.{IsScope, IsArray, IsElementIndex, exprs_of};

use crate::environment::Environment;
use crate::keyed::Keyed;
use crate::valuing::{ValueError, worth};
use crate::walked::{End, Segment};
use crate::{Fault, WalkError};
use base::Text;
use darwin_lexer::At;
use darwin_parser::{ArrayDecl, Component, Expr, PortRef};
use indexmap::IndexMap;
use std::alloc::Global;

/// An array with its size.
#[derive(Clone, Copy)]
pub(crate) struct Array<'a> {
    pub decl: &'a ArrayDecl,
    pub size: i32,
}

/// An instance: its component, its parameters, an index of its arrays, and how much may be counted.
#[derive(Clone, Copy)]
pub(crate) struct Scope<'a, 'b> {
    pub alloc: Global,
    pub component: &'a Component,
    pub parameters: &'b Environment<'a, 'b>,
    pub arrays: &'b IndexMap<&'a [u8], Array<'a>>,
    pub room: u64,
}

impl<'a> Keyed<'a> for Array<'a> {
    ghost name_of = { λ a. a.decl.now.name };

    fn key(&self) -> &'a [u8] {
        self.decl.name.as_bytes()
    }
}

impl Array<'_> {
    /// Whether the array has an element of this index.
    pub fn has(&self, index: i32) -> bool
        ensures { result ≡ (int_le (pos 0) index && int_lt index self.now.size) }
    {
        0 <= index && index < self.size
    }
}

/// The array of the name.
pub(crate) fn array_at<'a>(scope: &Scope<'a, '_>, name: &Text) -> Option<Array<'a>>
    requires { IsScope scope.now }
    ensures { MatchOption result (array_named (component_of scope.now.component.now) name.now ≡ None)
        (λ a. IsArray scope.now name.now a) }
{
    scope.arrays.get(name.as_bytes()).copied()
}

/// What the expression is worth, for the statement or declaration at the place.
pub(crate) fn value_at(
    alloc: Global,
    expr: &Expr,
    env: &Environment,
    at: At,
) -> Result<i32, WalkError>
    ensures { JudgesPart (value_fault at (value_of (expr_of expr.now) (env_at env.now))) ⊥
        (λ z. (value_of (expr_of expr.now) (env_at env.now) ≡ integer z) × FitsSigned w32 z) result }
{
    match worth(alloc, expr, env) {
        Ok(z) => Ok(z),
        Err(ValueError::OutOfRange) => Err(WalkError::Fault(Fault::OutOfRange(at))),
        Err(ValueError::ZeroDivisor) => Err(WalkError::Fault(Fault::ZeroDivisor(at))),
        Err(ValueError::NoMemory) => Err(WalkError::NoMemory),
    }
}

/// What the expressions are worth, all of them.
pub(crate) fn values_at(
    alloc: Global,
    exprs: &[Expr],
    env: &Environment,
    at: At,
) -> Result<Vec<i32>, WalkError>
    ensures { JudgesPart (flat_map (value_fault at) (values_of (exprs_of exprs.now) (env_at env.now))) ⊥
        (λ zs. integers (values_of (exprs_of exprs.now) (env_at env.now)) ≡ Some zs.items) result }
{
    let mut worths = Vec::new(alloc);
    for expr in exprs {
        worths.push(value_at(alloc, expr, env, at)?)?;
    }
    Ok(worths)
}

/// An index, and the array in which it is one.
#[derive(Clone, Copy)]
pub(crate) struct ElementIndex<'a> {
    pub index: i32,
    pub array: Option<Array<'a>>,
}

/// The index of an instance of the name, which is one of its array where it has one.
pub(crate) fn element_at<'a>(
    scope: &Scope<'a, '_>,
    name: &Text,
    index: &Expr,
    env: &Environment,
    at: At,
) -> Result<ElementIndex<'a>, WalkError>
    requires { IsScope scope.now }
    ensures { JudgesPart (element_index_faults (component_of scope.now.component.now)
        (env_at scope.now.parameters.now) name.now at (value_of (expr_of index.now) (env_at env.now))) ⊥
        (IsElementIndex scope.now name.now (value_of (expr_of index.now) (env_at env.now))) result }
{
    let index = value_at(scope.alloc, index, env, at)?;
    let array = array_at(scope, name);
    if array.is_none_or(|a| a.has(index)) {
        Ok(ElementIndex { index, array })
    } else {
        Err(WalkError::Fault(Fault::BadIndex(at)))
    }
}

/// The instance within that an end names, if it names one.
fn inner_at<'a>(
    scope: &Scope<'a, '_>,
    name: &'a Option<Text>,
    index: &Option<Expr>,
    env: &Environment,
    at: At,
) -> Result<Option<Segment<'a>>, WalkError>
    requires { IsScope scope.now }
    ensures { JudgesPart (inner_index_faults (component_of scope.now.component.now) (env_at scope.now.parameters.now)
        at name.now (option_map expr_of index.now) (env_at env.now)) ⊥ (λ s. inner_value name.now
        (option_map expr_of index.now) (env_at env.now) ≡ Some (option_map segment_of s)) result }
{
    match (name, index) {
        (None, _) => Ok(None),
        (Some(name), None) => Ok(Some(Segment { name, index: None })),
        (Some(name), Some(index)) => {
            let element = element_at(scope, name, index, env, at)?;
            Ok(Some(Segment {
                name,
                index: Some(element.index),
            }))
        }
    }
}

/// An index that may be left out.
pub(crate) fn index_at(
    alloc: Global,
    index: &Option<Expr>,
    env: &Environment,
    at: At,
) -> Result<Option<i32>, WalkError>
    ensures { JudgesPart (option_map_or (λ i. value_fault at (value_of (expr_of i) (env_at env.now))) index.now [])
        ⊥ (λ i. index_value (option_map expr_of index.now) (env_at env.now) ≡ Some i) result }
{
    match index {
        None => Ok(None),
        Some(index) => Ok(Some(value_at(alloc, index, env, at)?)),
    }
}

/// An end of a binding, with the values of its indexes.
pub(crate) fn end_at<'a>(
    scope: &Scope<'a, '_>,
    end: &'a PortRef,
    env: &Environment,
    at: At,
) -> Result<End<'a>, WalkError>
    requires { IsScope scope.now }
    ensures { JudgesPart (end_index_faults (component_of scope.now.component.now) (env_at scope.now.parameters.now) at
        (ref_of end.now) (env_at env.now)) ⊥ (λ e. end_value (ref_of end.now) (env_at env.now) ≡ Some (walked_end e))
        result }
{
    let inner = inner_at(scope, &end.inst, &end.inst_index, env, at)?;
    let index = index_at(scope.alloc, &end.port_index, env, at)?;
    Ok(End {
        inner,
        port: &end.port,
        index,
    })
}
