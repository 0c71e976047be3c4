//! The walk of one instance: statement by statement, with the variables round it.

ghost use Rattle.std.specs.Prelude.{◌≡◌, ◌+◌, ◌<◌, ◌≤◌, ◌-◌, [], ◌∷◌, ◌++◌, Some, option_map, cond, negsuc, pos, ◌≤ℤ◌, FitsSigned, IfSome, MatchOption, length};
ghost use Rattle.std.specs.Int.{w32};
ghost use Rattle.std.specs.List.{flat_map};
ghost use Rattle.darwin_parser.specs.Tree.{array_of, entry_of, element, binding_of as bind_of, stmt_of, stmts_of, expr_of};
ghost use Rattle.darwin_walk.specs.Value.{value as value_of};
ghost use Rattle.darwin_walk.specs.Environment.{env_at};
ghost use Rattle.darwin_walk.specs.Reached.{made, bound, turns, range, integers_to, holds as test_holds, reached_by, reached_in};
ghost use Rattle.darwin_walk.specs.Instance.{element_arguments, value_fault, integers};
ghost use Rattle.darwin_walk.specs.Walked.{JudgesPart};
ghost use Rattle.darwin_walk.specs.Scope.{IsScope, Makes, Binds, Walks, parameters_at, exprs_of};

use crate::WalkError;
use crate::environment::Environment;
use crate::scope::{Array, Scope, element_at, end_at, value_at, values_at};
use crate::valuing::Variable;
use crate::walked::{Binding, Child, Segment, Walked};
use base::Text;
use darwin_lexer::At;
use darwin_parser::{BindEntry, Expr, InstEntry, Stmt};
use std::alloc::Global;

/// Counts a turn or an entry.
fn count_one(walked: &mut Walked, room: u64) -> Result<(), WalkError>
    ensures { JudgesPart [] (room < walked.old.count + 1) (λ _. (walked.old.count < room)
        × (walked.new ≡ record walked.old { count = walked.old.count + 1 })) result }
{
    if walked.count >= room {
        return Err(WalkError::TooMany);
    }
    walked.count += 1;
    Ok(())
}

/// The arguments of an element: its own, or those of the array.
fn element_arguments_at<'a>(
    scope: &Scope<'a, '_>,
    array: &Array<'a>,
    args: &Option<Vec<Expr>>,
    env: &Environment<'a, '_>,
    at: At,
) -> Result<Vec<i32>, WalkError>
    ensures { JudgesPart (flat_map (value_fault at) (element_arguments (parameters_at scope.now)
        (array_of array.now.decl.now) (option_map (λ l. exprs_of l.items) args.now) (env_at env.now)))
        ⊥ (λ zs. integers (element_arguments (parameters_at scope.now) (array_of array.now.decl.now)
        (option_map (λ l. exprs_of l.items) args.now) (env_at env.now)) ≡ Some zs.items) result }
{
    match (args, &array.decl.args) {
        (Some(own), _) => values_at(scope.alloc, own, env, at),
        (None, Some(all)) => values_at(scope.alloc, all, scope.parameters, at),
        (None, None) => Ok(Vec::new(scope.alloc)),
    }
}

/// The instance that the entry of an element makes; none where there is no such array.
fn element_child<'a>(
    scope: &Scope<'a, '_>,
    env: &Environment<'a, '_>,
    name: &Text,
    index: &Expr,
    args: &Option<Vec<Expr>>,
    at: At,
) -> Result<Option<Child<'a>>, WalkError>
    requires { IsScope scope.now }
    ensures { Makes scope.now (made (element name.now (expr_of index.now)
        (option_map (λ l. exprs_of l.items) args.now) at) (env_at env.now)) result }
{
    let element = element_at(scope, name, index, env, at)?;
    let Some(array) = element.array else {
        return Ok(None);
    };
    let arguments = element_arguments_at(scope, &array, args, env, at)?;
    let segment = Segment {
        name: &array.decl.name,
        index: Some(element.index),
    };
    Ok(Some(Child {
        segment,
        component: &array.decl.component,
        arguments,
        at,
    }))
}

/// The instance that an entry makes.
fn child_at<'a>(
    scope: &Scope<'a, '_>,
    env: &Environment<'a, '_>,
    entry: &'a InstEntry,
) -> Result<Option<Child<'a>>, WalkError>
    requires { IsScope scope.now }
    ensures { Makes scope.now (made (entry_of entry.now) (env_at env.now)) result }
{
    match entry {
        InstEntry::Single {
            name,
            component,
            args,
            at,
        } => {
            let arguments = values_at(scope.alloc, args, env, *at)?;
            let segment = Segment { name, index: None };
            Ok(Some(Child {
                segment,
                component,
                arguments,
                at: *at,
            }))
        }
        InstEntry::Element {
            array,
            index,
            args,
            at,
        } => { element_child(scope, env, array, index, args, *at) }
    }
}

/// The binding of an entry, with the values of its indexes.
fn binding_at<'a>(
    scope: &Scope<'a, '_>,
    env: &Environment<'a, '_>,
    entry: &'a BindEntry,
) -> Result<Binding<'a>, WalkError>
    requires { IsScope scope.now }
    ensures { Binds scope.now (bound (bind_of entry.now) (env_at env.now)) result }
{
    let left = end_at(scope, &entry.left, env, entry.at)?;
    let right = end_at(scope, &entry.right, env, entry.at)?;
    Ok(Binding {
        left,
        right,
        at: entry.at,
    })
}

fn inst<'a>(
    scope: &Scope<'a, '_>,
    env: &Environment<'a, '_>,
    walked: &mut Walked<'a>,
    entry: &'a InstEntry,
) -> Result<(), WalkError>
    requires { IsScope scope.now }
    ensures { Walks scope.now (made (entry_of entry.now) (env_at env.now) ∷ []) walked.old walked.new result }
{
    count_one(walked, scope.room)?;
    if let Some(child) = child_at(scope, env, entry)? {
        walked.children.push(child)?;
    }
    Ok(())
}

fn bind<'a>(
    scope: &Scope<'a, '_>,
    env: &Environment<'a, '_>,
    walked: &mut Walked<'a>,
    entry: &'a BindEntry,
) -> Result<(), WalkError>
    requires { IsScope scope.now }
    ensures { Walks scope.now (bound (bind_of entry.now) (env_at env.now) ∷ []) walked.old walked.new result }
{
    count_one(walked, scope.room)?;
    let binding = binding_at(scope, env, entry)?;
    walked.bindings.push(binding)?;
    Ok(())
}

/// The integers from `low` to `high`; none where `high` lies below `low`.
#[derive(Clone, Copy)]
struct Integers {
    low: i64,
    high: i64,
    ghost above: { negsuc 2147483647 ≤ℤ low },
    ghost below: { high ≤ℤ pos 2147483647 },
}

impl Integers {
    /// Takes the first integer off.
    fn take_next(&mut self) -> Option<i32>
        ensures taken { MatchOption result (integers_to self.old.low self.old.high ≡ [])
            (λ z. integers_to self.old.low self.old.high ≡ z ∷ integers_to self.new.low self.new.high) }
        ensures fits { IfSome result (λ z. FitsSigned w32 z) }
    {
        if self.low > self.high {
            return None;
        }
        let value = self.low as i32;
        self.low += 1;
        Some(value)
    }

    /// How many they are.
    fn count(&self) -> u64
        ensures { result ≡ length (integers_to self.now.low self.now.high) }
    {
        if self.high < self.low {
            0
        } else {
            (self.high - self.low + 1) as u64
        }
    }
}

/// Refuses more turns than there is room for: each counts, whatever it reaches.
fn check_room(left: &Integers, walked: &Walked, room: u64) -> Result<(), WalkError>
    ensures { JudgesPart [] (room < walked.now.count + length (integers_to left.now.low left.now.high))
        (λ _. length (integers_to left.now.low left.now.high) ≤ room - walked.now.count) result }
{
    if left.count() > room.saturating_sub(walked.count) {
        return Err(WalkError::TooMany);
    }
    Ok(())
}

/// The integers of a range.
fn integers_at(
    alloc: Global,
    low: &Expr,
    high: &Expr,
    env: &Environment,
    at: At,
) -> Result<Integers, WalkError>
    ensures { JudgesPart (value_fault at (value_of (expr_of low.now) (env_at env.now)) ++ value_fault at
        (value_of (expr_of high.now) (env_at env.now))) ⊥ (λ e. range (value_of (expr_of low.now) (env_at env.now))
        (value_of (expr_of high.now) (env_at env.now)) ≡ integers_to e.low e.high) result }
{
    let low = value_at(alloc, low, env, at)?;
    let high = value_at(alloc, high, env, at)?;
    Ok(Integers {
        low: i64::from(low),
        high: i64::from(high),
    })
}

/// Whether a test is true.
fn test_at(alloc: Global, test: &Expr, env: &Environment, at: At) -> Result<bool, WalkError>
    ensures { JudgesPart (value_fault at (value_of (expr_of test.now) (env_at env.now))) ⊥
        (λ b. test_holds (value_of (expr_of test.now) (env_at env.now)) ≡ b) result }
{
    Ok(value_at(alloc, test, env, at)? != 0)
}

/// The turns of a `forall`.
#[cycle(statements)]
fn turn_all<'a>(
    scope: &Scope<'a, '_>,
    env: &Environment<'a, '_>,
    walked: &mut Walked<'a>,
    name: &'a Text,
    mut left: Integers,
    body: &'a [Stmt],
) -> Result<(), WalkError>
    requires { IsScope scope.now }
    ensures { Walks scope.now (turns (stmts_of body.now) (env_at env.now) name.now (integers_to left.low left.high))
        walked.old walked.new result }
{
    check_room(&left, walked, scope.room)?;
    let mut variables = Vec::from_slice(scope.alloc, env.variables)?;
    while let Some(value) = left.take_next() {
        count_one(walked, scope.room)?;
        variables.push(Variable { name, value })?;
        let within = Environment {
            parameters: env.parameters,
            by_name: env.by_name,
            variables: &variables,
        };
        statements(scope, &within, walked, body)?;
        let _ = variables.pop();
    }
    Ok(())
}

#[cycle(statements)]
fn when<'a>(
    scope: &Scope<'a, '_>,
    env: &Environment<'a, '_>,
    walked: &mut Walked<'a>,
    holds: bool,
    body: &'a [Stmt],
) -> Result<(), WalkError>
    requires { IsScope scope.now }
    ensures { Walks scope.now (cond holds (reached_in (stmts_of body.now) (env_at env.now)) []) walked.old
        walked.new result }
{
    if holds {
        statements(scope, env, walked, body)
    } else {
        Ok(())
    }
}

#[cycle(statements)]
fn statement<'a>(
    scope: &Scope<'a, '_>,
    env: &Environment<'a, '_>,
    walked: &mut Walked<'a>,
    stmt: &'a Stmt,
) -> Result<(), WalkError>
    requires { IsScope scope.now }
    ensures { Walks scope.now (reached_by (stmt_of stmt.now) (env_at env.now)) walked.old walked.new result }
{
    match stmt {
        Stmt::Inst(entry) => inst(scope, env, walked, entry),
        Stmt::Bind(entry) => bind(scope, env, walked, entry),
        Stmt::Forall {
            var,
            low,
            high,
            body,
            at,
        } => {
            let all = integers_at(scope.alloc, low, high, env, *at)?;
            turn_all(scope, env, walked, var, all, body)
        }
        Stmt::When { test, body, at } => {
            let holds = test_at(scope.alloc, test, env, *at)?;
            when(scope, env, walked, holds, body)
        }
    }
}

#[cycle(statements)]
pub(crate) fn statements<'a>(
    scope: &Scope<'a, '_>,
    env: &Environment<'a, '_>,
    walked: &mut Walked<'a>,
    body: &'a [Stmt],
) -> Result<(), WalkError>
    requires { IsScope scope.now }
    ensures { Walks scope.now (reached_in (stmts_of body.now) (env_at env.now)) walked.old walked.new result }
{
    for stmt in body {
        statement(scope, env, walked, stmt)?;
    }
    Ok(())
}
