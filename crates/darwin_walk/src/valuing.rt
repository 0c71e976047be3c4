//! What expressions are worth.

ghost use Rattle.std.specs.Prelude.{◌≡◌, ◌-ℤ◌, pos, IfOk, FitsSigned};
ghost use Rattle.std.specs.Int.{w32};
ghost use Rattle.darwin_parser.specs.Tree.{expr_of};
ghost use Rattle.darwin_walk.specs.Value.{value as value_of, operation, integer_operation, is_decided, exact, integer, is_true as truly, truth as truth_of};
ghost use Rattle.darwin_walk.specs.Environment.{env_at};
ghost use Rattle.darwin_walk.specs.Spine.{Says, IsOperand, IsSpine};

use crate::environment::Environment;
use base::Text;
use darwin_parser::{Expr, Op};
use std::alloc::{AllocError, AllocFailed, Global};

/// A parameter or a variable of a `forall`, with its value.
#[derive(Clone, Copy)]
pub struct Variable<'a> {
    pub name: &'a Text,
    pub value: i32,
}

/// Why an expression has no value.
#[derive(Clone, Copy)]
pub enum ValueError {
    /// The exact result of an operation isn't from -2,147,483,648 to 2,147,483,647.
    OutOfRange,
    /// The right side of a division is 0.
    ZeroDivisor,
    NoMemory,
}

impl From<AllocError> for ValueError {
    ghost use Rattle.darwin_walk.specs.declared.valuing.ValueError.TheVariants.{NoMemory};

    ghost from_gives = { λ _ e. e ≡ NoMemory };

    fn from(_error: AllocError) -> ValueError {
        ValueError::NoMemory
    }
}

impl<T: Drop> From<AllocFailed<T>> for ValueError {
    ghost use Rattle.darwin_walk.specs.declared.valuing.ValueError.TheVariants.{NoMemory};

    ghost from_gives = { λ _ e. e ≡ NoMemory };

    fn from(_failed: AllocFailed<T>) -> ValueError {
        ValueError::NoMemory
    }
}

/// An operation, and its right side.
#[derive(Clone, Copy)]
struct Pending<'a> {
    op: Op,
    right: &'a Expr,
}

/// A chain of operations: the operand at its left end, and the operations on it, the outermost first.
#[derive(Drop)]
struct Spine<'a> {
    first: &'a Expr,
    pending: Vec<Pending<'a>>,
}

/// What the expression is worth in an environment. A chain of operations is gone through in a loop, so
/// the recursion goes as deep as parentheses and signs do.
#[cycle(worth)]
pub(crate) fn worth(alloc: Global, expr: &Expr, env: &Environment) -> Result<i32, ValueError>
    ensures says { Says result (value_of (expr_of expr.now) (env_at env.now)) }
    ensures fits { IfOk result (λ z. FitsSigned w32 z) }
{
    let mut spine = spine_of(alloc, expr)?;
    let mut total = operand(alloc, spine.first, env);
    while let Some(next) = spine.pending.pop() {
        total = operation_on(alloc, next.op, total?, next.right, env);
    }
    total
}

/// What an expression that is no operation on two sides is worth.
#[cycle(worth)]
fn operand(alloc: Global, expr: &Expr, env: &Environment) -> Result<i32, ValueError>
    requires { IsOperand (expr_of expr.now) }
    ensures says { Says result (value_of (expr_of expr.now) (env_at env.now)) }
    ensures fits { IfOk result (λ z. FitsSigned w32 z) }
{
    match expr {
        Expr::Num(n) => literal(*n),
        Expr::Var(name) => Ok(env.value_of(name)),
        Expr::Neg(inner) => negated(worth(alloc, inner, env)?),
        Expr::Op(_, _, _) => unreachable!(),
    }
}

/// The operation on a left side that has a value.
#[cycle(worth)]
fn operation_on(
    alloc: Global,
    op: Op,
    left: i32,
    right: &Expr,
    env: &Environment,
) -> Result<i32, ValueError>
    ensures says { Says result (operation op (integer left) (value_of (expr_of right.now) (env_at env.now))) }
    ensures fits { IfOk result (λ z. FitsSigned w32 z) }
{
    if is_decided(op, left) {
        Ok(truth(is_true(left)))
    } else {
        operate(op, left, worth(alloc, right, env)?)
    }
}

/// The operand at the left end of a chain, and the chain.
fn spine_of(alloc: Global, expr: &Expr) -> Result<Spine<'_>, AllocError>
    ensures { IfOk result (λ s. IsSpine (expr_of expr.now) s) }
{
    let mut pending = Vec::new(alloc);
    let mut first = expr;
    while let Expr::Op(op, left, right) = first {
        pending.push(Pending { op: *op, right })?;
        first = left;
    }
    Ok(Spine { first, pending })
}

/// Whether a value is taken as true.
fn is_true(z: i32) -> bool
    ensures { result ≡ truly z }
{
    z != 0
}

/// A truth as an integer.
fn truth(holds: bool) -> i32
    ensures { integer result ≡ truth_of holds }
{
    i32::from(holds)
}

/// The operation on two integers.
fn operate(op: Op, left: i32, right: i32) -> Result<i32, ValueError>
    ensures { Says result (integer_operation op left right) }
{
    match op {
        Op::Or | Op::And => Ok(truth(is_true(right))),
        Op::Eq => Ok(truth(left == right)),
        Op::Ne => Ok(truth(left != right)),
        Op::Lt => Ok(truth(left < right)),
        Op::Le => Ok(truth(left <= right)),
        Op::Gt => Ok(truth(left > right)),
        Op::Ge => Ok(truth(left >= right)),
        Op::Add => left.checked_add(right).ok_or(ValueError::OutOfRange),
        Op::Sub => left.checked_sub(right).ok_or(ValueError::OutOfRange),
        Op::Mul => left.checked_mul(right).ok_or(ValueError::OutOfRange),
        Op::Div => divided(left, right),
        Op::Rem => remainder(left, right),
    }
}

/// The quotient, cut towards zero.
fn divided(left: i32, right: i32) -> Result<i32, ValueError>
    ensures { Says result (integer_operation Op.Div left right) }
{
    if right == 0 {
        return Err(ValueError::ZeroDivisor);
    }
    left.checked_div(right).ok_or(ValueError::OutOfRange)
}

/// The remainder, with the sign of the left side.
fn remainder(left: i32, right: i32) -> Result<i32, ValueError>
    ensures { Says result (integer_operation Op.Rem left right) }
{
    if right == 0 {
        return Err(ValueError::ZeroDivisor);
    }
    Ok(left.wrapping_rem(right))
}

/// An integer with the other sign.
fn negated(z: i32) -> Result<i32, ValueError>
    ensures { Says result (exact (pos 0 -ℤ z)) }
{
    z.checked_neg().ok_or(ValueError::OutOfRange)
}

/// A literal.
fn literal(n: u32) -> Result<i32, ValueError>
    ensures { Says result (exact (pos n)) }
{
    i32::try_from(n).map_err(|_| ValueError::OutOfRange)
}

/// Whether the left side decides alone.
fn is_decided(op: Op, left: i32) -> bool
    ensures { result ≡ is_decided op left }
{
    match op {
        Op::Or => is_true(left),
        Op::And => !is_true(left),
        _ => false,
    }
}
