//! The values of expressions.
ghost use Rattle.std.specs.Prelude.{◌≡◌, option_map};
ghost use Rattle.sb_value.specs.declared.value.Value.TheVariants.{Int};
ghost use Rattle.sb_check.specs.Expression.{binary};
ghost use Rattle.sb_plan.specs.Meaning.{value_of, in_range, exact, integer};
ghost use Rattle.sb_plan.specs.Scopes.{scope_of, value_seen};

use crate::scope::{Scope, column};
use crate::value_ref::ValueRef;
use sb_check::{Expression, ExpressionNode};
use sb_syntax::Arithmetic;

/// The result of an operator, or none where it overflows.
#[inline(always)]
fn calculated(operator: Arithmetic, a: i64, b: i64) -> Option<i64>
    ensures { option_map Int result ≡ in_range (exact operator a b) }
{
    match operator {
        Arithmetic::Add => a.checked_add(b),
        Arithmetic::Subtract => a.checked_sub(b),
        Arithmetic::Multiply => a.checked_mul(b),
    }
}

/// The number that a literal or a column is, or that is calculated.
#[cycle(number)]
#[inline(always)]
fn part(e: &Expression, scope: &Scope<'_, '_>) -> Option<i64>
    ensures { result ≡ option_map integer (value_of (scope_of scope.now) e.now) }
{
    match &e.node {
        ExpressionNode::Literal(literal) => Some(ValueRef::of(literal).number()),
        ExpressionNode::Column(place) => Some(column(scope, *place).number()),
        ExpressionNode::Binary(a, operator, b) => number(a, *operator, b, scope),
    }
}

/// The number that an operator gives of two expressions, or none where it overflows.
#[cycle(number)]
fn number(
    a: &Expression,
    operator: Arithmetic,
    b: &Expression,
    scope: &Scope<'_, '_>,
) -> Option<i64>
    ensures { option_map Int result ≡ value_of (scope_of scope.now) (binary a.now operator b.now) }
{
    let Some(left) = part(a, scope) else {
        return None;
    };
    let Some(right) = part(b, scope) else {
        return None;
    };
    calculated(operator, left, right)
}

/// The value of an expression, or none where it overflows.
#[inline(always)]
pub fn value<'r>(e: &'r Expression, scope: &Scope<'_, 'r>) -> Option<ValueRef<'r>>
    ensures { option_map value_seen result ≡ value_of (scope_of scope.now) e.now }
{
    match &e.node {
        ExpressionNode::Literal(literal) => Some(ValueRef::of(literal)),
        ExpressionNode::Column(place) => Some(column(scope, *place)),
        ExpressionNode::Binary(a, operator, b) => match number(a, *operator, b, scope) {
            Some(number) => Some(ValueRef::Int(number)),
            None => None,
        },
    }
}
