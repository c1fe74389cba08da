//! The truth of conditions that overflow nowhere: `and` and `or` end at the side that decides.
ghost use Rattle.std.specs.Prelude.{◌≡◌, true, Some};
ghost use Rattle.sb_check.specs.Condition.{compare, negation};
ghost use Rattle.sb_plan.specs.Meaning.{value_of};
ghost use Rattle.sb_plan.specs.Scopes.{scope_of, value_seen};
ghost use Rattle.sb_plan.specs.ErrorFree as spec;

use crate::memo::Memo;
use crate::scope::{Scope, column};
use crate::value_ref::ValueRef;
use sb_check::{Condition, ConditionNode, Expression, ExpressionNode, Operand, OperandNode};
use sb_syntax::Comparison;

/// The value of a literal or a column.
#[inline(always)]
fn plain_value<'r>(e: &'r Expression, scope: &Scope<'_, 'r>) -> ValueRef<'r>
    requires { spec.is_plain e.now ≡ true }
    ensures { value_of (scope_of scope.now) e.now ≡ Some (value_seen result) }
{
    match &e.node {
        ExpressionNode::Literal(literal) => ValueRef::of(literal),
        ExpressionNode::Column(place) => column(scope, *place),
        // calculated is no plain value
        ExpressionNode::Binary(_, _, _) => ValueRef::Int(0),
    }
}

/// The value of a literal or a column, in a function that is not inlined.
#[inline(never)]
fn called_value<'r>(e: &'r Expression, scope: &Scope<'_, 'r>) -> ValueRef<'r>
    requires { spec.is_plain e.now ≡ true }
    ensures { value_of (scope_of scope.now) e.now ≡ Some (value_seen result) }
{
    plain_value(e, scope)
}

/// The value of an operand that overflows nowhere.
#[inline(always)]
fn error_free_value<'r>(o: &'r Operand, memo: &Memo<'r>, scope: &Scope<'_, 'r>) -> ValueRef<'r>
    requires { spec.operand_error_free o.now memo.now ≡ true }
    ensures { spec.IsOperandValue o.now memo.now (scope_of scope.now) (value_seen result) }
{
    match &o.node {
        OperandNode::Expression(e) => plain_value(e, scope),
        OperandNode::ScalarSubquery(_) => match memo.one_value() {
            Some(value) => value,
            None => ValueRef::Int(0),
        },
    }
}

/// True if an expression compares so with an operand that overflows nowhere. It is called, so that whoever walks a
/// chain keeps no place for it.
#[inline(never)]
pub(crate) fn compared<'r>(
    a: &'r Expression,
    comparison: Comparison,
    b: &'r Operand,
    memo: &Memo<'r>,
    scope: &Scope<'_, 'r>,
) -> bool
    requires { spec.is_error_free (compare a.now comparison b.now) memo.now ≡ true }
    ensures { spec.IsTruth (compare a.now comparison b.now) memo.now (scope_of scope.now) result }
{
    plain_value(a, scope).compares(comparison, error_free_value(b, memo, scope))
}

/// True if a condition that overflows nowhere is true. Of one comparison, and of none, it is said at once.
#[cycle(truth)]
#[inline(always)]
pub fn is_true<'r>(c: &'r Condition, memo: &Memo<'r>, scope: &Scope<'_, 'r>) -> bool
    requires { spec.is_error_free c.now memo.now ≡ true }
    ensures { spec.IsTruth c.now memo.now (scope_of scope.now) result }
{
    match &c.node {
        ConditionNode::Always => true,
        ConditionNode::Compare(a, comparison, b) => compared(a, *comparison, b, memo, scope),
        _ => is_chain_true(c, memo, scope),
    }
}

/// True if a condition that overflows nowhere is false. It stands apart, so that a chain is walked as a loop.
#[cycle(truth)]
#[inline(never)]
fn is_false<'r>(c: &'r Condition, memo: &Memo<'r>, scope: &Scope<'_, 'r>) -> bool
    requires { spec.is_error_free c.now memo.now ≡ true }
    ensures { spec.IsTruth (negation c.now) memo.now (scope_of scope.now) result }
{
    !is_chain_true(c, memo, scope)
}

/// True if a condition that overflows nowhere is true. The right side goes first: in a chain it is a single comparison,
/// and the left side is what is left of the chain.
#[cycle(truth)]
pub(crate) fn is_chain_true<'r>(c: &'r Condition, memo: &Memo<'r>, scope: &Scope<'_, 'r>) -> bool
    requires { spec.is_error_free c.now memo.now ≡ true }
    ensures { spec.IsTruth c.now memo.now (scope_of scope.now) result }
{
    match &c.node {
        ConditionNode::Always => true,
        ConditionNode::Disjunction(a, b) => is_true(b, memo.right(), scope)
            || is_chain_true(a, memo.left(), scope),
        ConditionNode::Conjunction(a, b) => is_true(b, memo.right(), scope)
            && is_chain_true(a, memo.left(), scope),
        ConditionNode::Negation(a) => is_false(a, memo, scope),
        ConditionNode::Compare(a, comparison, b) => compared(a, *comparison, b, memo, scope),
        ConditionNode::In(a, _) => match memo.values() {
            Some(set) => set.contains(called_value(a, scope)),
            None => false,
        },
        ConditionNode::Exists(_) => match memo.truth() {
            Some(some) => some,
            None => false,
        },
    }
}
