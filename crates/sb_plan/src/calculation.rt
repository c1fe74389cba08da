//! Tests whether nothing in a condition or its subqueries is calculated.
ghost use Rattle.std.specs.Prelude.{◌≡◌};
ghost use Rattle.sb_plan.specs.Calculation as spec;

use crate::error_free::{are_plain, is_plain};
use crate::memo::Memo;
use sb_check::{Condition, ConditionNode, Items, Operand, OperandNode, Query};

/// True if nothing is calculated of what passes, but its number.
fn are_items_free(items: &Items) -> bool
    ensures { result ≡ spec.items_free items.now }
{
    match items {
        Items::All | Items::Count => true,
        Items::Sum(_) => false,
        Items::Each(list) => are_plain(list.as_slice()),
    }
}

/// True if a condition has no arithmetic, and neither has a subquery of it, but for those whose answer is known, nor has
/// one a sum. Then it overflows nowhere.
#[cycle(free)]
pub fn is_free_of_arithmetic(c: &Condition, memo: &Memo<'_>) -> bool
    ensures { result ≡ spec.is_free c.now memo.now }
{
    match &c.node {
        ConditionNode::Always => true,
        ConditionNode::Disjunction(a, b) => is_free_of_arithmetic(a, memo.left())
            && is_free_of_arithmetic(b, memo.right()),
        ConditionNode::Conjunction(a, b) => is_free_of_arithmetic(a, memo.left())
            && is_free_of_arithmetic(b, memo.right()),
        ConditionNode::Negation(a) => is_free_of_arithmetic(a, memo),
        ConditionNode::Compare(a, _, b) => is_plain(a) && is_operand_free(b, memo),
        ConditionNode::In(a, q) => is_plain(a)
            && (memo.values().is_some() || is_query_free(q, memo.within())),
        ConditionNode::Exists(q) => memo.truth().is_some() || is_query_free(q, memo.within()),
    }
}

/// True if an operand has no arithmetic, nor has its query.
#[cycle(free)]
fn is_operand_free(o: &Operand, memo: &Memo<'_>) -> bool
    ensures { result ≡ spec.operand_free o.now memo.now }
{
    match &o.node {
        OperandNode::Expression(e) => is_plain(e),
        OperandNode::ScalarSubquery(q) => memo.one_value().is_some()
            || is_query_free(q, memo.within()),
    }
}

/// True if a query has no arithmetic, neither in its condition nor in its items.
#[cycle(free)]
fn is_query_free(q: &Query, memo: &Memo<'_>) -> bool
    ensures { result ≡ spec.query_free q.now memo.now }
{
    are_items_free(&q.items) && is_free_of_arithmetic(&q.condition, memo)
}
