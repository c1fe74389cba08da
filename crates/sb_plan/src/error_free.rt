//! Tests whether a condition or a query can overflow.
ghost use Rattle.std.specs.Prelude.{◌≡◌};
ghost use Rattle.std.specs.List.{list_all};
ghost use Rattle.sb_plan.specs.ErrorFree as spec;

use crate::memo::Memo;
use sb_check::{
    Condition, ConditionNode, Expression, ExpressionNode, Items, Operand, OperandNode, Query,
};

/// True if an expression is a literal or a column.
pub(crate) fn is_plain(e: &Expression) -> bool
    ensures { result ≡ spec.is_plain e.now }
{
    match &e.node {
        ExpressionNode::Literal(_) => true,
        ExpressionNode::Column(_) => true,
        ExpressionNode::Binary(_, _, _) => false,
    }
}

/// True if an operand has no arithmetic, and is no query but one whose value is known.
fn is_operand_error_free(o: &Operand, memo: &Memo<'_>) -> bool
    ensures { result ≡ spec.operand_error_free o.now memo.now }
{
    match &o.node {
        OperandNode::Expression(e) => is_plain(e),
        OperandNode::ScalarSubquery(_) => memo.one_value().is_some(),
    }
}

/// True if a condition has no arithmetic, and no query but those whose answer is known. Then it overflows nowhere.
#[cycle(error_free)]
pub fn is_error_free(c: &Condition, memo: &Memo<'_>) -> bool
    ensures { result ≡ spec.is_error_free c.now memo.now }
{
    match &c.node {
        ConditionNode::Always => true,
        ConditionNode::Disjunction(a, b) => is_error_free(a, memo.left())
            && is_error_free(b, memo.right()),
        ConditionNode::Conjunction(a, b) => is_error_free(a, memo.left())
            && is_error_free(b, memo.right()),
        ConditionNode::Negation(a) => is_error_free(a, memo),
        ConditionNode::Compare(a, _, b) => is_plain(a) && is_operand_error_free(b, memo),
        ConditionNode::In(a, _) => is_plain(a) && memo.values().is_some(),
        ConditionNode::Exists(_) => memo.truth().is_some(),
    }
}

/// True if each expression is a literal or a column.
pub(crate) fn are_plain(list: &[Expression]) -> bool
    ensures { result ≡ list_all spec.is_plain list.now }
{
    list.iter().all(|e| is_plain(e))
}

/// True if the items are values that stand in a row.
fn gives_plain_rows(items: &Items) -> bool
    ensures { result ≡ spec.gives_plain_rows items.now }
{
    match items {
        Items::All => true,
        Items::Count | Items::Sum(_) => false,
        Items::Each(list) => are_plain(list.as_slice()),
    }
}

/// True if a query can't overflow.
pub fn is_query_error_free(query: &Query, memo: &Memo<'_>) -> bool
    ensures { result ≡ spec.query_error_free query.now memo.now }
{
    gives_plain_rows(&query.items) && is_error_free(&query.condition, memo)
}
