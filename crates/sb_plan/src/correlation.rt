//! Tests whether a query names a column of a query around it.
ghost use Rattle.std.specs.Prelude.{◌≡◌, ℕ, true};
ghost use Rattle.sb_plan.specs.Correlation as spec;

use sb_check::{
    Condition, ConditionNode, Expression, ExpressionNode, Items, Operand, OperandNode, Query,
};

/// True if all columns are those of so many queries, the innermost.
fn expression_within(queries: u8, e: &Expression) -> bool
    ensures { result ≡ spec.expression_within queries e.now }
{
    match &e.node {
        ExpressionNode::Literal(_) => true,
        ExpressionNode::Column(column) => column.depth < queries,
        ExpressionNode::Binary(a, _, b) => {
            expression_within(queries, a) && expression_within(queries, b)
        }
    }
}

/// True if all columns of each expression belong to so many innermost queries.
fn expressions_within(queries: u8, list: &[Expression]) -> bool
    ensures { result ≡ spec.expressions_within queries list.now }
{
    match list.split_first() {
        Some((first, rest)) => {
            expression_within(queries, first) && expressions_within(queries, rest)
        }
        None => true,
    }
}

/// True if all columns of the items belong to so many innermost queries.
fn items_within(queries: u8, items: &Items) -> bool
    ensures { result ≡ spec.items_within queries items.now }
{
    match items {
        Items::All => true,
        Items::Count => true,
        Items::Sum(e) => expression_within(queries, e),
        Items::Each(list) => expressions_within(queries, list.as_slice()),
    }
}

/// True only if all columns of a condition belong to so many innermost queries. False also where it takes a longer look.
#[cycle(within)]
fn condition_within(queries: u8, c: &Condition) -> bool
    ensures { result ≡ true → spec.condition_within queries c.now ≡ true }
{
    match &c.node {
        ConditionNode::Always => true,
        ConditionNode::Disjunction(a, b) => condition_within(queries, a)
            && condition_within(queries, b),
        ConditionNode::Conjunction(a, b) => condition_within(queries, a)
            && condition_within(queries, b),
        ConditionNode::Negation(a) => condition_within(queries, a),
        ConditionNode::Compare(a, _, b) => {
            expression_within(queries, a) && operand_within(queries, b)
        }
        ConditionNode::In(a, q) => expression_within(queries, a) && query_within(queries, q),
        ConditionNode::Exists(q) => query_within(queries, q),
    }
}

/// True if all columns of an operand belong to so many innermost queries.
#[cycle(within)]
fn operand_within(queries: u8, o: &Operand) -> bool
    ensures { result ≡ true → spec.operand_within queries o.now ≡ true }
{
    match &o.node {
        OperandNode::Expression(e) => expression_within(queries, e),
        OperandNode::ScalarSubquery(q) => query_within(queries, q),
    }
}

/// True if all columns of a query belong to it or to so many queries around it.
#[cycle(within)]
fn query_within(queries: u8, q: &Query) -> bool
    ensures { result ≡ true → spec.query_within queries q.now ≡ true }
{
    match queries.checked_add(1) {
        Some(more) => items_within(more, &q.items) && condition_within(more, &q.condition),
        None => false,
    }
}

/// True if the query names no column of a query around it. Of one in which too many stand in one another it isn't said.
pub fn is_uncorrelated(q: &Query) -> bool
    ensures within { result ≡ true → spec.query_within 0 q.now ≡ true }
    ensures same { result ≡ true → spec.SameEverywhere q.now }
{
    query_within(0, q)
}
