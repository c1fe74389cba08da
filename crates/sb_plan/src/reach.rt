//! How far a query looks outward.
ghost use Rattle.std.specs.Prelude.{◌≡◌};
ghost use Rattle.sb_plan.specs.Reach as spec;

use sb_check::{
    Condition, ConditionNode, Expression, ExpressionNode, Items, Operand, OperandNode, Query,
};

/// 1 for a column of the query itself, 2 for one of the query around it, and so on. 0 if no column is named.
fn expression_reach(e: &Expression) -> u16
    ensures reach { result ≡ spec.expression_reach e.now }
{
    match &e.node {
        ExpressionNode::Literal(_) => 0,
        ExpressionNode::Column(column) => column.depth as u16 + 1,
        ExpressionNode::Binary(a, _, b) => expression_reach(a).max(expression_reach(b)),
    }
}

/// The farthest of a list of expressions.
fn expressions_reach(list: &[Expression]) -> u16
    ensures { result ≡ spec.expressions_reach list.now }
{
    match list.split_first() {
        Some((first, rest)) => expression_reach(first).max(expressions_reach(rest)),
        None => 0,
    }
}

/// The farthest of a query's items.
fn items_reach(items: &Items) -> u16
    ensures { result ≡ spec.items_reach items.now }
{
    match items {
        Items::All => 0,
        Items::Count => 0,
        Items::Sum(e) => expression_reach(e),
        Items::Each(list) => expressions_reach(list.as_slice()),
    }
}

/// The farthest of a condition's parts.
#[cycle(reach)]
fn condition_reach(c: &Condition) -> u16
    ensures { result ≡ spec.condition_reach c.now }
{
    match &c.node {
        ConditionNode::Always => 0,
        ConditionNode::Disjunction(a, b) => condition_reach(a).max(condition_reach(b)),
        ConditionNode::Conjunction(a, b) => condition_reach(a).max(condition_reach(b)),
        ConditionNode::Negation(a) => condition_reach(a),
        ConditionNode::Compare(a, _, b) => expression_reach(a).max(operand_reach(b)),
        ConditionNode::In(a, q) => expression_reach(a).max(query_reach(q)),
        ConditionNode::Exists(q) => query_reach(q),
    }
}

/// How far an operand looks.
#[cycle(reach)]
fn operand_reach(o: &Operand) -> u16
    ensures { result ≡ spec.operand_reach o.now }
{
    match &o.node {
        OperandNode::Expression(e) => expression_reach(e),
        OperandNode::ScalarSubquery(q) => query_reach(q),
    }
}

/// How many queries outward a query looks. 0 if it names no column of a query around it.
#[cycle(reach)]
pub(crate) fn query_reach(q: &Query) -> u16
    ensures { result ≡ spec.query_reach q.now }
{
    items_reach(&q.items)
        .max(condition_reach(&q.condition))
        .saturating_sub(1)
}
