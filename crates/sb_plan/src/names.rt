//! The columns and texts that a query names.
ghost use Rattle.std.specs.Prelude.{◌≡◌, ◌<◌, get_or, length, IfSome};
ghost use Rattle.std.specs.Bool.{OnTrue};

use crate::listed::listed_column;
use crate::memo::Memo;
use sb_check::{
    Column, Condition, ConditionNode, Expression, ExpressionNode, Items, Operand, OperandNode,
    Query,
};
use sb_value::Value;
use std::alloc::{AllocError, Global};

/// True if two columns are the same.
pub(crate) fn is_same(one: Column, two: Column) -> bool
    ensures { OnTrue result (one ≡ two) }
{
    one.depth == two.depth && one.source == two.source && one.place == two.place
}

/// The place of a column among these.
fn place_of(columns: &[Column], column: Column) -> Option<usize>
    ensures { IfSome result (λ k. (k < length columns.now) × (get_or columns.now k column ≡ column)) }
{
    for k in 0..columns.len() {
        if is_same(columns[k], column) {
            return Some(k);
        }
    }
    None
}

/// The columns that a query names, each once, and its literal texts.
#[derive(Drop)]
pub(crate) struct Named<'c> {
    pub(crate) columns: Vec<Column>,
    pub(crate) texts: Vec<&'c [u8]>,
}

/// Adds those of an expression. A column that is there isn't added again.
fn add_expression<'c>(e: &'c Expression, named: &mut Named<'c>) -> Result<(), AllocError> {
    match &e.node {
        ExpressionNode::Literal(Value::Int(_)) => Ok(()),
        ExpressionNode::Literal(Value::Text(text)) => {
            named.texts.push(text.as_slice())?;
            Ok(())
        }
        ExpressionNode::Column(column) => {
            if place_of(named.columns.as_slice(), *column).is_none() {
                named.columns.push(*column)?;
            }
            Ok(())
        }
        ExpressionNode::Binary(a, _, b) => {
            add_expression(a, named)?;
            add_expression(b, named)
        }
    }
}

/// Adds those of an operand.
fn add_operand<'c>(o: &'c Operand, named: &mut Named<'c>) -> Result<(), AllocError> {
    match &o.node {
        OperandNode::Expression(e) => add_expression(e, named),
        OperandNode::ScalarSubquery(_) => Ok(()),
    }
}

/// Adds those of a condition.
fn add_condition<'c>(c: &'c Condition, named: &mut Named<'c>) -> Result<(), AllocError> {
    match &c.node {
        ConditionNode::Always => Ok(()),
        ConditionNode::Disjunction(a, b) | ConditionNode::Conjunction(a, b) => {
            add_condition(a, named)?;
            add_condition(b, named)
        }
        ConditionNode::Negation(a) => add_condition(a, named),
        ConditionNode::Compare(a, _, b) => {
            add_expression(a, named)?;
            add_operand(b, named)
        }
        ConditionNode::In(_, _) | ConditionNode::Exists(_) => Ok(()),
    }
}

/// Adds those of what a sum adds.
fn add_items<'c>(items: &'c Items, named: &mut Named<'c>) -> Result<(), AllocError> {
    match items {
        Items::Sum(e) => add_expression(e, named),
        Items::All | Items::Count | Items::Each(_) => Ok(()),
    }
}

/// The columns and texts that a condition names.
pub(crate) fn named_by<'c>(alloc: Global, c: &'c Condition) -> Option<Named<'c>> {
    let mut named = Named {
        columns: Vec::new(alloc),
        texts: Vec::new(alloc),
    };
    match add_condition(c, &mut named) {
        Ok(()) => Some(named),
        Err(_) => None,
    }
}

/// The columns and texts that a query names in its condition and in its sum.
pub(crate) fn named_in<'c>(alloc: Global, q: &'c Query) -> Option<Named<'c>> {
    let Some(mut named) = named_by(alloc, &q.condition) else {
        return None;
    };
    match add_items(&q.items, &mut named) {
        Ok(()) => Some(named),
        Err(_) => None,
    }
}

/// True if a condition in which no other stands isn't left to the walk for its form: of subqueries those are compiled
/// whose answer is known.
fn is_simple_compiled(c: &Condition, memo: &Memo<'_>) -> bool {
    match &c.node {
        ConditionNode::Compare(_, _, b) => match &b.node {
            OperandNode::Expression(_) => true,
            OperandNode::ScalarSubquery(_) => memo.one_value().is_some(),
        },
        ConditionNode::In(_, _) => false,
        ConditionNode::Exists(_) => memo.truth().is_some(),
        _ => true,
    }
}

/// True if no part of a condition is left to the walk for its form.
pub(crate) fn is_compiled(c: &Condition, memo: &Memo<'_>) -> bool {
    match &c.node {
        ConditionNode::Disjunction(a, b) | ConditionNode::Conjunction(a, b) => {
            is_compiled(a, memo.left()) && is_compiled(b, memo.right())
        }
        ConditionNode::Negation(a) => is_compiled(a, memo),
        _ => is_simple_compiled(c, memo),
    }
}

/// True if a part of a condition isn't left to the walk for its form.
pub(crate) fn is_partly_compiled(c: &Condition, memo: &Memo<'_>) -> bool {
    match &c.node {
        ConditionNode::Disjunction(a, b) | ConditionNode::Conjunction(a, b) => {
            is_partly_compiled(a, memo.left()) || is_partly_compiled(b, memo.right())
        }
        ConditionNode::Negation(a) => is_partly_compiled(a, memo),
        ConditionNode::In(_, _) => listed_column(c, memo).is_some(),
        _ => is_simple_compiled(c, memo),
    }
}
