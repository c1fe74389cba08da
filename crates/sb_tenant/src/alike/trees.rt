//! The trees of conditions and actions, compared.
ghost use Rattle.std.specs.Prelude.{◌≡◌, IsTrue};

use crate::alike::same::{Same, are_same};
use sb_check::{
    Action, Assignment, Column, Condition, ConditionNode, Expression, ExpressionNode, Items,
    Operand, OperandNode, Query, Source, Statement,
};
use sb_syntax::{Arithmetic, Comparison};
use sb_value::{TupleIter, Tuples, Value, same_row};

/// True if two conditions of rules are the same, or neither is there.
pub(crate) fn same_rule_condition(one: &Option<Query>, other: &Option<Query>) -> bool
    ensures { IsTrue result → one.now ≡ other.now }
{
    match one {
        None => other.is_none(),
        Some(query) => match other {
            Some(second) => same_query(query, second),
            None => false,
        },
    }
}

impl Same for Action {
    fn is_same(&self, other: &Action) -> bool {
        match self {
            Action::Change(statement) => match other {
                Action::Change(second) => same_statement(statement, second),
                Action::Rollback => false,
            },
            Action::Rollback => match other {
                Action::Rollback => true,
                Action::Change(_) => false,
            },
        }
    }
}

fn same_statement(one: &Statement, other: &Statement) -> bool
    ensures { IsTrue result → one.now ≡ other.now }
{
    match one {
        Statement::InsertRows(table, tuples) => match other {
            Statement::InsertRows(to, others) => *table == *to && same_tuples(tuples, others),
            _ => false,
        },
        Statement::InsertQuery(table, query) => match other {
            Statement::InsertQuery(to, second) => *table == *to && same_query(query, second),
            _ => false,
        },
        Statement::Delete(table, condition) => match other {
            Statement::Delete(from, second) => *table == *from && same_condition(condition, second),
            _ => false,
        },
        Statement::Update(table, list, condition) => match other {
            Statement::Update(to, others, second) => {
                *table == *to
                    && are_same(list.as_slice(), others.as_slice())
                    && same_condition(condition, second)
            }
            _ => false,
        },
    }
}

fn same_tuples(one: &Tuples, other: &Tuples) -> bool
    ensures { IsTrue result → one.now ≡ other.now }
{
    same_rest(one.iter(), other.iter())
}

/// True if the tuples that are still to come are the same.
fn same_rest(mut one: TupleIter<'_>, mut other: TupleIter<'_>) -> bool
    ensures { IsTrue result → one.entry ≡ other.entry }
{
    match one.next() {
        None => other.next().is_none(),
        Some(tuple) => match other.next() {
            None => false,
            Some(second) => same_row(tuple, second) && same_rest(one, other),
        },
    }
}

impl Same for Assignment {
    fn is_same(&self, other: &Assignment) -> bool {
        self.place == other.place && same_operand(&self.operand, &other.operand)
    }
}

#[cycle(same)]
fn same_query(one: &Query, other: &Query) -> bool
    ensures { IsTrue result → one.now ≡ other.now }
{
    same_items(&one.items, &other.items)
        && are_same(one.sources.as_slice(), other.sources.as_slice())
        && same_condition(&one.condition, &other.condition)
}

#[cycle(same)]
fn same_operand(one: &Operand, other: &Operand) -> bool
    ensures { IsTrue result → one.now ≡ other.now }
{
    match (&one.node, &other.node) {
        (OperandNode::Expression(a), OperandNode::Expression(b)) => same_expression(a, b),
        (OperandNode::ScalarSubquery(a), OperandNode::ScalarSubquery(b)) => same_query(a, b),
        _ => false,
    }
}

#[cycle(same)]
fn same_condition(one: &Condition, other: &Condition) -> bool
    ensures { IsTrue result → one.now ≡ other.now }
{
    match (&one.node, &other.node) {
        (ConditionNode::Always, ConditionNode::Always) => true,
        (ConditionNode::Disjunction(a, b), ConditionNode::Disjunction(c, d)) => {
            same_condition(a, c) && same_condition(b, d)
        }
        (ConditionNode::Conjunction(a, b), ConditionNode::Conjunction(c, d)) => {
            same_condition(a, c) && same_condition(b, d)
        }
        (ConditionNode::Negation(a), ConditionNode::Negation(c)) => same_condition(a, c),
        (ConditionNode::Compare(a, by, b), ConditionNode::Compare(c, with, d)) => {
            same_comparison(*by, *with) && same_expression(a, c) && same_operand(b, d)
        }
        (ConditionNode::In(a, query), ConditionNode::In(c, second)) => {
            same_expression(a, c) && same_query(query, second)
        }
        (ConditionNode::Exists(query), ConditionNode::Exists(second)) => same_query(query, second),
        _ => false,
    }
}

fn same_items(one: &Items, other: &Items) -> bool
    ensures { IsTrue result → one.now ≡ other.now }
{
    match (one, other) {
        (Items::All, Items::All) => true,
        (Items::Count, Items::Count) => true,
        (Items::Sum(e), Items::Sum(second)) => same_expression(e, second),
        (Items::Each(list), Items::Each(others)) => are_same(list.as_slice(), others.as_slice()),
        _ => false,
    }
}

impl Same for Expression {
    fn is_same(&self, other: &Expression) -> bool {
        same_expression(self, other)
    }
}

fn same_expression(one: &Expression, other: &Expression) -> bool
    ensures { IsTrue result → one.now ≡ other.now }
{
    match (&one.node, &other.node) {
        (ExpressionNode::Literal(value), ExpressionNode::Literal(second)) => {
            same_value(value, second)
        }
        (ExpressionNode::Column(column), ExpressionNode::Column(second)) => {
            same_column(*column, *second)
        }
        (ExpressionNode::Binary(a, by, b), ExpressionNode::Binary(c, with, d)) => {
            same_arithmetic(*by, *with) && same_expression(a, c) && same_expression(b, d)
        }
        _ => false,
    }
}

fn same_value(one: &Value, other: &Value) -> bool
    ensures { IsTrue result → one.now ≡ other.now }
{
    one.is_same(other)
}

fn same_column(one: Column, other: Column) -> bool
    ensures { IsTrue result → one ≡ other }
{
    one.depth == other.depth && one.source == other.source && one.place == other.place
}

fn same_arithmetic(one: Arithmetic, other: Arithmetic) -> bool
    ensures { IsTrue result → one ≡ other }
{
    one as u8 == other as u8
}

fn same_comparison(one: Comparison, other: Comparison) -> bool
    ensures { IsTrue result → one ≡ other }
{
    one as u8 == other as u8
}

impl Same for Source {
    fn is_same(&self, other: &Source) -> bool {
        match (self, other) {
            (Source::Table(table), Source::Table(second)) => *table == *second,
            (Source::Inserted, Source::Inserted) => true,
            (Source::Deleted, Source::Deleted) => true,
            (Source::OldUpdated, Source::OldUpdated) => true,
            (Source::NewUpdated, Source::NewUpdated) => true,
            _ => false,
        }
    }
}
