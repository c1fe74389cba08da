//! Conditions, operands and queries, walked from left to right.
ghost use Rattle.std.specs.Prelude.{◌≡◌, IfOk};
ghost use Rattle.sb_check.specs.Answer.{Gives};
ghost use Rattle.sb_check.specs.Condition as tree;
ghost use Rattle.sb_check.specs.Parts as parts;
ghost use Rattle.sb_check.specs.Scopes.{scope_of};
ghost use Rattle.sb_check.specs.Walked.{GivesCondition, GivesOperand, GivesOverSources, compared, walked};
ghost use Rattle.sb_check.specs.Walk as spec;
ghost use Rattle.sb_syntax.specs.Tree.{compare, exists, is_in};
ghost use Rattle.sb_syntax.specs.Views as view;
ghost use Rattle.sb_syntax.specs.Views.{condition, expression, filter, operand, query};

use crate::expression::expression;
use crate::fault::{CheckFault, Reason};
use crate::items::{Listed, items};
use crate::schema::Schema;
use crate::scope::{Scope, Visible};
use crate::source::{SeenSources, see};
use crate::tree::{Condition, ConditionNode, Expression, Operand, OperandNode, Query};
use crate::types::{Types, same_type};
use sb_syntax::Comparison;
use sb_value::ColumnType;
use std::alloc::{AllocError, Global};

/// An operand with its type.
#[derive(Drop)]
pub(crate) struct TypedOperand {
    pub(crate) tree: Operand,
    pub(crate) of: ColumnType,
}

/// A query with the types of its columns.
#[derive(Drop)]
pub(crate) struct Walked {
    pub(crate) tree: Box<Query>,
    pub(crate) types: Types,
}

fn disjunction(
    alloc: Global,
    a: Box<Condition>,
    b: Box<Condition>,
) -> Result<Box<Condition>, AllocError>
    ensures { IfOk result (λ c. c.value ≡ tree.disjunction a.value b.value) }
{
    let node = ConditionNode::Disjunction(a, b);
    Ok(Box::new(alloc, Condition { node })?)
}

fn conjunction(
    alloc: Global,
    a: Box<Condition>,
    b: Box<Condition>,
) -> Result<Box<Condition>, AllocError>
    ensures { IfOk result (λ c. c.value ≡ tree.conjunction a.value b.value) }
{
    let node = ConditionNode::Conjunction(a, b);
    Ok(Box::new(alloc, Condition { node })?)
}

fn negation(alloc: Global, a: Box<Condition>) -> Result<Box<Condition>, AllocError>
    ensures { IfOk result (λ c. c.value ≡ tree.negation a.value) }
{
    let node = ConditionNode::Negation(a);
    Ok(Box::new(alloc, Condition { node })?)
}

#[inline(always)]
fn existence(alloc: Global, query: Box<Query>) -> Result<Box<Condition>, AllocError>
    ensures { IfOk result (λ c. c.value ≡ tree.exists query.value) }
{
    let node = ConditionNode::Exists(query);
    Ok(Box::new(alloc, Condition { node })?)
}

#[inline(always)]
fn compare(
    alloc: Global,
    a: Expression,
    op: Comparison,
    b: Operand,
) -> Result<Box<Condition>, AllocError>
    ensures { IfOk result (λ c. c.value ≡ tree.compare a op b) }
{
    let node = ConditionNode::Compare(a, op, b);
    Ok(Box::new(alloc, Condition { node })?)
}

/// True if the left side is one of the query's values, or isn't.
#[inline(always)]
fn within(
    alloc: Global,
    a: Expression,
    has_not: bool,
    query: Box<Query>,
) -> Result<Box<Condition>, AllocError>
    ensures { IfOk result (λ c. c.value ≡ spec.with_not has_not (tree.is_in a query.value)) }
{
    let node = ConditionNode::In(a, query);
    let inner = Box::new(alloc, Condition { node })?;
    if has_not {
        negation(alloc, inner)
    } else {
        Ok(inner)
    }
}

pub(crate) fn always() -> Condition
    ensures { result ≡ tree.always }
{
    Condition {
        node: ConditionNode::Always,
    }
}

#[inline(always)]
fn plain(e: Expression) -> Operand
    ensures { result ≡ tree.expression e }
{
    Operand {
        node: OperandNode::Expression(e),
    }
}

fn scalar_subquery(query: Box<Query>) -> Operand
    ensures { result ≡ tree.scalar_subquery query.value }
{
    Operand {
        node: OperandNode::ScalarSubquery(query),
    }
}

/// True if a query as an operand gives one value.
fn is_aggregate(items: &sb_syntax::Items) -> bool
    ensures { result ≡ spec.is_aggregate (view.items items.now) }
{
    match items {
        sb_syntax::Items::Count | sb_syntax::Items::Sum(_) => true,
        sb_syntax::Items::All | sb_syntax::Items::Each(_) => false,
    }
}

/// Two expressions that are compared.
fn compared<'s, S: Schema>(
    alloc: Global,
    a: &sb_syntax::Expression,
    op: Comparison,
    b: &sb_syntax::Expression,
    schema: &'s S,
    scope: &Scope<'_, 's>,
) -> Result<Box<Condition>, CheckFault>
    ensures { GivesCondition (S.names schema.now) (compared (expression a.now) op (expression b.now)) scope.now result }
{
    let left = expression(alloc, a, scope)?;
    let right = expression(alloc, b, scope)?;
    if !same_type(left.of, right.of) {
        return Err(CheckFault::Refused(Reason::BadType));
    }
    Ok(compare(alloc, left.tree, op, plain(right.tree))?)
}

/// An expression that is compared with an operand.
#[cycle(query)]
#[inline(never)]
#[tactic(auto, using(crate::proofs::Equations::walk_compare))]
fn compared_with<'s, S: Schema>(
    alloc: Global,
    a: &sb_syntax::Expression,
    op: Comparison,
    b: &sb_syntax::Operand,
    schema: &'s S,
    scope: &Scope<'_, 's>,
) -> Result<Box<Condition>, CheckFault>
    ensures { GivesCondition (S.names schema.now) (compare (expression a.now) op (operand b.now)) scope.now result }
{
    let left = expression(alloc, a, scope)?;
    let right = operand(alloc, b, schema, scope)?;
    if !same_type(left.of, right.of) {
        return Err(CheckFault::Refused(Reason::BadType));
    }
    Ok(compare(alloc, left.tree, op, right.tree)?)
}

/// An expression whose value is looked for in a query.
#[cycle(query)]
#[inline(never)]
#[tactic(auto, using(crate::proofs::Equations::walk_is_in))]
fn is_in<'s, S: Schema>(
    alloc: Global,
    a: &sb_syntax::Expression,
    has_not: bool,
    q: &sb_syntax::Query,
    schema: &'s S,
    scope: &Scope<'_, 's>,
) -> Result<Box<Condition>, CheckFault>
    ensures { GivesCondition (S.names schema.now) (is_in (expression a.now) has_not (query q.now)) scope.now result }
{
    let left = expression(alloc, a, scope)?;
    let right = query(alloc, q, schema, scope)?;
    right.types.hold_one(left.of)?;
    Ok(within(alloc, left.tree, has_not, right.tree)?)
}

#[cycle(query)]
#[inline(never)]
#[tactic(auto, using(crate::proofs::Equations::walk_exists))]
fn exists<'s, S: Schema>(
    alloc: Global,
    q: &sb_syntax::Query,
    schema: &'s S,
    scope: &Scope<'_, 's>,
) -> Result<Box<Condition>, CheckFault>
    ensures { GivesCondition (S.names schema.now) (exists (query q.now)) scope.now result }
{
    let inner = query(alloc, q, schema, scope)?;
    Ok(existence(alloc, inner.tree)?)
}

#[cycle(query)]
#[tactic(auto, using(crate::proofs::Equations::condition_walks))]
pub(crate) fn condition<'s, S: Schema>(
    alloc: Global,
    c: &sb_syntax::Condition,
    schema: &'s S,
    scope: &Scope<'_, 's>,
) -> Result<Box<Condition>, CheckFault>
    ensures { GivesCondition (S.names schema.now) (condition c.now) scope.now result }
{
    match c {
        sb_syntax::Condition::Disjunction(a, b) => {
            let left = condition(alloc, a, schema, scope)?;
            let right = condition(alloc, b, schema, scope)?;
            Ok(disjunction(alloc, left, right)?)
        }
        sb_syntax::Condition::Conjunction(a, b) => {
            let left = condition(alloc, a, schema, scope)?;
            let right = condition(alloc, b, schema, scope)?;
            Ok(conjunction(alloc, left, right)?)
        }
        sb_syntax::Condition::Negation(a) => {
            let inner = condition(alloc, a, schema, scope)?;
            Ok(negation(alloc, inner)?)
        }
        sb_syntax::Condition::Compare(a, op, b) => match b {
            sb_syntax::Operand::Expression(e) => Ok(compared(alloc, a, *op, e, schema, scope)?),
            sb_syntax::Operand::ScalarSubquery(_) => Ok(compared_with(
                alloc, a, *op, b, schema, scope,
            )?),
        },
        sb_syntax::Condition::In(a, has_not, q) => {
            Ok(is_in(alloc, a, *has_not, q, schema, scope)?)
        }
        sb_syntax::Condition::Exists(q) => Ok(exists(alloc, q, schema, scope)?),
    }
}

#[cycle(query)]
#[tactic(auto, using(crate::proofs::Equations::operand_walks))]
pub(crate) fn operand<'s, S: Schema>(
    alloc: Global,
    o: &sb_syntax::Operand,
    schema: &'s S,
    scope: &Scope<'_, 's>,
) -> Result<TypedOperand, CheckFault>
    ensures { GivesOperand (S.names schema.now) (operand o.now) scope.now result }
{
    match o {
        sb_syntax::Operand::Expression(e) => {
            let one = expression(alloc, e, scope)?;
            Ok(TypedOperand {
                tree: plain(one.tree),
                of: one.of,
            })
        }
        sb_syntax::Operand::ScalarSubquery(q) => {
            let inner = query(alloc, q, schema, scope)?;
            if !is_aggregate(&q.items) {
                return Err(CheckFault::Refused(Reason::WrongCount));
            }
            Ok(TypedOperand {
                tree: scalar_subquery(inner.tree),
                of: ColumnType::Int,
            })
        }
    }
}

/// The condition of a `where`, or that of none.
#[cycle(query)]
#[tactic(auto, using(crate::proofs::Equations::filter_walks))]
pub(crate) fn filter<'s, S: Schema>(
    alloc: Global,
    f: &Option<sb_syntax::Condition>,
    schema: &'s S,
    scope: &Scope<'_, 's>,
) -> Result<Condition, CheckFault>
    ensures { Gives (λ c. c) (parts.filter_walk (S.names schema.now) (filter f.now) (scope_of scope.now)) result }
{
    match f {
        Some(c) => Ok(Box::into_inner(condition(alloc, c, schema, scope)?)),
        None => Ok(always()),
    }
}

/// The query of these parts, with the types of its columns.
#[inline(always)]
fn selected(
    alloc: Global,
    listed: Listed,
    seen: SeenSources<'_>,
    condition: Condition,
) -> Result<Walked, AllocError>
    ensures { IfOk result (λ w. walked w ≡ (tree.select listed.items seen.entry.0 condition, listed.types)) }
{
    let tree = Query {
        items: listed.items,
        sources: seen.sources,
        condition,
    };
    Ok(Walked {
        tree: Box::new(alloc, tree)?,
        types: listed.types,
    })
}

/// The items and the condition of a query, over its own sources.
#[cycle(query)]
#[inline(always)]
fn over_sources<'s, S: Schema>(
    alloc: Global,
    q: &sb_syntax::Query,
    sources: &[Visible<'s>],
    schema: &'s S,
    scope: &Scope<'_, 's>,
) -> Result<(Listed, Condition), CheckFault>
    ensures { GivesOverSources (S.names schema.now) (query q.now) sources.now scope.now result }
{
    let inner = Scope::Within(sources, &*scope);
    let listed = items(alloc, &q.items, sources, &inner)?;
    let condition = filter(alloc, &q.filter, schema, &inner)?;
    Ok((listed, condition))
}

#[cycle(query)]
#[tactic(auto, using(crate::proofs::Equations::walk_select))]
pub(crate) fn query<'s, S: Schema>(
    alloc: Global,
    q: &sb_syntax::Query,
    schema: &'s S,
    scope: &Scope<'_, 's>,
) -> Result<Walked, CheckFault>
    ensures { Gives walked (parts.query_walk (S.names schema.now) (query q.now) (scope_of scope.now)) result }
{
    let mut seen = SeenSources::new(alloc);
    see(&mut seen, schema, q.sources.as_slice())?;
    let (listed, condition) = over_sources(alloc, q, seen.visible(), schema, scope)?;
    Ok(selected(alloc, listed, seen, condition)?)
}
