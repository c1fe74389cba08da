//! Expressions, walked from left to right.
ghost use Rattle.std.specs.Prelude.{◌≡◌, Ok, IfOk};
ghost use Rattle.sb_check.specs.Answer.{Gives};
ghost use Rattle.sb_check.specs.Expression as tree;
ghost use Rattle.sb_check.specs.Scopes.{scope_of, found, typed, typed_part};
ghost use Rattle.sb_check.specs.Walk as spec;
ghost use Rattle.sb_syntax.specs.Tree as text;
ghost use Rattle.sb_syntax.specs.Views as view;
ghost use Rattle.sb_value.specs.declared.value.ColumnType.TheVariants.{Int};

use crate::fault::{CheckFault, Reason};
use crate::scope::{FoundColumn, Scope, column_named};
use crate::tree::{Column, Expression, ExpressionNode};
use crate::types::same_type;
use sb_syntax::{Arithmetic, ColumnReference};
use sb_value::{ColumnType, Value};
use std::alloc::{AllocError, Global};

/// An expression with its type.
#[derive(Drop)]
pub(crate) struct Typed {
    pub(crate) tree: Expression,
    pub(crate) of: ColumnType,
}

/// An expression that stands in another, with its type.
#[derive(Drop)]
struct TypedPart {
    tree: Box<Expression>,
    of: ColumnType,
}

/// The number as a byte. Whatever can be read nests 4 deep, over 2 sources of 8 columns.
#[inline(always)]
pub(crate) fn byte(number: usize) -> Result<u8, CheckFault>
    ensures { Gives (λ b. b) (Ok number) result }
{
    if number < 256 {
        Ok(number as u8)
    } else {
        Err(CheckFault::NoMemory)
    }
}

#[inline(always)]
fn column_at(column: FoundColumn) -> Result<Column, CheckFault>
    ensures { Gives (λ c. c) (Ok (found column).0) result }
{
    Ok(Column {
        depth: byte(column.depth)?,
        source: byte(column.source)?,
        place: byte(column.place)?,
    })
}

#[inline(always)]
fn literal(value: &Value) -> Result<Typed, CheckFault>
    ensures { Gives typed (Ok (tree.literal value.now, spec.type_of value.now)) result }
{
    Ok(Typed {
        tree: Expression {
            node: ExpressionNode::Literal(value.clone()?),
        },
        of: value.column_type(),
    })
}

#[inline(always)]
fn column(name: &ColumnReference, scope: &Scope<'_, '_>) -> Result<Typed, CheckFault>
    ensures { Gives typed (spec.walk_expression (scope_of scope.now) (text.column name.now)) result }
{
    let column = column_named(scope, name)?;
    Ok(Typed {
        tree: Expression {
            node: ExpressionNode::Column(column_at(column)?),
        },
        of: column.of,
    })
}

/// Both sides are integers.
#[inline(always)]
fn joined(left: TypedPart, op: Arithmetic, right: TypedPart) -> Result<Typed, CheckFault>
    ensures { Gives typed (spec.joined op (typed_part left) (typed_part right)) result }
{
    if !same_type(left.of, ColumnType::Int) || !same_type(right.of, ColumnType::Int) {
        return Err(CheckFault::Refused(Reason::BadType));
    }
    Ok(Typed {
        tree: Expression {
            node: ExpressionNode::Binary(left.tree, op, right.tree),
        },
        of: ColumnType::Int,
    })
}

#[inline(always)]
fn boxed(alloc: Global, e: Typed) -> Result<TypedPart, AllocError>
    ensures { IfOk result (λ part. typed_part part ≡ typed e) }
{
    Ok(TypedPart {
        tree: Box::new(alloc, e.tree)?,
        of: e.of,
    })
}

/// An expression that stands in another.
fn part(
    alloc: Global,
    e: &sb_syntax::Expression,
    scope: &Scope<'_, '_>,
) -> Result<TypedPart, CheckFault>
    ensures { Gives typed_part (spec.walk_expression (scope_of scope.now) (view.expression e.now)) result }
{
    match e {
        sb_syntax::Expression::Literal(value) => Ok(boxed(alloc, literal(value)?)?),
        sb_syntax::Expression::Column(name) => Ok(boxed(alloc, column(name, scope)?)?),
        sb_syntax::Expression::Binary(a, op, b) => {
            let left = part(alloc, a, scope)?;
            let right = part(alloc, b, scope)?;
            Ok(boxed(alloc, joined(left, *op, right)?)?)
        }
    }
}

/// An expression and its type.
#[inline(always)]
pub(crate) fn expression(
    alloc: Global,
    e: &sb_syntax::Expression,
    scope: &Scope<'_, '_>,
) -> Result<Typed, CheckFault>
    ensures { Gives typed (spec.walk_expression (scope_of scope.now) (view.expression e.now)) result }
{
    match e {
        sb_syntax::Expression::Literal(value) => literal(value),
        sb_syntax::Expression::Column(name) => column(name, scope),
        sb_syntax::Expression::Binary(a, op, b) => {
            let left = part(alloc, a, scope)?;
            let right = part(alloc, b, scope)?;
            joined(left, *op, right)
        }
    }
}
